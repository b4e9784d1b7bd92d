//! What DML does with values and references, where it opens no item.
//!
//! In reading order: `indexes` (values by index, and changes), `names` (reading and changing
//! variables), `values` (the tests of a call), `pairs` (what a `foreach` sets), `references`
//! (arguments that are written as references) and `starting` (where they lead from), `changing`
//! (`append`, `prepend` and `delete`), `texts` (the built-in functions that look at files and
//! paths), `making` (what `create` makes).
#![tactic(auto)]

pub mod changing;
pub mod indexes;
pub mod making;
pub mod names;
pub mod pairs;
pub mod references;
pub mod starting;
pub mod texts;
pub mod values;
