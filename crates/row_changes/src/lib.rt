//! What a keeper is told so that it holds other rows: the names that are not wanted any more, and
//! the rows that it has not yet, or with other bytes. Where nothing differs it is told nothing.
//!
//! In reading order: `specs/Differing` (which names and rows these are), `difference` (they, by one
//! walk over both lists), `laws` (that they make the one list of the other), `saving` (the call).
#![tactic(auto)]

mod difference;
mod laws;
mod saving;

pub use difference::Changes;
pub use laws::{changes_make_wanted, only_same_rows_change_nothing};
pub use saving::{Saved, save};
