//! What is known of the value that a fault is about: the build of its object is run again, and its tree and its log
//! tell the value and who set it; and of a template that is not there under which names it was looked for.
//!
//! In reading order: `setters` (who set what is at a path), `causes`, `missed` (the files that were looked for under a
//! name, and were not there).
#![tactic(auto)]

mod causes;
mod missed;
mod setters;

pub use causes::{Cause, cause_of};
pub use missed::missed_files;
