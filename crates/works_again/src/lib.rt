//! What a look at an object of a settled engine stands on: its build, run again, and a place as a text.
//!
//! In reading order: `building`, `places`.
#![tactic(auto)]

mod building;
mod places;

pub use building::build_end_again;
pub use places::push_place;
