//! What could stand in a template's file in the place of its first wrong token, for a reader of its fault.
//!
//! In reading order: `candidate` (tokens that may be expected, and how they are told), `following` (whether a template
//! goes on with one), `behind` (the place behind the tokens before), `expecting` (all of them for a file), `texts` (what
//! a reader is told).
#![tactic(auto)]

mod behind;
mod candidate;
mod expecting;
mod following;
mod texts;

pub use candidate::{CANDIDATES, Candidate};
pub use expecting::{Expectation, expected};
pub use texts::expected_text;
