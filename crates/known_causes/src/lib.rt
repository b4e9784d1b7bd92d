//! What is known of a fault of an object beside its line, as a reader is told it, by the engine that
//! has built the object with the product's runner.
//!
//! In reading order: `places` (what the line tells), `values` (the value that a fault is about, what
//! is wanted there and who set it), `files` (where a missing file was looked for), `tokens` (what
//! could stand in the place of a wrong token), `trails` (the calls and includes around a fault),
//! `causes` (all of these, by the fault's code).
#![tactic(auto)]

mod causes;
mod files;
mod places;
mod tokens;
mod trails;
mod values;

pub use causes::cause_in;
