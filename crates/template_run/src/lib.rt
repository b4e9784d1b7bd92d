//! Runs the templates of an object (Pan Book, "Templates" and "Statements").
//!
//! In reading order: `statements` (each statement, and includes), `objects` (an object's own
//! template).
#![tactic(auto)]

mod objects;
mod statements;

pub use objects::{Made, run_object};
