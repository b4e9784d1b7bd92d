//! The meaning of the statements of templates, as definitions alone: what an object's template makes
//! from an empty dict on, or its first fault, or what it has to ask.
//!
//! In reading order, of `specs/`: `Program` (what statements change, and what stays the same),
//! `WrittenDefaults` (the defaults in a type), `Statements` (each statement, and includes),
//! `Objects` (an object's own template), `Laws` (the run of an object as questions and
//! answers).
#![tactic(auto)]

mod laws;
pub mod limits;

pub use laws::{at_once, statements, work_at_once};
