//! Who runs the DML of a statement, a default or a test of a type, by what it gives: what stands on that knows no
//! evaluator.
//!
//! In reading order: `runner` (the trait `DmlRunner`).
#![tactic(auto)]

mod runner;

pub use runner::DmlRunner;
