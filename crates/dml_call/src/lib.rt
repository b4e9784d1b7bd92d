//! A call of the evaluator from outside: the DML of a statement, a default or a test of a type, with
//! locals and a SELF of its own.
//!
//! In reading order: `dml` (`DmlEvaluator`).
#![tactic(auto)]

mod dml;

pub use dml::DmlEvaluator;
