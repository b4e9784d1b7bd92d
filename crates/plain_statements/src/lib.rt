//! Runs a statement that includes no template (Pan Book, "Statements"), over whoever runs DML.
//!
//! In reading order: `site` (what a run is about, and where its statements stand), `program` (what
//! statements change), `execution` (a run under way), `dml` (the DML of a statement, and the
//! template that it names), `paths` (the paths of statements, and prefixes), `assignments`,
//! `variables`, `written_types` (types with their defaults), `definitions` (functions, types,
//! bindings and valid statements).
#![tactic(auto)]

pub mod assignments;
pub mod definitions;
pub mod dml;
mod execution;
pub mod paths;
mod program;
mod site;
pub mod variables;
mod written_types;

pub use execution::Execution;
pub use program::Program;
pub use site::{Inside, Site};
