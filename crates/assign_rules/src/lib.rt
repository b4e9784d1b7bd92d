//! What assignments and variables may change while the statements of an object run.
//!
//! In reading order: `variables` (names with values), `globals` (the variables of a program, and
//! which of them are final), `terms` (the terms of a path, shared), `profile` (the tree of an
//! object, its final paths, and a log of the changes).
#![tactic(auto)]

mod globals;
mod profile;
mod terms;
mod variables;

pub use globals::{Globals, SetError};
pub use profile::{AssignError, Profile};
pub use terms::{push_terms, share_terms};
pub use variables::Variables;
