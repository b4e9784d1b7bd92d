//! What it means to build an object and to check it, as definitions alone: its statements and its
//! defaults make a tree, and its types and valid statements judge that.
//!
//! In reading order, of `specs/`: `Rest` (what a build makes besides the tree), `Builds`, `Checks`,
//! `Meanings` (both, as a runner's meaning). `laws` says that they are lawful.
#![tactic(auto)]

mod laws;

pub use laws::{at_once, lawful, work_at_once};
