//! What an engine keeps from run to run: its limits and directories, its counter of numbers, files with
//! their numbers, and objects with their last results and what their runs read.
//!
//! In reading order: `limits`, `kept`.
#![tactic(auto)]

mod kept;
pub mod limits;

pub use kept::{Kept, KeptFile, KeptObject};
