//! What an engine knows of the runs of objects: what a run is told, how it ends, and a runner with its laws.
//!
//! In reading order: `known` (what a run is told of files and of objects), `ends` (how runs end), `log` (how a tree was
//! made), `runner`.
#![tactic(auto)]

mod ends;
mod known;
mod log;
mod runner;

pub use ends::{BuildEnd, Built, CheckEnd};
pub use known::{Known, Told};
pub use log::Log;
pub use runner::Runner;
