//! The demo: four builds of a site in memory, each after an edit of it.
//!
//! In reading order: `ends` (why a demo ends before its builds do), `plan` (what it is to show), `pictures` (the site as a
//! source has it, before each build), `report` (the last line of a text), `builds` (the builds, and the public `demo`).
#![tactic(auto)]

mod builds;
mod ends;
mod pictures;
mod plan;
mod report;

pub use builds::demo;
pub use ends::End;
pub use plan::Plan;
