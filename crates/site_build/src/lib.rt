//! A build of a site: one scan, all turns of an engine, one publication and one report.
//!
//! In reading order: `ends` (why a build ends before its session), `handed` (the devices of a call), `devices` (the calls on
//! what lies outside), `building` (a build over an open shelf), `run` (the whole, `build_site`).
#![tactic(auto)]

mod building;
mod devices;
mod ends;
mod handed;
mod run;

pub use building::{Reached, end_with_line, limits, settle, tell};
pub use devices::{list_shelf, open_shelf, open_source, publish, write};
pub use ends::{Device, End};
pub use handed::Devices;
pub use run::build_site;
