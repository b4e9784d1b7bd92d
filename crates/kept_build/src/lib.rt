//! A build that goes on from the rows of an earlier run and keeps its own: what a keeper holds is read before the scan,
//! and what has changed in it is kept behind the publication, before the report is written.
//!
//! In reading order: `ends` (why it ends before its session), `handed` (what it works on and with), `opening` (what is
//! opened and read), `building` (a build over what was found), `run` (the whole, `build_kept`).
#![tactic(auto)]

mod building;
mod ends;
mod handed;
mod opening;
mod run;

pub use ends::End;
pub use handed::{KeptDevices, KeptWork};
pub use opening::{Found, open};
pub use run::build_kept;
