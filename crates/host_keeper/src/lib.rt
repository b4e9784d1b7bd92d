//! A keeper over a file of the host.
//!
//! In reading order: `troubles` (what failed, counted and in words), `keeper`.
#![tactic(auto)]

mod keeper;
mod troubles;

pub use keeper::HostKeeper;
