//! A run of an object's build over an engine in which all is settled.
#![tactic(auto)]

mod again;

pub use again::run_again;
