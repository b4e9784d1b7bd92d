//! Who set the leaves of an object's profile: its build is run again, and the log of it tells them.
//!
//! In reading order: `texts` (the lines of leaves), `built` (the leaves of what was built), `blaming` (what a line is
//! told that asks for them), `laws` (that they are the leaves of the profile).
#![tactic(auto)]

mod blaming;
mod built;
mod laws;
mod texts;

pub use blaming::blame;
pub use laws::told_profiles;
