//! A runner whose templates are short lists of questions: it meets each clause of `Runner`, and sessions over devices in
//! memory are tried over it.
//!
//! A template is the word `object` and three bytes for each line: a byte between, an operation, and a letter. The last
//! line gives the object's tree.
//!
//! In reading order: `action` (what a line does), `used` (what a run has asked), `questioning` (what is asked), `acting` (a
//! line), `running` (a template), `written` (the runner).
#![tactic(auto)]

mod acting;
mod action;
mod questioning;
mod running;
mod used;
mod written;

pub use action::{Action, build_action, check_action};
pub use written::Written;
