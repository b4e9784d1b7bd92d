//! What the layout of a template promises: laws of layouts, and no other code.
//!
//! In reading order: `specs/Again` (when a text is read back, and keeps what a file says), `laws`.
#![tactic(auto)]

mod laws;

pub use laws::{formatting_keeps, formatting_settles, templates_read_back};
