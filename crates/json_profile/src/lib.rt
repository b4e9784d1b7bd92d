//! The two texts of an object: its profile, a tree as one line of compact JSON (RFC 8259) with keys in byte order, and
//! its dependency file.
//!
//! In reading order: `writing` (a tree as JSON tokens), `text` (the line), `dependencies`.
#![tactic(auto)]

mod dependencies;
mod text;
mod writing;

pub use dependencies::dep_text;
pub use text::{json_text, profile_text};
