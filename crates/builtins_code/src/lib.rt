//! The built-in functions on patterns, base64, JSON and digests (Pan Book, "Built-in Functions").
//!
//! In reading order: `names` (the functions by their names), `calling` (a call of one), then a file
//! for each family: `base64_texts`, `json_writing`, `json_reading` and `json_trees` (a JSON value
//! as a tree), `digests`. Those on patterns stand in `builtins_patterns`.
#![tactic(auto)]

mod base64_texts;
mod calling;
mod digests;
mod json_reading;
mod json_trees;
mod json_writing;
mod names;

pub use builtins_patterns::Patterns;
pub use calling::call;
pub use names::{Call, find};
