//! The built-in functions of values (Pan Book, "Built-in Functions"), by their names: those on texts
//! and numbers, those on lists and dicts, and those on patterns, base64, JSON and digests.
//!
//! In reading order: `names` (the function of a name), `calling` (what it gives).
#![tactic(auto)]

mod calling;
mod names;

pub use builtins_code::Patterns;
pub use calling::call;
pub use names::{ValueCall, find};
