//! What the types that are bound want at a path, as a text for a reader.
//!
//! In reading order: `words` (a type as words), `below` (what a type wants below it), `bound` (what bindings want).
#![tactic(auto)]

mod below;
mod bound;
mod words;

pub use bound::wanted;
pub use words::MAX_NAMES;
