//! The built-in functions on patterns (Pan Book, "Built-in Functions"): `match`, `matches`, `split`
//! and `replace`. A pattern and a template of a replacement are what the crate `regex` reads.
//!
//! In reading order: `pattern` (a text as a pattern), `searcher` (a pattern with a matcher),
//! `patterns` (those that were compiled before), `matching` (whether it matches), `grouping` (what
//! its groups match), `splitting`, `template` (the parts of a replacement), `replacing`.
#![tactic(auto)]

mod grouping;
mod matching;
mod pattern;
mod patterns;
mod replacing;
mod searcher;
mod splitting;
mod template;

pub use grouping::matches;
pub use matching::match_call;
pub use pattern::MAX_PATTERN_BYTES;
pub use patterns::Patterns;
pub use replacing::replace;
pub use splitting::split;
