//! The tokens of a template file to its syntax tree.
//!
//! What is read and which fault comes stands in the definitions of `pan_grammar`. The functions here descend by the
//! grammar's lines; each has a contract "for whatever is open around what it reads", by the states of the machine
//! there.
//!
//! In reading order: `stopped` (why a reading ends early), `tokens` (one token), `tables` (which words and signs stand
//! for what), `items` and `chains` (items, and the operators and operands in them), `bounds` and `types` (types),
//! `statements`, `errors` and `parsing` (a whole template, and its fault), `laws` (that the definitions agree
//! for all tokens).
#![tactic(auto)]

mod bounds;
mod chains;
mod errors;
mod items;
mod laws;
mod parsing;
mod statements;
mod stopped;
mod tables;
mod tokens;
mod types;

pub use errors::ParseError;
pub use laws::parsed_tokens;
pub use parsing::parse;
