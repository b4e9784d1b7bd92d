//! Whether the values of an object conform to its types and pass its valid statements (Pan Book,
//! "Types" and "Validation").
//!
//! In reading order: `refusal` (what is wrong with a value), `stop` (why a check ends early),
//! `evaluator` (what a check takes of the language), `validation` (a check under way), `leaf` (steps
//! and faults), `exits` (what was found in a part, told from the whole), `kinds` (what kind a value
//! is of, ranges), `extra` (keys that no field has), `parts` (what is checked of a value without
//! going into it), `checking` (a value and a type), `undefs` (the first undef), `whole` (an object).
#![tactic(auto)]

mod checking;
mod evaluator;
mod exits;
mod extra;
mod kinds;
mod leaf;
mod parts;
mod refusal;
mod stop;
mod undefs;
mod validation;
mod whole;

pub use evaluator::Evaluator;
pub use stop::Stop;
pub use whole::{Subject, check, check_is_sound};
