//! The built-in functions of the language on trees (Pan Book, "Built-in Functions"), with values as
//! their arguments.
//!
//! In reading order: `names` (the functions by their names), `calling` (what each gives), `lists`,
//! `dicts` (with `pairs`, keys and values that become a dict), `splicing`, `merging`, `reading`
//! (lengths and keys), `kinds` (what a value is), `searching`.
#![tactic(auto)]

mod calling;
mod dicts;
mod kinds;
mod lists;
mod merging;
mod names;
mod pairs;
mod reading;
mod searching;
mod splicing;

pub use calling::call;
pub use names::{Call, find};
