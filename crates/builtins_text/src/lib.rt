//! The built-in functions of the language on texts and numbers (Pan Book, "Built-in Functions").
//!
//! In reading order: `names` (the functions by their names), `calling` (what each gives), `values`
//! (a value as a text or a boolean), `to_numbers` (a value as a long), `parts` (parts of a text, by
//! characters), `joining`, `formatting` (with `forms`, how a form is read, and `writing`, what it
//! writes), `addresses` (addresses of four bytes).
#![tactic(auto)]

mod addresses;
mod calling;
mod formatting;
mod forms;
mod joining;
mod names;
mod parts;
mod to_numbers;
mod values;
mod writing;

pub use calling::call;
pub use forms::MAX_WIDTH;
pub use names::{Call, find};
