//! What the built-in functions of the language share (Pan Book, "Built-in Functions"): how the
//! arguments of a call are counted, and how texts and lists become values.
//!
//! In reading order: `arguments` (the arguments of a call by their count), `positions` (a position
//! in a text or a list), `characters` (parts of a text by characters), `texts` (a text as a value),
//! `draft` (a text that is put together), `children` (the items of a list and the values of a
//! dict).
#![tactic(auto)]

mod arguments;
mod characters;
mod children;
mod draft;
mod positions;
mod texts;

pub use arguments::{Arguments, by_count};
pub use characters::{char_count, from_char, up_to_char};
pub use children::{child_count, copied_children, push_children};
pub use draft::Draft;
pub use positions::position_in;
pub use texts::{string_value, text_value};
