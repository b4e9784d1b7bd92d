//! What becomes of the templates of a picture: of each its text in the one layout, or a line that tells why it has none.
//!
//! In reading order: `outcome` (one file), `texts` (the lines and the last one), `laying_out` (all files, the public
//! `lay_out`).
#![tactic(auto)]

mod laying_out;
mod outcome;
mod texts;

pub use laying_out::{Layouts, lay_out};
