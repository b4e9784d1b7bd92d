//! The operators of DML on trees, but for `&&` and `||`, whose right side is not always evaluated.
//!
//! In reading order: `unary`, `binary` (one operand, two operands), `longs`, `texts` (two of a
//! kind).
#![tactic(auto)]

mod longs;
mod one;
mod texts;
mod two;

pub use one::unary;
pub use two::binary;
