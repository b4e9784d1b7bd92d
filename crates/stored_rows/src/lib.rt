//! Rows of a store, names with bytes, and whether what has names stands in their byte order.
//!
//! In reading order: `row`, `rising`.
#![tactic(auto)]

mod rising;
mod row;

pub use rising::{Named, are_rising};
pub use row::StoredRow;
