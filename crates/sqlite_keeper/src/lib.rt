//! A keeper over a database, whose rows are in its one table.
//!
//! In reading order: `refusal` (why a call failed), `keeper`.
#![tactic(auto)]

mod keeper;
mod refusal;

pub use keeper::{SqliteKeeper, store_error};
pub use refusal::Refusal;
