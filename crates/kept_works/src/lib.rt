//! An engine of a session that goes on from what an earlier one kept, and the rows that are kept of it.
//!
//! In reading order, of `specs/`: `Kept` (what is kept, and what an engine that begins with it has come to). Then
//! `pictures` (the picture of an engine's files), `beginning` (an engine from what was kept), `keeping` (its rows),
//! `laws` (what is kept of an engine, and what no rows give, is sound).
#![tactic(auto)]

mod beginning;
mod keeping;
mod laws;
mod pictures;

pub use beginning::begin;
pub use keeping::rows;
pub use laws::{goes_on, nothing_kept};
