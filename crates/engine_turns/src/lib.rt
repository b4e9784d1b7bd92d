//! The engine's data, and one turn of it, over any runner.
//!
//! In reading order: `rows` (what is kept of files and objects), `core_data` (the engine's data, and what it tells a run),
//! `changes` (what the cases of a turn do to a row), `entering` (the paths that have numbers of their own), `comparing`
//! (a record and the numbers of now), `turned` (what a turn answers), `building` and `checking` (the cases of a turn by
//! the part on top), `turning` (one turn).
#![tactic(auto)]

mod building;
mod changes;
mod checking;
mod comparing;
mod core_data;
mod entering;
mod rows;
mod turned;
mod turning;

pub use building::fault_number;
pub use core_data::{Core, Knowing};
pub use entering::{Entry, enter_all, entry_of};
pub use rows::{
    Cause, CheckRecord, FileRow, Last, Row, file_in, file_number_near, row_in, row_near, row_place,
};
pub use turned::{TurnError, Turned};
pub use turning::{step, turned_by};
