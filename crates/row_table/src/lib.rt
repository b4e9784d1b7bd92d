//! The table of a keeper in a database: rows of a name and bytes.
//!
//! In reading order: `ours`, whether a database has this table and nothing else; `statements` and
//! `queries`, each in a function of its own; `readings` of what queries show; and `calls`, what a
//! keeper calls.
#![tactic(auto)]

mod calls;
mod ours;
mod queries;
mod readings;
mod statements;

pub use calls::{make_ready, read_rows, write_rows};
