//! The file of a keeper is opened, and what an engine kept is read from its rows.
//!
//! In reading order: `loading`.
#![tactic(auto)]

mod loading;

pub use loading::{LoadError, Loaded, load};
