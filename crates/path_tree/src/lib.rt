//! Keys, names, paths and trees of the Pan language.
//!
//! A tree holds dicts, lists and properties. Contracts see it as a plain finite tree; in memory its
//! containers are shared, so that a copy costs one count and a change copies the containers along
//! one path.
//!
//! In reading order: `key`, `name`, `escaping`, `path` (texts of grammars; `bytes` helps them),
//! `kind`, `operators`, `refused` (small enums that other crates share), `tree` (trees, and in its
//! modules how they are read and changed).
#![tactic(auto)]

mod bytes;
mod escaping;
mod key;
mod kind;
mod name;
mod operators;
mod path;
mod refused;
mod tree;

pub use escaping::{escape, unescape};
pub use key::{Key, KeyError, is_key};
pub use kind::Kind;
pub use name::{Name, NameError, is_name};
pub use operators::{BinaryOp, UnaryOp};
pub use path::{Anchor, Path, PathError, PutError, Term};
pub use refused::Refused;
pub use tree::Tree;
