//! The world of one run of an object: files are told by a picture, other objects as they are known,
//! and what was asked is kept with the numbers that it had.
//!
//! In reading order: `words` (what each key tells), `notes` (what was asked), `told` (what is told of
//! a file and of an object), `trails` (where runs ended early), `rooms` (memory for arguments),
//! `run_world`.
#![tactic(auto)]

mod notes;
mod rooms;
mod run_world;
mod told;
mod trails;
mod words;

pub use notes::Notes;
pub use rooms::Rooms;
pub use run_world::{Kept, RunWorld};
pub use trails::Trails;
pub use words::Words;
