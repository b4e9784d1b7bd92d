//! Which objects an edit of a file may touch, and which templates touch none, by what the objects' runs read.
//!
//! In reading order: `register` (objects with what they read), `copying`; `touching` (the objects that an edit of a file
//! may touch), by `readers` (who reads an object) and `reaching` (all that is reached so); `unused`.
#![tactic(auto)]

mod copying;
mod reaching;
mod readers;
mod register;
mod touching;
mod unused;

pub use register::{Entry, Register};
pub use touching::touched_names;
pub use unused::unused_files;
