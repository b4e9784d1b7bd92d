//! What a reader is told on standard error of a call that ended.
//!
//! In reading order: `forms` (what the environment asks for), `aside` (standard error, where notes are wanted), `files`
//! (what a note shows of a file), `causes` (who knows what a fault is about), `faults` (the notes on the faults of a
//! build), `ends` (on every other end), `notes` (`write_notes`).
#![tactic(auto)]

mod aside;
mod causes;
mod ends;
mod faults;
mod files;
mod forms;
mod notes;

pub use aside::Aside;
pub use causes::CauseSource;
pub use notes::{Told, write_notes};
