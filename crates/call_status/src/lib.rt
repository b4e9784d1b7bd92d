//! How a call of the compiler ends, as the status of the program.
//!
//! In reading order: `status` (`Status`).
#![tactic(auto)]

mod status;

pub use status::Status;
