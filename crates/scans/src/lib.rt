//! A scan: a source's next picture, as the compiler takes it.
//!
//! In reading order: `error` (why there is none), `scanning` (the public `scan`).
#![tactic(auto)]

mod error;
mod scanning;

pub use error::ScanError;
pub use scanning::scan;
