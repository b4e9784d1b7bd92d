//! What is kept of an engine from run to run, and an engine from what was kept.
//!
//! In reading order: `storing` (what is kept), `restoring` (an engine from it), `laws` (what is kept is sound, and goes
//! on).
#![tactic(auto)]

mod laws;
mod restoring;
mod storing;

pub use laws::goes_on;
pub use restoring::{RestoreError, restore};
pub use storing::kept;
