//! What a profile that is published promises: laws of builds and checks, and no other code.
//!
//! In reading order: `specs/Built` (when what was built is sound), `laws`.
#![tactic(auto)]

mod laws;

pub use laws::{check_tells_soundness, checked_profiles_are_sound};
