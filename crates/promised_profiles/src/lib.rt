//! What a published profile promises, as definitions and lemmas alone: a tree that compiling from scratch gives is that of
//! what the build of its object made, and its check found no fault and so keeps what the runner promises.
//!
//! In reading order: `specs/Promised` (when a tree keeps a promise), `laws`.
#![tactic(auto)]

mod laws;

pub use laws::profiles_keep_promises;
