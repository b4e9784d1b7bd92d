//! The engine of a session: pictures that a source gives are taken, turns are made, and what is settled is answered as
//! the texts and profiles of a session.
//!
//! In reading order: `works` (an engine with its runner), `starting` (them before the first picture), `taking` (the source's
//! next picture), `turning` (turns), `kept_deps` and `kept_texts` (texts of dependency files and of profiles, made anew only
//! where they have changed), `answering` (what is said of a name), `building` (what a build publishes and reports),
//! `impact` (what an edit may change, and what nobody reads), `laws` (that the list of a picture's objects is the one that
//! there is, and what an edit leaves as it was).
#![tactic(auto)]

mod answering;
mod building;
mod impact;
mod kept_deps;
mod kept_texts;
mod laws;
mod starting;
mod taking;
mod turning;
mod works;

pub use answering::{deps, push_cause, shown};
pub use building::{Built, build, build_again};
pub use impact::{touched, unused};
pub use kept_texts::KeptTexts;
pub use laws::{object_lists, session_rounds, untouched_answers};
pub use starting::{new_works, start};
pub use taking::{Took, take_next};
pub use turning::{make_all_turns, make_turns};
pub use works::Works;
