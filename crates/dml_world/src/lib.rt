//! What an evaluation of DML asks, what stands around it, and what every part of it shares.
//!
//! In reading order: `stop` (early ends), `world` (what is asked), `frame` (what stands around DML,
//! and what it changes), `evaluation` (one under way), `leaf` (faults, steps, operators), `files`,
//! `templates` and `paths` (what is looked up).
#![tactic(auto)]

mod evaluation;
pub mod files;
pub mod frame;
pub mod leaf;
pub mod paths;
mod stop;
pub mod templates;
mod world;

pub use evaluation::Evaluation;
pub use frame::{Around, Called, DefineError, Frame, Functions, Live, SelfUse};
pub use stop::{Exit, Question, Stop};
pub use world::{Foreign, Seen, TemplateStop, World, WorldStop};
