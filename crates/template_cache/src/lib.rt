//! Templates that are read from files, each once for the bytes that the file holds.
//!
//! In reading order: `reading` (a file's bytes as a template), `cache` (templates that were read).
#![tactic(auto)]

mod cache;
mod reading;

pub use cache::TemplateCache;
pub use reading::read_template;
