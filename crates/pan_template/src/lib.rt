//! The template that a file spells, or its first fault, as a definition: what the definitions of the lexer and of the
//! grammar say together. It is for the definitions above, which speak of files and not of tokens.
//!
//! In reading order: `specs/TemplateOf` (the definition), `laws` (what holds of it for all files).
#![tactic(auto)]

mod laws;

pub use laws::template_files;
