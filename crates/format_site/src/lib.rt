//! Formatting a site: one scan, the layout of each template, the puts, and one report.
//!
//! In reading order: `devices` (the calls on what lies outside), `formatting` (what is done with a picture, and over open
//! devices), `run` (the whole, `format_site`).
#![tactic(auto)]

mod devices;
mod formatting;
mod run;

pub use run::format_site;
