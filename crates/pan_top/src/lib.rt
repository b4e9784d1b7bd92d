//! The top call of the compiler: it reads the words, and builds, watches, shows the demo or lays templates out.
//!
//! In reading order: `handed_back` (what it hands back), `closing` (the line of an end), `building`, `keeping` (a build with a keeper), `watching`, `showing` (the demo), `formatting`, `top` (`pan`).
#![tactic(auto)]

mod building;
mod closing;
mod formatting;
mod handed_back;
mod keeping;
mod showing;
mod top;
mod watching;

pub use handed_back::HandedBack;
pub use site_build::Devices;
pub use top::pan;
