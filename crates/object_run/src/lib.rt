//! The product's runner: it builds and checks objects over a picture of files (Pan Book, "Object
//! Template" and "Validation").
//!
//! In reading order: `rest` (what a build makes besides the tree), `tester` (the tests of a check,
//! evaluated), `building` (a build in a world), `checking` (a check in a world), `runs` (both, in the
//! world of a run), `library`, `laws`.
#![tactic(auto)]

mod building;
mod checking;
mod laws;
mod library;
mod rest;
mod runs;
mod tester;

pub use laws::product_runner;
pub use library::Library;
pub use rest::Rest;
