//! What every other crate stands on, and nothing of Pan.
//!
//! Types over `String` and `Vec` that contracts see as plain texts and lists, so that a struct or
//! an enum made of them is plain data to a clause, and `≡` on it compares contents: `text` (a
//! shared text), `bytes` (a list of bytes), `seq` (a list of values). Then `ascii` (classes of
//! bytes), `integers` (integers as texts), `steps` (a count for proofs) and `limits` (those that
//! many crates share, and where the others stand).
#![tactic(auto)]

pub mod ascii;
mod bytes;
pub mod integers;
pub mod limits;
mod seq;
mod steps;
mod text;

pub use bytes::Bytes;
pub use seq::Seq;
pub use steps::Steps;
pub use text::Text;
