//! What a session of lines is: what is written, what stands on the shelf, and how it ends.
//!
//! In reading order: `limits`, `Ended` (how a session comes to its end), `texts` (the text of a build); and of
//! `specs/`: `Orders` (what a line says), `Machines` (the engine), `Texts` (what is written), `Sessions` (rounds, and
//! what they lead to).
#![tactic(auto)]

pub mod limits;
mod texts;

ghost use Rattle.std.specs.Prelude.{◌≡◌};
ghost use Rattle.session.specs.Sessions.{ended_by};

use base::{Bytes, Text};
pub use texts::{count_faults, push_too_many, report};

/// How a session comes to its end.
#[derive(Clone, Copy, PartialEq, Eq)]
pub enum Ended {
    /// No object of the last report has a fault.
    Clean,
    /// Some object of the last report has a fault.
    SomeFaults,
    /// The engine's numbers are spent.
    NumbersSpent,
    /// A picture is past the limits of a scan or of an engine.
    TooMuch,
    /// A build was to remove so many names, which is more than it may.
    TooManyRemovals(usize),
}

/// How a session ends after its last report.
pub fn ended_by(has_faults: bool) -> Ended
    ensures { result ≡ ended_by has_faults }
{
    if has_faults {
        return Ended::SomeFaults;
    }
    Ended::Clean
}

/// What compiling an object gives.
#[derive(Drop)]
pub enum Outcome {
    /// The bytes of its profile, and the text of its dependencies.
    Profile { json: Bytes, dep: Bytes },
    /// The printed fault.
    Fault(Bytes),
}

/// What stands under an object's name.
#[derive(Drop)]
pub struct Answer {
    pub name: Text,
    pub outcome: Outcome,
}

/// What an engine says of a name, where it is an object with nothing left to do: this.
#[derive(Drop)]
pub enum Shown<T> {
    Pending,
    NoObject,
    Settled(T),
}
