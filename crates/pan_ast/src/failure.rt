ghost use Rattle.std.specs.Prelude.{◌≡◌};
ghost use Rattle.pan_ast.specs.declared.failure.Failure.TheVariants.{Memory};

use crate::fault::Fault;
use std::alloc::{AllocError, AllocFailed};

/// Why a call has no value to answer: the template has a fault, or it was out of memory.
#[derive(Drop)]
pub enum Failure {
    /// The first fault of the template.
    Fault(Fault),
    /// It was out of memory.
    Memory,
}

impl From<AllocError> for Failure {
    ghost from_gives = { λ _ e. e ≡ Memory };

    fn from(_e: AllocError) -> Failure {
        Failure::Memory
    }
}

impl<T: Drop> From<AllocFailed<T>> for Failure {
    ghost from_gives = { λ _ e. e ≡ Memory };

    fn from(_e: AllocFailed<T>) -> Failure {
        Failure::Memory
    }
}
