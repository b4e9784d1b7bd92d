ghost use Rattle.std.specs.Prelude.{◌≡◌};
ghost use Rattle.validate.specs.declared.stop.Stop.TheVariants.{Memory};

use pan_ast::Fault;
use questions::Key;
use std::alloc::{AllocError, AllocFailed};

/// Why a check ends early. What is large stands behind a pointer, so that the frames of nested
/// calls stay small.
#[derive(Drop)]
pub enum Stop {
    /// The first fault.
    Fault(Box<Fault>),
    /// It has to know what stands at a key.
    Need(Box<Key>),
    /// It was out of memory.
    Memory,
}

impl From<AllocError> for Stop {
    ghost from_gives = { λ _ e. e ≡ Memory };

    fn from(_e: AllocError) -> Stop {
        Stop::Memory
    }
}

impl<T: Drop> From<AllocFailed<T>> for Stop {
    ghost from_gives = { λ _ e. e ≡ Memory };

    fn from(_e: AllocFailed<T>) -> Stop {
        Stop::Memory
    }
}
