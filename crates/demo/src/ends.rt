ghost use Rattle.std.specs.Prelude.{◌≡◌};
ghost use Rattle.demo.specs.declared.ends.End.TheVariants.{Memory};

use std::alloc::{AllocError, AllocFailed};

/// Why a demo ended before its builds did.
#[derive(Clone, Copy, PartialEq, Eq)]
pub enum End {
    /// A line could not be written.
    Out,
    Memory,
}

impl From<AllocError> for End {
    ghost from_gives = { λ _ e. e ≡ Memory };

    fn from(_e: AllocError) -> End {
        End::Memory
    }
}

impl<T: Drop> From<AllocFailed<T>> for End {
    ghost from_gives = { λ _ e. e ≡ Memory };

    fn from(_e: AllocFailed<T>) -> End {
        End::Memory
    }
}
