ghost use Rattle.std.specs.Prelude.{◌≡◌};
ghost use Rattle.site_build.specs.declared.ends.End.TheVariants.{Memory};

use base::Text;
use std::alloc::{AllocError, AllocFailed};

/// What lies outside of a build.
#[derive(Clone, Copy, PartialEq, Eq)]
pub enum Device {
    Source,
    Shelf,
    Out,
}

/// Why a build ended before its session did.
#[derive(Drop)]
pub enum End {
    /// A call on the source failed.
    Source,
    /// The shelf could not be opened or listed.
    Shelf,
    /// A call on a name of the shelf failed: the name without its suffix.
    Publishing(Text),
    /// A write failed.
    Out,
    Memory,
}

impl From<AllocError> for End {
    ghost from_gives = { λ _ e. e ≡ Memory };

    fn from(_e: AllocError) -> End {
        End::Memory
    }
}

impl<T: Drop> From<AllocFailed<T>> for End {
    ghost from_gives = { λ _ e. e ≡ Memory };

    fn from(_e: AllocFailed<T>) -> End {
        End::Memory
    }
}
