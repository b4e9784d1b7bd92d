ghost use Rattle.std.specs.Prelude.{◌≡◌};
ghost use Rattle.kept_build.specs.declared.ends.End.TheVariants.{Build};
ghost use Rattle.site_build.specs.declared.ends.End.TheVariants.{Memory};

use site_build::End as BuildEnd;
use std::alloc::{AllocError, AllocFailed};

/// Why a build with a keeper ended before its session did.
#[derive(Drop)]
pub enum End {
    /// As a build without a keeper ends.
    Build(BuildEnd),
    /// The keeper could not be opened or read.
    Keeper,
    /// The rows could not be kept.
    Saving,
    /// The rows are none that a build has kept.
    BadRows,
}

impl From<BuildEnd> for End {
    ghost from_gives = { λ e end. end ≡ Build e };

    fn from(e: BuildEnd) -> End {
        End::Build(e)
    }
}

impl From<AllocError> for End {
    ghost from_gives = { λ _ e. e ≡ Build Memory };

    fn from(_e: AllocError) -> End {
        End::Build(BuildEnd::Memory)
    }
}

impl<T: Drop> From<AllocFailed<T>> for End {
    ghost from_gives = { λ _ e. e ≡ Build Memory };

    fn from(_e: AllocFailed<T>) -> End {
        End::Build(BuildEnd::Memory)
    }
}
