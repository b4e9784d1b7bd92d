ghost use Rattle.std.specs.Prelude.{◌≡◌};
ghost use Rattle.pan_parser.specs.declared.stopped.Stopped.TheVariants.{Memory};

use pan_ast::Token;
use std::alloc::{AllocError, AllocFailed};

/// Why a reading ended before its end.
#[derive(Drop)]
pub enum Stopped<'a> {
    Memory,
    /// The tokens from the first on that cannot stand where it does.
    Bad(&'a [Token]),
    /// The tokens from the one on that begins the first construct over the limit of nesting.
    Deep(&'a [Token]),
}

impl<'a> From<AllocError> for Stopped<'a> {
    ghost from_gives = { λ _ e. e ≡ Memory };

    fn from(_e: AllocError) -> Stopped<'a> {
        Stopped::Memory
    }
}

impl<'a, T: Drop> From<AllocFailed<T>> for Stopped<'a> {
    ghost from_gives = { λ _ e. e ≡ Memory };

    fn from(_e: AllocFailed<T>) -> Stopped<'a> {
        Stopped::Memory
    }
}
