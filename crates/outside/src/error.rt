ghost use Rattle.std.specs.Prelude.{◌≡◌};
ghost use Rattle.outside.specs.declared.error.StoreError.TheVariants.{Memory};

use std::alloc::{AllocError, AllocFailed};

/// Why a call on an outside object failed.
#[derive(Clone, Copy, PartialEq, Eq)]
pub enum StoreError {
    /// The object itself failed, and its count of faults rose.
    Failed,
    /// Memory was wanting.
    Memory,
}

impl From<AllocError> for StoreError {
    ghost from_gives = { λ _ e. e ≡ Memory };

    fn from(_e: AllocError) -> StoreError {
        StoreError::Memory
    }
}

impl<T: Drop> From<AllocFailed<T>> for StoreError {
    ghost from_gives = { λ _ e. e ≡ Memory };

    fn from(_e: AllocFailed<T>) -> StoreError {
        StoreError::Memory
    }
}
