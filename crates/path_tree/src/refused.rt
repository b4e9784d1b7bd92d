ghost use Rattle.std.specs.Prelude.{◌≡◌};
ghost use Rattle.path_tree.specs.declared.refused.Refused.TheVariants.{Memory};

use std::alloc::{AllocError, AllocFailed};

/// Why an operator or a built-in function gives no value.
#[derive(Clone, Copy, PartialEq, Eq)]
pub enum Refused {
    /// The operands are of kinds that the operator does not take.
    TypeClash,
    /// A number is past 64 bits.
    Overflow,
    /// The divisor is 0.
    ZeroDivisor,
    /// An argument is not one that the function takes.
    BadArgument,
    /// A pattern is none.
    BadPattern,
    /// A position or a key is none.
    BadIndex,
    /// A text or a tree is larger than its limit.
    TooLarge,
    /// There was no memory for the value.
    Memory,
}

impl From<AllocError> for Refused {
    ghost from_gives = { λ _ e. e ≡ Memory };

    fn from(_e: AllocError) -> Refused {
        Refused::Memory
    }
}

impl<T: Drop> From<AllocFailed<T>> for Refused {
    ghost from_gives = { λ _ e. e ≡ Memory };

    fn from(_e: AllocFailed<T>) -> Refused {
        Refused::Memory
    }
}
