ghost use Rattle.std.specs.Prelude.{◌≡◌};
ghost use Rattle.type_defs.specs.declared.type_error.TypeError.TheVariants.{Memory};

use base::Text;
use pan_ast::Place;
use std::alloc::{AllocError, AllocFailed};

/// Why a written type is none.
#[derive(Drop)]
pub enum TypeError {
    /// The name is not that of a type, or, behind `include`, not that of a record. The place is
    /// that of the name.
    NoType(Place, Text),
    /// The key stands twice in a record. The place is that of the second, or of the `include` that
    /// brings it.
    Redefined(Place, Text),
    /// The lower end of a range is above the upper one. The place is that of the bounds.
    BadRange(Place),
    /// The type is deeper than [MAX_TYPE_DEPTH](crate::MAX_TYPE_DEPTH). The place is that of its
    /// name; of a record or a choice, which have none, that of the field or the statement that
    /// holds it.
    TooDeep(Place),
    /// There was no memory for the type.
    Memory,
}

impl From<AllocError> for TypeError {
    ghost from_gives = { λ _ e. e ≡ Memory };

    fn from(_e: AllocError) -> TypeError {
        TypeError::Memory
    }
}

impl<T: Drop> From<AllocFailed<T>> for TypeError {
    ghost from_gives = { λ _ e. e ≡ Memory };

    fn from(_e: AllocFailed<T>) -> TypeError {
        TypeError::Memory
    }
}
