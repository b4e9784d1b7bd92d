ghost use Rattle.std.specs.Prelude.{◌≡◌};
ghost use Rattle.validate.specs.Refusals.{code_of};
ghost use Rattle.validate.specs.declared.refusal.Exit.TheVariants.{Stopped};
ghost use Rattle.validate.specs.declared.stop.Stop.TheVariants.{Memory};

use crate::stop::Stop;
use pan_ast::Code;
use path_tree::Term;
use std::alloc::{AllocError, AllocFailed};

/// What is wrong with a value.
#[derive(Clone, Copy)]
pub(crate) enum Misfit {
    /// It is of another kind.
    WrongType,
    /// It is outside its range or its choice.
    OutOfRange,
    /// It lacks a required field.
    MissingField,
    /// It has a field that its type lacks.
    ExtraField,
    /// Its test gives false.
    FalseTest,
}

impl Misfit {
    /// The code of its fault.
    pub(crate) fn code(self) -> Code
        ensures { result ≡ code_of self }
    {
        match self {
            Misfit::WrongType => Code::WrongType,
            Misfit::OutOfRange => Code::OutOfRange,
            Misfit::MissingField => Code::MissingField,
            Misfit::ExtraField => Code::ExtraField,
            Misfit::FalseTest => Code::FalseTest,
        }
    }
}

/// What is wrong with a value, and where in it, as the terms that lead there.
#[derive(Drop)]
pub(crate) struct Refusal {
    pub(crate) misfit: Misfit,
    pub(crate) terms: Vec<Term>,
}

/// Why the check of a value ends early.
#[derive(Drop)]
pub(crate) enum Exit {
    /// The value does not fit. The place of the fault and the path to the value are known further
    /// out.
    Refused(Refusal),
    Stopped(Stop),
}

impl From<Stop> for Exit {
    ghost from_gives = { λ s e. e ≡ Stopped s };

    fn from(stop: Stop) -> Exit {
        Exit::Stopped(stop)
    }
}

impl From<AllocError> for Exit {
    ghost from_gives = { λ _ e. e ≡ Stopped Memory };

    fn from(_e: AllocError) -> Exit {
        Exit::Stopped(Stop::Memory)
    }
}

impl<T: Drop> From<AllocFailed<T>> for Exit {
    ghost from_gives = { λ _ e. e ≡ Stopped Memory };

    fn from(_e: AllocFailed<T>) -> Exit {
        Exit::Stopped(Stop::Memory)
    }
}
