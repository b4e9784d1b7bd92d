ghost use Rattle.std.specs.Prelude.{◌≡◌, ◌∷◌, [], Result};
ghost use Rattle.path_tree.specs.declared.path.Term.TheVariants as term;
ghost use Rattle.questions.specs.Run.{Done, Meter, Outcome, then};
ghost use Rattle.validate.specs.Exits.{ComesOrRefuses, IsRefusal};
ghost use Rattle.validate.specs.Refusals.{at_link, inside, Refusal as Refused};

use crate::leaf::refusal;
use crate::refusal::{Exit, Refusal};
use crate::stop::Stop;
use path_tree::{Key, Term};
use std::alloc::Global;

/// A refusal below a term, told from above it.
fn with_term(term: Term, refusal: Refusal) -> Exit
    ensures { IsRefusal result refusal.misfit (term ∷ refusal.terms.items) }
{
    let Refusal { misfit, mut terms } = refusal;
    match terms.insert(0, term) {
        Ok(()) => Exit::Refused(Refusal { misfit, terms }),
        Err(_) => Exit::Stopped(Stop::Memory),
    }
}

/// What a check of the i-th item gave, told from the list.
#[inline(always)]
pub(crate) fn below_index(i: usize, checked: Result<(), Exit>) -> Result<(), Exit>
    ensures { (z : Outcome (Unit {0}) (Result (Unit {0}) Refused)) (m : Meter)
        → ComesOrRefuses (λ x. x) checked m z
        → ComesOrRefuses (λ x. x) result m (then z (λ x. Done (inside (term.Index i) x))) }
{
    match checked {
        Ok(()) => Ok(()),
        Err(Exit::Refused(refusal)) => match u32::try_from(i) {
            Ok(i) => Err(with_term(Term::Index(i), refusal)),
            Err(_) => Err(Exit::Stopped(Stop::Memory)),
        },
        Err(Exit::Stopped(stop)) => Err(Exit::Stopped(stop)),
    }
}

/// What a check of the value of a key gave, told from the dict.
#[inline(always)]
pub(crate) fn below_key(key: &Key, checked: Result<(), Exit>) -> Result<(), Exit>
    ensures { (z : Outcome (Unit {0}) (Result (Unit {0}) Refused)) (m : Meter)
        → ComesOrRefuses (λ x. x) checked m z
        → ComesOrRefuses (λ x. x) result m (then z (λ x. Done (inside (term.Key key.now) x))) }
{
    match checked {
        Ok(()) => Ok(()),
        Err(Exit::Refused(refusal)) => match key.share() {
            Ok(key) => Err(with_term(Term::Key(key), refusal)),
            Err(_) => Err(Exit::Stopped(Stop::Memory)),
        },
        Err(Exit::Stopped(stop)) => Err(Exit::Stopped(stop)),
    }
}

/// What a check behind a link gave, told from the link.
pub(crate) fn at_link(alloc: Global, checked: Result<(), Exit>) -> Result<(), Exit>
    ensures { (z : Outcome (Unit {0}) (Result (Unit {0}) Refused)) (m : Meter)
        → ComesOrRefuses (λ x. x) checked m z
        → ComesOrRefuses (λ x. x) result m (then z (λ x. Done (at_link x))) }
{
    match checked {
        Ok(()) => Ok(()),
        Err(Exit::Refused(beyond)) => Err(refusal(alloc, beyond.misfit)),
        Err(Exit::Stopped(stop)) => Err(Exit::Stopped(stop)),
    }
}
