ghost use Rattle.std.specs.Prelude.{◌≡◌, ◌∷◌, [], IfOk};
ghost use Rattle.pan_ast.specs.Detail.{fault_at, fault_with};
ghost use Rattle.path_tree.specs.declared.path.Term.TheVariants as term;
ghost use Rattle.validate.specs.Check.{visit};
ghost use Rattle.validate.specs.Exits.{IsFault, IsRefusal, refusal_seen};
ghost use Rattle.validate.specs.Validations.{KeepsLoans, Validates, total};

use crate::evaluator::Evaluator;
use crate::refusal::{Exit, Misfit, Refusal};
use crate::stop::Stop;
use crate::validation::Validation;
use pan_ast::{Code, Fault, Place};
use path_tree::{Key, Term};
use std::alloc::{AllocError, Global};
use std::sync::ledger::Ledger;

fn boxed_fault(
    alloc: Global,
    code: Code,
    place: &Place,
    detail: &str,
) -> Result<Box<Fault>, AllocError>
    ensures { IfOk result (λ f. f.value ≡ fault_with code place.now detail.now) }
{
    let fault = Fault::new(alloc, code, place.share()?, detail)?;
    Ok(Box::new(alloc, fault)?)
}

/// A fault with a detail, or want of memory.
pub(crate) fn fault_on(alloc: Global, code: Code, place: &Place, detail: &str) -> Stop
    ensures { IsFault result (fault_with code place.now detail.now) }
{
    match boxed_fault(alloc, code, place, detail) {
        Ok(fault) => Stop::Fault(fault),
        Err(_) => Stop::Memory,
    }
}

/// A fault without a detail, or want of memory.
pub(crate) fn fault(alloc: Global, code: Code, place: &Place) -> Stop
    ensures { IsFault result (fault_at code place.now) }
{
    fault_on(alloc, code, place, "")
}

/// The step of a visit, for a binding at the place.
#[inline(always)]
#[tactic(auto, unfolding(crate::specs::Check::visit))]
pub(crate) fn take_step<L: Ledger, E: Evaluator>(
    place: &Place,
    validation: &mut Validation<'_, '_, E, L>,
) -> Result<(), Stop>
    ensures gives { Validates (λ x. x) result E.Evaluator validation.old validation.new
        (visit place.now) }
    ensures counted { total validation.new ≡ total validation.old }
    ensures lent { KeepsLoans validation.old validation.new }
{
    if validation.work.left == 0 {
        return Err(fault(validation.alloc, Code::WorkSpent, place));
    }
    validation.work.left -= 1;
    validation.steps.tick();
    Ok(())
}

/// The value itself does not fit.
pub(crate) fn refusal(alloc: Global, misfit: Misfit) -> Exit
    ensures { IsRefusal result misfit [] }
{
    Exit::Refused(Refusal {
        misfit,
        terms: Vec::new(alloc),
    })
}

fn keyed_refusal(alloc: Global, misfit: Misfit, key: &Key) -> Result<Refusal, AllocError>
    ensures { IfOk result (λ r. refusal_seen r
        ≡ record { misfit = misfit; terms = term.Key key.now ∷ [] }) }
{
    let mut terms = Vec::new(alloc);
    terms.push(Term::Key(key.share()?))?;
    Ok(Refusal { misfit, terms })
}

/// The value of a key does not fit.
pub(crate) fn refusal_at(alloc: Global, misfit: Misfit, key: &Key) -> Exit
    ensures { IsRefusal result misfit (term.Key key.now ∷ []) }
{
    match keyed_refusal(alloc, misfit, key) {
        Ok(refusal) => Exit::Refused(refusal),
        Err(_) => Exit::Stopped(Stop::Memory),
    }
}
