ghost use Rattle.std.specs.Prelude.{◌≡◌, ◌+◌, ◌++◌, IfOk, Result, Some, string_bytes};
ghost use Rattle.pan_ast.specs.Detail.{fault_with};
ghost use Rattle.path_tree.specs.Find.{get};
ghost use Rattle.questions.specs.Contents.{Answers};
ghost use Rattle.questions.specs.Run.{Meter, Outcome, then};
ghost use Rattle.type_defs.specs.BindingsSeen.{bindings_seen, bound_seen, bounds_seen, valid_seen};
ghost use Rattle.validate.specs.Checked.{absolute, bound_run, bounds_run, checked, first_undef, placed, undef_run, valid_run, valids_run};
ghost use Rattle.validate.specs.Exits.{Comes, ComesOrRefuses, Gives, IsFault};
ghost use Rattle.validate.specs.Refusals.{Refusal as Refused};
ghost use Rattle.validate.specs.Sound.{ChecksSoundness};
ghost use Rattle.validate.specs.Statements.{valids_seen};
ghost use Rattle.validate.specs.Validations.{KeepsLoans, Validates, total};

use crate::checking::check_value;
use crate::evaluator::Evaluator;
use crate::leaf::{fault, fault_on};
use crate::refusal::Exit;
use crate::stop::Stop;
use crate::undefs::first_undef;
use crate::validation::Validation;
use base::{Seq, Steps};
use pan_ast::{Code, Place, Work};
use path_tree::{Anchor, Path, Term, Tree};
use std::alloc::{AllocError, Global};
use std::sync::ledger::Ledger;
use type_defs::{Bindings, Bound, Valid, push_terms};

/// The text of an absolute path, in canonical form: of these terms, and then those.
fn absolute(alloc: Global, first: &[Term], second: &[Term]) -> Result<String, AllocError>
    ensures { IfOk result (λ t. string_bytes t ≡ absolute (first.now ++ second.now)) }
{
    let mut terms = Vec::new(alloc);
    push_terms(&mut terms, first)?;
    push_terms(&mut terms, second)?;
    let path = Path {
        anchor: Anchor::Absolute,
        terms: Seq::from_vec(terms),
    };
    path.text(alloc)
}

/// A fault about a path, which is these terms and then those.
fn path_fault(alloc: Global, code: Code, place: &Place, first: &[Term], second: &[Term]) -> Stop
    ensures { IsFault result (fault_with code place.now (absolute (first.now ++ second.now))) }
{
    match absolute(alloc, first, second) {
        Ok(path) => fault_on(alloc, code, place, path.as_str()),
        Err(_) => Stop::Memory,
    }
}

/// What the check of a binding's value gave, a refusal being a fault at the binding.
fn placed(alloc: Global, bound: &Bound, checked: Result<(), Exit>) -> Result<(), Stop>
    ensures { (z : Outcome (Unit {0}) (Result (Unit {0}) Refused)) (o : Answers) (m : Meter)
        → ComesOrRefuses (λ x. x) checked m z
        → Comes (λ x. x) result m
        (then z (λ x. placed bound.now.place bound.now.terms x o)) }
{
    match checked {
        Ok(()) => Ok(()),
        Err(Exit::Refused(refusal)) => {
            let code = refusal.misfit.code();
            let terms = bound.terms.as_slice();
            Err(path_fault(alloc, code, &bound.place, terms, &refusal.terms))
        }
        Err(Exit::Stopped(stop)) => Err(stop),
    }
}

fn check_undef<L: Ledger, E: Evaluator>(
    header: &Place,
    root: &Tree,
    validation: &Validation<'_, '_, E, L>,
) -> Result<(), Stop>
    ensures { Validates (λ x. x) result E.Evaluator validation.now validation.now
        (undef_run header.now (first_undef root.now)) }
{
    match first_undef(validation.alloc, root)? {
        None => Ok(()),
        Some(terms) => Err(path_fault(validation.alloc, Code::UndefLeft, header, &terms, &[])),
    }
}

/// A binding and the value at its path, which is to conform to its type.
#[tactic(auto, unfolding(crate::specs::Checked::bound_run))]
fn check_there<L: Ledger, E: Evaluator>(
    bound: &Bound,
    value: &Tree,
    validation: &mut Validation<'_, '_, E, L>,
) -> Result<(), Stop>
    ensures gives { Validates (λ x. x) result E.Evaluator validation.old validation.new
        (bound_run E.means (bound_seen bound.now) (Some value.now)) }
    ensures counted { total validation.new ≡ total validation.old }
    ensures lent { KeepsLoans validation.old validation.new }
{
    let place = &bound.place;
    let resolved = bound.resolved.as_resolved();
    placed(
        validation.alloc,
        bound,
        check_value(place, resolved, value, validation),
    )
}

/// A binding, whose path is to have a value.
#[tactic(auto, unfolding(crate::specs::Checked::bound_run))]
fn check_bound<L: Ledger, E: Evaluator>(
    root: &Tree,
    bound: &Bound,
    validation: &mut Validation<'_, '_, E, L>,
) -> Result<(), Stop>
    ensures gives { Validates (λ x. x) result E.Evaluator validation.old validation.new
        (bound_run E.means (bound_seen bound.now) (get bound.now.terms root.now)) }
    ensures counted { total validation.new ≡ total validation.old }
    ensures lent { KeepsLoans validation.old validation.new }
{
    let at = &bound.place;
    let terms = bound.terms.as_slice();
    let Some(value) = root.get(terms) else {
        return Err(path_fault(validation.alloc, Code::NoBoundPath, at, terms, &[]));
    };
    check_there(bound, value, validation)
}

#[tactic(auto, using(crate::proofs::Statements::bounds_more, crate::proofs::Leaving::leaving), unfolding(crate::specs::Checked::bounds_run))]
fn check_bounds<L: Ledger, E: Evaluator>(
    root: &Tree,
    bounds: &[Bound],
    validation: &mut Validation<'_, '_, E, L>,
) -> Result<(), Stop>
    ensures gives { Validates (λ x. x) result E.Evaluator validation.old validation.new
        (bounds_run E.means root.now (bounds_seen bounds.now)) }
    ensures counted { total validation.new ≡ total validation.old }
    ensures lent { KeepsLoans validation.old validation.new }
{
    for bound in bounds {
        check_bound(root, bound, validation)?;
    }
    Ok(())
}

/// A valid statement: the value at its path is to be there, and its item to give true.
#[tactic(auto, unfolding(crate::specs::Checked::valid_run))]
fn check_valid<L: Ledger, E: Evaluator>(
    root: &Tree,
    valid: &Valid,
    validation: &mut Validation<'_, '_, E, L>,
) -> Result<(), Stop>
    ensures gives { Validates (λ x. x) result E.Evaluator validation.old validation.new
        (valid_run E.means (valid_seen valid.now) (get valid.now.terms root.now)) }
    ensures counted { total validation.new ≡ total validation.old }
    ensures lent { KeepsLoans validation.old validation.new }
{
    let place = &valid.place;
    let terms = valid.terms.as_slice();
    let Some(value) = root.get(terms) else {
        return Err(path_fault(validation.alloc, Code::NoBoundPath, place, terms, &[]));
    };
    let holds = validation.evaluator.value(
        validation.alloc,
        &valid.template,
        &valid.body,
        value,
        &mut validation.work,
        &mut *validation.steps,
    )?;
    match holds.as_boolean() {
        Some(true) => Ok(()),
        Some(false) => Err(path_fault(validation.alloc, Code::FalseValid, place, terms, &[])),
        None => Err(fault(validation.alloc, Code::NotBoolean, place)),
    }
}

#[tactic(auto, using(crate::proofs::Statements::valids_more, crate::proofs::Leaving::leaving), unfolding(crate::specs::Checked::valids_run))]
fn check_valids<L: Ledger, E: Evaluator>(
    root: &Tree,
    valids: &[Valid],
    validation: &mut Validation<'_, '_, E, L>,
) -> Result<(), Stop>
    ensures gives { Validates (λ x. x) result E.Evaluator validation.old validation.new
        (valids_run E.means root.now (valids_seen valids.now)) }
    ensures counted { total validation.new ≡ total validation.old }
    ensures lent { KeepsLoans validation.old validation.new }
{
    for valid in valids {
        check_valid(root, valid, validation)?;
    }
    Ok(())
}

/// What is checked: the tree of an object, its bindings and valid statements, and where its header
/// stands.
#[derive(Clone, Copy)]
pub struct Subject<'a> {
    pub root: &'a Tree,
    pub bindings: &'a Bindings,
    pub valids: &'a [Valid],
    pub header: &'a Place,
}

/// That no undef is left, then each binding, then each valid statement.
#[tactic(auto, using(crate::proofs::Leaving::leaving), unfolding(crate::specs::Checked::checked))]
fn check_all<L: Ledger, E: Evaluator>(
    subject: Subject<'_>,
    validation: &mut Validation<'_, '_, E, L>,
) -> Result<(), Stop>
    ensures gives { Validates (λ x. x) result E.Evaluator validation.old validation.new
        (checked E.means subject.entry.header.now subject.entry.root.now
        (bindings_seen subject.entry.bindings.now) (valids_seen subject.entry.valids.now)) }
    ensures counted { total validation.new ≡ total validation.old }
    ensures lent { KeepsLoans validation.old validation.new }
{
    check_undef(subject.header, subject.root, validation)?;
    check_bounds(subject.root, subject.bindings.bounds(), validation)?;
    check_valids(subject.root, subject.valids, validation)
}

/// Checks an object's tree (Pan Book, "Validation"): that no undef is left, each binding in path
/// order, and each valid statement in the order of execution. The answer is the first fault. F41
/// stands at the object's header. At a binding stand F42, where its path is absent; the faults of
/// its type; F26, where a `with` gives no boolean; and F24, where the work of a visit is spent.
/// F42, F26 and F40 of a valid statement stand at the statement. `Need` says that a key is asked
/// whose content the evaluator does not know. Where memory is wanting, at least the work is left
/// that the check leaves where it is told what was answered by then.
pub fn check<L: Ledger, E: Evaluator>(
    alloc: Global,
    subject: Subject<'_>,
    evaluator: &mut E,
    work: &mut Work,
    steps: &mut Steps<L>,
) -> Result<(), Stop>
    ensures gives { Gives (λ x. x) result E.answers work.old (E.asked evaluator.old) work.new
        (E.asked evaluator.new) (checked E.means subject.entry.header.now subject.entry.root.now
        (bindings_seen subject.entry.bindings.now) (valids_seen subject.entry.valids.now)) }
    ensures counted { steps.new + work.new.left ≡ steps.old + work.old.left }
{
    let mut validation = Validation {
        alloc,
        evaluator,
        work: *work,
        steps,
    };
    let end = check_all(subject, &mut validation);
    let Validation {
        alloc: _,
        evaluator: lent_evaluator,
        work: left,
        steps: lent_steps,
    } = validation;
    // (each loan ends by itself, so that what stands behind it is known)
    let _evaluator = lent_evaluator;
    let _steps = lent_steps;
    *work = left;
    end
}

/// A law: a check gives no fault exactly where no undef is left, the value of each binding conforms
/// to its type and each valid statement holds, unless its work is spent.
pub fn check_is_sound()
    ensures { ChecksSoundness }
{}
