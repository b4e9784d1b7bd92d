ghost use Rattle.std.specs.Prelude.{◌≡◌, ◌+◌, IfOk};
ghost use Rattle.path_tree.specs.Plain as plain;
ghost use Rattle.dml_world.specs.Evaluations.{Evaluates, KeepsLoans, total};
ghost use Rattle.dml_world.specs.Exits.{IsFault, IsRefused, IsStop, Looks};
ghost use Rattle.dml_meaning.specs.Leaves.{apply_binary, apply_boolean, apply_unary, as_boolean, code_of, literal_run, or_refuse};
ghost use Rattle.dml_meaning.specs.Meaning.{steps as steps_of};
ghost use Rattle.dml_meaning.specs.Values.{passes};
ghost use Rattle.pan_ast.specs.Detail.{fault_at, fault_with};
ghost use Rattle.questions.specs.Run.{step};
ghost use Rattle.dml_ops.specs.Operators.{binary_of, unary_of};

use crate::evaluation::Evaluation;
use crate::stop::{Exit, Stop};
use crate::world::World;
use base::{Steps, Text};
use dml_meaning::Test;
use dml_ops::{binary, unary};
use pan_ast::{Code, Fault, Place, Work};
use path_tree::{BinaryOp, Kind, Refused, Tree, UnaryOp};
use std::alloc::{AllocError, Global};
use std::sync::ledger::Ledger;

/// A fault in a box.
fn boxed_fault(
    alloc: Global,
    code: Code,
    place: &Place,
    detail: &str,
) -> Result<Box<Fault>, AllocError>
    ensures { IfOk result (λ f. f.value ≡ fault_with code place.now detail.now) }
{
    let fault = Fault::new(alloc, code, place.share()?, detail)?;
    Ok(Box::new(alloc, fault)?)
}

/// A fault with a detail, or want of memory, of a run without state.
pub fn stop_on(alloc: Global, code: Code, place: &Place, detail: &str) -> Stop
    ensures { IsStop result (fault_with code place.now detail.now) }
{
    match boxed_fault(alloc, code, place, detail) {
        Ok(fault) => Stop::Fault(fault),
        Err(_) => Stop::Memory,
    }
}

/// A fault with a detail, or want of memory.
pub fn fault_on(alloc: Global, code: Code, place: &Place, detail: &str) -> Exit
    ensures { IsFault result (fault_with code place.now detail.now) }
{
    match boxed_fault(alloc, code, place, detail) {
        Ok(fault) => Exit::Fault(fault),
        Err(_) => Exit::Memory,
    }
}

/// A fault without a detail, or want of memory.
pub fn fault(alloc: Global, code: Code, place: &Place) -> Exit
    ensures { IsFault result (fault_at code place.now) }
{
    fault_on(alloc, code, place, "")
}

/// The end of a call or an include at a place; an early one is noted for a reader.
pub fn passed<W: World, X, E>(place: &Place, end: Result<X, E>, world: &W) -> Result<X, E>
    ensures { result ≡ end }
{
    if end.is_err() {
        world.note_passed(place);
    }
    end
}

/// Whether a value of a kind passes a test.
pub fn passes(test: Test, kind: Kind) -> bool
    ensures { result ≡ passes test kind }
{
    match (test, kind) {
        (Test::Defined, Kind::Undef | Kind::Null) => false,
        (Test::Defined, _) => true,
        (Test::Boolean, Kind::Bool) => true,
        (Test::Long, Kind::Long) => true,
        (Test::Text, Kind::Text) => true,
        (Test::Property, Kind::Bool | Kind::Long | Kind::Text) => true,
        (Test::Resource, Kind::Dict | Kind::List) => true,
        (Test::List, Kind::List) => true,
        (Test::Dict, Kind::Dict) => true,
        (Test::Null, Kind::Null) => true,
        _ => false,
    }
}

/// The code of a refusal.
pub fn code_of(refused: Refused) -> Code
    ensures { result ≡ code_of refused }
{
    match refused {
        Refused::TypeClash => Code::TypeClash,
        Refused::Overflow => Code::Overflow,
        Refused::ZeroDivisor => Code::ZeroDivisor,
        Refused::BadArgument => Code::BadArgument,
        Refused::BadPattern => Code::BadPattern,
        Refused::BadIndex => Code::BadIndex,
        Refused::TooLarge => Code::TooLarge,
        Refused::Memory => Code::TooLarge,
    }
}

/// The fault of a refusal, or want of memory.
pub fn refusal(alloc: Global, place: &Place, refused: Refused) -> Exit
    ensures { IsRefused refused result place.now }
{
    match refused {
        Refused::Memory => Exit::Memory,
        _ => fault(alloc, code_of(refused), place),
    }
}

/// One step of work, at a place, of a run without state.
pub fn spend_step<W: World, L: Ledger>(
    alloc: Global,
    place: &Place,
    world: &W,
    work: &mut Work,
    steps: &mut Steps<L>,
) -> Result<(), Stop>
    ensures gives { Looks (λ t. t) result W.answers work.old (W.asked world.now) work.new
        (W.asked world.now) (step place.now) }
    ensures counted { steps.new + work.new.left ≡ steps.old + work.old.left }
{
    if work.left == 0 {
        return Err(stop_on(alloc, Code::WorkSpent, place, ""));
    }
    work.left -= 1;
    steps.tick();
    Ok(())
}

/// One step of work, at a place.
#[inline(always)]
pub fn take_step<W: World, L: Ledger>(
    place: &Place,
    evaluation: &mut Evaluation<'_, '_, W, L>,
) -> Result<(), Exit>
    ensures gives { Evaluates (λ t. t) result W.World evaluation.old evaluation.new
        (step place.now) }
    ensures counted { total evaluation.new ≡ total evaluation.old }
    ensures lent { KeepsLoans evaluation.old evaluation.new }
{
    if evaluation.live.work.left == 0 {
        return Err(fault(evaluation.alloc, Code::WorkSpent, place));
    }
    evaluation.live.work.left -= 1;
    evaluation.steps.tick();
    Ok(())
}

/// Some steps of work, at a place.
#[tactic(auto, using(crate::proofs::Working::steps_more, dml_meaning::proofs::Leaving::steps_leave), unfolding(dml_meaning::specs::Meaning::steps))]
pub fn take_steps<W: World, L: Ledger>(
    count: usize,
    place: &Place,
    evaluation: &mut Evaluation<'_, '_, W, L>,
) -> Result<(), Exit>
    ensures gives { Evaluates (λ t. t) result W.World evaluation.old evaluation.new
        (steps_of count place.now) }
    ensures counted { total evaluation.new ≡ total evaluation.old }
    ensures lent { KeepsLoans evaluation.old evaluation.new }
{
    let mut more = count;
    'more: while 0 < more {
        take_step(place, evaluation)?;
        more -= 1;
    }
    Ok(())
}

/// A text as a value.
pub fn text_value(text: &Text) -> Result<Tree, AllocError>
    ensures { IfOk result (λ t. t ≡ plain.text text.now) }
{
    match Tree::shared_text(text) {
        Ok(value) => Ok(value),
        Err(_) => Err(AllocError),
    }
}

/// A literal.
#[inline(always)]
pub fn literal<W: World, L: Ledger>(
    place: &Place,
    value: Tree,
    evaluation: &mut Evaluation<'_, '_, W, L>,
) -> Result<Tree, Exit>
    ensures gives { Evaluates (λ t. t) result W.World evaluation.old evaluation.new
        (literal_run place.now value) }
    ensures counted { total evaluation.new ≡ total evaluation.old }
    ensures lent { KeepsLoans evaluation.old evaluation.new }
{
    take_step(place, evaluation)?;
    Ok(value)
}

/// The boolean that a value is.
#[inline(always)]
#[tactic(auto, using(crate::proofs::Booleans::booleans))]
pub fn boolean<W: World, L: Ledger>(
    code: Code,
    place: &Place,
    value: &Tree,
    evaluation: &Evaluation<'_, '_, W, L>,
) -> Result<bool, Exit>
    ensures { Evaluates (λ t. t) result W.World evaluation.now evaluation.now
        (as_boolean code place.now value.now) }
{
    match value.as_boolean() {
        Some(holds) => Ok(holds),
        None => Err(fault(evaluation.alloc, code, place)),
    }
}

/// An operator before its operand.
#[tactic(auto, using(crate::proofs::Ends::refused_comes))]
pub fn apply_unary<W: World, L: Ledger>(
    place: &Place,
    op: UnaryOp,
    value: &Tree,
    evaluation: &mut Evaluation<'_, '_, W, L>,
) -> Result<Tree, Exit>
    ensures gives { Evaluates (λ t. t) result W.World evaluation.old evaluation.new
        (apply_unary place.now op value.now) }
    ensures counted { total evaluation.new ≡ total evaluation.old }
    ensures lent { KeepsLoans evaluation.old evaluation.new }
{
    take_step(place, evaluation)?;
    match unary(op, value) {
        Ok(value) => Ok(value),
        Err(refused) => Err(refusal(evaluation.alloc, place, refused)),
    }
}

/// An operator between its operands.
#[inline(always)]
#[tactic(auto, using(crate::proofs::Ends::refused_comes))]
pub fn apply_binary<W: World, L: Ledger>(
    place: &Place,
    op: BinaryOp,
    left: &Tree,
    right: &Tree,
    evaluation: &mut Evaluation<'_, '_, W, L>,
) -> Result<Tree, Exit>
    ensures gives { Evaluates (λ t. t) result W.World evaluation.old evaluation.new
        (apply_binary place.now op left.now right.now) }
    ensures counted { total evaluation.new ≡ total evaluation.old }
    ensures lent { KeepsLoans evaluation.old evaluation.new }
{
    take_step(place, evaluation)?;
    match binary(evaluation.alloc, op, left, right) {
        Ok(value) => Ok(value),
        Err(refused) => Err(refusal(evaluation.alloc, place, refused)),
    }
}

/// The operand that decides `&&` or `||`.
pub fn apply_boolean<W: World, L: Ledger>(
    place: &Place,
    value: &Tree,
    evaluation: &mut Evaluation<'_, '_, W, L>,
) -> Result<Tree, Exit>
    ensures gives { Evaluates (λ t. t) result W.World evaluation.old evaluation.new
        (apply_boolean place.now value.now) }
    ensures counted { total evaluation.new ≡ total evaluation.old }
    ensures lent { KeepsLoans evaluation.old evaluation.new }
{
    take_step(place, evaluation)?;
    let holds = boolean(Code::TypeClash, place, value, evaluation)?;
    Ok(Tree::boolean(holds))
}
