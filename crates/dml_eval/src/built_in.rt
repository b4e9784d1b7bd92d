ghost use Rattle.std.specs.Prelude.{◌≡◌, ◌+◌};
ghost use Rattle.dml_eval.specs.Heres.{around_in};
ghost use Rattle.dml_world.specs.Evaluations.{Evaluates, KeepsLoans, total};
ghost use Rattle.dml_meaning.specs.References.{reference_in};
ghost use Rattle.dml_meaning.specs.BuiltIns.{copy_extended, delete_by, exists_by, own_call_run, own_values_run, reference_extended, test_run};
ghost use Rattle.dml_meaning.specs.Meaning.{eval};
ghost use Rattle.dml_leaves.specs.References.{argument_of};
ghost use Rattle.pan_ast.specs.Seen.{item_seen, items_seen};

use crate::creating::run_create;
use crate::here::Here;
use crate::items::{open_item, open_values};
use crate::references::{open_reference, value_or_nothing};
use dml_leaves::changing::{
    delete_reached, extend_list, extend_reached, is_changed, passes_option,
};
use dml_leaves::references::{Argument, lone, reference_in, two};
use dml_leaves::starting::Purpose;
use dml_leaves::texts::{exists_value, run_seen};
use dml_meaning::{Own, Side, Test};
use dml_world::leaf::fault;
use dml_world::{Evaluation, Exit, World};
use pan_ast::{Code, Item, Place};
use path_tree::Tree;
use std::sync::ledger::Ledger;

/// A built-in function that looks at more than values. Those that take references look at how an
/// argument is written.
#[inline(never)]
#[cycle(eval)]
#[tactic(auto, unfolding(dml_meaning::specs::BuiltIns::own_call_run))]
pub(crate) fn run_own<W: World, L: Ledger>(
    place: &Place,
    own: Own,
    arguments: &[Item],
    here: Here<'_>,
    evaluation: &mut Evaluation<'_, '_, W, L>,
) -> Result<Tree, Exit>
    ensures gives { Evaluates (λ t. t) result W.World evaluation.old evaluation.new
        (own_call_run (eval here.entry.room) (around_in W.World here.entry)
        place.now own (items_seen arguments.now)) }
    ensures counted { total evaluation.new ≡ total evaluation.old }
    ensures lent { KeepsLoans evaluation.old evaluation.new }
{
    match own {
        Own::Is(test) => run_test(place, test, arguments, here, evaluation),
        Own::Exists => run_exists(place, arguments, here, evaluation),
        Own::Delete => run_delete(place, arguments, here, evaluation),
        Own::Extend(side) => run_extend(place, side, arguments, here, evaluation),
        Own::Create => run_create(place, arguments, here, evaluation),
        _ => run_evaluated(place, own, arguments, here, evaluation),
    }
}

/// A built-in function of the values of its arguments.
#[cycle(eval)]
#[tactic(auto, using(dml_meaning::proofs::Leaving::leaving))]
fn run_evaluated<W: World, L: Ledger>(
    place: &Place,
    own: Own,
    arguments: &[Item],
    here: Here<'_>,
    evaluation: &mut Evaluation<'_, '_, W, L>,
) -> Result<Tree, Exit>
    ensures gives { Evaluates (λ t. t) result W.World evaluation.old evaluation.new
        (own_values_run (eval here.entry.room) (around_in W.World here.entry)
        place.now own (items_seen arguments.now)) }
    ensures counted { total evaluation.new ≡ total evaluation.old }
    ensures lent { KeepsLoans evaluation.old evaluation.new }
{
    let values = open_values(Vec::new(evaluation.alloc), arguments, here, evaluation)?;
    run_seen(place, own, values, here.around, evaluation)
}

/// `is_defined` and its kin.
#[cycle(eval)]
#[tactic(auto, using(crate::proofs::Owns::tests))]
fn run_test<W: World, L: Ledger>(
    place: &Place,
    test: Test,
    arguments: &[Item],
    here: Here<'_>,
    evaluation: &mut Evaluation<'_, '_, W, L>,
) -> Result<Tree, Exit>
    ensures gives { Evaluates (λ t. t) result W.World evaluation.old evaluation.new
        (own_call_run (eval here.entry.room) (around_in W.World here.entry)
        place.now (Own.Is test) (items_seen arguments.now)) }
    ensures counted { total evaluation.new ≡ total evaluation.old }
    ensures lent { KeepsLoans evaluation.old evaluation.new }
{
    let Some(item) = lone(arguments) else {
        let own = Own::Is(test);
        return run_evaluated(place, own, arguments, here, evaluation);
    };
    test_item(test, item, here, evaluation)
}

/// Whether what an argument leads to passes a test.
#[cycle(eval)]
fn test_item<W: World, L: Ledger>(
    test: Test,
    item: &Item,
    here: Here<'_>,
    evaluation: &mut Evaluation<'_, '_, W, L>,
) -> Result<Tree, Exit>
    ensures gives { Evaluates (λ t. t) result W.World evaluation.old evaluation.new
        (test_run (eval here.entry.room) (around_in W.World here.entry) test
        (item_seen item.now)) }
    ensures counted { total evaluation.new ≡ total evaluation.old }
    ensures lent { KeepsLoans evaluation.old evaluation.new }
{
    let value = value_or_nothing(item, here, evaluation)?;
    Ok(Tree::boolean(passes_option(test, value.as_ref())))
}

/// `exists`: whether a reference finds something, or the path that a value is.
#[cycle(eval)]
#[tactic(auto, using(crate::proofs::Owns::exists))]
fn run_exists<W: World, L: Ledger>(
    place: &Place,
    arguments: &[Item],
    here: Here<'_>,
    evaluation: &mut Evaluation<'_, '_, W, L>,
) -> Result<Tree, Exit>
    ensures gives { Evaluates (λ t. t) result W.World evaluation.old evaluation.new
        (own_call_run (eval here.entry.room) (around_in W.World here.entry)
        place.now Own.Exists (items_seen arguments.now)) }
    ensures counted { total evaluation.new ≡ total evaluation.old }
    ensures lent { KeepsLoans evaluation.old evaluation.new }
{
    let Some(item) = lone(arguments) else {
        let own = Own::Exists;
        return run_evaluated(place, own, arguments, here, evaluation);
    };
    exists_item(place, item, here, evaluation)
}

/// Whether an argument leads to something, or is a path that does.
#[cycle(eval)]
#[tactic(auto, using(crate::proofs::Owns::exists_items, pan_ast::proofs::Places::item_place_seen, dml_meaning::proofs::Leaving::leaving))]
fn exists_item<W: World, L: Ledger>(
    place: &Place,
    item: &Item,
    here: Here<'_>,
    evaluation: &mut Evaluation<'_, '_, W, L>,
) -> Result<Tree, Exit>
    ensures gives { Evaluates (λ t. t) result W.World evaluation.old evaluation.new
        (exists_by (eval here.entry.room) (around_in W.World here.entry)
        place.now (item_seen item.now) (reference_in (item_seen item.now))) }
    ensures counted { total evaluation.new ≡ total evaluation.old }
    ensures lent { KeepsLoans evaluation.old evaluation.new }
{
    let Some(argument) = reference_in(evaluation.alloc, item)? else {
        let value = open_item(item, here, evaluation)?;
        return exists_value(place, &value, here.around, evaluation);
    };
    let purpose = Purpose::Read;
    let at = &item.place;
    let reached = open_reference(&purpose, at, argument, here, evaluation)?;
    Ok(Tree::boolean(reached.value.is_some()))
}

/// `delete`: what a reference leads to goes; anything else is evaluated and refused.
#[cycle(eval)]
#[tactic(auto, using(crate::proofs::Owns::deletes))]
fn run_delete<W: World, L: Ledger>(
    place: &Place,
    arguments: &[Item],
    here: Here<'_>,
    evaluation: &mut Evaluation<'_, '_, W, L>,
) -> Result<Tree, Exit>
    ensures gives { Evaluates (λ t. t) result W.World evaluation.old evaluation.new
        (own_call_run (eval here.entry.room) (around_in W.World here.entry)
        place.now Own.Delete (items_seen arguments.now)) }
    ensures counted { total evaluation.new ≡ total evaluation.old }
    ensures lent { KeepsLoans evaluation.old evaluation.new }
{
    let Some(item) = lone(arguments) else {
        let own = Own::Delete;
        return run_evaluated(place, own, arguments, here, evaluation);
    };
    delete_item(place, item, here, evaluation)
}

/// What an argument leads to goes, where it is written as a reference.
#[cycle(eval)]
#[tactic(auto, using(crate::proofs::Owns::delete_items, pan_ast::proofs::Places::item_place_seen, dml_meaning::proofs::Leaving::leaving))]
fn delete_item<W: World, L: Ledger>(
    place: &Place,
    item: &Item,
    here: Here<'_>,
    evaluation: &mut Evaluation<'_, '_, W, L>,
) -> Result<Tree, Exit>
    ensures gives { Evaluates (λ t. t) result W.World evaluation.old evaluation.new
        (delete_by (eval here.entry.room) (around_in W.World here.entry)
        place.now (item_seen item.now) (reference_in (item_seen item.now))) }
    ensures counted { total evaluation.new ≡ total evaluation.old }
    ensures lent { KeepsLoans evaluation.old evaluation.new }
{
    let Some(argument) = reference_in(evaluation.alloc, item)? else {
        open_item(item, here, evaluation)?;
        return Err(fault(evaluation.alloc, Code::BadArgument, place));
    };
    let name = argument.name;
    let purpose = Purpose::Delete(place);
    let at = &item.place;
    let reached = open_reference(&purpose, at, argument, here, evaluation)?;
    delete_reached(name, &reached, evaluation)
}

/// `append` and `prepend` of two arguments: the first one is changed where it is a reference that
/// may be, and else copied.
#[cycle(eval)]
#[tactic(auto, using(crate::proofs::Owns::extends, pan_ast::proofs::Places::item_place_seen, dml_meaning::proofs::Leaving::leaving))]
fn run_extend<W: World, L: Ledger>(
    place: &Place,
    side: Side,
    arguments: &[Item],
    here: Here<'_>,
    evaluation: &mut Evaluation<'_, '_, W, L>,
) -> Result<Tree, Exit>
    ensures gives { Evaluates (λ t. t) result W.World evaluation.old evaluation.new
        (own_call_run (eval here.entry.room) (around_in W.World here.entry)
        place.now (Own.Extend side) (items_seen arguments.now)) }
    ensures counted { total evaluation.new ≡ total evaluation.old }
    ensures lent { KeepsLoans evaluation.old evaluation.new }
{
    let Some((list, value)) = two(arguments) else {
        let own = Own::Extend(side);
        return run_evaluated(place, own, arguments, here, evaluation);
    };
    let Some(argument) = reference_in(evaluation.alloc, list)? else {
        return run_copy(place, side, list, value, here, evaluation);
    };
    if !is_changed(argument.name, here.around, evaluation) {
        return run_copy(place, side, list, value, here, evaluation);
    }
    run_change(place, side, &list.place, argument, value, here, evaluation)
}

/// A copy of a list takes a value.
#[cycle(eval)]
#[tactic(auto, using(dml_meaning::proofs::Leaving::leaving))]
fn run_copy<W: World, L: Ledger>(
    place: &Place,
    side: Side,
    list: &Item,
    value: &Item,
    here: Here<'_>,
    evaluation: &mut Evaluation<'_, '_, W, L>,
) -> Result<Tree, Exit>
    ensures gives { Evaluates (λ t. t) result W.World evaluation.old evaluation.new
        (copy_extended (eval here.entry.room) (around_in W.World here.entry)
        place.now side (item_seen list.now) (item_seen value.now)) }
    ensures counted { total evaluation.new ≡ total evaluation.old }
    ensures lent { KeepsLoans evaluation.old evaluation.new }
{
    let list = open_item(list, here, evaluation)?;
    let value = open_item(value, here, evaluation)?;
    extend_list(place, side, list, value, evaluation)
}

/// What a reference leads to takes a value; the place `at` is that of the reference as an item.
#[cycle(eval)]
#[tactic(auto, using(dml_meaning::proofs::Leaving::leaving))]
fn run_change<W: World, L: Ledger>(
    place: &Place,
    side: Side,
    at: &Place,
    argument: Argument<'_>,
    value: &Item,
    here: Here<'_>,
    evaluation: &mut Evaluation<'_, '_, W, L>,
) -> Result<Tree, Exit>
    ensures gives { Evaluates (λ t. t) result W.World evaluation.old evaluation.new
        (reference_extended (eval here.entry.room)
        (around_in W.World here.entry) place.now side at.now
        (argument_of argument.entry) (item_seen value.now)) }
    ensures counted { total evaluation.new ≡ total evaluation.old }
    ensures lent { KeepsLoans evaluation.old evaluation.new }
{
    let name = argument.name;
    let purpose = Purpose::Change;
    let reached = open_reference(&purpose, at, argument, here, evaluation)?;
    let value = open_item(value, here, evaluation)?;
    extend_reached(place, side, name, reached, value, here.around, evaluation)
}
