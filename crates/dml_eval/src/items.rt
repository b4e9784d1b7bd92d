ghost use Rattle.std.specs.Prelude.{◌≡◌, ◌+◌, []};
ghost use Rattle.dml_eval.specs.Heres.{around_in};
ghost use Rattle.dml_world.specs.Evaluations.{Evaluates, KeepsLoans, total};
ghost use Rattle.dml_meaning.specs.References.{block_from, values_from};
ghost use Rattle.dml_meaning.specs.Loops.{choose, condition_run};
ghost use Rattle.dml_meaning.specs.Meaning.{assign_run, eval, item_run, set_run};
ghost use Rattle.questions.specs.Run.{give};
ghost use Rattle.pan_ast.specs.Seen.{item_seen, items_seen, reference_seen};
ghost use Rattle.pan_ast.specs.Syntax.{more, none};
ghost use Rattle.path_tree.specs.Plain.{undef};

use crate::here::Here;
use crate::loops::{ForeachLoop, WhileLoop, run_for, run_foreach, run_while};
use crate::nodes::run_node;
use base::Text;
use dml_leaves::names::{is_whole, may_change, set_value};
use dml_leaves::references::lone;
use dml_world::leaf::{boolean, fault, take_step};
use dml_world::{Evaluation, Exit, World};
use pan_ast::{Code, Item, ItemForm, Place, Reference};
use path_tree::Tree;
use std::sync::ledger::Ledger;

/// An item, where `room` more may be open.
#[cycle(eval)]
#[tactic(auto, using(pan_ast::proofs::Places::item_place_seen, dml_meaning::proofs::Leaving::leaving), unfolding(dml_meaning::specs::Meaning::eval))]
pub fn open_item<W: World, L: Ledger>(
    item: &Item,
    here: Here<'_>,
    evaluation: &mut Evaluation<'_, '_, W, L>,
) -> Result<Tree, Exit>
    ensures gives { Evaluates (λ t. t) result W.World evaluation.old evaluation.new
        ((eval here.entry.room).opens (around_in W.World here.entry)
        (item_seen item.now)) }
    ensures counted { total evaluation.new ≡ total evaluation.old }
    ensures lent { KeepsLoans evaluation.old evaluation.new }
{
    take_step(&item.place, evaluation)?;
    if here.room == 0 {
        return Err(fault(evaluation.alloc, Code::CallDepth, &item.place));
    }
    run_item(
        item,
        Here {
            around: here.around,
            room: here.room - 1,
        },
        evaluation,
    )
}

/// An item that has begun.
#[inline(always)]
#[cycle(eval)]
#[tactic(auto, using(pan_ast::proofs::Forms::items), unfolding(dml_meaning::specs::Meaning::item_run))]
fn run_item<W: World, L: Ledger>(
    item: &Item,
    here: Here<'_>,
    evaluation: &mut Evaluation<'_, '_, W, L>,
) -> Result<Tree, Exit>
    ensures gives { Evaluates (λ t. t) result W.World evaluation.old evaluation.new
        (item_run (eval here.entry.room) (around_in W.World here.entry)
        (item_seen item.now)) }
    ensures counted { total evaluation.new ≡ total evaluation.old }
    ensures lent { KeepsLoans evaluation.old evaluation.new }
{
    match &item.form {
        ItemForm::Block(items) => run_block(items, here, evaluation),
        ItemForm::If(condition, then, None) => run_if(condition, then, here, evaluation),
        ItemForm::If(condition, then, Some(other)) => {
            run_if_else(condition, then, other, here, evaluation)
        }
        ItemForm::While(condition, body) => {
            let looped = WhileLoop {
                place: &item.place,
                condition,
                body,
            };
            run_while(looped, here, evaluation)
        }
        ItemForm::For(first, condition, step, body) => {
            let looped = WhileLoop {
                place: &item.place,
                condition,
                body,
            };
            run_for(first, looped, step, here, evaluation)
        }
        ItemForm::Foreach(key, value, container, body) => {
            let looped = ForeachLoop {
                place: &item.place,
                key,
                value,
                body,
            };
            run_foreach(container, looped, here, evaluation)
        }
        ItemForm::Assign(reference, right) => run_assign(reference, right, here, evaluation),
        ItemForm::Plain(node) => run_node(node, here, evaluation),
    }
}

/// Items in turn: the value of the last one.
#[cycle(eval)]
#[tactic(auto, using(crate::proofs::Lists::items, dml_meaning::proofs::Leaving::leaving), unfolding(dml_meaning::specs::References::block_from))]
fn run_block<W: World, L: Ledger>(
    items: &[Item],
    here: Here<'_>,
    evaluation: &mut Evaluation<'_, '_, W, L>,
) -> Result<Tree, Exit>
    ensures gives { Evaluates (λ t. t) result W.World evaluation.old evaluation.new
        (block_from (eval here.entry.room) (around_in W.World here.entry)
        (items_seen items.now) undef) }
    ensures counted { total evaluation.new ≡ total evaluation.old }
    ensures lent { KeepsLoans evaluation.old evaluation.new }
{
    let mut last = Tree::undef();
    'items: for item in items {
        last = open_item(item, here, evaluation)?;
    }
    Ok(last)
}

/// The values of items, in order, in `values`.
#[cycle(eval)]
#[tactic(auto, using(crate::proofs::Lists::items, dml_meaning::proofs::Leaving::leaving), unfolding(dml_meaning::specs::References::values_from))]
pub(crate) fn open_values<W: World, L: Ledger>(
    values: Vec<Tree>,
    items: &[Item],
    here: Here<'_>,
    evaluation: &mut Evaluation<'_, '_, W, L>,
) -> Result<Vec<Tree>, Exit>
    requires empty { values.items ≡ [] }
    ensures gives { Evaluates (λ v. v.items) result W.World evaluation.old evaluation.new
        (values_from (eval here.entry.room) (around_in W.World here.entry)
        (items_seen items.now) []) }
    ensures counted { total evaluation.new ≡ total evaluation.old }
    ensures lent { KeepsLoans evaluation.old evaluation.new }
{
    let mut values = values;
    'items: for item in items {
        let value = open_item(item, here, evaluation)?;
        values.push(value)?;
    }
    Ok(values)
}

/// Whether a condition holds.
#[inline(always)]
#[cycle(eval)]
#[tactic(auto, using(pan_ast::proofs::Places::item_place_seen), unfolding(dml_meaning::specs::Loops::condition_run))]
pub(crate) fn holds<W: World, L: Ledger>(
    condition: &Item,
    here: Here<'_>,
    evaluation: &mut Evaluation<'_, '_, W, L>,
) -> Result<bool, Exit>
    ensures gives { Evaluates (λ t. t) result W.World evaluation.old evaluation.new
        (condition_run (eval here.entry.room) (around_in W.World here.entry)
        (item_seen condition.now)) }
    ensures counted { total evaluation.new ≡ total evaluation.old }
    ensures lent { KeepsLoans evaluation.old evaluation.new }
{
    let value = open_item(condition, here, evaluation)?;
    boolean(Code::NotBoolean, &condition.place, &value, evaluation)
}

/// A choice without another side.
#[cycle(eval)]
#[tactic(auto, using(dml_meaning::proofs::Leaving::leaving))]
fn run_if<W: World, L: Ledger>(
    condition: &Item,
    then: &Item,
    here: Here<'_>,
    evaluation: &mut Evaluation<'_, '_, W, L>,
) -> Result<Tree, Exit>
    ensures gives { Evaluates (λ t. t) result W.World evaluation.old evaluation.new
        (choose (eval here.entry.room) (around_in W.World here.entry)
        (item_seen condition.now) ((eval here.entry.room).opens (around_in W.World here.entry)
        (item_seen then.now)) (give undef)) }
    ensures counted { total evaluation.new ≡ total evaluation.old }
    ensures lent { KeepsLoans evaluation.old evaluation.new }
{
    if holds(condition, here, evaluation)? {
        open_item(then, here, evaluation)
    } else {
        Ok(Tree::undef())
    }
}

/// A choice.
#[cycle(eval)]
#[tactic(auto, using(dml_meaning::proofs::Leaving::leaving))]
fn run_if_else<W: World, L: Ledger>(
    condition: &Item,
    then: &Item,
    other: &Item,
    here: Here<'_>,
    evaluation: &mut Evaluation<'_, '_, W, L>,
) -> Result<Tree, Exit>
    ensures gives { Evaluates (λ t. t) result W.World evaluation.old evaluation.new
        (choose (eval here.entry.room) (around_in W.World here.entry)
        (item_seen condition.now) ((eval here.entry.room).opens (around_in W.World here.entry)
        (item_seen then.now)) ((eval here.entry.room).opens (around_in W.World here.entry)
        (item_seen other.now))) }
    ensures counted { total evaluation.new ≡ total evaluation.old }
    ensures lent { KeepsLoans evaluation.old evaluation.new }
{
    if holds(condition, here, evaluation)? {
        open_item(then, here, evaluation)
    } else {
        open_item(other, here, evaluation)
    }
}

/// An assignment: first whether the name may be changed.
#[inline(always)]
#[cycle(eval)]
#[tactic(auto, using(pan_ast::proofs::Forms::seen_reference, dml_meaning::proofs::Leaving::leaving), unfolding(dml_meaning::specs::Meaning::assign_run))]
fn run_assign<W: World, L: Ledger>(
    reference: &Reference,
    right: &Item,
    here: Here<'_>,
    evaluation: &mut Evaluation<'_, '_, W, L>,
) -> Result<Tree, Exit>
    ensures gives { Evaluates (λ t. t) result W.World evaluation.old evaluation.new
        (assign_run (eval here.entry.room) (around_in W.World here.entry)
        (reference_seen reference.now) (item_seen right.now)) }
    ensures counted { total evaluation.new ≡ total evaluation.old }
    ensures lent { KeepsLoans evaluation.old evaluation.new }
{
    let place = &reference.place;
    let name = &reference.name;
    let whole = is_whole(&reference.indexes);
    may_change(place, name, whole, here.around, evaluation)?;
    run_set(place, name, &reference.indexes, right, here, evaluation)
}

/// The indexes, the right side, and then the change.
#[inline(always)]
#[cycle(eval)]
#[tactic(auto, using(dml_meaning::proofs::Leaving::leaving), unfolding(dml_meaning::specs::Meaning::set_run))]
fn run_set<W: World, L: Ledger>(
    place: &Place,
    name: &Text,
    indexes: &[Item],
    right: &Item,
    here: Here<'_>,
    evaluation: &mut Evaluation<'_, '_, W, L>,
) -> Result<Tree, Exit>
    ensures gives { Evaluates (λ t. t) result W.World evaluation.old evaluation.new
        (set_run (eval here.entry.room) (around_in W.World here.entry) place.now
        name.now (items_seen indexes.now) (item_seen right.now)) }
    ensures counted { total evaluation.new ≡ total evaluation.old }
    ensures lent { KeepsLoans evaluation.old evaluation.new }
{
    if let [] = indexes {
        return run_whole(place, name, right, here, evaluation);
    }
    if let Some(index) = lone(indexes) {
        return run_at(place, name, index, right, here, evaluation);
    }
    let keys = open_values(Vec::new(evaluation.alloc), indexes, here, evaluation)?;
    let value = open_item(right, here, evaluation)?;
    set_value(place, name, &keys, value, evaluation)
}

/// The right side of an assignment without indexes, and then the change.
#[inline(always)]
#[cycle(eval)]
#[tactic(auto, using(crate::proofs::Lists::no_values), unfolding(dml_meaning::specs::Meaning::set_run))]
fn run_whole<W: World, L: Ledger>(
    place: &Place,
    name: &Text,
    right: &Item,
    here: Here<'_>,
    evaluation: &mut Evaluation<'_, '_, W, L>,
) -> Result<Tree, Exit>
    ensures gives { Evaluates (λ t. t) result W.World evaluation.old evaluation.new
        (set_run (eval here.entry.room) (around_in W.World here.entry) place.now
        name.now none (item_seen right.now)) }
    ensures counted { total evaluation.new ≡ total evaluation.old }
    ensures lent { KeepsLoans evaluation.old evaluation.new }
{
    let value = open_item(right, here, evaluation)?;
    set_value(place, name, &[], value, evaluation)
}

/// The index and the right side of an assignment with one index, and then the change.
#[inline(never)]
#[cycle(eval)]
#[tactic(auto, using(crate::proofs::Lists::one_value), unfolding(dml_meaning::specs::Meaning::set_run))]
fn run_at<W: World, L: Ledger>(
    place: &Place,
    name: &Text,
    index: &Item,
    right: &Item,
    here: Here<'_>,
    evaluation: &mut Evaluation<'_, '_, W, L>,
) -> Result<Tree, Exit>
    ensures gives { Evaluates (λ t. t) result W.World evaluation.old evaluation.new
        (set_run (eval here.entry.room) (around_in W.World here.entry) place.now
        name.now (more (item_seen index.now) none) (item_seen right.now)) }
    ensures counted { total evaluation.new ≡ total evaluation.old }
    ensures lent { KeepsLoans evaluation.old evaluation.new }
{
    let key = open_item(index, here, evaluation)?;
    let value = open_item(right, here, evaluation)?;
    let keys = [key];
    set_value(place, name, &keys, value, evaluation)
}
