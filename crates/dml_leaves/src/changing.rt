ghost use Rattle.std.specs.Prelude.{◌≡◌, ◌&&◌, OnOk, option_copied, unwrap_or};
ghost use Rattle.path_tree.specs.Find.{kind_of};
ghost use Rattle.path_tree.specs.Plain as plain;
ghost use Rattle.base.specs.Answers.{Gives};
ghost use Rattle.path_tree.specs.Refusals.{refusal as refusal_of};
ghost use Rattle.dml_meaning.specs.Names.{is_self};
ghost use Rattle.dml_meaning.specs.Leaves.{or_refuse};
ghost use Rattle.dml_meaning.specs.BuiltIns.{as_list, delete_reached, extend_list, extend_reached, extend_self, is_changed, list_by, set_self, without_root};
ghost use Rattle.dml_meaning.specs.Values.{extended, passes_option};
ghost use Rattle.dml_meaning.specs.Words.{automatic_of};
ghost use Rattle.dml_world.specs.Evaluations.{Evaluates, KeepsLoans, total};
ghost use Rattle.dml_world.specs.Seen.{around_of, env, is_fixed};
ghost use Rattle.dml_leaves.specs.References.{reached_of};

use crate::indexes::delete_in;
use crate::names::change;
use crate::references::Reached;
use base::Text;
use dml_meaning::{Automatic, Side, Test, automatic_name};
use dml_world::leaf::{fault, passes, refusal};
use dml_world::{Around, Evaluation, Exit, Live, World};
use pan_ast::{Code, Place};
use path_tree::{Kind, Refused, Tree};
use std::alloc::{AllocError, Global};
use std::mem;
use std::sync::ledger::Ledger;

/// Whether a value passes a test; nothing passes none.
pub fn passes_option(test: Test, value: Option<&Tree>) -> bool
    ensures { result ≡ passes_option test (option_copied value.entry) }
{
    match value {
        Some(value) => passes(test, value.kind()),
        None => false,
    }
}

/// A value, undef where there is none.
fn or_undef(value: Option<Tree>) -> Tree
    ensures { result ≡ unwrap_or value plain.undef }
{
    match value {
        Some(value) => value,
        None => Tree::undef(),
    }
}

/// A list, where undef is an empty one.
fn list_from<W: World, L: Ledger>(
    place: &Place,
    value: Tree,
    evaluation: &Evaluation<'_, '_, W, L>,
) -> Result<Tree, Exit>
    ensures { Evaluates (λ t. t) result W.World evaluation.now evaluation.now
        (list_by place.now value (kind_of value)) }
{
    match value.kind() {
        Kind::List => Ok(value),
        Kind::Undef => Ok(Tree::empty_list(evaluation.alloc)?),
        _ => Err(fault(evaluation.alloc, Code::BadArgument, place)),
    }
}

/// A list that takes a value.
fn as_list<W: World, L: Ledger>(
    place: &Place,
    list: Tree,
    value: &Tree,
    evaluation: &Evaluation<'_, '_, W, L>,
) -> Result<Tree, Exit>
    ensures { Evaluates (λ t. t) result W.World evaluation.now evaluation.now
        (as_list place.now list value.now) }
{
    if passes(Test::Null, value.kind()) {
        return Err(fault(evaluation.alloc, Code::BadArgument, place));
    }
    list_from(place, list, evaluation)
}

/// A list takes a value at an end, in place.
fn push(alloc: Global, side: Side, list: &mut Tree, value: Tree) -> Result<(), Refused>
    ensures { Gives (λ _. list.new) refusal_of result (extended side list.old value) }
{
    match side {
        Side::First => list.push_front(alloc, value),
        Side::Last => list.push(alloc, value),
    }
}

/// A list with a value more at an end.
fn extend<W: World, L: Ledger>(
    place: &Place,
    side: Side,
    list: Tree,
    value: Tree,
    evaluation: &Evaluation<'_, '_, W, L>,
) -> Result<Tree, Exit>
    ensures { Evaluates (λ t. t) result W.World evaluation.now evaluation.now
        (or_refuse place.now (extended side list value)) }
{
    let mut list = list;
    match push(evaluation.alloc, side, &mut list, value) {
        Ok(()) => Ok(list),
        Err(refused) => Err(refusal(evaluation.alloc, place, refused)),
    }
}

/// What `append` and `prepend` give of a value that is copied.
pub fn extend_list<W: World, L: Ledger>(
    place: &Place,
    side: Side,
    list: Tree,
    value: Tree,
    evaluation: &Evaluation<'_, '_, W, L>,
) -> Result<Tree, Exit>
    ensures { Evaluates (λ t. t) result W.World evaluation.now evaluation.now
        (extend_list place.now side list value) }
{
    let list = as_list(place, list, &value, evaluation)?;
    extend(place, side, list, value, evaluation)
}

/// SELF gets a value, which is the value of the call.
fn set_self<W: World, L: Ledger>(
    value: Tree,
    evaluation: &mut Evaluation<'_, '_, W, L>,
) -> Result<Tree, Exit>
    ensures gives { Evaluates (λ t. t) result W.World evaluation.old evaluation.new
        (set_self value) }
    ensures counted { total evaluation.new ≡ total evaluation.old }
    ensures lent { KeepsLoans evaluation.old evaluation.new }
{
    evaluation.live.self_value = value.copy()?;
    Ok(value)
}

/// `append` and `prepend` of one value: SELF takes it.
pub fn extend_self<W: World, L: Ledger>(
    place: &Place,
    side: Side,
    value: Tree,
    around: &Around<'_>,
    evaluation: &mut Evaluation<'_, '_, W, L>,
) -> Result<Tree, Exit>
    ensures gives { Evaluates (λ t. t) result W.World evaluation.old evaluation.new
        (extend_self (around_of around.now W.reading W.calls) place.now side
        value) }
    ensures counted { total evaluation.new ≡ total evaluation.old }
    ensures lent { KeepsLoans evaluation.old evaluation.new }
{
    if passes(Test::Null, value.kind()) {
        return Err(fault(evaluation.alloc, Code::BadArgument, place));
    }
    if around.self_use.is_fixed() {
        return Err(fault(evaluation.alloc, Code::SelfChange, place));
    }
    let list = mem::replace(&mut evaluation.live.self_value, Tree::undef());
    let longer = extend_list(place, side, list, value, evaluation)?;
    set_self(longer, evaluation)
}

/// Whether `append` and `prepend` change what a name stands for: a local, SELF, or a name that is
/// none. Anything else is copied.
pub fn is_changed<W: World, L: Ledger>(
    name: &Text,
    around: &Around<'_>,
    evaluation: &Evaluation<'_, '_, W, L>,
) -> bool
    ensures { result ≡ is_changed (around_of around.now W.reading W.calls) name.now
        (env evaluation.now.live) }
{
    match automatic_name(name.as_str()) {
        Some(Automatic::OwnValue) => true,
        Some(_) => evaluation.live.locals.find(name.as_str()).is_some(),
        None => {
            evaluation.live.locals.find(name.as_str()).is_some()
                || around.frame.globals.value(name.as_str()).is_none()
        }
    }
}

/// Whether a name is SELF where it may not be changed.
fn is_fixed_self(name: &Text, around: &Around<'_>) -> bool
    ensures { result ≡ (is_self (automatic_of name.now) && is_fixed around.now.self_use) }
{
    match automatic_name(name.as_str()) {
        Some(Automatic::OwnValue) => around.self_use.is_fixed(),
        Some(_) | None => false,
    }
}

/// `append` and `prepend` of a reference: what it leads to takes the value, and the name is changed
/// at the indexes.
pub fn extend_reached<W: World, L: Ledger>(
    place: &Place,
    side: Side,
    name: &Text,
    reached: Reached,
    value: Tree,
    around: &Around<'_>,
    evaluation: &mut Evaluation<'_, '_, W, L>,
) -> Result<Tree, Exit>
    ensures gives { Evaluates (λ t. t) result W.World evaluation.old evaluation.new
        (extend_reached (around_of around.now W.reading W.calls) place.now side
        name.now (reached_of reached) value) }
    ensures counted { total evaluation.new ≡ total evaluation.old }
    ensures lent { KeepsLoans evaluation.old evaluation.new }
{
    let Reached { keys, value: found } = reached;
    let list = as_list(place, or_undef(found), &value, evaluation)?;
    if is_fixed_self(name, around) {
        return Err(fault(evaluation.alloc, Code::SelfChange, place));
    }
    let longer = extend(place, side, list, value, evaluation)?;
    change(place, name, &keys, &longer, evaluation)?;
    Ok(longer)
}

/// What is at indexes of SELF or of a local goes; without indexes the local does. Of a name that is
/// no local any more nothing goes.
#[tactic(auto, using(assign_rules::proofs::Entries::put_back, assign_rules::proofs::Entries::not_taken))]
fn delete_at(alloc: Global, name: &Text, keys: &[Tree], live: &mut Live) -> Result<(), AllocError>
    ensures gone { OnOk result (env live.new ≡ without_root name.now keys.now (env live.old)) }
    ensures left { live.new.work.left ≡ live.old.work.left }
{
    if keys.is_empty() {
        live.locals.remove(name.as_str());
        return Ok(());
    }
    if let Some(Automatic::OwnValue) = automatic_name(name.as_str()) {
        return delete_in(alloc, keys, &mut live.self_value);
    }
    let Some(mut root) = live.locals.take(name.as_str()) else {
        return Ok(());
    };
    delete_in(alloc, keys, &mut root)?;
    live.locals.set(name, root)
}

/// `delete`: a name loses what was reached.
pub fn delete_reached<W: World, L: Ledger>(
    name: &Text,
    reached: &Reached,
    evaluation: &mut Evaluation<'_, '_, W, L>,
) -> Result<Tree, Exit>
    ensures gives { Evaluates (λ t. t) result W.World evaluation.old evaluation.new
        (delete_reached name.now (reached_of reached.now)) }
    ensures counted { total evaluation.new ≡ total evaluation.old }
    ensures lent { KeepsLoans evaluation.old evaluation.new }
{
    if reached.value.is_some() {
        delete_at(evaluation.alloc, name, &reached.keys, &mut evaluation.live)?;
    }
    Ok(Tree::undef())
}
