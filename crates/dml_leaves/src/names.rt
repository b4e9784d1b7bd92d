ghost use Rattle.std.specs.Prelude.{◌≡◌, [], IfOk, is_some, option_copied, unwrap_or, Some, None, option_and_then, pos, OnOk, not, ◌&&◌, ◌+◌};
ghost use Rattle.dml_world.specs.Evaluations.{Evaluates, KeepsLoans, total};
ghost use Rattle.dml_world.specs.Exits.{IsFault};
ghost use Rattle.dml_leaves.specs.Changes.{IsLocalChange, IsRootChange};
ghost use Rattle.dml_meaning.specs.Indexes.{changed};
ghost use Rattle.path_tree.specs.Plain as plain;
ghost use Rattle.path_tree.specs.Plain.{IsTree};
ghost use Rattle.path_tree.specs.Find.{child_count};
ghost use Rattle.dml_meaning.specs.Words.{automatic_of};
ghost use Rattle.dml_meaning.specs.Around.{found};
ghost use Rattle.dml_world.specs.Seen.{around_of, env};
ghost use Rattle.dml_meaning.specs.Names.{automatic_value, change, in_function, may_change, may_change_by, no_indexes, read, root_of, value_of, with_root};
ghost use Rattle.dml_meaning.specs.Leaves.{name_run};
ghost use Rattle.dml_meaning.specs.Loops.{assign_name};
ghost use Rattle.dml_meaning.specs.Meaning.{set_value};
ghost use Rattle.pan_ast.specs.Seen.{items_seen};

use crate::indexes::{Unchanged, change_tree};
use assign_rules::Variables;
use base::Text;
use dml_meaning::{Automatic, automatic_name};
use dml_world::leaf::{fault, fault_on, take_step, take_steps, text_value};
use dml_world::{Around, Called, Evaluation, Exit, Live, World};
use pan_ast::{Code, Item, Place};
use path_tree::Tree;
use std::alloc::{AllocError, Global};
use std::sync::ledger::Ledger;

/// How many arguments the open call has.
#[tactic(auto, using(path_tree::proofs::Counts::few_children))]
fn argument_count(called: &Called<'_>) -> Tree
    ensures { result ≡ plain.long (pos (child_count called.now.arguments)) }
{
    let _size = called.arguments.size();
    Tree::long(called.arguments.len() as i64)
}

/// The value of an automatic name, where it is there.
fn automatic_value<W: World, L: Ledger>(
    name: Automatic,
    around: &Around<'_>,
    evaluation: &Evaluation<'_, '_, W, L>,
) -> Result<Option<Tree>, AllocError>
    ensures { IfOk result (λ t. t ≡ automatic_value (around_of around.now W.reading W.calls)
        evaluation.now.live.self_value name) }
{
    match name {
        Automatic::OwnValue => Ok(Some(evaluation.live.self_value.copy()?)),
        Automatic::Object => Ok(Some(text_value(around.frame.object.text_handle())?)),
        Automatic::Template => Ok(Some(text_value(around.frame.template.text_handle())?)),
        Automatic::Arguments => match around.called {
            None => Ok(None),
            Some(called) => Ok(Some(called.arguments.copy()?)),
        },
        Automatic::Count => match around.called {
            None => Ok(None),
            Some(called) => Ok(Some(argument_count(called))),
        },
        Automatic::Function => match around.called {
            None => Ok(None),
            Some(called) => Ok(Some(text_value(called.name)?)),
        },
    }
}

/// The value of an automatic name, by its text.
fn automatic_named<W: World, L: Ledger>(
    name: &Text,
    around: &Around<'_>,
    evaluation: &Evaluation<'_, '_, W, L>,
) -> Result<Option<Tree>, AllocError>
    ensures { IfOk result (λ t. t ≡ option_and_then
        (automatic_value (around_of around.now W.reading W.calls) evaluation.now.live.self_value)
        (automatic_of name.now)) }
{
    match automatic_name(name.as_str()) {
        Some(automatic) => automatic_value(automatic, around, evaluation),
        None => Ok(None),
    }
}

/// The value of a name: of the local, else of the automatic name, else of the global.
#[inline(always)]
pub fn find_value<W: World, L: Ledger>(
    name: &Text,
    around: &Around<'_>,
    evaluation: &Evaluation<'_, '_, W, L>,
) -> Result<Option<Tree>, AllocError>
    ensures { IfOk result (λ t. t ≡ value_of (around_of around.now W.reading W.calls) name.now
        (env evaluation.now.live)) }
{
    if let Some(value) = evaluation.live.locals.find(name.as_str()) {
        return Ok(Some(value.copy()?));
    }
    if let Some(value) = automatic_named(name, around, evaluation)? {
        return Ok(Some(value));
    }
    match around.frame.globals.value(name.as_str()) {
        Some(value) => Ok(Some(value.copy()?)),
        None => Ok(None),
    }
}

/// The value of a name that has one.
#[inline(always)]
fn read<W: World, L: Ledger>(
    place: &Place,
    name: &Text,
    around: &Around<'_>,
    evaluation: &Evaluation<'_, '_, W, L>,
) -> Result<Tree, Exit>
    ensures { Evaluates (λ t. t) result W.World evaluation.now evaluation.now
        (read (around_of around.now W.reading W.calls) place.now name.now) }
{
    match find_value(name, around, evaluation)? {
        Some(value) => Ok(value),
        None => Err(fault_on(evaluation.alloc, Code::NoVariable, place, name.as_str())),
    }
}

/// A name, with its step.
#[inline(always)]
pub fn run_name<W: World, L: Ledger>(
    place: &Place,
    name: &Text,
    around: &Around<'_>,
    evaluation: &mut Evaluation<'_, '_, W, L>,
) -> Result<Tree, Exit>
    ensures gives { Evaluates (λ t. t) result W.World evaluation.old evaluation.new
        (name_run (around_of around.now W.reading W.calls) place.now name.now) }
    ensures counted { total evaluation.new ≡ total evaluation.old }
    ensures lent { KeepsLoans evaluation.old evaluation.new }
{
    take_step(place, evaluation)?;
    read(place, name, around, evaluation)
}

/// Whether a reference has no index.
#[tactic(auto, using(crate::proofs::Trees::whole))]
pub fn is_whole(indexes: &[Item]) -> bool
    ensures { result ≡ no_indexes (items_seen indexes.now) }
{
    if indexes.len() == 0 {
        return true;
    }
    false
}

/// Whether a name is that of a global and of no local.
#[inline(always)]
#[tactic(auto, using(crate::proofs::Whole::turned))]
fn is_only_global(name: &Text, around: &Around<'_>, live: &Live) -> bool
    ensures { result ≡ (is_some (found around.now.frame.now.globals.now.variables name.now)
        && not (is_some (found live.now.locals name.now))) }
{
    live.locals.find(name.as_str()).is_none() && around.frame.globals.value(name.as_str()).is_some()
}

/// Whether a name may be changed, at an index or as a whole.
#[inline(always)]
pub fn may_change<W: World, L: Ledger>(
    place: &Place,
    name: &Text,
    whole: bool,
    around: &Around<'_>,
    evaluation: &Evaluation<'_, '_, W, L>,
) -> Result<(), Exit>
    ensures { Evaluates (λ t. t) result W.World evaluation.now evaluation.now
        (may_change (around_of around.now W.reading W.calls) place.now name.now
        whole) }
{
    match automatic_name(name.as_str()) {
        Some(Automatic::OwnValue) => {
            if around.self_use.is_fixed() || whole {
                return Err(fault(evaluation.alloc, Code::SelfChange, place));
            }
        }
        Some(_) => return Err(fault_on(evaluation.alloc, Code::GlobalChange, place, name.as_str())),
        None => {
            if is_only_global(name, around, &evaluation.live) {
                return Err(fault_on(evaluation.alloc, Code::GlobalChange, place, name.as_str()));
            }
        }
    }
    Ok(())
}

/// Changes what is at indexes of a local, which begins as undef. It is taken out meanwhile, so that
/// nothing is copied.
#[tactic(auto, using(assign_rules::proofs::Entries::put_back))]
fn change_local(
    alloc: Global,
    name: &Text,
    keys: &[Tree],
    value: &Tree,
    locals: &mut Variables,
) -> Result<(), Unchanged>
    ensures { IsLocalChange result name.now locals.old locals.new
        (changed keys.now value.now (unwrap_or (found locals.old name.now) plain.undef)) }
{
    let mut root = match locals.take(name.as_str()) {
        Some(root) => root,
        None => Tree::undef(),
    };
    change_tree(alloc, keys, value, &mut root)?;
    locals.set(name, root)?;
    Ok(())
}

/// Changes what is at indexes of SELF or of a local.
fn change_root(
    alloc: Global,
    name: &Text,
    keys: &[Tree],
    value: &Tree,
    live: &mut Live,
) -> Result<(), Unchanged>
    ensures change { IsRootChange result name.now live.old live.new
        (changed keys.now value.now (unwrap_or (root_of (env live.old) name.now) plain.undef)) }
    ensures left { live.new.work.left ≡ live.old.work.left }
{
    match automatic_name(name.as_str()) {
        Some(Automatic::OwnValue) => change_tree(alloc, keys, value, &mut live.self_value),
        Some(_) | None => change_local(alloc, name, keys, value, &mut live.locals),
    }
}

/// Changes what is at indexes of SELF or of a local, or says at a place why not.
pub fn change<W: World, L: Ledger>(
    place: &Place,
    name: &Text,
    keys: &[Tree],
    value: &Tree,
    evaluation: &mut Evaluation<'_, '_, W, L>,
) -> Result<(), Exit>
    ensures gives { Evaluates (λ t. t) result W.World evaluation.old evaluation.new
        (change place.now name.now keys.now value.now) }
    ensures counted { total evaluation.new ≡ total evaluation.old }
    ensures lent { KeepsLoans evaluation.old evaluation.new }
{
    match change_root(evaluation.alloc, name, keys, value, &mut evaluation.live) {
        Ok(()) => Ok(()),
        Err(Unchanged::Code(code)) => Err(fault(evaluation.alloc, code, place)),
        Err(Unchanged::Memory) => Err(Exit::Memory),
    }
}

/// Sets SELF or a local as a whole, with one look for the name.
#[inline(always)]
fn set_root(name: &Text, value: &Tree, live: &mut Live) -> Result<(), AllocError>
    ensures root { OnOk result (env live.new ≡ with_root name.now value.now (env live.old)) }
    ensures tree { IsTree value.now }
    ensures left { live.new.work.left ≡ live.old.work.left }
{
    let _kind = value.kind();
    match automatic_name(name.as_str()) {
        Some(Automatic::OwnValue) => {
            live.self_value = value.copy()?;
            Ok(())
        }
        Some(_) | None => live.locals.set(name, value.copy()?),
    }
}

/// Sets SELF or a local as a whole: what `change` without indexes does, with less work.
#[inline(always)]
#[tactic(auto, using(crate::proofs::Whole::change_whole, dml_meaning::proofs::Leaving::change_leaves))]
pub fn set_whole<W: World, L: Ledger>(
    place: &Place,
    name: &Text,
    value: &Tree,
    evaluation: &mut Evaluation<'_, '_, W, L>,
) -> Result<(), Exit>
    ensures gives { Evaluates (λ t. t) result W.World evaluation.old evaluation.new
        (change place.now name.now [] value.now) }
    ensures counted { total evaluation.new ≡ total evaluation.old }
    ensures lent { KeepsLoans evaluation.old evaluation.new }
{
    set_root(name, value, &mut evaluation.live)?;
    Ok(())
}

/// A step for each index, and the change.
#[inline(always)]
pub fn set_value<W: World, L: Ledger>(
    place: &Place,
    name: &Text,
    keys: &[Tree],
    value: Tree,
    evaluation: &mut Evaluation<'_, '_, W, L>,
) -> Result<Tree, Exit>
    ensures gives { Evaluates (λ t. t) result W.World evaluation.old evaluation.new
        (set_value place.now name.now keys.now value) }
    ensures counted { total evaluation.new ≡ total evaluation.old }
    ensures lent { KeepsLoans evaluation.old evaluation.new }
{
    if let [] = keys {
        set_whole(place, name, &value, evaluation)?;
        return Ok(value);
    }
    take_steps(keys.len(), place, evaluation)?;
    change(place, name, keys, &value, evaluation)?;
    Ok(value)
}

/// Sets a name by the rules of assignment.
pub fn assign_name<W: World, L: Ledger>(
    place: &Place,
    name: &Text,
    value: &Tree,
    around: &Around<'_>,
    evaluation: &mut Evaluation<'_, '_, W, L>,
) -> Result<(), Exit>
    ensures gives { Evaluates (λ t. t) result W.World evaluation.old evaluation.new
        (assign_name (around_of around.now W.reading W.calls) place.now name.now
        value.now) }
    ensures counted { total evaluation.new ≡ total evaluation.old }
    ensures lent { KeepsLoans evaluation.old evaluation.new }
{
    may_change(place, name, true, around, evaluation)?;
    set_whole(place, name, value, evaluation)
}
