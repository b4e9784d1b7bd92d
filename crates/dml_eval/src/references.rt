ghost use Rattle.std.specs.Prelude.{◌≡◌, ◌+◌, ◌&&◌, [], is_none, not};
ghost use Rattle.dml_eval.specs.Heres.{around_in};
ghost use Rattle.dml_world.specs.Evaluations.{Evaluates, KeepsLoans, total};
ghost use Rattle.dml_leaves.specs.References.{argument_of, indexes_back, purpose_of, reached_of};
ghost use Rattle.dml_meaning.specs.References.{reach_from, reference_in};
ghost use Rattle.dml_meaning.specs.BuiltIns.{value_or_nothing};
ghost use Rattle.dml_meaning.specs.Meaning.{eval};
ghost use Rattle.pan_ast.specs.Seen.{item_seen};
ghost use Rattle.pan_ast.specs.Syntax.{none};

use crate::here::Here;
use crate::items::open_item;
use dml_leaves::references::{Argument, Reached, reference_in};
use dml_leaves::starting::{Purpose, reach_index, start_reference};
use dml_world::leaf::{fault, take_step};
use dml_world::{Evaluation, Exit, World};
use pan_ast::{Code, Item, Place};
use path_tree::Tree;
use std::sync::ledger::Ledger;

/// An argument that is a reference, where `room` more items may be open; the place is that of the
/// argument as an item.
#[cycle(eval)]
#[tactic(auto, using(dml_meaning::proofs::Leaving::leaving), unfolding(dml_meaning::specs::Meaning::eval, dml_meaning::specs::References::reach_run))]
pub(crate) fn open_reference<W: World, L: Ledger>(
    purpose: &Purpose<'_>,
    place: &Place,
    argument: Argument<'_>,
    here: Here<'_>,
    evaluation: &mut Evaluation<'_, '_, W, L>,
) -> Result<Reached, Exit>
    ensures gives { Evaluates reached_of result W.World evaluation.old evaluation.new
        ((eval here.entry.room).reaches (around_in W.World here.entry)
        (purpose_of purpose.now) place.now (argument_of argument.entry)) }
    ensures counted { total evaluation.new ≡ total evaluation.old }
    ensures lent { KeepsLoans evaluation.old evaluation.new }
{
    take_step(place, evaluation)?;
    if here.room == 0 {
        return Err(fault(evaluation.alloc, Code::CallDepth, place));
    }
    let value = start_reference(purpose, &argument, here.around, evaluation)?;
    let all = purpose.is_change();
    let Argument {
        place,
        name: _,
        indexes,
    } = argument;
    let inside = Here {
        around: here.around,
        room: here.room - 1,
    };
    reach_from(all, place, indexes, value, inside, evaluation)
}

/// Whether the first index that finds nothing was looked at, and no more are.
fn is_lost(value: &Option<Tree>, all: bool) -> bool
    ensures { result ≡ (is_none value.now && not all) }
{
    value.is_none() && !all
}

/// The indexes of a reference, as many as are looked at: all, or up to the first that finds
/// nothing.
#[cycle(eval)]
#[tactic(auto, using(crate::proofs::Reaching::reaches, dml_meaning::proofs::Leaving::leaving), unfolding(dml_meaning::specs::References::reach_from))]
fn reach_from<W: World, L: Ledger>(
    all: bool,
    place: &Place,
    indexes: Vec<&Item>,
    value: Option<Tree>,
    here: Here<'_>,
    evaluation: &mut Evaluation<'_, '_, W, L>,
) -> Result<Reached, Exit>
    ensures gives { Evaluates reached_of result W.World evaluation.old evaluation.new
        (reach_from all (eval here.entry.room) (around_in W.World here.entry)
        place.now (indexes_back indexes.entry.items none) [] value) }
    ensures counted { total evaluation.new ≡ total evaluation.old }
    ensures lent { KeepsLoans evaluation.old evaluation.new }
{
    let mut indexes = indexes;
    let mut keys = Vec::new(evaluation.alloc);
    let mut value = value;
    'indexes: loop {
        if is_lost(&value, all) {
            return Ok(Reached { keys, value });
        }
        let Some(index) = indexes.pop() else {
            return Ok(Reached { keys, value });
        };
        let key = open_item(index, here, evaluation)?;
        value = reach_index(place, value, &key, evaluation)?;
        keys.push(key)?;
    }
}

/// What an argument leads to, where it is written as a reference, or its value.
#[cycle(eval)]
#[tactic(auto, using(crate::proofs::Owns::values, pan_ast::proofs::Places::item_place_seen, dml_meaning::proofs::Leaving::leaving))]
pub(crate) fn value_or_nothing<W: World, L: Ledger>(
    item: &Item,
    here: Here<'_>,
    evaluation: &mut Evaluation<'_, '_, W, L>,
) -> Result<Option<Tree>, Exit>
    ensures gives { Evaluates (λ t. t) result W.World evaluation.old evaluation.new
        (value_or_nothing (eval here.entry.room) (around_in W.World here.entry)
        (item_seen item.now) (reference_in (item_seen item.now))) }
    ensures counted { total evaluation.new ≡ total evaluation.old }
    ensures lent { KeepsLoans evaluation.old evaluation.new }
{
    match reference_in(evaluation.alloc, item)? {
        Some(argument) => {
            let purpose = Purpose::Read;
            let place = &item.place;
            let reached = open_reference(&purpose, place, argument, here, evaluation)?;
            Ok(reached.value)
        }
        None => {
            let value = open_item(item, here, evaluation)?;
            Ok(Some(value))
        }
    }
}
