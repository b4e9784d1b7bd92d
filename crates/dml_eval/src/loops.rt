ghost use Rattle.std.specs.Prelude.{◌≡◌, ◌+◌, ◌<◌, ◌-◌, IfOk, IfSome};
ghost use Rattle.dml_eval.specs.Heres.{around_in};
ghost use Rattle.dml_world.specs.Evaluations.{Evaluates, KeepsLoans, total};
ghost use Rattle.dml_meaning.specs.Loops.{each_of, for_turn, for_turns, pair_at, pair_turn, while_turn, while_turns};
ghost use Rattle.dml_meaning.specs.Meaning.{eval, item_run};
ghost use Rattle.pan_ast.specs.Seen.{item_seen};
ghost use Rattle.pan_ast.specs.Syntax.{For, Foreach};
ghost use Rattle.path_tree.specs.Find.{child_count};
ghost use Rattle.path_tree.specs.Plain.{undef};

use crate::here::Here;
use crate::items::{holds, open_item};
use base::Text;
use dml_leaves::pairs::set_pair;
use dml_meaning::Test;
use dml_world::leaf::{fault, passes};
use dml_world::{Evaluation, Exit, World};
use pan_ast::{Code, Item, Place};
use path_tree::Tree;
use std::sync::ledger::Ledger;

/// A condition, and what is done in each turn before it.
#[derive(Clone, Copy)]
pub(crate) struct WhileLoop<'a> {
    pub place: &'a Place,
    pub condition: &'a Item,
    pub body: &'a Item,
}

/// What a `foreach` sets in each turn, and what it then does.
#[derive(Clone, Copy)]
pub(crate) struct ForeachLoop<'a> {
    pub place: &'a Place,
    pub key: &'a Text,
    pub value: &'a Text,
    pub body: &'a Item,
}

/// One turn of a `while`, where `left` more may be made: its value, or none where the loop is over.
#[cycle(eval)]
#[tactic(auto, using(dml_meaning::proofs::Leaving::leaving), unfolding(dml_meaning::specs::Loops::while_turn))]
fn turn_while<W: World, L: Ledger>(
    left: u64,
    looped: WhileLoop<'_>,
    here: Here<'_>,
    evaluation: &mut Evaluation<'_, '_, W, L>,
) -> Result<Option<Tree>, Exit>
    ensures gives { Evaluates (λ t. t) result W.World evaluation.old evaluation.new
        (while_turn left (eval here.entry.room) (around_in W.World here.entry)
        looped.entry.place.now (item_seen looped.entry.condition.now)
        (item_seen looped.entry.body.now)) }
    ensures counted { total evaluation.new ≡ total evaluation.old }
    ensures lent { KeepsLoans evaluation.old evaluation.new }
    ensures goes_on { IfOk result (λ o. IfSome o (λ _. 0 < left)) }
{
    if !holds(looped.condition, here, evaluation)? {
        return Ok(None);
    }
    if left == 0 {
        return Err(fault(evaluation.alloc, Code::Iterations, looped.place));
    }
    let value = open_item(looped.body, here, evaluation)?;
    Ok(Some(value))
}

/// The turns of a `while`: the value of the last one.
#[cycle(eval)]
#[tactic(auto, using(crate::proofs::Lists::while_more, dml_meaning::proofs::Leaving::leaving), unfolding(dml_meaning::specs::Loops::while_turns))]
pub(crate) fn run_while<W: World, L: Ledger>(
    looped: WhileLoop<'_>,
    here: Here<'_>,
    evaluation: &mut Evaluation<'_, '_, W, L>,
) -> Result<Tree, Exit>
    ensures gives { Evaluates (λ t. t) result W.World evaluation.old evaluation.new
        (while_turns here.entry.around.now.frame.now.max_iteration (eval here.entry.room)
        (around_in W.World here.entry) looped.entry.place.now (item_seen looped.entry.condition.now)
        (item_seen looped.entry.body.now) undef) }
    ensures counted { total evaluation.new ≡ total evaluation.old }
    ensures lent { KeepsLoans evaluation.old evaluation.new }
{
    let mut last = Tree::undef();
    let mut left = here.around.frame.max_iteration;
    'turns: while let Some(value) = turn_while(left, looped, here, evaluation)? {
        last = value;
        left -= 1;
    }
    Ok(last)
}

/// One turn of a `for`, with its step.
#[cycle(eval)]
#[tactic(auto, using(dml_meaning::proofs::Leaving::leaving), unfolding(dml_meaning::specs::Loops::for_turn))]
fn turn_for<W: World, L: Ledger>(
    left: u64,
    looped: WhileLoop<'_>,
    step: &Item,
    here: Here<'_>,
    evaluation: &mut Evaluation<'_, '_, W, L>,
) -> Result<Option<Tree>, Exit>
    ensures gives { Evaluates (λ t. t) result W.World evaluation.old evaluation.new
        (for_turn left (eval here.entry.room) (around_in W.World here.entry)
        looped.entry.place.now (item_seen looped.entry.condition.now) (item_seen step.now)
        (item_seen looped.entry.body.now)) }
    ensures counted { total evaluation.new ≡ total evaluation.old }
    ensures lent { KeepsLoans evaluation.old evaluation.new }
    ensures goes_on { IfOk result (λ o. IfSome o (λ _. 0 < left)) }
{
    let turned = turn_while(left, looped, here, evaluation)?;
    let Some(value) = turned else {
        return Ok(None);
    };
    open_item(step, here, evaluation)?;
    Ok(Some(value))
}

/// The turns of a `for`: the value of the last one.
#[cycle(eval)]
#[tactic(auto, using(crate::proofs::Lists::for_more, dml_meaning::proofs::Leaving::leaving), unfolding(dml_meaning::specs::Loops::for_turns))]
fn turns_for<W: World, L: Ledger>(
    looped: WhileLoop<'_>,
    step: &Item,
    here: Here<'_>,
    evaluation: &mut Evaluation<'_, '_, W, L>,
) -> Result<Tree, Exit>
    ensures gives { Evaluates (λ t. t) result W.World evaluation.old evaluation.new
        (for_turns here.entry.around.now.frame.now.max_iteration (eval here.entry.room)
        (around_in W.World here.entry) looped.entry.place.now (item_seen looped.entry.condition.now)
        (item_seen step.now) (item_seen looped.entry.body.now) undef) }
    ensures counted { total evaluation.new ≡ total evaluation.old }
    ensures lent { KeepsLoans evaluation.old evaluation.new }
{
    let mut last = Tree::undef();
    let mut left = here.around.frame.max_iteration;
    'turns: while let Some(value) = turn_for(left, looped, step, here, evaluation)? {
        last = value;
        left -= 1;
    }
    Ok(last)
}

/// A `for`: its first item, then its turns.
#[cycle(eval)]
#[tactic(auto, using(dml_meaning::proofs::Leaving::leaving), unfolding(dml_meaning::specs::Meaning::item_run))]
pub(crate) fn run_for<W: World, L: Ledger>(
    first: &Item,
    looped: WhileLoop<'_>,
    step: &Item,
    here: Here<'_>,
    evaluation: &mut Evaluation<'_, '_, W, L>,
) -> Result<Tree, Exit>
    ensures gives { Evaluates (λ t. t) result W.World evaluation.old evaluation.new
        (item_run (eval here.entry.room) (around_in W.World here.entry)
        (For looped.entry.place.now (item_seen first.now) (item_seen looped.entry.condition.now)
        (item_seen step.now)
        (item_seen looped.entry.body.now))) }
    ensures counted { total evaluation.new ≡ total evaluation.old }
    ensures lent { KeepsLoans evaluation.old evaluation.new }
{
    open_item(first, here, evaluation)?;
    turns_for(looped, step, here, evaluation)
}

/// A `foreach`: what it walks, then its turns.
#[cycle(eval)]
#[tactic(auto, using(dml_meaning::proofs::Leaving::leaving), unfolding(dml_meaning::specs::Meaning::item_run))]
pub(crate) fn run_foreach<W: World, L: Ledger>(
    container: &Item,
    looped: ForeachLoop<'_>,
    here: Here<'_>,
    evaluation: &mut Evaluation<'_, '_, W, L>,
) -> Result<Tree, Exit>
    ensures gives { Evaluates (λ t. t) result W.World evaluation.old evaluation.new
        (item_run (eval here.entry.room) (around_in W.World here.entry)
        (Foreach looped.entry.place.now looped.entry.key.now looped.entry.value.now
        (item_seen container.now)
        (item_seen looped.entry.body.now))) }
    ensures counted { total evaluation.new ≡ total evaluation.old }
    ensures lent { KeepsLoans evaluation.old evaluation.new }
{
    let walked = open_item(container, here, evaluation)?;
    walk(&walked, looped, here, evaluation)
}

/// One turn of a `foreach`, over the child at a place.
#[cycle(eval)]
#[tactic(auto, using(dml_meaning::proofs::Leaving::leaving), unfolding(dml_meaning::specs::Loops::pair_turn))]
fn turn_pair<W: World, L: Ledger>(
    i: usize,
    walked: &Tree,
    looped: ForeachLoop<'_>,
    here: Here<'_>,
    evaluation: &mut Evaluation<'_, '_, W, L>,
) -> Result<Tree, Exit>
    requires within { i < child_count walked.now }
    ensures gives { Evaluates (λ t. t) result W.World evaluation.old evaluation.new
        (pair_turn (here.entry.around.now.frame.now.max_iteration - i) (eval here.entry.room)
        (around_in W.World here.entry) looped.entry.place.now looped.entry.key.now
        looped.entry.value.now
        (item_seen looped.entry.body.now) (pair_at i walked.now)) }
    ensures counted { total evaluation.new ≡ total evaluation.old }
    ensures lent { KeepsLoans evaluation.old evaluation.new }
{
    if here.around.frame.max_iteration <= i as u64 {
        return Err(fault(evaluation.alloc, Code::Iterations, looped.place));
    }
    let ForeachLoop {
        place,
        key,
        value,
        body,
    } = looped;
    set_pair(i, place, key, value, walked, here.around, evaluation)?;
    open_item(body, here, evaluation)
}

/// The turns of a `foreach`: the value of the last one.
#[cycle(eval)]
#[tactic(auto, using(crate::proofs::Lists::pairs, dml_meaning::proofs::Leaving::leaving), unfolding(dml_meaning::specs::Loops::each_of, dml_meaning::specs::Loops::pair_turns))]
fn walk<W: World, L: Ledger>(
    walked: &Tree,
    looped: ForeachLoop<'_>,
    here: Here<'_>,
    evaluation: &mut Evaluation<'_, '_, W, L>,
) -> Result<Tree, Exit>
    ensures gives { Evaluates (λ t. t) result W.World evaluation.old evaluation.new
        (each_of (eval here.entry.room) (around_in W.World here.entry) looped.entry.place.now
        looped.entry.key.now looped.entry.value.now (item_seen looped.entry.body.now) walked.now) }
    ensures counted { total evaluation.new ≡ total evaluation.old }
    ensures lent { KeepsLoans evaluation.old evaluation.new }
{
    if !passes(Test::Resource, walked.kind()) {
        return Err(fault(evaluation.alloc, Code::BadArgument, looped.place));
    }
    let mut last = Tree::undef();
    let mut i = 0;
    'pairs: while i < walked.len() {
        last = turn_pair(i, walked, looped, here, evaluation)?;
        i += 1;
    }
    Ok(last)
}
