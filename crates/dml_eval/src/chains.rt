ghost use Rattle.std.specs.Prelude.{◌≡◌, ◌+◌, ◌<◌, ◌∷◌, [], map, IfOk, MatchOption};
ghost use Rattle.dml_eval.specs.Heres.{around_in};
ghost use Rattle.dml_world.specs.Evaluations.{Evaluates, KeepsLoans, total};
ghost use Rattle.dml_eval.specs.Waits.{Leads, chain_run, chain_weight, resume, turn_run, turn_weight, waiting_weight, with_steps};
ghost use Rattle.dml_leaves.specs.Weights.{node_weight, step_weight, steps_weight};
ghost use Rattle.dml_meaning.specs.Meaning.{eval, second_run, step_run};
ghost use Rattle.pan_ast.specs.Seen.{item_seen, node_seen, step_seen};
ghost use Rattle.pan_ast.specs.Syntax.{AtAnd, AtBinary, AtIndex, AtOr};

use crate::here::Here;
use crate::items::open_item;
use crate::nodes::{chain_of, run_operand};
use base::Steps;
use dml_leaves::indexes::apply_index;
use dml_world::leaf::{apply_binary, apply_boolean};
use dml_world::{Evaluation, Exit, World};
use pan_ast::{Item, Node, Place, Step};
use path_tree::{BinaryOp, Tree};
use std::sync::ledger::Ledger;

/// A chain: its left operand, and the steps to its right.
#[derive(Drop)]
pub(crate) struct Chain<'a> {
    pub place: &'a Place,
    pub first: &'a Node,
    pub step: &'a Step,
    pub rest: &'a [Step],
}

/// What an operand is of its chain.
#[derive(Drop)]
pub(crate) enum Role<'a> {
    /// It stands to the left of a step.
    Left(&'a Step),
    /// It stands to the right of an operator, and this is the value to the left.
    Right(BinaryOp, Tree),
    /// It decides `&&` or `||`.
    Deciding,
}

/// A chain that waits for the value of an operand, with the steps behind it.
#[derive(Drop)]
pub(crate) struct Waiting<'a> {
    pub place: &'a Place,
    pub role: Role<'a>,
    pub rest: &'a [Step],
}

/// What is to be done next.
#[derive(Drop)]
pub(crate) enum Turn<'a> {
    /// The steps of the chain at this place, over this value.
    Steps(Tree, &'a Place, &'a [Step]),
    /// A chain that is an operand of another one, which waits.
    Inner(Chain<'a>, Waiting<'a>),
}

/// The first step, and those behind it.
fn cut(steps: &[Step]) -> Option<(&Step, &[Step])>
    ensures { MatchOption result (steps.now ≡ []) (λ r. steps.now ≡ r.0.now ∷ r.1.now) }
{
    match steps {
        [] => None,
        [first, rest @ ..] => Some((first, rest)),
    }
}

/// A chain, with the chains that are its operands: these wait here, and not in a call each.
#[cycle(eval)]
#[inline(never)]
#[tactic(auto, using(crate::proofs::Waits::waits), unfolding(dml_meaning::specs::Meaning::steps_run, crate::specs::Waits::resumed))]
pub(crate) fn run_chain<W: World, L: Ledger>(
    chain: Chain<'_>,
    here: Here<'_>,
    evaluation: &mut Evaluation<'_, '_, W, L>,
) -> Result<Tree, Exit>
    ensures gives { Evaluates (λ t. t) result W.World evaluation.old evaluation.new
        (chain_run (eval here.entry.room) (around_in W.World here.entry)
        chain.entry) }
    ensures counted { total evaluation.new ≡ total evaluation.old }
    ensures lent { KeepsLoans evaluation.old evaluation.new }
{
    let mut waiting = Vec::new(evaluation.alloc);
    let mut turn = start(chain, here, evaluation)?;
    'turns: loop {
        turn = match turn {
            Turn::Inner(inner, outer) => {
                waiting.push(outer)?;
                start(inner, here, evaluation)?
            }
            Turn::Steps(value, place, rest) => match cut(rest) {
                Some((step, rest)) => run_step(place, value, step, rest, here, evaluation)?,
                None => match waiting.pop() {
                    Some(outer) => take_up(outer, value, here, evaluation)?,
                    None => return Ok(value),
                },
            },
        };
    }
}

/// The left operand of a chain, and its first step.
#[inline(always)]
#[cycle(eval)]
#[tactic(auto, using(dml_meaning::proofs::Leaving::leaving), unfolding(dml_meaning::specs::Meaning::steps_run))]
fn start<'a, W: World, L: Ledger>(
    chain: Chain<'a>,
    here: Here<'_>,
    evaluation: &mut Evaluation<'_, '_, W, L>,
) -> Result<Turn<'a>, Exit>
    ensures gives { Leads (turn_run (eval here.entry.room) (around_in W.World here.entry)) result
        W.World evaluation.old evaluation.new
        (chain_run (eval here.entry.room) (around_in W.World here.entry) chain.entry) }
    ensures counted { total evaluation.new ≡ total evaluation.old }
    ensures lent { KeepsLoans evaluation.old evaluation.new }
    ensures lighter { IfOk result (λ t. turn_weight t < chain_weight chain.entry) }
{
    let Chain {
        place,
        first,
        step,
        rest,
    } = chain;
    match chain_of(first) {
        Some(inner) => Ok(Turn::Inner(
            inner,
            Waiting {
                place,
                role: Role::Left(step),
                rest,
            },
        )),
        None => {
            let value = run_operand(first, here, evaluation)?;
            run_step(place, value, step, rest, here, evaluation)
        }
    }
}

/// A chain that waited goes on with the value that it waited for.
#[cycle(eval)]
#[tactic(auto, using(dml_meaning::proofs::Leaving::leaving))]
fn take_up<'a, W: World, L: Ledger>(
    waiting: Waiting<'a>,
    value: Tree,
    here: Here<'_>,
    evaluation: &mut Evaluation<'_, '_, W, L>,
) -> Result<Turn<'a>, Exit>
    ensures gives { Leads (turn_run (eval here.entry.room) (around_in W.World here.entry)) result
        W.World evaluation.old evaluation.new
        (resume (eval here.entry.room) (around_in W.World here.entry) waiting.entry value) }
    ensures counted { total evaluation.new ≡ total evaluation.old }
    ensures lent { KeepsLoans evaluation.old evaluation.new }
    ensures lighter { IfOk result (λ t. turn_weight t < waiting_weight waiting.entry) }
{
    let Waiting { place, role, rest } = waiting;
    match role {
        Role::Left(step) => run_step(place, value, step, rest, here, evaluation),
        Role::Right(op, left) => {
            let value = apply_binary(place, op, &left, &value, evaluation)?;
            Ok(Turn::Steps(value, place, rest))
        }
        Role::Deciding => {
            let value = apply_boolean(place, &value, evaluation)?;
            Ok(Turn::Steps(value, place, rest))
        }
    }
}

/// A step over the value to its left, before those behind it.
#[inline(always)]
#[cycle(eval)]
#[tactic(auto, using(pan_ast::proofs::Forms::steps))]
fn run_step<'a, W: World, L: Ledger>(
    place: &'a Place,
    left: Tree,
    step: &'a Step,
    rest: &'a [Step],
    here: Here<'_>,
    evaluation: &mut Evaluation<'_, '_, W, L>,
) -> Result<Turn<'a>, Exit>
    ensures gives { Leads (turn_run (eval here.entry.room) (around_in W.World here.entry)) result
        W.World evaluation.old evaluation.new
        (with_steps (eval here.entry.room) (around_in W.World here.entry) place.now
        (map step_seen rest.now) (step_run (eval here.entry.room) (around_in W.World here.entry)
        place.now left (step_seen step.now))) }
    ensures counted { total evaluation.new ≡ total evaluation.old }
    ensures lent { KeepsLoans evaluation.old evaluation.new }
    ensures lighter { IfOk result (λ t. turn_weight t < step_weight (step_seen step.now)
        + steps_weight (map step_seen rest.now)) }
{
    match step {
        Step::Index(item) => run_index(place, left, item, rest, here, evaluation),
        Step::Binary(op, right) => run_binary(place, *op, left, right, rest, here, evaluation),
        Step::And(right) => run_both(place, left, right, rest, here, evaluation),
        Step::Or(right) => run_either(place, left, right, rest, here, evaluation),
    }
}

/// An index.
#[cycle(eval)]
#[tactic(auto, using(dml_meaning::proofs::Leaving::leaving), unfolding(dml_meaning::specs::Meaning::step_run))]
fn run_index<'a, W: World, L: Ledger>(
    place: &'a Place,
    left: Tree,
    item: &Item,
    rest: &'a [Step],
    here: Here<'_>,
    evaluation: &mut Evaluation<'_, '_, W, L>,
) -> Result<Turn<'a>, Exit>
    ensures gives { Leads (turn_run (eval here.entry.room) (around_in W.World here.entry)) result
        W.World evaluation.old evaluation.new
        (with_steps (eval here.entry.room) (around_in W.World here.entry) place.now
        (map step_seen rest.now) (step_run (eval here.entry.room) (around_in W.World here.entry)
        place.now left (AtIndex (item_seen item.now)))) }
    ensures counted { total evaluation.new ≡ total evaluation.old }
    ensures lent { KeepsLoans evaluation.old evaluation.new }
    ensures lighter { IfOk result (λ t. turn_weight t < 1 + steps_weight (map step_seen rest.now)) }
{
    let index = open_item(item, here, evaluation)?;
    let value = apply_index(place, &left, &index, evaluation)?;
    Ok(Turn::Steps(value, place, rest))
}

/// An operator and its right operand.
#[inline(always)]
#[cycle(eval)]
#[tactic(auto, using(dml_meaning::proofs::Chains::then_then, dml_meaning::proofs::Leaving::leaving), unfolding(dml_meaning::specs::Meaning::step_run))]
fn run_binary<'a, W: World, L: Ledger>(
    place: &'a Place,
    op: BinaryOp,
    left: Tree,
    right: &'a Node,
    rest: &'a [Step],
    here: Here<'_>,
    evaluation: &mut Evaluation<'_, '_, W, L>,
) -> Result<Turn<'a>, Exit>
    ensures gives { Leads (turn_run (eval here.entry.room) (around_in W.World here.entry)) result
        W.World evaluation.old evaluation.new
        (with_steps (eval here.entry.room) (around_in W.World here.entry) place.now
        (map step_seen rest.now) (step_run (eval here.entry.room) (around_in W.World here.entry)
        place.now left (AtBinary op (node_seen right.now)))) }
    ensures counted { total evaluation.new ≡ total evaluation.old }
    ensures lent { KeepsLoans evaluation.old evaluation.new }
    ensures lighter { IfOk result (λ t. turn_weight t < (2 + node_weight (node_seen right.now))
        + steps_weight (map step_seen rest.now)) }
{
    match chain_of(right) {
        Some(inner) => Ok(Turn::Inner(
            inner,
            Waiting {
                place,
                role: Role::Right(op, left),
                rest,
            },
        )),
        None => {
            let value = run_operand(right, here, evaluation)?;
            let joined = apply_binary(place, op, &left, &value, evaluation)?;
            Ok(Turn::Steps(joined, place, rest))
        }
    }
}

/// `&&`: where the left side is true, the right side decides.
#[cycle(eval)]
#[tactic(auto, using(dml_world::proofs::Booleans::boths, dml_meaning::proofs::Leaving::leaving), unfolding(dml_meaning::specs::Meaning::step_run))]
fn run_both<'a, W: World, L: Ledger>(
    place: &'a Place,
    left: Tree,
    right: &'a Node,
    rest: &'a [Step],
    here: Here<'_>,
    evaluation: &mut Evaluation<'_, '_, W, L>,
) -> Result<Turn<'a>, Exit>
    ensures gives { Leads (turn_run (eval here.entry.room) (around_in W.World here.entry)) result
        W.World evaluation.old evaluation.new
        (with_steps (eval here.entry.room) (around_in W.World here.entry) place.now
        (map step_seen rest.now) (step_run (eval here.entry.room) (around_in W.World here.entry)
        place.now left (AtAnd (node_seen right.now)))) }
    ensures counted { total evaluation.new ≡ total evaluation.old }
    ensures lent { KeepsLoans evaluation.old evaluation.new }
    ensures lighter { IfOk result (λ t. turn_weight t < (2 + node_weight (node_seen right.now))
        + steps_weight (map step_seen rest.now)) }
{
    match left.as_boolean() {
        Some(true) => run_second(place, right, rest, here, evaluation),
        Some(false) | None => {
            let value = apply_boolean(place, &left, evaluation)?;
            Ok(Turn::Steps(value, place, rest))
        }
    }
}

/// `||`: where the left side is false, the right side decides.
#[cycle(eval)]
#[tactic(auto, using(dml_world::proofs::Booleans::eithers, dml_meaning::proofs::Leaving::leaving), unfolding(dml_meaning::specs::Meaning::step_run))]
fn run_either<'a, W: World, L: Ledger>(
    place: &'a Place,
    left: Tree,
    right: &'a Node,
    rest: &'a [Step],
    here: Here<'_>,
    evaluation: &mut Evaluation<'_, '_, W, L>,
) -> Result<Turn<'a>, Exit>
    ensures gives { Leads (turn_run (eval here.entry.room) (around_in W.World here.entry)) result
        W.World evaluation.old evaluation.new
        (with_steps (eval here.entry.room) (around_in W.World here.entry) place.now
        (map step_seen rest.now) (step_run (eval here.entry.room) (around_in W.World here.entry)
        place.now left (AtOr (node_seen right.now)))) }
    ensures counted { total evaluation.new ≡ total evaluation.old }
    ensures lent { KeepsLoans evaluation.old evaluation.new }
    ensures lighter { IfOk result (λ t. turn_weight t < (2 + node_weight (node_seen right.now))
        + steps_weight (map step_seen rest.now)) }
{
    match left.as_boolean() {
        Some(false) => run_second(place, right, rest, here, evaluation),
        Some(true) | None => {
            let value = apply_boolean(place, &left, evaluation)?;
            Ok(Turn::Steps(value, place, rest))
        }
    }
}

/// The operand that decides.
#[cycle(eval)]
#[tactic(auto, using(dml_meaning::proofs::Chains::then_then, dml_meaning::proofs::Leaving::leaving))]
fn run_second<'a, W: World, L: Ledger>(
    place: &'a Place,
    right: &'a Node,
    rest: &'a [Step],
    here: Here<'_>,
    evaluation: &mut Evaluation<'_, '_, W, L>,
) -> Result<Turn<'a>, Exit>
    ensures gives { Leads (turn_run (eval here.entry.room) (around_in W.World here.entry)) result
        W.World evaluation.old evaluation.new
        (with_steps (eval here.entry.room) (around_in W.World here.entry) place.now
        (map step_seen rest.now) (second_run (eval here.entry.room) (around_in W.World here.entry)
        place.now (node_seen right.now))) }
    ensures counted { total evaluation.new ≡ total evaluation.old }
    ensures lent { KeepsLoans evaluation.old evaluation.new }
    ensures lighter { IfOk result (λ t. turn_weight t < (2 + node_weight (node_seen right.now))
        + steps_weight (map step_seen rest.now)) }
{
    match chain_of(right) {
        Some(inner) => Ok(Turn::Inner(
            inner,
            Waiting {
                place,
                role: Role::Deciding,
                rest,
            },
        )),
        None => {
            let value = run_operand(right, here, evaluation)?;
            let decided = apply_boolean(place, &value, evaluation)?;
            Ok(Turn::Steps(decided, place, rest))
        }
    }
}
