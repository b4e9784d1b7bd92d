ghost use Rattle.std.specs.Prelude.{◌≡◌, ◌+◌, MatchOption};
ghost use Rattle.dml_eval.specs.Heres.{around_in};
ghost use Rattle.dml_world.specs.Evaluations.{Evaluates, KeepsLoans, total};
ghost use Rattle.dml_eval.specs.Waits.{IsChainOf, IsOperand, chain_run};
ghost use Rattle.dml_meaning.specs.Meaning.{eval, node_run};
ghost use Rattle.pan_ast.specs.Seen.{node_seen};

use crate::calls::run_call;
use crate::chains::{Chain, run_chain};
use crate::here::Here;
use crate::items::open_item;
use crate::pairs::{element_of, pair_of, run_element, run_pair};
use dml_leaves::names::run_name;
use dml_world::leaf::{apply_unary, fault, literal, text_value};
use dml_world::{Evaluation, Exit, World};
use pan_ast::{Code, Form, Node, Place};
use path_tree::{Tree, UnaryOp};
use std::sync::ledger::Ledger;

/// The chain that a node is; none where it is no chain.
#[inline(always)]
#[tactic(auto, using(pan_ast::proofs::Forms::nodes, crate::proofs::Waits::spine_is, dml_leaves::proofs::Weights::weight_spine))]
pub(crate) fn chain_of(node: &Node) -> Option<Chain<'_>>
    ensures { MatchOption result (IsOperand node.now) (IsChainOf node.now) }
{
    match &node.form {
        Form::Spine(first, step, rest) => Some(Chain {
            place: &node.place,
            first,
            step,
            rest,
        }),
        Form::Long(_) | Form::Text(_) | Form::Boolean(_) | Form::Undef | Form::Null => None,
        Form::Name(_) | Form::Call(..) | Form::Inside(_) | Form::Unary(..) => None,
    }
}

/// An operand, or a chain.
#[inline(always)]
#[cycle(eval)]
pub(crate) fn run_node<W: World, L: Ledger>(
    node: &Node,
    here: Here<'_>,
    evaluation: &mut Evaluation<'_, '_, W, L>,
) -> Result<Tree, Exit>
    ensures gives { Evaluates (λ t. t) result W.World evaluation.old evaluation.new
        (node_run (eval here.entry.room) (around_in W.World here.entry)
        (node_seen node.now)) }
    ensures counted { total evaluation.new ≡ total evaluation.old }
    ensures lent { KeepsLoans evaluation.old evaluation.new }
{
    match chain_of(node) {
        Some(chain) => run_spine(chain, here, evaluation),
        None => run_operand(node, here, evaluation),
    }
}

/// A chain: one of a single step at once, and others with what waits in them.
#[inline(always)]
#[cycle(eval)]
fn run_spine<W: World, L: Ledger>(
    chain: Chain<'_>,
    here: Here<'_>,
    evaluation: &mut Evaluation<'_, '_, W, L>,
) -> Result<Tree, Exit>
    ensures gives { Evaluates (λ t. t) result W.World evaluation.old evaluation.new
        (chain_run (eval here.entry.room) (around_in W.World here.entry) chain.entry) }
    ensures counted { total evaluation.new ≡ total evaluation.old }
    ensures lent { KeepsLoans evaluation.old evaluation.new }
{
    if let Some(pair) = pair_of(&chain) {
        return run_pair(pair, here, evaluation);
    }
    if let Some(element) = element_of(&chain) {
        return run_element(element, here, evaluation);
    }
    run_chain(chain, here, evaluation)
}

/// An operand that is no chain.
#[inline(always)]
#[cycle(eval)]
#[tactic(auto, using(pan_ast::proofs::Forms::nodes, dml_leaves::proofs::Weights::weight_spine), unfolding(dml_meaning::specs::Meaning::node_run))]
pub(crate) fn run_operand<W: World, L: Ledger>(
    node: &Node,
    here: Here<'_>,
    evaluation: &mut Evaluation<'_, '_, W, L>,
) -> Result<Tree, Exit>
    requires operand { IsOperand node.now }
    ensures gives { Evaluates (λ t. t) result W.World evaluation.old evaluation.new
        (node_run (eval here.entry.room) (around_in W.World here.entry)
        (node_seen node.now)) }
    ensures counted { total evaluation.new ≡ total evaluation.old }
    ensures lent { KeepsLoans evaluation.old evaluation.new }
{
    let place = &node.place;
    match &node.form {
        Form::Long(number) => literal(place, Tree::long(*number), evaluation),
        Form::Text(text) => literal(place, text_value(text)?, evaluation),
        Form::Boolean(holds) => literal(place, Tree::boolean(*holds), evaluation),
        Form::Undef => literal(place, Tree::undef(), evaluation),
        Form::Null => literal(place, Tree::null(), evaluation),
        Form::Name(name) => run_name(place, name, here.around, evaluation),
        Form::Call(name, arguments) => run_call(place, name, arguments, here, evaluation),
        Form::Inside(item) => open_item(item, here, evaluation),
        Form::Unary(op, operand) => open_sign(place, *op, operand, here, evaluation),
        Form::Spine(..) => unreachable!(),
    }
}

/// An operator before its operand, where `room` more may be open.
#[cycle(eval)]
#[tactic(auto, using(dml_meaning::proofs::Leaving::leaving), unfolding(dml_meaning::specs::Meaning::eval))]
fn open_sign<W: World, L: Ledger>(
    place: &Place,
    op: UnaryOp,
    operand: &Node,
    here: Here<'_>,
    evaluation: &mut Evaluation<'_, '_, W, L>,
) -> Result<Tree, Exit>
    ensures gives { Evaluates (λ t. t) result W.World evaluation.old evaluation.new
        ((eval here.entry.room).signs (around_in W.World here.entry) place.now op
        (node_seen operand.now)) }
    ensures counted { total evaluation.new ≡ total evaluation.old }
    ensures lent { KeepsLoans evaluation.old evaluation.new }
{
    if here.room == 0 {
        return Err(fault(evaluation.alloc, Code::CallDepth, place));
    }
    let value = run_node(
        operand,
        Here {
            around: here.around,
            room: here.room - 1,
        },
        evaluation,
    )?;
    apply_unary(place, op, &value, evaluation)
}
