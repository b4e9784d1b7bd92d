//! Chains of one step whose operands are no chains: most chains of a template are such, and in them
//! nothing has to wait.

ghost use Rattle.std.specs.Prelude.{◌≡◌, ◌+◌, IfSome, true};
ghost use Rattle.dml_eval.specs.Heres.{around_in};
ghost use Rattle.dml_world.specs.Evaluations.{Evaluates, KeepsLoans, total};
ghost use Rattle.dml_eval.specs.Waits.{IsElementOf, IsOperand, IsPairOf, element_run, pair_run};
ghost use Rattle.dml_meaning.specs.Meaning.{eval};

use crate::chains::Chain;
use crate::here::Here;
use crate::items::open_item;
use crate::nodes::{chain_of, run_operand};
use dml_leaves::indexes::apply_index;
use dml_world::leaf::apply_binary;
use dml_world::{Evaluation, Exit, World};
use pan_ast::{Item, Node, Place, Step};
use path_tree::{BinaryOp, Tree};
use std::sync::ledger::Ledger;

/// An operator between two operands.
#[derive(Drop)]
pub(crate) struct Pair<'a> {
    pub place: &'a Place,
    pub op: BinaryOp,
    pub left: &'a Node,
    pub right: &'a Node,
}

/// An operand at an index.
#[derive(Drop)]
pub(crate) struct Element<'a> {
    pub place: &'a Place,
    pub container: &'a Node,
    pub index: &'a Item,
}

/// Whether a node is no chain.
#[inline(always)]
fn is_operand(node: &Node) -> bool
    ensures { result ≡ true → IsOperand node.now }
{
    chain_of(node).is_none()
}

/// The pair that a chain is; none where it is something else.
#[inline(always)]
#[tactic(auto, using(crate::proofs::Waits::pair_is))]
pub(crate) fn pair_of<'a>(chain: &Chain<'a>) -> Option<Pair<'a>>
    ensures { IfSome result (IsPairOf chain.now) }
{
    let Step::Binary(op, right) = chain.step else {
        return None;
    };
    if !chain.rest.is_empty() || !is_operand(chain.first) || !is_operand(right) {
        return None;
    }
    Some(Pair {
        place: chain.place,
        op: *op,
        left: chain.first,
        right,
    })
}

/// The operand at an index that a chain is; none where it is something else.
#[inline(always)]
#[tactic(auto, using(crate::proofs::Waits::element_is))]
pub(crate) fn element_of<'a>(chain: &Chain<'a>) -> Option<Element<'a>>
    ensures { IfSome result (IsElementOf chain.now) }
{
    let Step::Index(index) = chain.step else {
        return None;
    };
    if !chain.rest.is_empty() || !is_operand(chain.first) {
        return None;
    }
    Some(Element {
        place: chain.place,
        container: chain.first,
        index,
    })
}

/// The operands, from the left, and then the operator.
#[inline(never)]
#[cycle(eval)]
#[tactic(auto, using(dml_meaning::proofs::Leaving::leaving))]
pub(crate) fn run_pair<W: World, L: Ledger>(
    pair: Pair<'_>,
    here: Here<'_>,
    evaluation: &mut Evaluation<'_, '_, W, L>,
) -> Result<Tree, Exit>
    requires left { IsOperand pair.left.now }
    requires right { IsOperand pair.right.now }
    ensures gives { Evaluates (λ t. t) result W.World evaluation.old evaluation.new
        (pair_run (eval here.entry.room) (around_in W.World here.entry) pair.entry) }
    ensures counted { total evaluation.new ≡ total evaluation.old }
    ensures lent { KeepsLoans evaluation.old evaluation.new }
{
    let left = run_operand(pair.left, here, evaluation)?;
    let right = run_operand(pair.right, here, evaluation)?;
    apply_binary(pair.place, pair.op, &left, &right, evaluation)
}

/// The operand, the index, and then what is there.
#[inline(never)]
#[cycle(eval)]
#[tactic(auto, using(dml_meaning::proofs::Leaving::leaving))]
pub(crate) fn run_element<W: World, L: Ledger>(
    element: Element<'_>,
    here: Here<'_>,
    evaluation: &mut Evaluation<'_, '_, W, L>,
) -> Result<Tree, Exit>
    requires { IsOperand element.container.now }
    ensures gives { Evaluates (λ t. t) result W.World evaluation.old evaluation.new
        (element_run (eval here.entry.room) (around_in W.World here.entry) element.entry) }
    ensures counted { total evaluation.new ≡ total evaluation.old }
    ensures lent { KeepsLoans evaluation.old evaluation.new }
{
    let container = run_operand(element.container, here, evaluation)?;
    let index = open_item(element.index, here, evaluation)?;
    apply_index(element.place, &container, &index, evaluation)
}
