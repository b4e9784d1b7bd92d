ghost use Rattle.std.specs.Prelude.{◌≡◌};
ghost use Rattle.dml_meaning.specs.Calls.{open_call};
ghost use Rattle.dml_meaning.specs.Values.{has_null};
ghost use Rattle.dml_world.specs.Evaluations.{Evaluates};
ghost use Rattle.dml_world.specs.Seen.{around_of};

use dml_meaning::Test;
use dml_world::leaf::{fault, passes, refusal};
use dml_world::{Around, Evaluation, Exit, World};
use pan_ast::{Code, Place};
use path_tree::Tree;
use std::sync::ledger::Ledger;

/// Whether one of the values is null.
fn has_null(values: &[Tree]) -> bool
    ensures { result ≡ has_null values.now }
{
    values.iter().any(|value| passes(Test::Null, value.kind()))
}

/// The tests of a call of a function with these values, and the list that they make.
#[tactic(auto, using(dml_world::proofs::Ends::refused_comes))]
pub fn open_call<W: World, L: Ledger>(
    place: &Place,
    values: Vec<Tree>,
    around: &Around<'_>,
    evaluation: &Evaluation<'_, '_, W, L>,
) -> Result<Tree, Exit>
    ensures { Evaluates (λ t. t) result W.World evaluation.now evaluation.now
        (open_call (around_of around.now W.reading W.calls) place.now
        values.items) }
{
    if has_null(&values) {
        return Err(fault(evaluation.alloc, Code::BadArgument, place));
    }
    if around.calls_left == 0 {
        return Err(fault(evaluation.alloc, Code::CallDepth, place));
    }
    match Tree::list(evaluation.alloc, values) {
        Ok(list) => Ok(list),
        Err(refused) => Err(refusal(evaluation.alloc, place, refused)),
    }
}
