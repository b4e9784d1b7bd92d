ghost use Rattle.std.specs.Prelude.{◌≡◌, ◌<◌, IfOk};
ghost use Rattle.dml_meaning.specs.Loops.{key_value, pair_at, set_pair};
ghost use Rattle.dml_world.specs.Evaluations.{Evaluates, KeepsLoans, total};
ghost use Rattle.dml_world.specs.Seen.{around_of};
ghost use Rattle.path_tree.specs.Find.{child_count};

use crate::names::assign_name;
use base::Text;
use dml_world::leaf::text_value;
use dml_world::{Around, Evaluation, Exit, World};
use pan_ast::Place;
use path_tree::Tree;
use std::alloc::AllocError;
use std::sync::ledger::Ledger;

/// The key of the child at a place: its index in a list, its key in a dict.
#[tactic(auto, using(crate::proofs::Trees::keys))]
fn key_at(walked: &Tree, i: usize) -> Result<Tree, AllocError>
    requires { i < child_count walked.now }
    ensures { IfOk result (λ t. t ≡ key_value i walked.now) }
{
    let _size = walked.size();
    match walked.key_handle(i) {
        None => Ok(Tree::long(i as i64)),
        Some(key) => text_value(key.text_handle()),
    }
}

/// Sets the names of key and value.
pub fn set_pair<W: World, L: Ledger>(
    i: usize,
    place: &Place,
    key: &Text,
    value: &Text,
    walked: &Tree,
    around: &Around<'_>,
    evaluation: &mut Evaluation<'_, '_, W, L>,
) -> Result<(), Exit>
    requires { i < child_count walked.now }
    ensures gives { Evaluates (λ t. t) result W.World evaluation.old evaluation.new
        (set_pair (around_of around.now W.reading W.calls) place.now key.now
        value.now (pair_at i walked.now)) }
    ensures counted { total evaluation.new ≡ total evaluation.old }
    ensures lent { KeepsLoans evaluation.old evaluation.new }
{
    let Some(child) = walked.child_at(i) else {
        return Err(Exit::Memory);
    };
    assign_name(place, key, &key_at(walked, i)?, around, evaluation)?;
    assign_name(place, value, child, around, evaluation)
}
