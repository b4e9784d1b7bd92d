ghost use Rattle.std.specs.Prelude.{◌≡◌, ◌+◌, IfOk};
ghost use Rattle.dml_meaning.specs.Means.{ToDelete};
ghost use Rattle.dml_meaning.specs.Names.{root_of};
ghost use Rattle.dml_meaning.specs.References.{index_step, is_change, start_run, started};
ghost use Rattle.dml_world.specs.Evaluations.{Evaluates, KeepsLoans, total};
ghost use Rattle.dml_world.specs.Seen.{around_of, env};
ghost use Rattle.dml_leaves.specs.References.{argument_of, purpose_of};

use crate::indexes::at_index;
use crate::names::{find_value, may_change};
use crate::references::Argument;
use base::Text;
use dml_meaning::{Automatic, automatic_name};
use dml_world::leaf::{fault_on, take_step};
use dml_world::{Around, Evaluation, Exit, Live, World};
use pan_ast::{Code, Place};
use path_tree::Tree;
use std::alloc::AllocError;
use std::sync::ledger::Ledger;

/// Why a reference stands as an argument.
#[derive(Drop)]
pub enum Purpose<'a> {
    Read,
    /// By a call at this place.
    Delete(&'a Place),
    Change,
}

impl Purpose<'_> {
    /// Whether all indexes are looked at, also where they lead nowhere.
    pub fn is_change(&self) -> bool
        ensures { result ≡ is_change (purpose_of self.now) }
    {
        match self {
            Purpose::Change => true,
            Purpose::Read | Purpose::Delete(_) => false,
        }
    }
}

/// The value that an assignment to a name changes: SELF or a local.
pub fn root_value(name: &Text, live: &Live) -> Result<Option<Tree>, AllocError>
    ensures { IfOk result (λ t. t ≡ root_of (env live.now) name.now) }
{
    if let Some(Automatic::OwnValue) = automatic_name(name.as_str()) {
        return Ok(Some(live.self_value.copy()?));
    }
    match live.locals.find(name.as_str()) {
        Some(value) => Ok(Some(value.copy()?)),
        None => Ok(None),
    }
}

/// Where the indexes of a name that is to be deleted start from: it has to be one that may be
/// changed, and to be there.
fn start_deletion<W: World, L: Ledger>(
    place: &Place,
    name: &Text,
    whole: bool,
    around: &Around<'_>,
    evaluation: &Evaluation<'_, '_, W, L>,
) -> Result<Option<Tree>, Exit>
    ensures { Evaluates (λ t. t) result W.World evaluation.now evaluation.now
        (start_run (around_of around.now W.reading W.calls) (ToDelete place.now)
        name.now whole) }
{
    may_change(place, name, whole, around, evaluation)?;
    match root_value(name, &evaluation.live)? {
        Some(value) => Ok(Some(value)),
        None => Err(fault_on(evaluation.alloc, Code::NoVariable, place, name.as_str())),
    }
}

/// Where the indexes of a reference start from; whole: there is no index.
fn start<W: World, L: Ledger>(
    purpose: &Purpose<'_>,
    name: &Text,
    whole: bool,
    around: &Around<'_>,
    evaluation: &Evaluation<'_, '_, W, L>,
) -> Result<Option<Tree>, Exit>
    ensures { Evaluates (λ t. t) result W.World evaluation.now evaluation.now
        (start_run (around_of around.now W.reading W.calls)
        (purpose_of purpose.now) name.now whole) }
{
    match purpose {
        Purpose::Read => Ok(find_value(name, around, evaluation)?),
        Purpose::Change => Ok(root_value(name, &evaluation.live)?),
        Purpose::Delete(place) => start_deletion(place, name, whole, around, evaluation),
    }
}

/// The name of a reference, with its step, and where its indexes start from.
pub fn start_reference<W: World, L: Ledger>(
    purpose: &Purpose<'_>,
    argument: &Argument<'_>,
    around: &Around<'_>,
    evaluation: &mut Evaluation<'_, '_, W, L>,
) -> Result<Option<Tree>, Exit>
    ensures gives { Evaluates (λ t. t) result W.World evaluation.old evaluation.new
        (started (around_of around.now W.reading W.calls)
        (purpose_of purpose.now) (argument_of argument.now)) }
    ensures counted { total evaluation.new ≡ total evaluation.old }
    ensures lent { KeepsLoans evaluation.old evaluation.new }
{
    take_step(argument.place, evaluation)?;
    let whole = argument.is_whole();
    start(purpose, argument.name, whole, around, evaluation)
}

/// What an index of a reference leads to, with its step.
pub fn reach_index<W: World, L: Ledger>(
    place: &Place,
    value: Option<Tree>,
    index: &Tree,
    evaluation: &mut Evaluation<'_, '_, W, L>,
) -> Result<Option<Tree>, Exit>
    ensures gives { Evaluates (λ t. t) result W.World evaluation.old evaluation.new
        (index_step place.now value index.now) }
    ensures counted { total evaluation.new ≡ total evaluation.old }
    ensures lent { KeepsLoans evaluation.old evaluation.new }
{
    take_step(place, evaluation)?;
    let Some(value) = value else {
        return Ok(None);
    };
    match at_index(index, &value)? {
        Some(found) => Ok(Some(found.copy()?)),
        None => Ok(None),
    }
}
