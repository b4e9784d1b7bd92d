ghost use Rattle.std.specs.Prelude.{◌≡◌, IfOk, option_copied};
ghost use Rattle.pan_ast.specs.Detail.{fault_at};
ghost use Rattle.path_tree.specs.Find.{get};
ghost use Rattle.defaults.specs.Filled.{visit};
ghost use Rattle.defaults.specs.Fills.{FillsTarget, IsFault, KeepsLoan, total};

use base::Steps;
use pan_ast::{Change, Code, Failure, Fault, Place, Work};
use path_tree::{Term, Tree};
use std::alloc::{AllocError, Global};
use std::sync::ledger::Ledger;

/// What is filled: the tree and the log of its changes, the path of the value that is filled now,
/// the work that is left, and the steps that are counted, which are lent by who began it.
#[derive(Drop)]
pub(crate) struct Target<'s, L: Ledger> {
    pub(crate) alloc: Global,
    pub(crate) tree: Tree,
    pub(crate) log: Vec<Change>,
    pub(crate) path: Vec<Term>,
    pub(crate) work: Work,
    pub(crate) steps: &'s mut Steps<L>,
}

/// A value that was found, as one of its own.
pub(crate) fn copied(found: Option<&Tree>) -> Result<Option<Tree>, AllocError>
    ensures { IfOk result (λ v. v ≡ option_copied found.entry) }
{
    match found {
        Some(value) => Ok(Some(value.copy()?)),
        None => Ok(None),
    }
}

impl<'s, L: Ledger> Target<'s, L> {
    /// What stands at the path, looked up from the root.
    pub(crate) fn standing(&self) -> Result<Option<Tree>, AllocError>
        ensures { IfOk result (λ v. v ≡ get self.now.path.items self.now.tree) }
    {
        copied(self.tree.get(&self.path))
    }
}

/// A fault at a place, or want of memory.
pub(crate) fn fault(alloc: Global, code: Code, place: &Place) -> Failure
    ensures { IsFault result (fault_at code place.now) }
{
    let Ok(place) = place.share() else {
        return Failure::Memory;
    };
    match Fault::at(alloc, code, place) {
        Ok(fault) => Failure::Fault(fault),
        Err(_) => Failure::Memory,
    }
}

/// The step of a visit, for a binding at the place.
#[tactic(auto, unfolding(crate::specs::Filled::visit))]
pub(crate) fn take_step<L: Ledger>(place: &Place, target: &mut Target<'_, L>) -> Result<(), Failure>
    ensures path { target.new.path ≡ target.old.path }
    ensures tree { target.new.tree ≡ target.old.tree }
    ensures fills { FillsTarget result target.old target.new (visit place.now) }
    ensures counted { total target.new ≡ total target.old }
    ensures lent { KeepsLoan target.old target.new }
{
    if target.work.left == 0 {
        return Err(fault(target.alloc, Code::WorkSpent, place));
    }
    target.work.left -= 1;
    target.steps.tick();
    Ok(())
}
