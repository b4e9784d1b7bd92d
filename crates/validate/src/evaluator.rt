ghost use Rattle.std.specs.Prelude.{◌≡◌, ◌+◌, List};
ghost use Rattle.pan_ast.specs.Seen.{item_seen};
ghost use Rattle.questions.specs.Contents.{Answers};
ghost use Rattle.questions.specs.declared.key.Key.{Key};
ghost use Rattle.validate.specs.Exits.{Gives};
ghost use Rattle.validate.specs.Means.{LeaveNoMore, Means, found_run};

use crate::stop::Stop;
use base::Steps;
use pan_ast::{Item, Place, Work};
use path_tree::{Name, Path, Tree};
use std::alloc::Global;
use std::sync::ledger::Ledger;

/// What evaluates items and looks at paths, for one object whose tree, globals and functions stay
/// as they are. The means and the answers belong to the type, what was asked to the value.
pub trait Evaluator {
    /// What items give, and what stands at paths.
    ghost means: { Means };

    /// The contents of the keys that it knows.
    ghost answers: { Answers };

    /// The keys asked so far, each once.
    ghost asked: { Self → List Key };

    /// Neither leaves more work than it began with.
    ghost leaves: { LeaveNoMore means };

    /// The value of an item of a template, where SELF is fixed.
    fn value<L: Ledger>(
        &mut self,
        alloc: Global,
        template: &Name,
        item: &Item,
        self_value: &Tree,
        work: &mut Work,
        steps: &mut Steps<L>,
    ) -> Result<Tree, Stop>
        ensures gives { Gives (λ t. t) result answers work.old (asked self.old) work.new
            (asked self.new) (means.dml template.now (item_seen item.now) self_value.now) }
        ensures counted { steps.new + work.new.left ≡ steps.old + work.old.left };

    /// The value at an absolute or external path, where there is one, for a binding at the place.
    fn look(
        &mut self,
        alloc: Global,
        place: &Place,
        path: &Path,
        work: &Work,
    ) -> Result<Option<Tree>, Stop>
        ensures { Gives (λ t. t) result answers work.now (asked self.old) work.now
            (asked self.new) (found_run means place.now path.now) };
}
