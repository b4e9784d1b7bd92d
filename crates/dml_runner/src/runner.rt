ghost use Rattle.std.specs.Prelude.{◌≡◌, ◌+◌};
ghost use Rattle.dml_meaning.specs.Structures.{dml_run};
ghost use Rattle.dml_meaning.specs.Meaning.{eval};
ghost use Rattle.dml_meaning.specs.declared.limits.TheConstants.{MAX_OPEN_ITEMS};
ghost use Rattle.dml_world.specs.Exits.{Looks};
ghost use Rattle.dml_world.specs.Seen.{around_of, is_fixed};
ghost use Rattle.pan_ast.specs.Seen.{item_seen};

use base::Steps;
use dml_world::{Around, Stop, World};
use pan_ast::{Item, Work};
use path_tree::Tree;
use std::alloc::Global;
use std::sync::ledger::Ledger;

/// Who runs DML: it gives what the DML means.
pub trait DmlRunner {
    /// The DML of a statement, a default or a test of a type: its value, which `return` gives too (Pan
    /// Book, "Data Manipulation Language"). It has locals of its own, and a SELF of its own that
    /// begins with `self_value`. Where memory is wanting, at least the work is left that the
    /// evaluation leaves where it is told what was answered by then.
    fn run_dml<W: World, L: Ledger>(
        alloc: Global,
        item: &Item,
        self_value: Tree,
        around: &Around<'_>,
        world: &mut W,
        work: &mut Work,
        steps: &mut Steps<L>,
    ) -> Result<Tree, Stop>
        ensures gives { Looks (λ t. t) result W.answers work.old (W.asked world.old) work.new
            (W.asked world.new) (dml_run (eval MAX_OPEN_ITEMS)
            (around_of around.now W.reading W.calls) (is_fixed around.now.self_use)
            self_value (item_seen item.now)) }
        ensures counted { steps.new + work.new.left ≡ steps.old + work.old.left };
}
