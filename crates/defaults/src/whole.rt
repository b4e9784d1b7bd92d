ghost use Rattle.std.specs.Prelude.{◌≡◌, ◌+◌, OnOk};
ghost use Rattle.assign_rules.specs.Profiles.{IsLogOf};
ghost use Rattle.type_defs.specs.BindingsSeen.{bindings_seen, bound_seen, bounds_seen};
ghost use Rattle.defaults.specs.Filled.{all_filled, filled};
ghost use Rattle.defaults.specs.Fills.{Fills, FillsTarget, KeepsLoan, store, total};

use crate::filling::fill_value;
use crate::target::Target;
use base::Steps;
use pan_ast::{Change, Failure, Work};
use path_tree::Tree;
use std::alloc::Global;
use std::mem;
use std::sync::ledger::Ledger;
use type_defs::{Bindings, Bound, push_terms};

#[tactic(auto, using(crate::proofs::Lawful::leaving))]
fn fill_bound<L: Ledger>(bound: &Bound, target: &mut Target<'_, L>) -> Result<(), Failure>
    ensures fills { let b = bound_seen bound.now in FillsTarget result target.old target.new
        (filled b.place b.resolved b.terms) }
    ensures counted { total target.new ≡ total target.old }
    ensures lent { KeepsLoan target.old target.new }
{
    target.path.clear();
    push_terms(&mut target.path, bound.terms.as_slice())?;
    let found = target.standing()?;
    fill_value(
        &bound.place,
        bound.resolved.as_resolved(),
        found.as_ref(),
        target,
    )
}

#[tactic(auto, using(crate::proofs::Loops::bounds_more, crate::proofs::Lawful::leaving))]
fn fill_bounds<L: Ledger>(bounds: &[Bound], target: &mut Target<'_, L>) -> Result<(), Failure>
    ensures fills { FillsTarget result target.old target.new (all_filled (bounds_seen bounds.now)) }
    ensures counted { total target.new ≡ total target.old }
    ensures lent { KeepsLoan target.old target.new }
{
    for bound in bounds {
        fill_bound(bound, target)?;
    }
    Ok(())
}

fn fill_tree<L: Ledger>(
    alloc: Global,
    tree: &mut Tree,
    bounds: &[Bound],
    log: &mut Vec<Change>,
    work: &mut Work,
    steps: &mut Steps<L>,
) -> Result<(), Failure>
    ensures fills { Fills result (store tree.old log.old) work.old (store tree.new log.new)
        work.new (all_filled (bounds_seen bounds.now)) }
    ensures counted { steps.new + work.new.left ≡ steps.old + work.old.left }
{
    let mut target = Target {
        alloc,
        tree: mem::replace(tree, Tree::undef()),
        log: mem::replace(log, Vec::new(alloc)),
        path: Vec::new(alloc),
        work: *work,
        steps,
    };
    let filled = fill_bounds(bounds, &mut target);
    let Target {
        alloc: _,
        tree: filled_tree,
        log: longer,
        path: _path,
        work: left,
        steps: lent,
    } = target;
    // (the loan ends by itself, so that what stands behind it is known)
    let _steps = lent;
    *tree = filled_tree;
    *log = longer;
    *work = left;
    filled
}

/// Puts the defaults of the bindings, in path order, into a tree (Pan Book, "Types"), and logs what
/// it put: where the value of a binding, or of a field or an item inside, is absent or undef, and
/// its type has a default. A default that makes the tree too large or too high is F16, and work
/// that is spent F24, both at the binding. After a fault the tree and the log are unspecified. Where
/// memory is wanting, at least the work is left that the filling leaves.
pub fn fill<L: Ledger>(
    alloc: Global,
    tree: &mut Tree,
    bindings: &Bindings,
    log: &mut Vec<Change>,
    work: &mut Work,
    steps: &mut Steps<L>,
) -> Result<(), Failure>
    ensures fills { Fills result (store tree.old log.old) work.old (store tree.new log.new)
        work.new (all_filled (bindings_seen bindings.now)) }
    ensures replays { IsLogOf log.old.items tree.old
        → OnOk result (IsLogOf log.new.items tree.new) }
    ensures counted { steps.new + work.new.left ≡ steps.old + work.old.left }
{
    fill_tree(alloc, tree, bindings.bounds(), log, work, steps)
}
