ghost use Rattle.std.specs.Prelude.{◌≡◌, ◌≤◌, IfOk, option_map, length, map};
ghost use Rattle.pan_blame.specs.Blamed.{leaf_seen};
ghost use Rattle.pan_blame.specs.Underway.{AreValues};
ghost use Rattle.runner.specs.Logged.{seen_log};
ghost use Rattle.fault_causes.specs.Causes.{first_leaf, setter_at, setter_within};

use pan_blame::{Leaf, blame};
use path_tree::{Name, Term};
use runner::Log;
use std::alloc::{AllocError, Global};

fn first_of(leaves: Option<Vec<Leaf>>) -> Option<Leaf>
    ensures { option_map leaf_seen result
        ≡ first_leaf (option_map (λ v. map leaf_seen v.items) leaves) }
{
    let mut leaves = leaves?;
    if leaves.is_empty() {
        return None;
    }
    Some(leaves.remove(0))
}

/// The first leaf at or below the terms, with who set it; none where nothing is there.
fn setter_at(
    alloc: Global,
    object: &Name,
    log: Log<'_>,
    terms: &[Term],
) -> Result<Option<Leaf>, AllocError>
    requires { AreValues log.changes.now }
    ensures { IfOk result (λ leaf. option_map leaf_seen leaf
        ≡ setter_at (seen_log log.entry) terms.now) }
{
    Ok(first_of(blame(alloc, object, log.header, log.changes, terms)?))
}

/// The first leaf at or below so many terms of a path, or the most of them below which there is one.
#[tactic(auto, using(crate::proofs::Above::above_on))]
pub(crate) fn setter_within(
    alloc: Global,
    object: &Name,
    log: Log<'_>,
    terms: &[Term],
    count: usize,
) -> Result<Option<Leaf>, AllocError>
    requires values { AreValues log.changes.now }
    requires within { count ≤ length terms.now }
    ensures { IfOk result (λ leaf. option_map leaf_seen leaf
        ≡ setter_within (seen_log log.entry) terms.now count) }
{
    if let Some(leaf) = setter_at(alloc, object, log, &terms[..count])? {
        return Ok(Some(leaf));
    }
    if count == 0 {
        return Ok(None);
    }
    setter_within(alloc, object, log, terms, count - 1)
}
