ghost use Rattle.std.specs.Prelude.{◌≡◌, ◌≤◌, ◌-◌, ◌++◌, IfOk, OnOk, drop, length, take};
ghost use Rattle.call_values.specs.Children.{children};

use path_tree::Tree;
use std::alloc::{AllocError, Global};

/// How many children a tree has: the items of a list, the values of a dict. Another tree has none.
#[tactic(auto, using(crate::proofs::Kids::child_count_is))]
pub fn child_count(tree: &Tree) -> usize
    ensures { result ≡ length (children tree.now) }
{
    tree.len()
}

/// Copies of the children, which share what the children hold.
pub fn copied_children(alloc: Global, tree: &Tree) -> Result<Vec<Tree>, AllocError>
    ensures { IfOk result (λ made. made.items ≡ children tree.now) }
{
    let count = child_count(tree);
    let mut made = Vec::with_capacity(alloc, count)?;
    push_children(&mut made, tree, 0, count)?;
    Ok(made)
}

/// Adds copies of the children from position `start` to before position `end`.
#[tactic(auto, using(crate::proofs::Kids::child_pushed, crate::proofs::Kids::child_there, crate::proofs::Kids::part_done, crate::proofs::Kids::child_count_is))]
pub fn push_children(
    made: &mut Vec<Tree>,
    tree: &Tree,
    start: usize,
    end: usize,
) -> Result<(), AllocError>
    requires order { start ≤ end }
    requires within { end ≤ length (children tree.now) }
    ensures { OnOk result (made.new.items
        ≡ made.old.items ++ take (end - start) (drop start (children tree.now))) }
{
    for i in start..end {
        let Some(child) = tree.child_at(i) else {
            unreachable!();
        };
        made.push(child.copy()?)?;
    }
    Ok(())
}
