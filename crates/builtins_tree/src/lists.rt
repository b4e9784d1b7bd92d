ghost use Rattle.std.specs.Prelude.{◌≡◌, IfOk};
ghost use Rattle.base.specs.Answers.{Gives};
ghost use Rattle.builtins_tree.specs.Lists.{append_of, or_empty_list, prepend_of};
ghost use Rattle.path_tree.specs.Lists.{list_of};
ghost use Rattle.path_tree.specs.Refusals.{refusal};

use call_values::{Arguments, by_count};
use path_tree::{Kind, Refused, Tree};
use std::alloc::{AllocError, Global};

/// The list of the arguments.
pub(crate) fn list(alloc: Global, args: &[Tree]) -> Result<Tree, Refused>
    ensures { Gives (λ t. t) refusal result (list_of args.now) }
{
    let items = copies(alloc, args)?;
    Tree::list(alloc, items)
}

/// Copies, which share what the trees hold.
fn copies(alloc: Global, trees: &[Tree]) -> Result<Vec<Tree>, AllocError>
    ensures { IfOk result (λ made. made.items ≡ trees.now) }
{
    let mut made = Vec::with_capacity(alloc, trees.len())?;
    for tree in trees {
        made.push(tree.copy()?)?;
    }
    Ok(made)
}

/// A list with a value behind its last item.
pub(crate) fn append(alloc: Global, args: &[Tree]) -> Result<Tree, Refused>
    ensures { Gives (λ t. t) refusal result (append_of args.now) }
{
    let Arguments::Two(list, value) = by_count(args) else {
        return Err(Refused::BadArgument);
    };
    let mut list = or_empty_list(alloc, list)?;
    list.push(alloc, value.copy()?)?;
    Ok(list)
}

/// A list with a value in front of its first item.
pub(crate) fn prepend(alloc: Global, args: &[Tree]) -> Result<Tree, Refused>
    ensures { Gives (λ t. t) refusal result (prepend_of args.now) }
{
    let Arguments::Two(list, value) = by_count(args) else {
        return Err(Refused::BadArgument);
    };
    let mut list = or_empty_list(alloc, list)?;
    list.push_front(alloc, value.copy()?)?;
    Ok(list)
}

/// A copy; an empty list for undef.
fn or_empty_list(alloc: Global, tree: &Tree) -> Result<Tree, AllocError>
    ensures { IfOk result (λ t. t ≡ or_empty_list tree.now) }
{
    match tree.kind() {
        Kind::Undef => Tree::empty_list(alloc),
        _ => tree.copy(),
    }
}
