ghost use Rattle.std.specs.Prelude.{◌≡◌, ◌++◌, IfOk, OnOk, true, ◌&&◌};
ghost use Rattle.std.specs.List.{flat_map, list_all};
ghost use Rattle.base.specs.Answers.{Gives};
ghost use Rattle.builtins_tree.specs.Kinds.{is_dict, is_list};
ghost use Rattle.builtins_tree.specs.Merges.{are_distinct, merge_of, pairs_of, united};
ghost use Rattle.builtins_tree.specs.Pairs.{has_value};
ghost use Rattle.call_values.specs.Children.{children};
ghost use Rattle.path_tree.specs.Find.{kind_of};
ghost use Rattle.path_tree.specs.Lists.{list_of};
ghost use Rattle.path_tree.specs.Refusals.{refusal};

use crate::kinds::{is_dict, is_list};
use crate::pairs::{Pair, dict_in_turn};
use call_values::{child_count, push_children};
use path_tree::{Kind, Refused, Tree};
use std::alloc::{AllocError, Global};
use std::collections::HashSet;

/// Lists in a row as one, or the dict of the fields of dicts of which no key stands in two.
pub(crate) fn merge(alloc: Global, args: &[Tree]) -> Result<Tree, Refused>
    ensures { Gives (λ t. t) refusal result (merge_of args.now) }
{
    if args.is_empty() {
        return Err(Refused::BadArgument);
    }
    if are_lists(args) {
        return joined_lists(alloc, args);
    }
    if are_dicts(args) {
        return united_dicts(alloc, args);
    }
    Err(Refused::BadArgument)
}

fn are_lists(trees: &[Tree]) -> bool
    ensures { result ≡ list_all (λ v. is_list (kind_of v)) trees.now }
{
    trees.iter().all(|tree| is_list(tree.kind()))
}

fn are_dicts(trees: &[Tree]) -> bool
    ensures { result ≡ list_all (λ v. is_dict (kind_of v)) trees.now }
{
    trees.iter().all(|tree| is_dict(tree.kind()))
}

fn joined_lists(alloc: Global, lists: &[Tree]) -> Result<Tree, Refused>
    ensures { Gives (λ t. t) refusal result (list_of (flat_map children lists.now)) }
{
    let mut items = Vec::new(alloc);
    for list in lists {
        push_all(&mut items, list)?;
    }
    Tree::list(alloc, items)
}

fn push_all(items: &mut Vec<Tree>, list: &Tree) -> Result<(), AllocError>
    ensures { OnOk result (items.new.items ≡ items.old.items ++ children list.now) }
{
    push_children(items, list, 0, child_count(list))
}

fn united_dicts(alloc: Global, dicts: &[Tree]) -> Result<Tree, Refused>
    ensures { Gives (λ t. t) refusal result (united (flat_map pairs_of dicts.now)) }
{
    let mut pairs = Vec::new(alloc);
    for dict in dicts {
        push_pairs(&mut pairs, dict)?;
    }
    if !are_distinct(alloc, &pairs)? {
        return Err(Refused::BadArgument);
    }
    dict_in_turn(alloc, &pairs)
}

/// Adds the fields of a dict.
fn push_pairs(pairs: &mut Vec<Pair>, dict: &Tree) -> Result<(), AllocError>
    ensures pairs { OnOk result (pairs.new.items ≡ pairs.old.items ++ pairs_of dict.now) }
    ensures values { OnOk result (list_all has_value pairs.old.items ≡ true
        → list_all has_value pairs.new.items ≡ true) }
{
    let Kind::Dict = dict.kind() else {
        return Ok(());
    };
    for i in 0..dict.len() {
        let Some(key) = dict.key_handle(i) else {
            unreachable!();
        };
        let Some(value) = dict.child_at(i) else {
            unreachable!();
        };
        let key = key.share()?;
        let value = value.copy()?;
        pairs.push(Pair { key, value })?;
    }
    Ok(())
}

/// Whether no key stands twice.
fn are_distinct(alloc: Global, pairs: &[Pair]) -> Result<bool, AllocError>
    ensures { IfOk result (λ distinct. distinct ≡ are_distinct pairs.now) }
{
    let mut later = HashSet::new(alloc);
    for i in (0..pairs.len()).rev() {
        let key = pairs[i].key.text_handle().share()?;
        if !later.insert(key)? {
            return Ok(false);
        }
    }
    Ok(true)
}
