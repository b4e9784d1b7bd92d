ghost use Rattle.std.specs.Prelude.{◌≡◌, ◌<◌, ◌≤◌, ◌^◌, ◌∷◌, OnOk, OnErr, IfOk, length};
ghost use Rattle.path_tree.specs.Kept.{CanWalk, FitsMade, IsInside, Walks};
ghost use Rattle.path_tree.specs.Position.{Stands, Lacks};
ghost use Rattle.path_tree.specs.Put.{chain};
ghost use Rattle.path_tree.specs.View.{IsDict, IsList, dict_seen, list_seen};
ghost use Rattle.path_tree.specs.declared.path.Term.TheVariants as term;

use super::{Dict, Entry, Items, Node, Tree, dicts, lists};
use crate::key::Key;
use crate::path::Term;
use std::alloc::{AllocError, Global};
use std::rc::Rc;

// Puts a value where the walk goes through and the limits are kept.
#[cycle(put)]
pub(super) fn put_in(
    alloc: Global,
    tree: &mut Tree,
    terms: &[Term],
    value: Tree,
) -> Result<(), AllocError>
    requires fits { CanWalk terms.now value tree.old }
    requires inside { IsInside value }
    ensures ok { OnOk result (Walks terms.now value tree.old tree.new) }
    ensures inside { OnOk result (IsInside tree.new) }
    ensures before { OnErr result (tree.new ≡ tree.old) }
{
    let [term, rest @ ..] = terms else {
        *tree = value;
        return Ok(());
    };
    match &mut tree.node {
        Node::Dict(dict) => match term {
            Term::Key(key) => put_key(alloc, dict, key, rest, value),
            Term::Index(_) => unreachable!(),
        },
        Node::List(list) => match term {
            Term::Index(index) => put_index(alloc, list, *index as usize, rest, value),
            Term::Key(_) => unreachable!(),
        },
        Node::Undef | Node::Null => {
            *tree = made(alloc, terms, value)?;
            Ok(())
        }
        Node::Text(_) | Node::Long(_) | Node::Boolean(_) => unreachable!(),
    }
}

// Work on a dict that this owner has alone, else on a copy that takes its place.
#[cycle(put)]
fn put_key(
    alloc: Global,
    dict: &mut Rc<Dict>,
    key: &Key,
    terms: &[Term],
    value: Tree,
) -> Result<(), AllocError>
    requires kept { IsDict dict.old.value }
    requires fits { CanWalk (term.Key key.now ∷ terms.now) value (dict_seen dict.old.value) }
    requires inside { IsInside value }
    ensures ok { OnOk result
        (Walks (term.Key key.now ∷ terms.now) value (dict_seen dict.old.value)
        (dict_seen dict.new.value)) }
    ensures before { OnErr result (dict_seen dict.new.value ≡ dict_seen dict.old.value) }
    ensures kept { IsDict dict.new.value }
{
    if let Some(own) = Rc::get_mut(dict) {
        return put_field(alloc, own, key, terms, value);
    }
    let mut copy = dicts::copy(alloc, dict)?;
    put_field(alloc, &mut copy, key, terms, value)?;
    *dict = Rc::new(alloc, copy)?;
    Ok(())
}

#[cycle(put)]
fn put_field(
    alloc: Global,
    dict: &mut Dict,
    key: &Key,
    terms: &[Term],
    value: Tree,
) -> Result<(), AllocError>
    requires kept { IsDict dict.old }
    requires fits { CanWalk (term.Key key.now ∷ terms.now) value (dict_seen dict.old) }
    requires inside { IsInside value }
    ensures ok { OnOk result
        (Walks (term.Key key.now ∷ terms.now) value (dict_seen dict.old) (dict_seen dict.new)) }
    ensures before { OnErr result (dict_seen dict.new ≡ dict_seen dict.old) }
    ensures kept { IsDict dict.new }
{
    match dicts::position(&dict.entries, key) {
        Ok(at) => change_field(alloc, dict, at, key, terms, value),
        Err(at) => add_field(alloc, dict, at, key, terms, value),
    }
}

// The key stands at this index.
#[cycle(put)]
fn change_field(
    alloc: Global,
    dict: &mut Dict,
    at: usize,
    key: &Key,
    terms: &[Term],
    value: Tree,
) -> Result<(), AllocError>
    requires kept { IsDict dict.old }
    requires stands { Stands key.now dict.old.entries.items at }
    requires fits { CanWalk (term.Key key.now ∷ terms.now) value (dict_seen dict.old) }
    requires inside { IsInside value }
    ensures ok { OnOk result
        (Walks (term.Key key.now ∷ terms.now) value (dict_seen dict.old) (dict_seen dict.new)) }
    ensures before { OnErr result (dict_seen dict.new ≡ dict_seen dict.old) }
    ensures kept { IsDict dict.new }
{
    let before = dict.entries[at].value.measure();
    put_in(alloc, &mut dict.entries[at].value, terms, value)?;
    let after = dict.entries[at].value.measure();
    dicts::measure_change(dict, before, after);
    Ok(())
}

// The key would stand at this index.
pub(super) fn add_field(
    alloc: Global,
    dict: &mut Dict,
    at: usize,
    key: &Key,
    terms: &[Term],
    value: Tree,
) -> Result<(), AllocError>
    requires kept { IsDict dict.old }
    requires lacks { Lacks key.now dict.old.entries.items at }
    requires fits { CanWalk (term.Key key.now ∷ terms.now) value (dict_seen dict.old) }
    requires inside { IsInside value }
    ensures ok { OnOk result
        (Walks (term.Key key.now ∷ terms.now) value (dict_seen dict.old) (dict_seen dict.new)) }
    ensures before { OnErr result (dict_seen dict.new ≡ dict_seen dict.old) }
    ensures kept { IsDict dict.new }
{
    let value = made(alloc, terms, value)?;
    let added = value.measure();
    let entry = dicts::entry(key, value)?;
    dict.entries.insert(at, entry)?;
    dict.size += added.size;
    dict.height = dict.height.max(added.height + 1);
    Ok(())
}

#[cycle(put)]
fn put_index(
    alloc: Global,
    list: &mut Rc<Items>,
    index: usize,
    terms: &[Term],
    value: Tree,
) -> Result<(), AllocError>
    requires index { index < 2 ^ 32 }
    requires kept { IsList list.old.value }
    requires fits { CanWalk (term.Index index ∷ terms.now) value (list_seen list.old.value) }
    requires inside { IsInside value }
    ensures ok { OnOk result
        (Walks (term.Index index ∷ terms.now) value (list_seen list.old.value)
        (list_seen list.new.value)) }
    ensures before { OnErr result (list_seen list.new.value ≡ list_seen list.old.value) }
    ensures kept { IsList list.new.value }
{
    if let Some(own) = Rc::get_mut(list) {
        return put_item(alloc, own, index, terms, value);
    }
    let mut copy = lists::copy(alloc, list)?;
    put_item(alloc, &mut copy, index, terms, value)?;
    *list = Rc::new(alloc, copy)?;
    Ok(())
}

#[cycle(put)]
fn put_item(
    alloc: Global,
    list: &mut Items,
    index: usize,
    terms: &[Term],
    value: Tree,
) -> Result<(), AllocError>
    requires index { index < 2 ^ 32 }
    requires kept { IsList list.old }
    requires fits { CanWalk (term.Index index ∷ terms.now) value (list_seen list.old) }
    requires inside { IsInside value }
    ensures ok { OnOk result
        (Walks (term.Index index ∷ terms.now) value (list_seen list.old) (list_seen list.new)) }
    ensures before { OnErr result (list_seen list.new ≡ list_seen list.old) }
    ensures kept { IsList list.new }
{
    if index < list.items.len() {
        change_item(alloc, list, index, terms, value)
    } else {
        add_item(alloc, list, index, terms, value)
    }
}

// An item stands at this index.
#[cycle(put)]
fn change_item(
    alloc: Global,
    list: &mut Items,
    index: usize,
    terms: &[Term],
    value: Tree,
) -> Result<(), AllocError>
    requires index { index < length list.old.items.items }
    requires kept { IsList list.old }
    requires fits { CanWalk (term.Index index ∷ terms.now) value (list_seen list.old) }
    requires inside { IsInside value }
    ensures ok { OnOk result
        (Walks (term.Index index ∷ terms.now) value (list_seen list.old) (list_seen list.new)) }
    ensures before { OnErr result (list_seen list.new ≡ list_seen list.old) }
    ensures kept { IsList list.new }
{
    let before = list.items[index].measure();
    put_in(alloc, &mut list.items[index], terms, value)?;
    let after = list.items[index].measure();
    lists::measure_change(list, before, after);
    Ok(())
}

// The index is past the end.
fn add_item(
    alloc: Global,
    list: &mut Items,
    index: usize,
    terms: &[Term],
    value: Tree,
) -> Result<(), AllocError>
    requires index { index < 2 ^ 32 }
    requires past { length list.old.items.items ≤ index }
    requires kept { IsList list.old }
    requires fits { CanWalk (term.Index index ∷ terms.now) value (list_seen list.old) }
    requires inside { IsInside value }
    ensures ok { OnOk result
        (Walks (term.Index index ∷ terms.now) value (list_seen list.old) (list_seen list.new)) }
    ensures before { OnErr result (list_seen list.new ≡ list_seen list.old) }
    ensures kept { IsList list.new }
{
    let value = made(alloc, terms, value)?;
    let added = value.measure();
    let filled = index - list.items.len();
    lists::extend(&mut list.items, index, value)?;
    list.size += filled as u64 + added.size;
    list.height = list.height.max(added.height + 1);
    Ok(())
}

// The tree of what is put where nothing was.
fn made(alloc: Global, terms: &[Term], value: Tree) -> Result<Tree, AllocError>
    requires fits { FitsMade (chain terms.now value) }
    requires inside { IsInside value }
    ensures ok { IfOk result (λ t. t ≡ chain terms.now value) }
    ensures inside { IfOk result IsInside }
{
    let mut tree = value;
    let mut i = terms.len();
    while 0 < i {
        i -= 1;
        tree = match &terms[i] {
            Term::Key(key) => dicts::one_field(alloc, key, tree)?,
            Term::Index(index) => lists::one_item(alloc, *index as usize, tree)?,
        };
    }
    Ok(tree)
}
