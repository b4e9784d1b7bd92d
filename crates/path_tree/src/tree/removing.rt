ghost use Rattle.std.specs.Prelude.{◌≡◌, ◌<◌, ◌∷◌, [], IsSome, OnErr, OnOk, length};
ghost use Rattle.path_tree.specs.Find.{get};
ghost use Rattle.path_tree.specs.Kept.{IsInside};
ghost use Rattle.path_tree.specs.Position.{Stands};
ghost use Rattle.path_tree.specs.Remove.{remove};
ghost use Rattle.path_tree.specs.View.{IsDict, IsList, dict_seen, list_seen};
ghost use Rattle.path_tree.specs.declared.path.Term.TheVariants as term;

use super::{Dict, Items, Node, Tree, dicts, lists};
use crate::key::Key;
use crate::path::Term;
use std::alloc::{AllocError, Global};
use std::rc::Rc;

// Removes what stands at a path.
#[cycle(remove)]
pub(super) fn remove_in(alloc: Global, tree: &mut Tree, terms: &[Term]) -> Result<(), AllocError>
    requires some { 0 < length terms.now }
    requires there { IsSome (get terms.now tree.old) }
    ensures ok { OnOk result (tree.new ≡ remove terms.now tree.old) }
    ensures inside { OnOk result (IsInside tree.new) }
    ensures before { OnErr result (tree.new ≡ tree.old) }
{
    let [term, rest @ ..] = terms else {
        return Ok(());
    };
    match &mut tree.node {
        Node::Dict(dict) => match term {
            Term::Key(key) => remove_key(alloc, dict, key, rest),
            Term::Index(_) => unreachable!(),
        },
        Node::List(list) => match term {
            Term::Index(index) => remove_index(alloc, list, *index as usize, rest),
            Term::Key(_) => unreachable!(),
        },
        Node::Text(_) | Node::Long(_) | Node::Boolean(_) | Node::Undef | Node::Null => {
            unreachable!()
        }
    }
}

#[cycle(remove)]
fn remove_key(
    alloc: Global,
    dict: &mut Rc<Dict>,
    key: &Key,
    terms: &[Term],
) -> Result<(), AllocError>
    requires kept { IsDict dict.old.value }
    requires there { IsSome (get (term.Key key.now ∷ terms.now) (dict_seen dict.old.value)) }
    ensures ok { OnOk result
        (dict_seen dict.new.value
        ≡ remove (term.Key key.now ∷ terms.now) (dict_seen dict.old.value)) }
    ensures before { OnErr result (dict_seen dict.new.value ≡ dict_seen dict.old.value) }
    ensures kept { IsDict dict.new.value }
{
    if let Some(own) = Rc::get_mut(dict) {
        return remove_field(alloc, own, key, terms);
    }
    let mut copy = dicts::copy(alloc, dict)?;
    remove_field(alloc, &mut copy, key, terms)?;
    *dict = Rc::new(alloc, copy)?;
    Ok(())
}

#[cycle(remove)]
fn remove_field(alloc: Global, dict: &mut Dict, key: &Key, terms: &[Term]) -> Result<(), AllocError>
    requires kept { IsDict dict.old }
    requires there { IsSome (get (term.Key key.now ∷ terms.now) (dict_seen dict.old)) }
    ensures ok { OnOk result
        (dict_seen dict.new ≡ remove (term.Key key.now ∷ terms.now) (dict_seen dict.old)) }
    ensures before { OnErr result (dict_seen dict.new ≡ dict_seen dict.old) }
    ensures kept { IsDict dict.new }
{
    match dicts::position(&dict.entries, key) {
        Err(_) => Ok(()),
        Ok(at) => {
            if terms.is_empty() {
                drop_field(dict, at, key);
                Ok(())
            } else {
                remove_below(alloc, dict, at, key, terms)
            }
        }
    }
}

// The key stands at this index.
fn drop_field(dict: &mut Dict, at: usize, key: &Key)
    requires kept { IsDict dict.old }
    requires stands { Stands key.now dict.old.entries.items at }
    ensures removed { dict_seen dict.new ≡ remove (term.Key key.now ∷ []) (dict_seen dict.old) }
    ensures kept { IsDict dict.new }
{
    let gone = dict.entries[at].value.measure();
    dict.entries.remove(at);
    dicts::measure_loss(dict, gone);
}

#[cycle(remove)]
fn remove_below(
    alloc: Global,
    dict: &mut Dict,
    at: usize,
    key: &Key,
    terms: &[Term],
) -> Result<(), AllocError>
    requires kept { IsDict dict.old }
    requires stands { Stands key.now dict.old.entries.items at }
    requires some { 0 < length terms.now }
    requires there { IsSome (get (term.Key key.now ∷ terms.now) (dict_seen dict.old)) }
    ensures ok { OnOk result
        (dict_seen dict.new ≡ remove (term.Key key.now ∷ terms.now) (dict_seen dict.old)) }
    ensures before { OnErr result (dict_seen dict.new ≡ dict_seen dict.old) }
    ensures kept { IsDict dict.new }
{
    let before = dict.entries[at].value.measure();
    remove_in(alloc, &mut dict.entries[at].value, terms)?;
    let after = dict.entries[at].value.measure();
    dicts::measure_change(dict, before, after);
    Ok(())
}

#[cycle(remove)]
fn remove_index(
    alloc: Global,
    list: &mut Rc<Items>,
    index: usize,
    terms: &[Term],
) -> Result<(), AllocError>
    requires kept { IsList list.old.value }
    requires there { IsSome (get (term.Index index ∷ terms.now) (list_seen list.old.value)) }
    ensures ok { OnOk result
        (list_seen list.new.value
        ≡ remove (term.Index index ∷ terms.now) (list_seen list.old.value)) }
    ensures before { OnErr result (list_seen list.new.value ≡ list_seen list.old.value) }
    ensures kept { IsList list.new.value }
{
    if let Some(own) = Rc::get_mut(list) {
        return remove_item(alloc, own, index, terms);
    }
    let mut copy = lists::copy(alloc, list)?;
    remove_item(alloc, &mut copy, index, terms)?;
    *list = Rc::new(alloc, copy)?;
    Ok(())
}

#[cycle(remove)]
fn remove_item(
    alloc: Global,
    list: &mut Items,
    index: usize,
    terms: &[Term],
) -> Result<(), AllocError>
    requires kept { IsList list.old }
    requires there { IsSome (get (term.Index index ∷ terms.now) (list_seen list.old)) }
    ensures ok { OnOk result
        (list_seen list.new ≡ remove (term.Index index ∷ terms.now) (list_seen list.old)) }
    ensures before { OnErr result (list_seen list.new ≡ list_seen list.old) }
    ensures kept { IsList list.new }
{
    if index < list.items.len() {
        if terms.is_empty() {
            drop_item(list, index);
            Ok(())
        } else {
            remove_under(alloc, list, index, terms)
        }
    } else {
        Ok(())
    }
}

fn drop_item(list: &mut Items, index: usize)
    requires kept { IsList list.old }
    requires index { index < length list.old.items.items }
    ensures removed { list_seen list.new ≡ remove (term.Index index ∷ []) (list_seen list.old) }
    ensures kept { IsList list.new }
{
    let gone = list.items[index].measure();
    list.items.remove(index);
    lists::measure_loss(list, gone);
}

#[cycle(remove)]
fn remove_under(
    alloc: Global,
    list: &mut Items,
    index: usize,
    terms: &[Term],
) -> Result<(), AllocError>
    requires kept { IsList list.old }
    requires index { index < length list.old.items.items }
    requires some { 0 < length terms.now }
    requires there { IsSome (get (term.Index index ∷ terms.now) (list_seen list.old)) }
    ensures ok { OnOk result
        (list_seen list.new ≡ remove (term.Index index ∷ terms.now) (list_seen list.old)) }
    ensures before { OnErr result (list_seen list.new ≡ list_seen list.old) }
    ensures kept { IsList list.new }
{
    let before = list.items[index].measure();
    remove_in(alloc, &mut list.items[index], terms)?;
    let after = list.items[index].measure();
    lists::measure_change(list, before, after);
    Ok(())
}
