ghost use Rattle.std.specs.Prelude.{◌≡◌, ◌≢◌, ◌∷◌, ℕ, [], List, None, OnErr, OnOk};
ghost use Rattle.base.specs.Answers.{Gives};
ghost use Rattle.path_tree.specs.Dicts.{put_new};
ghost use Rattle.path_tree.specs.Find.{find_field};
ghost use Rattle.path_tree.specs.Kept.{CanWalk, IsInside, Walks};
ghost use Rattle.path_tree.specs.Lists.{is_too_large, within_limits};
ghost use Rattle.path_tree.specs.Plain.{IsTree};
ghost use Rattle.path_tree.specs.Plain as plain;
ghost use Rattle.path_tree.specs.Position.{Lacks};
ghost use Rattle.path_tree.specs.Put.{put_field};
ghost use Rattle.path_tree.specs.Refusals.{refusal};
ghost use Rattle.path_tree.specs.View.{IsDict, dict_seen, fields_of};
ghost use Rattle.path_tree.specs.declared.path.Term.TheVariants as term;

use super::{Dict, Tree, dicts, putting};
use crate::key::Key;
use crate::refused::Refused;
use base::limits::{MAX_TREE_HEIGHT, MAX_TREE_SIZE};
use std::alloc::{AllocError, Global};
use std::rc::Rc;

// Puts a value at a key that is not there.
pub(super) fn put_new(
    alloc: Global,
    dict: &mut Rc<Dict>,
    key: &Key,
    value: &Tree,
) -> Result<(), Refused>
    requires kept { IsDict dict.old.value }
    requires some { value.now ≢ plain.null }
    ensures gives { Gives (λ _. dict_seen dict.new.value) refusal result
        (put_new key.now value.now (dict_seen dict.old.value)) }
    ensures before { OnErr result (dict_seen dict.new.value ≡ dict_seen dict.old.value) }
    ensures kept { IsDict dict.new.value }
{
    match dicts::position(&dict.entries, key) {
        Ok(_) => Ok(()),
        Err(at) => put_lacking(alloc, dict, at, key, value),
    }
}

// The key would stand at this index.
fn put_lacking(
    alloc: Global,
    dict: &mut Rc<Dict>,
    at: usize,
    key: &Key,
    value: &Tree,
) -> Result<(), Refused>
    requires kept { IsDict dict.old.value }
    requires lacks { Lacks key.now dict.old.value.entries.items at }
    requires some { value.now ≢ plain.null }
    ensures gives { Gives (λ _. dict_seen dict.new.value) refusal result
        (within_limits
        (plain.dict (put_field key.now value.now (fields_of dict.old.value.entries.items)))) }
    ensures before { OnErr result (dict_seen dict.new.value ≡ dict_seen dict.old.value) }
    ensures kept { IsDict dict.new.value }
{
    if is_full(dict, value) {
        return Err(Refused::TooLarge);
    }
    add(alloc, dict, at, key, value.copy()?)?;
    Ok(())
}

// Whether the dict with this value at a key that is not there is past the limits.
fn is_full(dict: &Dict, value: &Tree) -> bool
    requires { IsDict dict.now }
    ensures full { (key : List ℕ) → find_field key (fields_of dict.now.entries.items) ≡ None
        → result
        ≡ is_too_large (plain.dict (put_field key value.now (fields_of dict.now.entries.items))) }
    ensures tree { IsTree value.now }
{
    dict.size + value.size() > MAX_TREE_SIZE
        || dict.height.max(value.height() + 1) > MAX_TREE_HEIGHT
}

// Work on a dict that this owner has alone, else on a copy that takes its place.
fn add(
    alloc: Global,
    dict: &mut Rc<Dict>,
    at: usize,
    key: &Key,
    value: Tree,
) -> Result<(), AllocError>
    requires kept { IsDict dict.old.value }
    requires lacks { Lacks key.now dict.old.value.entries.items at }
    requires fits { CanWalk (term.Key key.now ∷ []) value (dict_seen dict.old.value) }
    requires inside { IsInside value }
    ensures ok { OnOk result
        (Walks (term.Key key.now ∷ []) value (dict_seen dict.old.value)
        (dict_seen dict.new.value)) }
    ensures before { OnErr result (dict_seen dict.new.value ≡ dict_seen dict.old.value) }
    ensures kept { IsDict dict.new.value }
{
    if let Some(own) = Rc::get_mut(dict) {
        return putting::add_field(alloc, own, at, key, &[], value);
    }
    let mut copy = dicts::copy(alloc, dict)?;
    putting::add_field(alloc, &mut copy, at, key, &[], value)?;
    *dict = Rc::new(alloc, copy)?;
    Ok(())
}
