ghost use Rattle.std.specs.Prelude.{◌≡◌, ◌+◌, ◌≤◌, IfOk, IfSome, max, option_copied, true};
ghost use Rattle.std.specs.Cmp.Lexicographic.{slice_cmp};
ghost use Rattle.std.specs.Ordering.{nat_cmp};
ghost use Rattle.std.specs.Str.{IsUtf8};
ghost use Rattle.path_tree.specs.Find.{field_count, field_key_at, find_field, value_at};
ghost use Rattle.path_tree.specs.Grammar.{is_key};
ghost use Rattle.path_tree.specs.Kept.{FitsMade, IsInside, IsLessened, IsRemeasured};
ghost use Rattle.path_tree.specs.Plain.{AreFields, dict, field, no_fields, tree_height, tree_size};
ghost use Rattle.path_tree.specs.Position.{IsPosition};
ghost use Rattle.path_tree.specs.View.{dict_seen, fields_of};

use super::{Dict, Entry, Measure, Node, Tree};
use crate::key::Key;
use std::alloc::{AllocError, Global};
use std::cmp::{Ordering, max};
use std::rc::Rc;

#[tactic(auto, using(crate::proofs::Entries::entry_lemmas))]
pub(super) fn count(entries: &[Entry]) -> usize
    ensures { result ≡ field_count (fields_of entries.now) }
{
    entries.len()
}

#[tactic(auto, using(crate::proofs::Entries::entry_lemmas))]
pub(super) fn key_at(entries: &[Entry], i: usize) -> Option<&Key>
    ensures { option_copied result ≡ field_key_at i (fields_of entries.now) }
{
    if i < entries.len() {
        Some(&entries[i].key)
    } else {
        None
    }
}

#[tactic(auto, using(crate::proofs::Entries::entry_lemmas))]
pub(super) fn value_at(entries: &[Entry], i: usize) -> Option<&Tree>
    ensures { option_copied result ≡ value_at i (fields_of entries.now) }
{
    if i < entries.len() {
        Some(&entries[i].value)
    } else {
        None
    }
}

// Where the key stands among the entries, or where it would.
pub(super) fn position(entries: &[Entry], key: &Key) -> Result<usize, usize>
    requires { AreFields (fields_of entries.now) }
    ensures { IsPosition key.now entries.now result }
{
    position_of(entries, key.as_str())
}

// The same of a key's text. Keys mostly come in order, so the last entry is looked at first.
fn position_of(entries: &[Entry], key: &str) -> Result<usize, usize>
    requires { AreFields (fields_of entries.now) }
    ensures { IsPosition key.now entries.now result }
{
    let count = entries.len();
    if count == 0 {
        return Err(0);
    }
    match entries[count - 1].key.as_str().cmp(key) {
        Ordering::Less => Err(count),
        Ordering::Equal => Ok(count - 1),
        Ordering::Greater => searched(entries, key),
    }
}

// The same, by halves.
fn searched(entries: &[Entry], key: &str) -> Result<usize, usize>
    requires { AreFields (fields_of entries.now) }
    ensures { IsPosition key.now entries.now result }
{
    entries.binary_search_by(
        |entry| -> Ordering
            ensures { result ≡ slice_cmp nat_cmp entry.now.key key.entry.now }
        { entry.key.as_str().cmp(key) },
    )
}

pub(super) fn find<'a>(entries: &'a [Entry], key: &Key) -> Option<&'a Tree>
    requires { AreFields (fields_of entries.now) }
    ensures { option_copied result ≡ find_field key.now (fields_of entries.now) }
{
    find_text(entries, key.as_str())
}

pub(super) fn find_text<'a>(entries: &'a [Entry], key: &str) -> Option<&'a Tree>
    requires { AreFields (fields_of entries.now) }
    ensures { option_copied result ≡ find_field key.now (fields_of entries.now) }
{
    if entries.len() <= MAX_SCANNED {
        return scanned(entries, key);
    }
    match position_of(entries, key) {
        Ok(at) => Some(&entries[at].value),
        Err(_) => None,
    }
}

// How many entries are looked through one by one: most keys differ in their lengths.
const MAX_SCANNED: usize = 8;

// The same, one by one.
fn scanned<'a>(entries: &'a [Entry], key: &str) -> Option<&'a Tree>
    requires { AreFields (fields_of entries.now) }
    ensures { option_copied result ≡ find_field key.now (fields_of entries.now) }
{
    'entries: for entry in entries {
        if entry.key.spells(key) {
            return Some(&entry.value);
        }
    }
    None
}

// The dict once more, with the same entries and room for one more: mostly it is copied to get one.
pub(super) fn copy(alloc: Global, dict: &Dict) -> Result<Dict, AllocError>
    ensures { IfOk result (λ d. (d.entries.items ≡ dict.now.entries.items)
        × (d.size ≡ dict.now.size) × (d.height ≡ dict.now.height)) }
{
    let mut entries = Vec::with_capacity(alloc, dict.entries.len().saturating_add(1))?;
    for entry in &dict.entries {
        entries.push(Entry {
            key: entry.key.share()?,
            value: entry.value.copy()?,
        })?;
    }
    Ok(Dict {
        entries,
        size: dict.size,
        height: dict.height,
    })
}

pub(super) fn entry(key: &Key, value: Tree) -> Result<Entry, AllocError>
    ensures entry { IfOk result (λ e. (e.key ≡ key.now) × (e.value ≡ value)) }
    ensures key { is_key key.now ≡ true }
{
    let _text = key.as_str();
    let key = key.share()?;
    Ok(Entry { key, value })
}

// A dict with one field.
pub(super) fn one_field(alloc: Global, key: &Key, value: Tree) -> Result<Tree, AllocError>
    requires fits { FitsMade (dict (field key.now value no_fields)) }
    requires inside { IsInside value }
    ensures ok { IfOk result (λ t. t ≡ dict (field key.now value no_fields)) }
    ensures inside { IfOk result IsInside }
{
    let size = 1 + value.size();
    let height = 1 + value.height();
    let entry = entry(key, value)?;
    let mut entries = Vec::with_capacity(alloc, 1)?;
    entries.push(entry)?;
    let dict = Dict {
        entries,
        size,
        height,
    };
    Ok(Tree {
        node: Node::Dict(Rc::new(alloc, dict)?),
    })
}

// Keeps the size and the height where a child of one measure has become one of another.
pub(super) fn measure_change(dict: &mut Dict, before: Measure, after: Measure)
    requires measured { IsRemeasured
        (dict_seen dict.old) dict.old.size dict.old.height before after }
    requires fits { FitsMade (dict_seen dict.old) }
    ensures entries { dict.new.entries.items ≡ dict.old.entries.items }
    ensures size { dict.new.size ≡ tree_size (dict_seen dict.new) }
    ensures height { dict.new.height ≡ tree_height (dict_seen dict.new) }
{
    dict.size = dict.size - before.size + after.size;
    if after.height + 1 >= dict.height {
        dict.height = after.height + 1;
    } else if before.height + 1 == dict.height {
        dict.height = height_of(&dict.entries);
    }
}

// Keeps the size and the height where a child of this measure is gone.
pub(super) fn measure_loss(dict: &mut Dict, gone: Measure)
    requires measured { IsLessened (dict_seen dict.old) dict.old.size dict.old.height gone }
    requires fits { FitsMade (dict_seen dict.old) }
    ensures entries { dict.new.entries.items ≡ dict.old.entries.items }
    ensures size { dict.new.size ≡ tree_size (dict_seen dict.new) }
    ensures height { dict.new.height ≡ tree_height (dict_seen dict.new) }
{
    dict.size -= gone.size;
    if gone.height + 1 == dict.height {
        dict.height = height_of(&dict.entries);
    }
}

fn height_of(entries: &[Entry]) -> u64
    ensures { result ≡ tree_height (dict (fields_of entries.now)) }
{
    let mut height = 1;
    for entry in entries {
        height = max(height, 1 + entry.value.height());
    }
    height
}
