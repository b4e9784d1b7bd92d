//! The paths that a settling enters. All memory is taken before any of them is.

ghost use Rattle.std.specs.Prelude.{◌≡◌, [], ◌∷◌, ◌++◌, IfOk, OnOk, true, map};
ghost use Rattle.object_names.specs.Objects.{are_rising};
ghost use Rattle.questions.specs.declared.key.Key.TheVariants.{Under};
ghost use Rattle.read_sets.specs.Items.{pair_of, pairs_of};
ghost use Rattle.engine_laws.specs.Engine.{is_among};
ghost use Rattle.engine_turns.specs.Places.{names};
ghost use Rattle.engine_turns.specs.Entering.{entry_pair, is_wanted, wanted, IsEntered};

use crate::rows::{Row, row_place};
use path_numbers::{FreshPath, fresh_path};
use path_tree::{Name, Term};
use read_sets::{Item, Key};
use std::alloc::{AllocError, Global};

/// A path of an object with a number, ready to be entered.
#[derive(Drop)]
pub struct Entry {
    object: Name,
    path: FreshPath,
}

/// Whether an object has this name.
fn is_object<T>(rows: &[Row<T>], name: &Name) -> bool
    requires { are_rising (names rows.now) ≡ true }
    ensures { result ≡ is_among name.now (names rows.now) }
{
    match row_place(rows, name) {
        None => false,
        Some(_place) => true,
    }
}

/// Whether an item is one of an object, from number 3 on.
fn is_wanted<T>(rows: &[Row<T>], item: &Item) -> bool
    requires { are_rising (names rows.now) ≡ true }
    ensures { result ≡ is_wanted (names rows.now) (pair_of item.now) }
{
    match &item.key {
        Key::File(_name) => false,
        Key::Under { object, .. } => is_object(rows, object) && item.number >= 3,
    }
}

/// The entry of a path of an object.
pub fn entry_of(
    alloc: Global,
    object: &Name,
    terms: &[Term],
    number: u64,
) -> Result<Entry, AllocError>
    ensures { IfOk result (λ made. entry_pair made ≡ (Under object.now terms.now, number)) }
{
    let path = fresh_path(alloc, terms, number)?;
    let object = object.share()?;
    Ok(Entry { object, path })
}

/// The entry of an item comes behind others, if it is one of an object, from number 3 on.
fn add_entry<T>(
    alloc: Global,
    rows: &[Row<T>],
    made: &mut Vec<Entry>,
    item: &Item,
) -> Result<(), AllocError>
    requires { are_rising (names rows.now) ≡ true }
    ensures { OnOk result (map entry_pair made.new.items ≡ map entry_pair made.old.items
        ++ wanted (names rows.now) (pair_of item.now ∷ [])) }
{
    if !is_wanted(rows, item) {
        return Ok(());
    }
    let Key::Under { object, terms } = &item.key else {
        return Ok(());
    };
    let entry = entry_of(alloc, object, terms.as_slice(), item.number)?;
    made.push(entry)?;
    Ok(())
}

/// The entries of items.
pub(crate) fn entries_of<T>(
    alloc: Global,
    rows: &[Row<T>],
    items: &[Item],
) -> Result<Vec<Entry>, AllocError>
    requires { are_rising (names rows.now) ≡ true }
    ensures { IfOk result (λ made. map entry_pair made.items
        ≡ wanted (names rows.now) (pairs_of items.now)) }
{
    let mut made = Vec::new(alloc);
    for item in items {
        add_entry(alloc, rows, &mut made, item)?;
    }
    Ok(made)
}

/// A path is entered in the table of its object.
fn enter_one<T: Drop>(rows: &mut Vec<Row<T>>, entry: Entry)
    requires { are_rising (names rows.old.items) ≡ true }
    ensures { IsEntered (entry_pair entry ∷ []) rows.old.items rows.new.items }
{
    let Entry { object, path } = entry;
    if let Some(place) = row_place(rows, &object) {
        rows[place].paths.enter(path);
    }
}

/// Paths are entered, each in the table of its object, if it is one and the path has no number of its own from 3 on. The
/// first of several entries of a path counts. No memory is taken.
pub fn enter_all<T: Drop>(rows: &mut Vec<Row<T>>, entries: Vec<Entry>)
    requires { are_rising (names rows.old.items) ≡ true }
    ensures { IsEntered (map entry_pair entries.items) rows.old.items rows.new.items }
{
    for entry in entries {
        enter_one(rows, entry);
    }
}
