//! The paths that keep their numbers at a Take: those that a kept record of an object of the new picture names.

ghost use Rattle.std.specs.Prelude.{◌≡◌, ◌++◌, ◌∷◌, [], IfOk, OnOk, Some, None, true, map};
ghost use Rattle.object_names.specs.Objects.{are_rising};
ghost use Rattle.questions.specs.declared.key.Key.TheVariants.{Under};
ghost use Rattle.read_sets.specs.Items.{pairs_of};
ghost use Rattle.engine_turns.specs.Places.{names};
ghost use Rattle.engine_turns.specs.States.{own, table_in};
ghost use Rattle.engine_turns.specs.Entering.{entry_pair};
ghost use Rattle.rebuild.specs.Keeping.{own_entry, own_entries, row_entries, kept_entries};

use engine_turns::{Entry, Row, entry_of, row_in, row_near};
use path_tree::{Name, Term};
use read_sets::{Item, Key};
use std::alloc::{AllocError, Global};

/// The number of its own that a path of an object has, below 3 where it has none.
fn own_number<T>(rows: &[Row<T>], object: &Name, terms: &[Term]) -> u64
    requires { are_rising (names rows.now) ≡ true }
    ensures { own result ≡ table_in rows.now (Under object.now terms.now) }
{
    match row_in(rows, object.as_str()) {
        None => 0,
        Some(row) => row.paths.number(terms),
    }
}

/// The entry of a key that has a number of its own comes behind others, with that number.
fn add_entry<T>(
    alloc: Global,
    rows: &[Row<T>],
    made: &mut Vec<Entry>,
    key: &Key,
) -> Result<(), AllocError>
    requires { are_rising (names rows.now) ≡ true }
    ensures { OnOk result (map entry_pair made.new.items ≡ map entry_pair made.old.items
        ++ own_entry (table_in rows.now) key.now) }
{
    let Key::Under { object, terms } = key else {
        return Ok(());
    };
    let number = own_number(rows, object, terms.as_slice());
    if number < 3 {
        return Ok(());
    }
    let entry = entry_of(alloc, object, terms.as_slice(), number)?;
    made.push(entry)?;
    Ok(())
}

/// The entries of the keys of items.
fn add_items<T>(
    alloc: Global,
    rows: &[Row<T>],
    made: &mut Vec<Entry>,
    items: &[Item],
) -> Result<(), AllocError>
    requires { are_rising (names rows.now) ≡ true }
    ensures { OnOk result (map entry_pair made.new.items ≡ map entry_pair made.old.items
        ++ own_entries (table_in rows.now) (pairs_of items.now)) }
{
    for item in items {
        add_entry(alloc, rows, made, &item.key)?;
    }
    Ok(())
}

/// The entries of the keys that the record of an object names.
fn add_row<T>(
    alloc: Global,
    rows: &[Row<T>],
    made: &mut Vec<Entry>,
    row: &Row<T>,
) -> Result<(), AllocError>
    requires { are_rising (names rows.now) ≡ true }
    ensures { OnOk result (map entry_pair made.new.items ≡ map entry_pair made.old.items
        ++ row_entries (table_in rows.now) row.now) }
{
    if let Some(build) = &row.build {
        add_items(alloc, rows, made, build.items())?;
    }
    if let Some(check) = &row.check {
        add_items(alloc, rows, made, check.reads.items())?;
    }
    Ok(())
}

/// The entries of the keys that the record of an object names, if it has a row. The row is looked for first at this place.
fn add_object<T>(
    alloc: Global,
    rows: &[Row<T>],
    made: &mut Vec<Entry>,
    near: usize,
    object: &Name,
) -> Result<(), AllocError>
    requires { are_rising (names rows.now) ≡ true }
    ensures { OnOk result (map entry_pair made.new.items ≡ map entry_pair made.old.items
        ++ kept_entries rows.now (object.now ∷ [])) }
{
    match row_near(rows, near, object) {
        None => Ok(()),
        Some(place) => add_row(alloc, rows, made, &rows[place]),
    }
}

/// The entries of the keys that the records of these objects name.
pub(crate) fn kept_entries<T>(
    alloc: Global,
    rows: &[Row<T>],
    objects: &[Name],
) -> Result<Vec<Entry>, AllocError>
    requires { are_rising (names rows.now) ≡ true }
    ensures { IfOk result (λ made. map entry_pair made.items ≡ kept_entries rows.now objects.now) }
{
    let mut made = Vec::new(alloc);
    for (at, object) in objects.iter().enumerate() {
        add_object(alloc, rows, &mut made, at, object)?;
    }
    Ok(made)
}
