//! What a Take touches, by the index of readers.

ghost use Rattle.std.specs.Prelude.{◌≡◌, ◌++◌, ◌∷◌, [], IfOk, OnOk, OnErr, true, false, cond};
ghost use Rattle.object_names.specs.Objects.{are_rising};
ghost use Rattle.questions.specs.declared.key.Key.{Key};
ghost use Rattle.read_index.specs.Readers.{asks};
ghost use Rattle.read_index.specs.Subjects.{reader_key};
ghost use Rattle.engine_laws.specs.Names.{Name};
ghost use Rattle.engine_turns.specs.Places.{column, names, file_names};
ghost use Rattle.rebuild.specs.Reaching.{touched_first, missing, touched_keys, changed_files, moved_keys, noted_row, noted_rows, cleared, IsTouched};

use base::Seq;
use engine_turns::{Core, FileRow, Row, file_number_near, row_near, row_place};
use path_tree::Name;
use read_index::Index;
use read_sets::Key;
use std::alloc::{AllocError, Global};

/// Whether an object is touched whatever the others are: it has no whole record, or was touched before and not all was
/// settled since.
pub(crate) fn is_touched_first<T>(row: &Row<T>, settled: bool) -> bool
    ensures { result ≡ touched_first settled row.now }
{
    match (&row.build, &row.check) {
        (Some(_build), Some(_check)) => !settled && row.touched,
        _ => true,
    }
}

/// What the object of a row has read comes into the index, if the object was touched and has a whole record.
fn note_row<T>(alloc: Global, index: &mut Index, row: &Row<T>) -> Result<(), AllocError>
    ensures noted { OnOk result ((r k : Key) → asks index.new r k
        ≡ noted_row row.now (asks index.old) r k) }
    ensures before { OnErr result ((r k : Key) → asks index.new r k ≡ asks index.old r k) }
{
    if !row.touched {
        return Ok(());
    }
    match (&row.build, &row.check) {
        (Some(build), Some(check)) => index.set(alloc, &row.name, build, &check.reads),
        _ => Ok(()),
    }
}

/// The index gets what the touched objects have read.
fn note_all<T>(alloc: Global, index: &mut Index, rows: &[Row<T>]) -> Result<(), AllocError>
    requires { are_rising (names rows.now) ≡ true }
    ensures noted { OnOk result ((r k : Key) → asks index.new r k
        ≡ noted_rows rows.now (asks index.old) r k) }
    ensures others { (p : Name) (k : Key) → column (λ r. r.touched) false rows.now p ≡ false
        → asks index.new (reader_key p) k ≡ asks index.old (reader_key p) k }
{
    for row in rows {
        note_row(alloc, index, row)?;
    }
    Ok(())
}

/// The index is brought up to date where all is settled: only objects that were touched can have run since it was so last.
pub(crate) fn bring_up<T>(
    alloc: Global,
    index: &mut Index,
    rows: &[Row<T>],
    settled: bool,
) -> Result<(), AllocError>
    requires { are_rising (names rows.now) ≡ true }
    ensures noted { OnOk result ((r k : Key) → asks index.new r k
        ≡ cond settled (noted_rows rows.now (asks index.old) r k) (asks index.old r k)) }
    ensures others { (p : Name) (k : Key) → column (λ r. r.touched) false rows.now p ≡ false
        → asks index.new (reader_key p) k ≡ asks index.old (reader_key p) k }
{
    if settled {
        note_all(alloc, index, rows)
    } else {
        Ok(())
    }
}

/// The key of an object.
fn object_key(alloc: Global, name: &Name) -> Result<Key, AllocError>
    ensures { IfOk result (λ made. made ≡ reader_key name.now) }
{
    Ok(Key::Under {
        object: name.share()?,
        terms: Seq::new(alloc),
    })
}

/// The object of a row comes behind the keys that move, if it has none among the others, where it is looked for first at
/// this place.
fn add_if_missing<T>(
    alloc: Global,
    moved: &mut Vec<Key>,
    others: &[Row<T>],
    near: usize,
    name: &Name,
) -> Result<(), AllocError>
    requires { are_rising (names others.now) ≡ true }
    ensures { OnOk result (moved.new.items ≡ moved.old.items
        ++ missing (name.now ∷ []) (names others.now)) }
{
    match row_near(others, near, name) {
        Some(_place) => Ok(()),
        None => {
            moved.push(object_key(alloc, name)?)?;
            Ok(())
        }
    }
}

/// The objects of rows that have none among the others.
pub(crate) fn add_missing<T>(
    alloc: Global,
    moved: &mut Vec<Key>,
    rows: &[Row<T>],
    others: &[Row<T>],
) -> Result<(), AllocError>
    requires { are_rising (names others.now) ≡ true }
    ensures { OnOk result (moved.new.items ≡ moved.old.items
        ++ missing (names rows.now) (names others.now)) }
{
    for (at, row) in rows.iter().enumerate() {
        add_if_missing(alloc, moved, others, at, &row.name)?;
    }
    Ok(())
}

fn add_if_touched<T>(
    alloc: Global,
    moved: &mut Vec<Key>,
    row: &Row<T>,
    settled: bool,
) -> Result<(), AllocError>
    ensures { OnOk result (moved.new.items ≡ moved.old.items
        ++ touched_keys settled (row.now ∷ [])) }
{
    if is_touched_first(row, settled) {
        moved.push(object_key(alloc, &row.name)?)?;
    }
    Ok(())
}

/// The objects that are touched whatever the others are.
fn add_touched<T>(
    alloc: Global,
    moved: &mut Vec<Key>,
    rows: &[Row<T>],
    settled: bool,
) -> Result<(), AllocError>
    ensures { OnOk result (moved.new.items ≡ moved.old.items
        ++ touched_keys settled rows.now) }
{
    for row in rows {
        add_if_touched(alloc, moved, row, settled)?;
    }
    Ok(())
}

/// A file comes behind the keys that move, if its number is another one among the others, where it is looked for first at
/// this place.
fn add_if_changed(
    moved: &mut Vec<Key>,
    others: &[FileRow],
    near: usize,
    file: &FileRow,
) -> Result<(), AllocError>
    requires { are_rising (file_names others.now) ≡ true }
    ensures { OnOk result (moved.new.items ≡ moved.old.items
        ++ changed_files (file.now ∷ []) others.now) }
{
    if file_number_near(others, near, file.name.as_str()) != file.number {
        moved.push(Key::File(file.name.share()?))?;
    }
    Ok(())
}

/// The files whose number is another one among the others.
fn add_changed(
    moved: &mut Vec<Key>,
    files: &[FileRow],
    others: &[FileRow],
) -> Result<(), AllocError>
    requires { are_rising (file_names others.now) ≡ true }
    ensures { OnOk result (moved.new.items ≡ moved.old.items
        ++ changed_files files.now others.now) }
{
    for (at, file) in files.iter().enumerate() {
        add_if_changed(moved, others, at, file)?;
    }
    Ok(())
}

/// What a Take moves, behind the objects that are gone: those that are new, those that are touched whatever the others
/// are, and the files whose numbers differ, 0 where there is no file.
pub(crate) fn add_moved<T>(
    alloc: Global,
    moved: &mut Vec<Key>,
    core: &Core<T>,
    rows: &[Row<T>],
    files: &[FileRow],
    settled: bool,
) -> Result<(), AllocError>
    requires rising { are_rising (names core.now.rows.items) ≡ true }
    requires old_files { are_rising (file_names core.now.files.items) ≡ true }
    requires files { are_rising (file_names files.now) ≡ true }
    ensures { OnOk result (moved.new.items ≡ moved.old.items
        ++ moved_keys settled core.now (names rows.now) files.now) }
{
    add_missing(alloc, moved, rows, &core.rows)?;
    add_touched(alloc, moved, &core.rows, settled)?;
    add_changed(moved, &core.files, files)?;
    add_changed(moved, files, &core.files)
}

/// The readers with these keys read nothing any more.
pub(crate) fn clear_all(index: &mut Index, readers: &[Key])
    ensures { (r k : Key) → asks index.new r k ≡ cleared readers.now (asks index.old) r k }
{
    for reader in readers {
        index.clear(reader);
    }
}

/// An object is touched.
fn touch_one<T: Drop>(rows: &mut Vec<Row<T>>, name: &Name)
    requires { are_rising (names rows.old.items) ≡ true }
    ensures { IsTouched (name.now ∷ []) rows.old.items rows.new.items }
{
    if let Some(place) = row_place(rows, name) {
        rows[place].touched = true;
    }
}

/// These objects are touched.
pub(crate) fn touch<T: Drop>(rows: &mut Vec<Row<T>>, reached: &[Name])
    requires { are_rising (names rows.old.items) ≡ true }
    ensures { IsTouched reached.now rows.old.items rows.new.items }
{
    for name in reached {
        touch_one(rows, name);
    }
}
