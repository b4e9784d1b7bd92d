//! An engine from what was kept of an earlier one.

ghost use Rattle.std.specs.Prelude.{◌≡◌, ◌++◌, ◌∷◌, [], IfOk, IfErr, OnOk, true, map};
ghost use Rattle.std.specs.List.{list_all};
ghost use Rattle.object_names.specs.Objects.{are_rising};
ghost use Rattle.read_sets.specs.Items.{pair_of, pairs_of};
ghost use Rattle.load_path.specs.Pictures.{has_short_content};
ghost use Rattle.kept_state.specs.Stored.{stored};
ghost use Rattle.engine_turns.specs.Entering.{entry_pair};
ghost use Rattle.engine_turns.specs.Places.{names};
ghost use Rattle.engine_turns.specs.States.{has_grade};
ghost use Rattle.read_index.specs.Readers.{asks};
ghost use Rattle.rebuild.specs.Sound.{IsSound};
ghost use Rattle.engine_rows.specs.Restoring.{file_row, restored_row, has_own_grade, has_number, is_short, is_fit, IsUnfit, is_tree_last, has_tree, tree_items, record_items, all_items, IsRestored, IsSoundKept};
ghost use Rattle.engine_rows.specs.declared.restoring.RestoreError.TheVariants.{Memory};

use asking::limits::END_OF_NUMBERS;
use base::Seq;
use base::limits::{MAX_FILE_BYTES, MAX_OBJECTS};
use engine_turns::{
    Cause, CheckRecord, Core, Entry, FileRow, Last, Row, enter_all, entry_of, fault_number, row_in,
};
use foreign_values::Chain;
use kept_state::limits::FIRST_NUMBER;
use kept_state::{Kept, KeptFile, KeptObject};
use load_path::Content;
use pan_ast::Fault;
use path_numbers::PathTable;
use path_tree::{Name, Tree};
use read_sets::{Item, Key};
use rebuild::Engine;
use runner::Runner;
use std::alloc::{AllocError, AllocFailed, Global};
use stored_rows::are_rising;

/// Why an engine was not restored.
#[derive(Clone, Copy, PartialEq, Eq)]
pub enum RestoreError {
    /// An engine cannot hold what was kept: its counter is below 3 or past the end of numbers, names of files or of
    /// objects do not rise, a file has no number or over [MAX_FILE_BYTES], a result has no number of its kind, or there
    /// are over [MAX_OBJECTS].
    Unfit,
    Memory,
}

impl From<AllocError> for RestoreError {
    ghost from_gives = { λ _ e. e ≡ Memory };

    fn from(_e: AllocError) -> RestoreError {
        RestoreError::Memory
    }
}

impl<T: Drop> From<AllocFailed<T>> for RestoreError {
    ghost from_gives = { λ _ e. e ≡ Memory };

    fn from(_e: AllocFailed<T>) -> RestoreError {
        RestoreError::Memory
    }
}

/// Whether a number is one of a result's kind.
fn has_grade(number: u64, built: &Result<Tree, Fault>) -> bool
    ensures { result ≡ has_grade number built.now }
{
    match built {
        Ok(_tree) => number >= FIRST_NUMBER,
        Err(fault) => number == fault_number(fault.code),
    }
}

/// Whether each result has a number of its kind.
fn are_graded(objects: &[KeptObject]) -> bool
    ensures { result ≡ list_all has_own_grade objects.now }
{
    objects
        .iter()
        .all(|object| has_grade(object.number, &object.built))
}

/// Whether each file has a number.
fn are_numbered(files: &[KeptFile]) -> bool
    ensures { result ≡ list_all has_number files.now }
{
    files.iter().all(|file| file.number > 0)
}

/// Whether a content has no more bytes than that of a picture's file.
fn has_short_content(content: &Content) -> bool
    ensures { result ≡ has_short_content content.now }
{
    match content {
        Content::Bytes(bytes) => bytes.as_slice().len() <= MAX_FILE_BYTES,
        Content::TooLong => true,
    }
}

/// Whether no file has more bytes than that of a picture.
fn are_short(files: &[KeptFile]) -> bool
    ensures { result ≡ list_all is_short files.now }
{
    files.iter().all(|file| has_short_content(&file.content))
}

/// Whether an engine can hold what was kept.
fn is_fit(kept: &Kept) -> bool
    ensures { result ≡ is_fit (stored kept.now) }
{
    FIRST_NUMBER <= kept.counter
        && kept.counter <= END_OF_NUMBERS
        && are_rising(&kept.files)
        && are_numbered(&kept.files)
        && are_short(&kept.files)
        && are_rising(&kept.objects)
        && are_graded(&kept.objects)
        && kept.objects.len() <= MAX_OBJECTS
}

/// The rows of files.
fn file_rows(alloc: Global, files: Vec<KeptFile>) -> Result<Vec<FileRow>, AllocError>
    ensures { IfOk result (λ rows. rows.items ≡ map file_row files.items) }
{
    let mut rows = Vec::with_capacity(alloc, files.len())?;
    for file in files {
        let KeptFile {
            name,
            number,
            content,
        } = file;
        rows.push(FileRow {
            name,
            number,
            content,
        })?;
    }
    Ok(rows)
}

/// The row of an object, without the numbers of its paths.
fn restored_row<T>(object: KeptObject) -> Row<T>
    ensures { result ≡ restored_row object }
{
    let KeptObject {
        name,
        number,
        built,
        build_reads,
        verdict,
        check_reads,
    } = object;
    Row {
        name,
        last: Some(Last {
            number,
            result: built,
        }),
        paths: PathTable::new(),
        build: Some(build_reads),
        check: Some(CheckRecord {
            reads: check_reads,
            verdict,
        }),
        open_build: false,
        open_check: false,
        held: None,
        run: false,
        cause: Cause::NotRun,
        touched: true,
    }
}

/// The rows of objects, without the numbers of their paths.
fn object_rows<T: Drop>(alloc: Global, objects: Vec<KeptObject>) -> Result<Vec<Row<T>>, AllocError>
    ensures { IfOk result (λ rows. rows.items ≡ map restored_row objects.items) }
{
    let mut rows = Vec::with_capacity(alloc, objects.len())?;
    for object in objects {
        rows.push(restored_row(object))?;
    }
    Ok(rows)
}

/// Whether there is a last result, and it is a tree.
fn is_tree_last(last: &Option<Last>) -> bool
    ensures { result ≡ is_tree_last last.now }
{
    match last {
        None => false,
        Some(last) => match &last.result {
            Ok(_tree) => true,
            Err(_fault) => false,
        },
    }
}

/// Whether the last result of an object is a tree.
fn has_tree<T>(rows: &[Row<T>], object: &Name) -> bool
    requires { are_rising (names rows.now) ≡ true }
    ensures { result ≡ has_tree rows.now object.now }
{
    match row_in(rows, object.as_str()) {
        None => false,
        Some(row) => is_tree_last(&row.last),
    }
}

/// The entry of an item comes behind others, if its number is from 3 on and it asks for an object whose last result is a
/// tree.
fn add_entry<T>(
    alloc: Global,
    rows: &[Row<T>],
    made: &mut Vec<Entry>,
    item: &Item,
) -> Result<(), AllocError>
    requires { are_rising (names rows.now) ≡ true }
    ensures { OnOk result (map entry_pair made.new.items ≡ map entry_pair made.old.items
        ++ tree_items rows.now (pair_of item.now ∷ [])) }
{
    let Key::Under { object, terms } = &item.key else {
        return Ok(());
    };
    if !has_tree(rows, object) || item.number < FIRST_NUMBER {
        return Ok(());
    }
    let entry = entry_of(alloc, object, terms.as_slice(), item.number)?;
    made.push(entry)?;
    Ok(())
}

/// The entries of items.
fn add_items<T>(
    alloc: Global,
    rows: &[Row<T>],
    made: &mut Vec<Entry>,
    items: &[Item],
) -> Result<(), AllocError>
    requires { are_rising (names rows.now) ≡ true }
    ensures { OnOk result (map entry_pair made.new.items ≡ map entry_pair made.old.items
        ++ tree_items rows.now (pairs_of items.now)) }
{
    for item in items {
        add_entry(alloc, rows, made, item)?;
    }
    Ok(())
}

/// The entries of the items of a record.
fn add_record<T>(
    alloc: Global,
    rows: &[Row<T>],
    made: &mut Vec<Entry>,
    row: &Row<T>,
) -> Result<(), AllocError>
    requires { are_rising (names rows.now) ≡ true }
    ensures { OnOk result (map entry_pair made.new.items ≡ map entry_pair made.old.items
        ++ record_items rows.now row.now) }
{
    if let Some(build) = &row.build {
        add_items(alloc, rows, made, build.items())?;
    }
    if let Some(check) = &row.check {
        add_items(alloc, rows, made, check.reads.items())?;
    }
    Ok(())
}

/// The entries of the items of all records.
fn record_entries<T>(alloc: Global, rows: &[Row<T>]) -> Result<Vec<Entry>, AllocError>
    requires { are_rising (names rows.now) ≡ true }
    ensures { IfOk result (λ made. map entry_pair made.items ≡ all_items rows.now rows.now) }
{
    let mut made = Vec::new(alloc);
    for row in rows {
        add_record(alloc, rows, &mut made, row)?;
    }
    Ok(made)
}

/// An engine's data from what was kept: its files, and its objects with their last results and records, nothing of them
/// unsettled, all of them touched, and none of them run. `Unfit` exactly where an engine cannot hold it.
fn restored<T: Drop>(alloc: Global, kept: Kept) -> Result<Core<T>, RestoreError>
    ensures restored { IfOk result (λ core. IsRestored (stored kept) core) }
    ensures fit { OnOk result (is_fit (stored kept) ≡ true) }
    ensures refused { IfErr result (λ e. IsUnfit e (stored kept)) }
{
    if !is_fit(&kept) {
        return Err(RestoreError::Unfit);
    }
    let Kept {
        counter,
        limits,
        dirs,
        files,
        objects,
    } = kept;
    let files = file_rows(alloc, files)?;
    let mut rows = object_rows(alloc, objects)?;
    let entries = record_entries(alloc, &rows)?;
    enter_all(&mut rows, entries);
    Ok(Core {
        limits,
        dirs: Seq::from_vec(dirs),
        counter,
        files,
        rows,
        chain: Chain::new(alloc),
        first_build: 0,
        first_check: 0,
    })
}

/// An engine from what was kept of an earlier one: with its limits and directories, its counter, its files, and its
/// objects with their last results and records, nothing of them unsettled, all of them touched, and none of them run.
/// It is sound where what was kept is. `Unfit` exactly where an engine cannot hold it.
pub fn restore<R: Runner>(alloc: Global, kept: Kept) -> Result<Engine<R>, RestoreError>
    ensures restored { IfOk result (λ e. IsRestored (stored kept) e.core) }
    ensures sound { IfOk result (λ e. ∥ IsSoundKept R.meaning (stored kept) ∥₁
        → IsSound R.meaning e.core (asks e.index)) }
    ensures fit { OnOk result (is_fit (stored kept) ≡ true) }
    ensures refused { IfErr result (λ e. IsUnfit e (stored kept)) }
{
    let core = restored(alloc, kept)?;
    Ok(Engine::with_core(alloc, core))
}
