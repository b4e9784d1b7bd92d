//! What is kept of an engine's data.

ghost use Rattle.std.specs.Prelude.{◌≡◌, ◌++◌, ◌∷◌, [], IfOk, OnOk, false, true, map};
ghost use Rattle.object_names.specs.Objects.{are_rising};
ghost use Rattle.questions.specs.Contents.{is_among};
ghost use Rattle.read_sets.specs.Items.{keys_in, are_once};
ghost use Rattle.kept_state.specs.Stored.{stored};
ghost use Rattle.engine_turns.specs.Places.{names};
ghost use Rattle.rebuild.specs.Engines.{value_of};
ghost use Rattle.engine_rows.specs.Storing.{kept_file, kept_parts, kept_in, kept_rows, kept_of};

use engine_turns::{CheckRecord, Core, FileRow, Last, Row};
use kept_state::{Kept, KeptFile, KeptObject};
use pan_ast::Fault;
use path_numbers::share_terms;
use path_tree::{Name, Tree};
use read_sets::{Item, Key, Trace};
use rebuild::{Share, share_all};
use std::alloc::{AllocError, Global};

/// The same key.
fn copy_key(alloc: Global, key: &Key) -> Result<Key, AllocError>
    ensures { IfOk result (λ k. k ≡ key.now) }
{
    match key {
        Key::File(name) => Ok(Key::File(name.share()?)),
        Key::Under { object, terms } => Ok(Key::Under {
            object: object.share()?,
            terms: share_terms(alloc, terms.as_slice())?,
        }),
    }
}

/// The same item.
fn copy_item(alloc: Global, item: &Item) -> Result<Item, AllocError>
    ensures { IfOk result (λ i. i ≡ item.now) }
{
    Ok(Item {
        key: copy_key(alloc, &item.key)?,
        number: item.number,
    })
}

/// A copy of an item whose key is new comes behind the others.
fn push_copy(alloc: Global, made: &mut Trace, item: &Item) -> Result<(), AllocError>
    requires { is_among item.now.key (keys_in made.old) ≡ false }
    ensures { OnOk result (made.new ≡ made.old ++ item.now ∷ []) }
{
    let same = copy_item(alloc, item)?;
    made.push(same)
}

/// The trace of items.
fn copy_items(alloc: Global, items: &[Item]) -> Result<Trace, AllocError>
    requires { are_once (keys_in items.now) ≡ true }
    ensures { IfOk result (λ made. made ≡ items.now) }
{
    let mut made = Trace::new(alloc);
    for item in items {
        push_copy(alloc, &mut made, item)?;
    }
    Ok(made)
}

/// The same trace.
fn copy_trace(alloc: Global, trace: &Trace) -> Result<Trace, AllocError>
    ensures { IfOk result (λ same. same ≡ trace.now) }
{
    copy_items(alloc, trace.items())
}

/// The same result.
fn copy_built(built: &Result<Tree, Fault>) -> Result<Result<Tree, Fault>, AllocError>
    ensures { IfOk result (λ same. same ≡ built.now) }
{
    match built {
        Ok(tree) => Ok(Ok(tree.copy()?)),
        Err(fault) => Ok(Err(fault.share()?)),
    }
}

/// The same verdict.
fn copy_verdict(verdict: &Option<Fault>) -> Result<Option<Fault>, AllocError>
    ensures { IfOk result (λ v. v ≡ verdict.now) }
{
    match verdict {
        None => Ok(None),
        Some(fault) => Ok(Some(fault.share()?)),
    }
}

/// A file with its number.
fn kept_file(file: &FileRow) -> Result<KeptFile, AllocError>
    ensures { IfOk result (λ made. made ≡ kept_file file.now) }
{
    let name = file.name.share()?;
    let content = file.content.shared()?;
    Ok(KeptFile {
        name,
        number: file.number,
        content,
    })
}

/// The files with their numbers.
fn kept_files(alloc: Global, files: &[FileRow]) -> Result<Vec<KeptFile>, AllocError>
    ensures { IfOk result (λ made. made.items ≡ map kept_file files.now) }
{
    let mut made = Vec::with_capacity(alloc, files.len())?;
    for file in files {
        made.push(kept_file(file)?)?;
    }
    Ok(made)
}

/// An object with this result and record.
fn kept_parts(
    alloc: Global,
    name: &Name,
    last: &Last,
    build: &Trace,
    check: &CheckRecord,
) -> Result<KeptObject, AllocError>
    ensures { IfOk result (λ made. made ≡ kept_parts name.now last.now build.now check.now) }
{
    let name = name.share()?;
    let built = copy_built(&last.result)?;
    let build_reads = copy_trace(alloc, build)?;
    let verdict = copy_verdict(&check.verdict)?;
    let check_reads = copy_trace(alloc, &check.reads)?;
    Ok(KeptObject {
        name,
        number: last.number,
        built,
        build_reads,
        verdict,
        check_reads,
    })
}

/// An object with its last result and its whole record, if it has them.
fn kept_object<T>(alloc: Global, row: &Row<T>) -> Result<Option<KeptObject>, AllocError>
    ensures { IfOk result (λ made. made ≡ kept_in row.now) }
{
    match (&row.last, &row.build, &row.check) {
        (Some(last), Some(build), Some(check)) => {
            let object = kept_parts(alloc, &row.name, last, build, check)?;
            Ok(Some(object))
        }
        _ => Ok(None),
    }
}

/// An object comes behind others, if it has a last result and a whole record.
fn add_object<T>(alloc: Global, made: &mut Vec<KeptObject>, row: &Row<T>) -> Result<(), AllocError>
    ensures { OnOk result (made.new.items ≡ made.old.items ++ kept_rows (row.now ∷ [])) }
{
    match kept_object(alloc, row)? {
        None => Ok(()),
        Some(object) => {
            made.push(object)?;
            Ok(())
        }
    }
}

/// The objects that have a last result and a whole record.
fn kept_objects<T>(alloc: Global, rows: &[Row<T>]) -> Result<Vec<KeptObject>, AllocError>
    ensures { IfOk result (λ made. made.items ≡ kept_rows rows.now) }
{
    let mut made = Vec::with_capacity(alloc, rows.len())?;
    for row in rows {
        add_object(alloc, &mut made, row)?;
    }
    Ok(made)
}

/// What is kept of an engine's data: its limits and directories, its counter, its files, and its objects with their last
/// results and records.
pub fn kept<T>(alloc: Global, core: &Core<T>) -> Result<Kept, AllocError>
    requires { are_rising (names core.now.rows.items) ≡ true }
    ensures { IfOk result (λ kept. stored kept ≡ kept_of (value_of core.now)) }
{
    let dirs = share_all(alloc, core.dirs.as_slice())?;
    let files = kept_files(alloc, &core.files)?;
    let objects = kept_objects(alloc, &core.rows)?;
    Ok(Kept {
        counter: core.counter,
        limits: core.limits,
        dirs,
        files,
        objects,
    })
}
