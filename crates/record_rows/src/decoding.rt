ghost use Rattle.std.specs.Prelude.{◌≡◌, ◌<◌, IfOk, Some, true, length, option_copied, position};
ghost use Rattle.load_path.specs.FileNames.{is_file_name};
ghost use Rattle.path_tree.specs.Grammar.{is_name};
ghost use Rattle.kept_state.specs.Stored.{Stored, stored};
ghost use Rattle.record_rows.specs.Forms.{IsBytes};
ghost use Rattle.record_rows.specs.Rows.{empty, Give};
ghost use Rattle.record_rows.specs.Results.{Reads};
ghost use Rattle.record_rows.specs.Reading.{AreBytes, behind, file_at, object_at, all_at, is_header, given_by, kept_by, kept_with, objects_left, seen_header};

use crate::error::RowsError;
use crate::format::Format;
use crate::header::{Header, read_header};
use crate::order::are_in_order;
use crate::parts::{read_file, read_object};
use crate::words::Words;
use base::Text;
use kept_state::limits::FIRST_NUMBER;
use kept_state::{Kept, KeptFile, KeptObject};
use load_path::is_file_name;
use load_path::limits::{DEFAULT_ITERATIONS, DEFAULT_RECURSION};
use pan_ast::Limits;
use path_tree::{Name, NameError, is_name};
use std::alloc::{AllocError, Global};
use stored_rows::StoredRow;

/// What stands behind a front.
fn behind<'a>(front: &[u8], name: &'a [u8]) -> Option<&'a [u8]>
    ensures { option_copied result ≡ behind front.now name.now }
{
    name.strip_prefix(front)
}

/// The text of a file name.
fn file_text(alloc: Global, name: &[u8]) -> Result<Text, AllocError>
    requires { is_file_name name.now ≡ true }
    ensures { IfOk result (λ t. t ≡ name.now) }
{
    match str::from_utf8(name) {
        Ok(text) => Text::new(alloc, text),
        Err(_) => unreachable!(),
    }
}

/// The template name of these bytes.
fn name_of(alloc: Global, name: &[u8]) -> Result<Name, AllocError>
    requires { is_name name.now ≡ true }
    ensures { IfOk result (λ n. n ≡ name.now) }
{
    match str::from_utf8(name) {
        Ok(text) => match Name::parse(alloc, text) {
            Ok(name) => Ok(name),
            Err(NameError::Memory) => Err(AllocError),
            Err(NameError::BadName) => unreachable!(),
        },
        Err(_) => unreachable!(),
    }
}

/// The file of a row.
#[tactic(auto, unfolding(crate::specs::Reading::file_at))]
fn file_of(alloc: Global, counter: u64, row: &StoredRow) -> Result<KeptFile, RowsError>
    ensures { Reads (λ f. f) result (file_at counter row.now) }
{
    let Some(name) = behind(b"f/", row.name.as_str().as_bytes()) else {
        return Err(RowsError::BadRows);
    };
    if !is_file_name(name) {
        return Err(RowsError::BadRows);
    }
    let name = file_text(alloc, name)?;
    read_file(alloc, counter, name, row.bytes.as_slice())
}

/// The object of a row.
#[tactic(auto, unfolding(crate::specs::Reading::object_at))]
fn object_of(
    words: &mut Words,
    format: Format,
    counter: u64,
    row: &StoredRow,
) -> Result<KeptObject, RowsError>
    ensures { Reads (λ o. o) result (object_at format counter row.now) }
{
    let Some(name) = behind(b"o/", row.name.as_str().as_bytes()) else {
        return Err(RowsError::BadRows);
    };
    if !is_name(name) {
        return Err(RowsError::BadRows);
    }
    let name = name_of(words.alloc, name)?;
    read_object(words, format, counter, name, row.bytes.as_slice())
}

/// The files of rows.
fn all_files(alloc: Global, counter: u64, rows: &[StoredRow]) -> Result<Vec<KeptFile>, RowsError>
    ensures { Reads (λ fs. fs.items) result (all_at (file_at counter) rows.now) }
{
    let mut files = Vec::with_capacity(alloc, rows.len())?;
    for row in rows {
        let file = file_of(alloc, counter, row)?;
        files.push(file)?;
    }
    Ok(files)
}

/// The objects of rows.
fn all_objects(
    alloc: Global,
    format: Format,
    counter: u64,
    rows: &[StoredRow],
) -> Result<Vec<KeptObject>, RowsError>
    ensures { Reads (λ os. os.items) result (all_at (object_at format counter) rows.now) }
{
    let mut words = Words::new(alloc, rows.len())?;
    let mut objects = Vec::with_capacity(alloc, rows.len())?;
    for row in rows {
        let object = object_of(&mut words, format, counter, row)?;
        objects.push(object)?;
    }
    Ok(objects)
}

/// Where the header stands.
fn header_place(rows: &[StoredRow]) -> Option<usize>
    ensures { result ≡ position is_header rows.now }
{
    rows.iter().position(|row| row.name.as_str() == "h")
}

/// The directories where none were given: that of all files.
fn usual_dirs(alloc: Global) -> Result<Vec<Text>, AllocError>
    ensures { IfOk result (λ dirs. dirs.items ≡ empty.dirs) }
{
    let mut dirs = Vec::new(alloc);
    dirs.push(Text::new(alloc, "")?)?;
    Ok(dirs)
}

/// What is kept where there are no rows.
fn nothing_kept(alloc: Global) -> Result<Kept, AllocError>
    ensures { IfOk result (λ k. stored k ≡ empty) }
{
    Ok(Kept {
        counter: FIRST_NUMBER,
        limits: Limits {
            max_iteration: DEFAULT_ITERATIONS,
            max_recursion: DEFAULT_RECURSION,
        },
        dirs: usual_dirs(alloc)?,
        files: Vec::new(alloc),
        objects: Vec::new(alloc),
    })
}

/// The objects that are kept of rows of a format.
fn objects_left(alloc: Global, format: Format, objects: Vec<KeptObject>) -> Vec<KeptObject>
    ensures { result.items ≡ objects_left format objects.items }
{
    match format {
        Format::First | Format::Second => Vec::new(alloc),
        Format::Third => objects,
    }
}

/// What is kept under a header, by the rows in front of it and those behind it.
fn read_under(
    alloc: Global,
    header: Header,
    front: &[StoredRow],
    back: &[StoredRow],
) -> Result<Kept, RowsError>
    ensures { Reads stored result (kept_with (seen_header header) front.now back.now) }
{
    let files = all_files(alloc, header.counter, front)?;
    let objects = all_objects(alloc, header.format, header.counter, back)?;
    if !are_in_order(alloc, &files, &objects)? {
        return Err(RowsError::BadRows);
    }
    Ok(Kept {
        counter: header.counter,
        limits: header.limits,
        dirs: header.dirs,
        files,
        objects: objects_left(alloc, header.format, objects),
    })
}

/// What is kept by rows with their header at a place.
fn read_around(alloc: Global, rows: &[StoredRow], place: usize) -> Result<Kept, RowsError>
    requires { place < length rows.now }
    ensures { Reads stored result (kept_by rows.now place) }
{
    let header = read_header(alloc, rows[place].bytes.as_slice())?;
    read_under(alloc, header, &rows[..place], &rows[place + 1..])
}

#[tactic(auto, unfolding(crate::specs::Reading::given_by))]
fn read_rows(alloc: Global, rows: &[StoredRow]) -> Result<Kept, RowsError>
    ensures { Reads stored result (given_by rows.now) }
{
    if rows.is_empty() {
        return Ok(nothing_kept(alloc)?);
    }
    match header_place(rows) {
        Some(place) => read_around(alloc, rows, place),
        None => Err(RowsError::BadRows),
    }
}

/// Bytes are bytes. Nothing is done.
fn hold(bytes: &[u8])
    ensures { IsBytes bytes.now }
{}

/// Rows hold bytes. Nothing is done.
fn hold_bytes(rows: &[StoredRow])
    ensures { AreBytes rows.now }
{
    for row in rows {
        hold(row.bytes.as_slice());
    }
}

/// What is kept by rows. `BadRows` exactly where no kept state has these rows.
pub fn decode(alloc: Global, rows: &[StoredRow]) -> Result<Kept, RowsError>
    // What is read has these rows.
    ensures found { IfOk result (λ k. Give rows.now (stored k)) }
    // What has these rows is read, unless memory is wanting.
    ensures only { (s : Stored) → Give rows.now s → Reads stored result (Some s) }
{
    hold_bytes(rows);
    read_rows(alloc, rows)
}
