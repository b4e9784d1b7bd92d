ghost use Rattle.std.specs.Prelude.{◌≡◌, true, option_copied};
ghost use Rattle.object_names.specs.Objects.{are_rising};
ghost use Rattle.object_names.specs.Finding.{place_in};
ghost use Rattle.engine_turns.specs.Places.{row_place, row_in, file_in, file_number_in, names, file_names};

use base::Text;
use load_path::Content;
use pan_ast::Fault;
use path_numbers::PathTable;
use path_tree::{Name, Tree};
use read_sets::{Key, Trace};
use runner::Built;

/// A file of the last picture, with its number.
#[derive(Drop)]
pub struct FileRow {
    pub name: Text,
    pub number: u64,
    pub content: Content,
}

/// The last result of an object's build, with its number.
#[derive(Drop)]
pub struct Last {
    pub number: u64,
    pub result: Result<Tree, Fault>,
}

/// What a check asked for, and what it found.
#[derive(Drop)]
pub struct CheckRecord {
    pub reads: Trace,
    pub verdict: Option<Fault>,
}

/// Why an object was run.
#[derive(Drop)]
pub enum Cause {
    NotRun,
    NoRecord,
    Changed(Key),
}

/// What is kept of an object.
#[derive(Drop)]
pub struct Row<T> {
    pub name: Name,
    pub last: Option<Last>,
    /// The numbers of the paths of the last tree that have one of their own.
    pub paths: PathTable,
    pub build: Option<Trace>,
    pub check: Option<CheckRecord>,
    pub open_build: bool,
    pub open_check: bool,
    pub held: Option<Built<T>>,
    pub run: bool,
    pub cause: Cause,
    /// A change may have reached the object since all was settled: its record is compared whole.
    pub touched: bool,
}

/// How many rows have a name below this one.
fn rows_below<T>(rows: &[Row<T>], name: &str) -> usize
    requires { are_rising (names rows.now) ≡ true }
    ensures { result ≡ place_in (names rows.now) name.now }
{
    rows.partition_point(|row| row.name.as_str() < name)
}

/// Where the row of a name is.
pub fn row_place<T>(rows: &[Row<T>], name: &Name) -> Option<usize>
    requires { are_rising (names rows.now) ≡ true }
    ensures { result ≡ row_place name.now 0 rows.now }
{
    let place = rows_below(rows, name.as_str());
    let row = rows.get(place)?;
    if row.name != *name {
        return None;
    }
    Some(place)
}

/// Where the row of a name is; it is looked for first at this place.
pub fn row_near<T>(rows: &[Row<T>], near: usize, name: &Name) -> Option<usize>
    requires { are_rising (names rows.now) ≡ true }
    ensures { result ≡ row_place name.now 0 rows.now }
{
    if let Some(row) = rows.get(near) {
        if row.name == *name {
            return Some(near);
        }
    }
    row_place(rows, name)
}

/// The row of a name.
pub fn row_in<'a, T>(rows: &'a [Row<T>], name: &str) -> Option<&'a Row<T>>
    requires { are_rising (names rows.now) ≡ true }
    ensures { option_copied result ≡ row_in name.now rows.now }
{
    let row = rows.get(rows_below(rows, name))?;
    if row.name.as_str() != name {
        return None;
    }
    Some(row)
}

/// How many files have a name below this one.
fn files_below(files: &[FileRow], name: &str) -> usize
    requires { are_rising (file_names files.now) ≡ true }
    ensures { result ≡ place_in (file_names files.now) name.now }
{
    files.partition_point(|file| file.name.as_str() < name)
}

/// The file of a name.
pub fn file_in<'a>(files: &'a [FileRow], name: &str) -> Option<&'a FileRow>
    requires { are_rising (file_names files.now) ≡ true }
    ensures { option_copied result ≡ file_in files.now name.now }
{
    let file = files.get(files_below(files, name))?;
    if file.name.as_str() != name {
        return None;
    }
    Some(file)
}

/// The number of a file, 0 where there is none of this name.
pub fn file_number_in(files: &[FileRow], name: &str) -> u64
    requires { are_rising (file_names files.now) ≡ true }
    ensures { result ≡ file_number_in files.now name.now }
{
    match file_in(files, name) {
        None => 0,
        Some(file) => file.number,
    }
}

/// The number of a file, 0 where there is none of this name; it is looked for first at this place.
pub fn file_number_near(files: &[FileRow], near: usize, name: &str) -> u64
    requires { are_rising (file_names files.now) ≡ true }
    ensures { result ≡ file_number_in files.now name.now }
{
    if let Some(file) = files.get(near) {
        if file.name.as_str() == name {
            return file.number;
        }
    }
    file_number_in(files, name)
}
