ghost use Rattle.std.specs.Prelude.{◌≡◌, ◌==◌, find};
ghost use Rattle.record_rows.specs.Forms.{some_at, whole};
ghost use Rattle.record_rows.specs.Fields.{format_number, format_by, format_form, counter_number, limit_number, has_no_colon, is_directory, directory, directories, header};
ghost use Rattle.record_rows.specs.Results.{Reads};
ghost use Rattle.record_rows.specs.Reading.{seen_header};

use crate::error::RowsError;
use crate::format::Format;
use crate::reading::{read_byte, read_str, read_u32, read_u64};
use asking::limits::END_OF_NUMBERS;
use base::Text;
use kept_state::limits::FIRST_NUMBER;
use load_path::is_file_name;
use load_path::limits::{MAX_ITERATIONS, MAX_PARTS, MAX_RECURSION};
use pan_ast::Limits;
use std::alloc::Global;

/// Under what the rows were made.
#[derive(Drop)]
pub struct Header {
    pub format: Format,
    pub counter: u64,
    pub limits: Limits,
    pub dirs: Vec<Text>,
}

const FORMATS: [Format; 3] = [Format::First, Format::Second, Format::Third];

/// The format among these that has a number.
fn format_among(formats: &[Format], number: u8) -> Option<Format>
    ensures { result ≡ find (λ f. format_number f == number) formats.now }
{
    let [first, rest @ ..] = formats else {
        return None;
    };
    if first.number() == number {
        return Some(*first);
    }
    format_among(rest, number)
}

/// The format with a number.
fn format_by(number: u8) -> Option<Format>
    ensures { result ≡ format_by number }
{
    format_among(&FORMATS, number)
}

fn read_format(bytes: &[u8]) -> Result<(Format, &[u8]), RowsError>
    ensures { Reads (λ x. (x.0, x.1.now)) result (format_form.read bytes.now) }
{
    let (number, rest) = read_byte(bytes)?;
    match format_by(number) {
        Some(format) => Ok((format, rest)),
        None => Err(RowsError::BadRows),
    }
}

fn read_counter(bytes: &[u8]) -> Result<(u64, &[u8]), RowsError>
    ensures { Reads (λ x. (x.0, x.1.now)) result (counter_number.read bytes.now) }
{
    let (number, rest) = read_u64(bytes)?;
    if number < FIRST_NUMBER || number > END_OF_NUMBERS {
        return Err(RowsError::BadRows);
    }
    Ok((number, rest))
}

fn read_limit(most: u64, bytes: &[u8]) -> Result<(u64, &[u8]), RowsError>
    ensures { Reads (λ x. (x.0, x.1.now)) result ((limit_number most).read bytes.now) }
{
    let (number, rest) = read_u64(bytes)?;
    if number < 1 || number > most {
        return Err(RowsError::BadRows);
    }
    Ok((number, rest))
}

fn has_no_colon(name: &[u8]) -> bool
    ensures { result ≡ has_no_colon name.now }
{
    name.iter().all(|byte| *byte != b':')
}

/// Whether a text is an include directory as it is kept: the empty one, or a file name without a colon.
pub(crate) fn is_directory(name: &[u8]) -> bool
    ensures { result ≡ is_directory name.now }
{
    match name {
        [] => true,
        [_, ..] => is_file_name(name) && has_no_colon(name),
    }
}

fn read_directory(alloc: Global, bytes: &[u8]) -> Result<(Text, &[u8]), RowsError>
    ensures { Reads (λ x. (x.0, x.1.now)) result (directory.read bytes.now) }
{
    let (text, rest) = read_str(bytes)?;
    if !is_directory(text.as_bytes()) {
        return Err(RowsError::BadRows);
    }
    Ok((Text::new(alloc, text)?, rest))
}

fn some_dirs(alloc: Global, count: u32, bytes: &[u8]) -> Result<(Vec<Text>, &[u8]), RowsError>
    ensures { Reads (λ x. (x.0.items, x.1.now)) result (some_at directory.read count bytes.now) }
{
    let mut dirs = Vec::new(alloc);
    let mut rest = bytes;
    for _ in 0..count {
        let (dir, after) = read_directory(alloc, rest)?;
        dirs.push(dir)?;
        rest = after;
    }
    Ok((dirs, rest))
}

fn read_directories(alloc: Global, bytes: &[u8]) -> Result<(Vec<Text>, &[u8]), RowsError>
    ensures { Reads (λ x. (x.0.items, x.1.now)) result (directories.read bytes.now) }
{
    let (count, rest) = read_u32(bytes)?;
    let (dirs, rest) = some_dirs(alloc, count, rest)?;
    if dirs.is_empty() || dirs.len() > MAX_PARTS {
        return Err(RowsError::BadRows);
    }
    Ok((dirs, rest))
}

/// A header.
pub(crate) fn read_header(alloc: Global, bytes: &[u8]) -> Result<Header, RowsError>
    ensures { Reads seen_header result (whole header bytes.now) }
{
    let (format, rest) = read_format(bytes)?;
    let (counter, rest) = read_counter(rest)?;
    let (max_iteration, rest) = read_limit(MAX_ITERATIONS, rest)?;
    let (max_recursion, rest) = read_limit(MAX_RECURSION, rest)?;
    let (dirs, rest) = read_directories(alloc, rest)?;
    if !rest.is_empty() {
        return Err(RowsError::BadRows);
    }
    Ok(Header {
        format,
        counter,
        limits: Limits {
            max_iteration,
            max_recursion,
        },
        dirs,
    })
}
