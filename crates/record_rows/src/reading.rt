ghost use Rattle.std.specs.Prelude.{◌≡◌};
ghost use Rattle.std.specs.Int.{w32, w64};
ghost use Rattle.record_rows.specs.Forms.{first_byte, number_at, counted_at, bytes_form, text};
ghost use Rattle.record_rows.specs.Fields.{is_asked, file_text, name_text};
ghost use Rattle.record_rows.specs.Results.{Reads};

use crate::error::RowsError;
use crate::words::Words;
use base::Text;
use kept_state::limits::MAX_ASKED_BYTES;
use path_tree::{Name, NameError};
use std::alloc::Global;

/// The first byte, and those behind it.
pub(crate) fn read_byte(bytes: &[u8]) -> Result<(u8, &[u8]), RowsError>
    ensures { Reads (λ x. (x.0, x.1.now)) result (first_byte bytes.now) }
{
    match bytes {
        [] => Err(RowsError::BadRows),
        [first, rest @ ..] => Ok((*first, rest)),
    }
}

/// A number of 32 bits.
pub(crate) fn read_u32(bytes: &[u8]) -> Result<(u32, &[u8]), RowsError>
    ensures { Reads (λ x. (x.0, x.1.now)) result (number_at w32 bytes.now) }
{
    if bytes.len() < 4 {
        return Err(RowsError::BadRows);
    }
    let (front, rest) = bytes.split_at(4);
    let number = u32::from_be_bytes([front[0], front[1], front[2], front[3]]);
    Ok((number, rest))
}

/// A number of 64 bits.
pub(crate) fn read_u64(bytes: &[u8]) -> Result<(u64, &[u8]), RowsError>
    ensures { Reads (λ x. (x.0, x.1.now)) result (number_at w64 bytes.now) }
{
    if bytes.len() < 8 {
        return Err(RowsError::BadRows);
    }
    let (front, rest) = bytes.split_at(8);
    let number = u64::from_be_bytes([
        front[0], front[1], front[2], front[3], front[4], front[5], front[6], front[7],
    ]);
    Ok((number, rest))
}

/// So many bytes.
fn read_counted(count: usize, bytes: &[u8]) -> Result<(&[u8], &[u8]), RowsError>
    ensures { Reads (λ x. (x.0.now, x.1.now)) result (counted_at count bytes.now) }
{
    if bytes.len() < count {
        return Err(RowsError::BadRows);
    }
    Ok(bytes.split_at(count))
}

/// Bytes behind their count.
pub(crate) fn read_bytes(bytes: &[u8]) -> Result<(&[u8], &[u8]), RowsError>
    ensures { Reads (λ x. (x.0.now, x.1.now)) result (bytes_form.read bytes.now) }
{
    let (count, rest) = read_u32(bytes)?;
    read_counted(count as usize, rest)
}

/// A text.
#[tactic(auto, using(crate::proofs::Texts::passes_utf8, crate::proofs::Texts::fails_utf8))]
pub(crate) fn read_str(bytes: &[u8]) -> Result<(&str, &[u8]), RowsError>
    ensures { Reads (λ x. (x.0.now, x.1.now)) result (text.read bytes.now) }
{
    let (text, rest) = read_bytes(bytes)?;
    match str::from_utf8(text) {
        Ok(text) => Ok((text, rest)),
        Err(_) => Err(RowsError::BadRows),
    }
}

/// A text, in memory of its own.
pub(crate) fn read_text(alloc: Global, bytes: &[u8]) -> Result<(Text, &[u8]), RowsError>
    ensures { Reads (λ x. (x.0, x.1.now)) result (text.read bytes.now) }
{
    let (text, rest) = read_str(bytes)?;
    Ok((Text::new(alloc, text)?, rest))
}

/// Whether a run may ask for a file of this name.
pub(crate) fn is_asked(name: &str) -> bool
    ensures { result ≡ is_asked name.now }
{
    0 < name.len() && name.len() <= MAX_ASKED_BYTES
}

/// The name of a file that was asked for.
pub(crate) fn read_file_text<'a>(
    words: &mut Words,
    bytes: &'a [u8],
) -> Result<(Text, &'a [u8]), RowsError>
    ensures { Reads (λ x. (x.0, x.1.now)) result (file_text.read bytes.now) }
{
    let (text, rest) = read_str(bytes)?;
    if !is_asked(text) {
        return Err(RowsError::BadRows);
    }
    Ok((words.file(text)?, rest))
}

/// A template name.
pub(crate) fn read_name<'a>(
    words: &mut Words,
    bytes: &'a [u8],
) -> Result<(Name, &'a [u8]), RowsError>
    ensures { Reads (λ x. (x.0, x.1.now)) result (name_text.read bytes.now) }
{
    let (text, rest) = read_str(bytes)?;
    match words.name(text) {
        Ok(name) => Ok((name, rest)),
        Err(NameError::BadName) => Err(RowsError::BadRows),
        Err(NameError::Memory) => Err(RowsError::Memory),
    }
}
