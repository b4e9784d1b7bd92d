ghost use Rattle.std.specs.Prelude.{◌≡◌};
ghost use Rattle.questions.specs.Laws.{is_circular};
ghost use Rattle.record_rows.specs.Forms.{pair};
ghost use Rattle.record_rows.specs.Fields.{built, content, short_bytes, trace_in, verdict};
ghost use Rattle.record_rows.specs.Rows.{has_file_number, are_object_parts, parts_of_object};
ghost use Rattle.record_rows.specs.Results.{Reads};
ghost use Rattle.record_rows.specs.Reading.{file_by, object_by, whole_object};

use crate::error::RowsError;
use crate::faults::{read_fault, read_verdict};
use crate::format::Format;
use crate::items::read_trace;
use crate::reading::{read_bytes, read_u64};
use crate::trees::read_tree;
use crate::words::Words;
use base::limits::MAX_FILE_BYTES;
use base::{Bytes, Text};
use kept_state::limits::FIRST_NUMBER;
use kept_state::{KeptFile, KeptObject};
use load_path::Content;
use pan_ast::{Code, Fault};
use path_tree::{Name, Tree};
use read_sets::Trace;
use std::alloc::Global;

fn read_short_bytes(bytes: &[u8]) -> Result<(&[u8], &[u8]), RowsError>
    ensures { Reads (λ x. (x.0.now, x.1.now)) result (short_bytes.read bytes.now) }
{
    let (held, rest) = read_bytes(bytes)?;
    if held.len() > MAX_FILE_BYTES {
        return Err(RowsError::BadRows);
    }
    Ok((held, rest))
}

fn read_content(alloc: Global, bytes: &[u8]) -> Result<(Content, &[u8]), RowsError>
    ensures { Reads (λ x. (x.0, x.1.now)) result (content.read bytes.now) }
{
    match bytes {
        [] => Err(RowsError::BadRows),
        [0, rest @ ..] => Ok((Content::TooLong, rest)),
        [1, rest @ ..] => {
            let (held, rest) = read_short_bytes(rest)?;
            Ok((Content::Bytes(Bytes::from_slice(alloc, held)?), rest))
        }
        [_, ..] => Err(RowsError::BadRows),
    }
}

/// Whether a file with this content may have a number.
pub(crate) fn has_file_number(counter: u64, number: u64, content: &Content) -> bool
    ensures { result ≡ has_file_number counter number content.now }
{
    match content {
        Content::TooLong => number == 1,
        Content::Bytes(_) => FIRST_NUMBER <= number && number < counter,
    }
}

/// The file with this name and these parts.
pub(crate) fn read_file(
    alloc: Global,
    counter: u64,
    name: Text,
    bytes: &[u8],
) -> Result<KeptFile, RowsError>
    ensures { Reads (λ f. f) result
        (file_by counter name bytes.now) }
{
    let (number, rest) = read_u64(bytes)?;
    let (content, rest) = read_content(alloc, rest)?;
    if !has_file_number(counter, number, &content) || !rest.is_empty() {
        return Err(RowsError::BadRows);
    }
    Ok(KeptFile {
        name,
        number,
        content,
    })
}

fn read_built<'a>(
    words: &mut Words,
    bytes: &'a [u8],
) -> Result<(Result<Tree, Fault>, &'a [u8]), RowsError>
    ensures { Reads (λ x. (x.0, x.1.now)) result (built.read bytes.now) }
{
    match bytes {
        [] => Err(RowsError::BadRows),
        [0, rest @ ..] => {
            let (tree, rest) = read_tree(words, rest)?;
            Ok((Ok(tree), rest))
        }
        [1, rest @ ..] => {
            let (fault, rest) = read_fault(words, rest)?;
            Ok((Err(fault), rest))
        }
        [_, ..] => Err(RowsError::BadRows),
    }
}

fn is_circular(code: Code) -> bool
    ensures { result ≡ is_circular code }
{
    matches!(code, Code::Circular)
}

/// Whether what is kept of an object goes together.
pub(crate) fn are_parts(counter: u64, object: &KeptObject) -> bool
    ensures { result ≡ are_object_parts counter (parts_of_object object.now) }
{
    match &object.built {
        Ok(_) => FIRST_NUMBER <= object.number && object.number < counter,
        Err(fault) => {
            let failed = if is_circular(fault.code) { 2 } else { 1 };
            object.number == failed
                && object.verdict.is_none()
                && object.check_reads.items().is_empty()
        }
    }
}

/// What a check found, and what it asked.
fn read_checked<'a>(
    words: &mut Words,
    format: Format,
    counter: u64,
    bytes: &'a [u8],
) -> Result<(Option<Fault>, Trace, &'a [u8]), RowsError>
    ensures { Reads (λ x. ((x.0, x.1), x.2.now)) result
        ((pair verdict (trace_in format counter)).read bytes.now) }
{
    let (verdict, rest) = read_verdict(words, bytes)?;
    let (reads, rest) = read_trace(words, format, counter, rest)?;
    Ok((verdict, reads, rest))
}

/// The object with these parts, where they go together and nothing stands behind them.
fn whole_object(counter: u64, object: KeptObject, rest: &[u8]) -> Result<KeptObject, RowsError>
    ensures { Reads (λ o. o) result (whole_object counter object rest.now) }
{
    if are_parts(counter, &object) && rest.is_empty() {
        Ok(object)
    } else {
        Err(RowsError::BadRows)
    }
}

/// The object with this name and these parts.
pub(crate) fn read_object(
    words: &mut Words,
    format: Format,
    counter: u64,
    name: Name,
    bytes: &[u8],
) -> Result<KeptObject, RowsError>
    ensures { Reads (λ o. o) result
        (object_by format counter name bytes.now) }
{
    let (number, rest) = read_u64(bytes)?;
    let (built, rest) = read_built(words, rest)?;
    let (build_reads, rest) = read_trace(words, format, counter, rest)?;
    let (verdict, check_reads, rest) = read_checked(words, format, counter, rest)?;
    let object = KeptObject {
        name,
        number,
        built,
        build_reads,
        verdict,
        check_reads,
    };
    whole_object(counter, object, rest)
}
