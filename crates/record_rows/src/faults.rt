ghost use Rattle.std.specs.Prelude.{◌≡◌, ◌==◌, find};
ghost use Rattle.pan_ast.specs.Codes.{code_number};
ghost use Rattle.record_rows.specs.Fields.{code_by, place_number, fault, place, verdict, code_form};
ghost use Rattle.record_rows.specs.Results.{Reads};
ghost use Rattle.record_rows.specs.Reading.{whole_fault};

use crate::error::RowsError;
use crate::reading::{read_byte, read_file_text, read_str, read_u32};
use crate::words::Words;
use pan_ast::{Code, Fault, Place};
use std::alloc::Global;

const CODES: [Code; 46] = [
    Code::BadCharacter,
    Code::NotUtf8,
    Code::OpenText,
    Code::Double,
    Code::IntegerTooLarge,
    Code::BadSyntax,
    Code::TooDeep,
    Code::TypeClash,
    Code::Overflow,
    Code::ZeroDivisor,
    Code::BadArgument,
    Code::BadPattern,
    Code::BadIndex,
    Code::TooLarge,
    Code::Final,
    Code::BadPath,
    Code::GlobalChange,
    Code::NoVariable,
    Code::NoFunction,
    Code::Iterations,
    Code::CallDepth,
    Code::WorkSpent,
    Code::UserError,
    Code::NotBoolean,
    Code::SelfChange,
    Code::NoPath,
    Code::NoObject,
    Code::ForeignFailed,
    Code::Circular,
    Code::NoType,
    Code::Redefined,
    Code::BadRange,
    Code::WrongType,
    Code::OutOfRange,
    Code::MissingField,
    Code::ExtraField,
    Code::FalseTest,
    Code::FalseValid,
    Code::UndefLeft,
    Code::NoBoundPath,
    Code::NoTemplate,
    Code::WrongKind,
    Code::WrongStatement,
    Code::WrongTemplate,
    Code::IncludeDepth,
    Code::FileTooLong,
];

/// The code among these that has a number.
fn code_among(codes: &[Code], number: u8) -> Option<Code>
    ensures { result ≡ find (λ c. code_number c == number) codes.now }
{
    let [first, rest @ ..] = codes else {
        return None;
    };
    if first.number() == number {
        return Some(*first);
    }
    code_among(rest, number)
}

/// The code with a number.
fn code_by(number: u8) -> Option<Code>
    ensures { result ≡ code_by number }
{
    code_among(&CODES, number)
}

fn read_code(bytes: &[u8]) -> Result<(Code, &[u8]), RowsError>
    ensures { Reads (λ x. (x.0, x.1.now)) result (code_form.read bytes.now) }
{
    let (number, rest) = read_byte(bytes)?;
    match code_by(number) {
        Some(code) => Ok((code, rest)),
        None => Err(RowsError::BadRows),
    }
}

fn read_place_number(bytes: &[u8]) -> Result<(u32, &[u8]), RowsError>
    ensures { Reads (λ x. (x.0, x.1.now)) result (place_number.read bytes.now) }
{
    let (number, rest) = read_u32(bytes)?;
    if number == 0 {
        return Err(RowsError::BadRows);
    }
    Ok((number, rest))
}

fn read_place<'a>(words: &mut Words, bytes: &'a [u8]) -> Result<(Place, &'a [u8]), RowsError>
    ensures { Reads (λ x. (x.0, x.1.now)) result (place.read bytes.now) }
{
    let (file, rest) = read_file_text(words, bytes)?;
    let (line, rest) = read_place_number(rest)?;
    let (column, rest) = read_place_number(rest)?;
    Ok((Place { file, line, column }, rest))
}

/// A fault with this detail, where it is no longer than a detail may be.
#[tactic(auto, using(crate::proofs::Details::kept_whole))]
fn fault_with(alloc: Global, code: Code, place: Place, detail: &str) -> Result<Fault, RowsError>
    ensures { Reads (λ f. f) result (whole_fault code place detail.now) }
{
    let fault = Fault::new(alloc, code, place, detail)?;
    if fault.detail.as_str().len() != detail.len() {
        return Err(RowsError::BadRows);
    }
    Ok(fault)
}

/// A fault.
pub(crate) fn read_fault<'a>(
    words: &mut Words,
    bytes: &'a [u8],
) -> Result<(Fault, &'a [u8]), RowsError>
    ensures { Reads (λ x. (x.0, x.1.now)) result (fault.read bytes.now) }
{
    let (code, rest) = read_code(bytes)?;
    let (place, rest) = read_place(words, rest)?;
    let (detail, rest) = read_str(rest)?;
    Ok((fault_with(words.alloc, code, place, detail)?, rest))
}

/// What a check found.
pub(crate) fn read_verdict<'a>(
    words: &mut Words,
    bytes: &'a [u8],
) -> Result<(Option<Fault>, &'a [u8]), RowsError>
    ensures { Reads (λ x. (x.0, x.1.now)) result (verdict.read bytes.now) }
{
    match bytes {
        [] => Err(RowsError::BadRows),
        [0, rest @ ..] => Ok((None, rest)),
        [1, rest @ ..] => {
            let (fault, rest) = read_fault(words, rest)?;
            Ok((Some(fault), rest))
        }
        [_, ..] => Err(RowsError::BadRows),
    }
}
