ghost use Rattle.std.specs.Prelude.{◌≤◌, IfSome, length};
ghost use Rattle.base.specs.declared.limits.TheConstants.{MAX_FILE_BYTES};

use crate::places::place_in;
use base::{Bytes, Text};
use engine_session::Works;
use expected_tokens::{Expectation, expected, expected_text};
use fault_notes::{Cause, detail_in};
use load_path::Content;
use pan_ast::{Failure, Place};
use runner::Runner;
use std::alloc::{AllocError, Global};
use template_cache::read_template;
use works_again::push_place;

/// The most bytes of a file that is looked at for what could stand in the place of a wrong token.
const MAX_EXPLAINED_BYTES: usize = 100_000;

/// What could stand in the place of a wrong token, as a reader is told it; and the place behind the token before, where
/// that stands in a line before.
fn expectation_text(alloc: Global, told: &Expectation) -> Result<Bytes, AllocError> {
    let mut text = expected_text(alloc, &told.candidates)?;
    if told.behind.line < told.place.line {
        text.extend_from_slice(b" behind ")?;
        push_place(&mut text, &told.behind)?;
    }
    Ok(Bytes::from_vec(text)?)
}

/// The bytes of a file of the picture that is not too long to be looked at.
fn explained_bytes<'a, R: Runner>(works: &'a Works<R>, file: &Text) -> Option<&'a [u8]>
    ensures { IfSome result (λ bytes. length bytes.now ≤ MAX_FILE_BYTES) }
{
    match works.runner.picture().find(file.as_str()) {
        Some(Content::Bytes(bytes)) if bytes.as_slice().len() <= MAX_EXPLAINED_BYTES => {
            Some(bytes.as_slice())
        }
        _ => None,
    }
}

/// What could stand at a place of a file where a wrong token is.
fn expected_at<R: Runner>(
    alloc: Global,
    works: &Works<R>,
    place: &Place,
) -> Result<Option<Bytes>, AllocError> {
    let Some(bytes) = explained_bytes(works, &place.file) else {
        return Ok(None);
    };
    match expected(alloc, &place.file, bytes)? {
        Some(told) if told.place == *place => Ok(Some(expectation_text(alloc, &told)?)),
        _ => Ok(None),
    }
}

/// The name in the header of a file's template, where the file reads as one.
fn header_name<R: Runner>(
    alloc: Global,
    works: &Works<R>,
    file: &Text,
) -> Result<Option<Bytes>, AllocError> {
    let Some(bytes) = explained_bytes(works, file) else {
        return Ok(None);
    };
    match read_template(alloc, file, bytes) {
        Ok(template) => {
            let name = template.name.as_str();
            Ok(Some(Bytes::from_slice(alloc, name.as_bytes())?))
        }
        Err(Failure::Memory) => Err(AllocError),
        Err(Failure::Fault(_fault)) => Ok(None),
    }
}

/// What could stand in the place of the wrong token of a file.
pub(crate) fn syntax_cause<R: Runner>(
    alloc: Global,
    works: &Works<R>,
    fault: &[u8],
) -> Result<Cause, AllocError> {
    let mut cause = Cause::unknown(alloc);
    if let Some(place) = place_in(alloc, fault)? {
        cause.wanted = expected_at(alloc, works, &place)?;
    }
    Ok(cause)
}

/// What a template is named by its header, and the name that it was found by.
pub(crate) fn name_cause<R: Runner>(
    alloc: Global,
    works: &Works<R>,
    fault: &[u8],
) -> Result<Cause, AllocError> {
    let mut cause = Cause::unknown(alloc);
    if let Some(place) = place_in(alloc, fault)? {
        cause.value = header_name(alloc, works, &place.file)?;
        cause.wanted = Some(Bytes::from_slice(alloc, detail_in(fault))?);
    }
    Ok(cause)
}
