use crate::places::{path_in, place_in};
use base::{Bytes, Seq, Steps};
use dml_runner::DmlRunner;
use engine_session::Works;
use fault_causes::{Cause as Known, cause_of};
use fault_notes::{Cause, Setter, shown_value};
use object_run::{Library, Rest};
use pan_ast::Place;
use pan_blame::Leaf;
use path_tree::Path;
use std::alloc::{AllocError, Global};
use std::sync::ledger::Ledger;
use wanted_types::wanted;
use works_again::push_place;

fn shown(alloc: Global, value: &Option<String>) -> Result<Option<Bytes>, AllocError> {
    match value {
        Some(text) => Ok(Some(Bytes::from_vec(shown_value(alloc, text.as_str())?)?)),
        None => Ok(None),
    }
}

fn setter_of(alloc: Global, leaf: &Option<Leaf>) -> Result<Option<Setter>, AllocError> {
    let Some(leaf) = leaf else {
        return Ok(None);
    };
    let mut place = Vec::new(alloc);
    push_place(&mut place, &leaf.place)?;
    Ok(Some(Setter {
        place: Bytes::from_vec(place)?,
        default: leaf.default,
    }))
}

/// What a reader is told of a value at a path, for a fault at a place.
fn told(
    alloc: Global,
    known: &Known<Rest>,
    place: &Place,
    path: &Path,
) -> Result<Cause, AllocError> {
    let bounds = known.built.rest.bindings().bounds();
    let text = wanted(alloc, bounds, place, path.terms.as_slice())?;
    Ok(Cause {
        value: shown(alloc, &known.value)?,
        wanted: Some(Bytes::from_vec(text)?),
        looked_for: None,
        set_by: setter_of(alloc, &known.setter)?,
        trace: Seq::new(alloc),
    })
}

/// What is known of the value at a path of an object, for a fault at a place.
fn cause_at<D: DmlRunner, L: Ledger>(
    alloc: Global,
    works: &mut Works<Library<D>>,
    object: &str,
    place: &Place,
    path: &Path,
    steps: &mut Steps<L>,
) -> Result<Cause, AllocError> {
    match cause_of(alloc, works, object, path.terms.as_slice(), steps)? {
        Some(known) => told(alloc, &known, place, path),
        None => Ok(Cause::unknown(alloc)),
    }
}

/// What is known of the value that a fault of an object is about.
pub(crate) fn value_cause<D: DmlRunner, L: Ledger>(
    alloc: Global,
    works: &mut Works<Library<D>>,
    object: &str,
    fault: &[u8],
    steps: &mut Steps<L>,
) -> Result<Cause, AllocError> {
    let (Some(place), Some(path)) = (place_in(alloc, fault)?, path_in(alloc, fault)?) else {
        return Ok(Cause::unknown(alloc));
    };
    cause_at(alloc, works, object, &place, &path, steps)
}
