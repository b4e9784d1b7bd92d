use crate::places::place_in;
use base::{Bytes, Seq, Steps};
use dml_runner::DmlRunner;
use engine_session::Works;
use object_run::Library;
use pan_ast::Place;
use std::alloc::{AllocError, Global};
use std::sync::ledger::Ledger;
use works_again::{build_end_again, push_place};

/// Whether a place is that of the fault itself, which its line tells.
fn is_told(own: &Option<Place>, place: &Place) -> bool {
    match own {
        Some(own) => own == place,
        None => false,
    }
}

/// Places as a reader is told them, but for that of the fault itself.
fn texts_of(
    alloc: Global,
    places: &[Place],
    own: &Option<Place>,
) -> Result<Seq<Bytes>, AllocError> {
    let mut texts = Vec::new(alloc);
    for place in places {
        if !is_told(own, place) {
            let mut text = Vec::new(alloc);
            push_place(&mut text, place)?;
            texts.push(Bytes::from_vec(text)?)?;
        }
    }
    Ok(Seq::from_vec(texts))
}

/// The calls and includes inside which an object has its fault. Where no run here had it, its build is run again.
fn trail_of<D: DmlRunner, L: Ledger>(
    works: &mut Works<Library<D>>,
    object: &str,
    steps: &mut Steps<L>,
) -> Result<Option<Vec<Place>>, AllocError> {
    if let Some(places) = works.runner.take_trail(object) {
        return Ok(Some(places));
    }
    let _end = build_end_again(works, object, steps)?;
    Ok(works.runner.take_trail(object))
}

/// The same, as a reader is told them.
pub(crate) fn trace_of<D: DmlRunner, L: Ledger>(
    alloc: Global,
    works: &mut Works<Library<D>>,
    object: &str,
    fault: &[u8],
    steps: &mut Steps<L>,
) -> Result<Seq<Bytes>, AllocError> {
    match trail_of(works, object, steps)? {
        Some(places) => texts_of(alloc, &places, &place_in(alloc, fault)?),
        None => Ok(Seq::new(alloc)),
    }
}
