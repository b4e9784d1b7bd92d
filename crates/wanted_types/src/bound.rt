ghost use Rattle.std.specs.Prelude.{◌≡◌, IfOk, option_map, option_copied, Some, None};
ghost use Rattle.type_defs.specs.BindingsSeen.{bound_seen, bounds_seen};
ghost use Rattle.wanted_types.specs.Wanted.{behind, bound_wanted, first_wanted, is_by, wanted_by, wanted_text};

use crate::below::wanted_in;
use pan_ast::Place;
use path_tree::Term;
use std::alloc::{AllocError, Global};
use type_defs::Bound;

/// The terms behind a beginning; none where they do not begin so.
fn behind<'a>(first: &[Term], terms: &'a [Term]) -> Option<&'a [Term]>
    ensures { option_copied result ≡ behind first.now terms.now }
{
    match first {
        [] => Some(terms),
        [x, xs @ ..] => match terms {
            [] => None,
            [y, ys @ ..] => {
                if x == y {
                    return behind(xs, ys);
                }
                None
            }
        },
    }
}

/// What a binding wants at a path.
fn bound_wanted(alloc: Global, bound: &Bound, terms: &[Term]) -> Result<Option<Vec<u8>>, AllocError>
    ensures { IfOk result (λ text. option_map (λ t. t.items) text
        ≡ bound_wanted terms.now (bound_seen bound.now)) }
{
    match behind(bound.terms.as_slice(), terms) {
        Some(below) => wanted_in(alloc, bound.resolved.as_resolved(), below),
        None => Ok(None),
    }
}

fn is_by(bound: &Bound, place: &Place) -> bool
    ensures { result ≡ is_by place.now (bound_seen bound.now) }
{
    let by = &bound.place;
    by.line == place.line && by.column == place.column && by.file.as_str() == place.file.as_str()
}

/// What the first binding of the statement at the place wants that says what it wants at the path.
fn wanted_by(
    alloc: Global,
    bounds: &[Bound],
    place: &Place,
    terms: &[Term],
) -> Result<Option<Vec<u8>>, AllocError>
    ensures { IfOk result (λ text. option_map (λ t. t.items) text
        ≡ wanted_by place.now terms.now (bounds_seen bounds.now)) }
{
    for bound in bounds {
        if is_by(bound, place) {
            if let Some(text) = bound_wanted(alloc, bound, terms)? {
                return Ok(Some(text));
            }
        }
    }
    Ok(None)
}

/// What the first binding wants that says what it wants at the path.
fn first_wanted(
    alloc: Global,
    bounds: &[Bound],
    terms: &[Term],
) -> Result<Option<Vec<u8>>, AllocError>
    ensures { IfOk result (λ text. option_map (λ t. t.items) text
        ≡ first_wanted terms.now (bounds_seen bounds.now)) }
{
    for bound in bounds {
        if let Some(text) = bound_wanted(alloc, bound, terms)? {
            return Ok(Some(text));
        }
    }
    Ok(None)
}

/// What is wanted at a path, for a reader: the type there of a binding at or above it, first of the `bind` statement at
/// the place, then of any; of a key that a record has not, the keys of its fields; `a value` where no type says more.
///
/// A type is told without the names that it has. Of the fields of a record and the texts of a choice the first
/// `MAX_NAMES` are named.
pub fn wanted(
    alloc: Global,
    bounds: &[Bound],
    place: &Place,
    terms: &[Term],
) -> Result<Vec<u8>, AllocError>
    ensures { IfOk result (λ text. text.items
        ≡ wanted_text place.now terms.now (bounds_seen bounds.now)) }
{
    if let Some(text) = wanted_by(alloc, bounds, place, terms)? {
        return Ok(text);
    }
    if let Some(text) = first_wanted(alloc, bounds, terms)? {
        return Ok(text);
    }
    Vec::from_slice(alloc, b"a value")
}
