ghost use Rattle.std.specs.Prelude.{◌≡◌, IfOk, option_map};
ghost use Rattle.type_defs.specs.Resolved.{fields_of};
ghost use Rattle.type_defs.specs.ResolvedSeen.{resolved_seen, shape_seen};
ghost use Rattle.type_defs.specs.Tables.{all_seen};
ghost use Rattle.wanted_types.specs.Below.{below_index, below_key, field_wanted, no_field, record_wanted, shape_wanted, wanted_in};

use crate::words::{push_fields, type_text};
use path_tree::{Key, Term};
use std::alloc::{AllocError, Global};
use type_defs::{RecordField, Resolved, Shape};

/// What a type wants at the terms below it; none where it says nothing there.
#[cycle(wanting)]
#[tactic(auto, using(type_defs::proofs::Shapes::seen_resolved))]
pub(crate) fn wanted_in(
    alloc: Global,
    resolved: &Resolved,
    terms: &[Term],
) -> Result<Option<Vec<u8>>, AllocError>
    ensures { IfOk result (λ text. option_map (λ t. t.items) text
        ≡ wanted_in (resolved_seen resolved.now) terms.now) }
{
    if terms.is_empty() {
        return Ok(Some(type_text(alloc, resolved)?));
    }
    shape_wanted(alloc, &resolved.shape, terms)
}

#[cycle(wanting)]
#[tactic(auto, using(type_defs::proofs::Shapes::shapes))]
fn shape_wanted(alloc: Global, shape: &Shape, terms: &[Term]) -> Result<Option<Vec<u8>>, AllocError>
    ensures { IfOk result (λ text. option_map (λ t. t.items) text
        ≡ shape_wanted (shape_seen shape.now) terms.now) }
{
    match shape {
        Shape::Base(_) => Ok(None),
        Shape::Named(inner) => wanted_in(alloc, inner, terms),
        Shape::Ranged(inner, _) => wanted_in(alloc, inner, terms),
        Shape::ListOf(inner, _) => item_wanted(alloc, inner, terms),
        Shape::DictOf(inner, _) => value_wanted(alloc, inner, terms),
        Shape::Link(_) => Ok(None),
        Shape::Record {
            extensible: _,
            fields,
        } => record_wanted(alloc, fields, terms),
        Shape::Choice(_) => Ok(None),
    }
}

#[cycle(wanting)]
fn item_wanted(
    alloc: Global,
    inner: &Resolved,
    terms: &[Term],
) -> Result<Option<Vec<u8>>, AllocError>
    ensures { IfOk result (λ text. option_map (λ t. t.items) text
        ≡ below_index (wanted_in (resolved_seen inner.now)) terms.now) }
{
    let [Term::Index(_), below @ ..] = terms else {
        return Ok(None);
    };
    wanted_in(alloc, inner, below)
}

#[cycle(wanting)]
fn value_wanted(
    alloc: Global,
    inner: &Resolved,
    terms: &[Term],
) -> Result<Option<Vec<u8>>, AllocError>
    ensures { IfOk result (λ text. option_map (λ t. t.items) text
        ≡ below_key (λ key. wanted_in (resolved_seen inner.now)) terms.now) }
{
    let [Term::Key(_), below @ ..] = terms else {
        return Ok(None);
    };
    wanted_in(alloc, inner, below)
}

#[cycle(wanting)]
fn record_wanted(
    alloc: Global,
    fields: &[RecordField],
    terms: &[Term],
) -> Result<Option<Vec<u8>>, AllocError>
    ensures { IfOk result (λ text. option_map (λ t. t.items) text
        ≡ below_key (record_wanted (fields_of (all_seen fields.now))) terms.now) }
{
    let [Term::Key(key), below @ ..] = terms else {
        return Ok(None);
    };
    field_wanted(alloc, fields, key, below)
}

#[cycle(wanting)]
#[tactic(auto, using(type_defs::proofs::Shapes::seen_field))]
fn field_wanted(
    alloc: Global,
    fields: &[RecordField],
    key: &Key,
    terms: &[Term],
) -> Result<Option<Vec<u8>>, AllocError>
    ensures { IfOk result (λ text. option_map (λ t. t.items) text
        ≡ record_wanted (fields_of (all_seen fields.now)) key.now terms.now) }
{
    for field in fields {
        if field.key == *key {
            return wanted_in(alloc, &field.resolved, terms);
        }
    }
    no_field(alloc, fields, terms)
}

/// Of a key that no field has: the keys that there are, where nothing is asked below it.
fn no_field(
    alloc: Global,
    fields: &[RecordField],
    terms: &[Term],
) -> Result<Option<Vec<u8>>, AllocError>
    ensures { IfOk result (λ text. option_map (λ t. t.items) text
        ≡ no_field (fields_of (all_seen fields.now)) terms.now) }
{
    if !terms.is_empty() {
        return Ok(None);
    }
    let mut text = Vec::new(alloc);
    push_fields(alloc, &mut text, fields)?;
    Ok(Some(text))
}
