ghost use Rattle.std.specs.Prelude.{◌≡◌, ◌+◌, ◌++◌, ◌∷◌, [], IfOk, IfSome, OnOk, Some, option_map};
ghost use Rattle.base.specs.Answers.{Gives};
ghost use Rattle.type_defs.specs.Depth.{fields_depth, shape_depth, type_depth};
ghost use Rattle.type_defs.specs.Fields.{IsMeasured, done_seen};
ghost use Rattle.type_defs.specs.Refusals.{type_refusal};
ghost use Rattle.type_defs.specs.Resolved.{fields_of};
ghost use Rattle.type_defs.specs.ResolvedSeen as seen;
ghost use Rattle.type_defs.specs.ResolvedSeen.{resolved_seen, shape_seen};
ghost use Rattle.type_defs.specs.Resolving.{all_more, fields_behind, has_field, included, one_more, record_fields};
ghost use Rattle.type_defs.specs.Tables.{all_seen, known};

use crate::measured::SharedType;
use crate::resolved::{RecordField, Shape};
use crate::type_error::TypeError;
use crate::types::Types;
use base::Text;
use pan_ast::Place;
use path_tree::Key;
use std::alloc::{AllocError, Global};

/// The fields of a record that is read, and how deep the deepest of their types is.
#[derive(Drop)]
pub(crate) struct Fields {
    pub(crate) list: Vec<RecordField>,
    pub(crate) deepest: u32,
}

/// Whether a key stands among fields.
#[tactic(auto, using(crate::proofs::RecordFields::has_more, crate::proofs::Shapes::shapes))]
pub(crate) fn has_field(done: &[RecordField], key: &Key) -> bool
    ensures { result ≡ has_field key.now (all_seen done.now) }
{
    for field in done {
        if *key == field.key {
            return true;
        }
    }
    false
}

#[tactic(auto, using(crate::proofs::Shapes::shapes))]
fn share_field(field: &RecordField) -> Result<RecordField, AllocError>
    ensures { IfOk result (λ f. seen.field_seen f ≡ seen.field_seen field.now) }
{
    Ok(RecordField {
        key: field.key.share()?,
        required: field.required,
        resolved: field.resolved.clone()?,
    })
}

/// One field more, unless its key is there; the fault is at the place that brings it.
#[tactic(auto, using(crate::proofs::RecordFields::one_pushed, crate::proofs::Shapes::shapes), unfolding(crate::specs::Resolving::one_more))]
fn one_more(
    alloc: Global,
    place: &Place,
    done: &mut Vec<RecordField>,
    field: &RecordField,
) -> Result<(), TypeError>
    ensures { Gives (λ _. all_seen done.new.items) type_refusal result
        (one_more place.now (all_seen done.old.items) (seen.field_seen field.now)) }
{
    if has_field(done, &field.key) {
        let key = Text::new(alloc, field.key.as_str())?;
        return Err(TypeError::Redefined(place.share()?, key));
    }
    done.push(share_field(field)?)?;
    Ok(())
}

/// Fields more, in order.
#[tactic(auto, using(crate::proofs::RecordFields::fields_more), unfolding(crate::specs::Resolving::all_more))]
fn all_more(
    alloc: Global,
    place: &Place,
    done: &mut Vec<RecordField>,
    fields: &[RecordField],
) -> Result<(), TypeError>
    ensures { Gives (λ _. all_seen done.new.items) type_refusal result
        (all_more place.now (all_seen done.old.items) (all_seen fields.now)) }
{
    for field in fields {
        one_more(alloc, place, done, field)?;
    }
    Ok(())
}

/// The fields of a type that is written as a record.
#[tactic(auto, using(crate::proofs::RecordFields::record_seen, crate::proofs::Shapes::shapes))]
fn record_fields(shape: &Shape) -> Option<&[RecordField]>
    ensures fields { option_map (λ fs. all_seen fs.now) result
        ≡ record_fields (shape_seen shape.now) }
    ensures depth { IfSome result (λ fs. shape_depth (shape_seen shape.now)
        ≡ fields_depth (fields_of (all_seen fs.now))) }
{
    match shape {
        Shape::Record {
            extensible: _,
            fields,
        } => Some(fields),
        Shape::Base(_) => None,
        Shape::Named(_) => None,
        Shape::Ranged(_, _) => None,
        Shape::ListOf(_, _) => None,
        Shape::DictOf(_, _) => None,
        Shape::Link(_) => None,
        Shape::Choice(_) => None,
    }
}

#[tactic(auto, using(crate::proofs::Shapes::shapes))]
fn fields_behind(definition: &SharedType) -> Option<&[RecordField]>
    ensures fields { option_map (λ fs. all_seen fs.now) result
        ≡ fields_behind (Some (resolved_seen definition.now)) }
    ensures depth { IfSome result (λ fs. type_depth (resolved_seen definition.now)
        ≡ 1 + fields_depth (fields_of (all_seen fs.now))) }
{
    record_fields(&definition.as_resolved().shape)
}

/// The fields of a definition, behind those that are done.
fn brought(
    alloc: Global,
    place: &Place,
    done: &mut Fields,
    definition: &SharedType,
    fields: &[RecordField],
) -> Result<(), TypeError>
    requires measured { IsMeasured done.now }
    requires depth { type_depth (resolved_seen definition.now)
        ≡ 1 + fields_depth (fields_of (all_seen fields.now)) }
    ensures gives { Gives (λ _. done_seen done.new) type_refusal result
        (all_more place.now (done_seen done.old) (all_seen fields.now)) }
    ensures measured { OnOk result (IsMeasured done.new) }
{
    all_more(alloc, place, &mut done.list, fields)?;
    done.deepest = done.deepest.max(definition.depth() - 1);
    Ok(())
}

/// The fields that an `include` brings, behind those that are done.
#[tactic(auto, unfolding(crate::specs::Resolving::included))]
pub(crate) fn included(
    alloc: Global,
    types: &Types,
    place: &Place,
    name: &Text,
    name_place: &Place,
    done: &mut Fields,
) -> Result<(), TypeError>
    requires measured { IsMeasured done.now }
    ensures gives { Gives (λ _. done_seen done.new) type_refusal result
        (included place.now name.now name_place.now (done_seen done.old)
        (fields_behind (known types.now name.now))) }
    ensures measured { OnOk result (IsMeasured done.new) }
{
    let Some(definition) = types.find(name) else {
        return Err(TypeError::NoType(name_place.share()?, name.share()?));
    };
    match fields_behind(definition) {
        None => Err(TypeError::NoType(name_place.share()?, name.share()?)),
        Some(fields) => brought(alloc, place, done, definition, fields),
    }
}

/// A field behind others.
#[tactic(auto, using(crate::proofs::RecordFields::one_pushed, crate::proofs::Shapes::seen_field))]
fn push_field(
    list: &mut Vec<RecordField>,
    key: &Key,
    required: bool,
    resolved: &SharedType,
) -> Result<(), AllocError>
    ensures { OnOk result (all_seen list.new.items ≡ all_seen list.old.items ++ record {
      key = key.now;
      required = required;
      resolved = resolved_seen resolved.now;
    } ∷ []) }
{
    let field = RecordField {
        key: key.share()?,
        required,
        resolved: resolved.as_part()?,
    };
    list.push(field)?;
    Ok(())
}

/// A field of its own, behind those that are done.
pub(crate) fn push_own(
    done: &mut Fields,
    key: &Key,
    required: bool,
    resolved: &SharedType,
) -> Result<(), AllocError>
    requires measured { IsMeasured done.now }
    ensures fields { OnOk result (done_seen done.new ≡ done_seen done.old ++ record {
      key = key.now;
      required = required;
      resolved = resolved_seen resolved.now;
    } ∷ []) }
    ensures measured { OnOk result (IsMeasured done.new) }
{
    push_field(&mut done.list, key, required, resolved)?;
    done.deepest = done.deepest.max(resolved.depth());
    Ok(())
}
