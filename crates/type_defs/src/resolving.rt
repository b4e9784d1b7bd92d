ghost use Rattle.std.specs.Prelude.{◌≡◌, [], IfOk, OnOk, option_map};
ghost use Rattle.base.specs.Answers.{Gives};
ghost use Rattle.pan_ast.specs.TypesSeen.{field_seen, fields_seen, full_seen, head_seen, type_seen};
ghost use Rattle.pan_ast.specs.Seen.{item_seen};
ghost use Rattle.type_defs.specs.Fields.{IsMeasured, done_seen};
ghost use Rattle.type_defs.specs.Refusals.{type_refusal};
ghost use Rattle.type_defs.specs.ResolvedSeen.{resolved_seen};
ghost use Rattle.type_defs.specs.Resolving.{type_place, value_of};
ghost use Rattle.type_defs.specs.Resolving as meaning;
ghost use Rattle.type_defs.specs.Tables.{known};

use crate::fields::{Fields, has_field, included, push_own};
use crate::making::{named, ranged, with_suffixes};
use crate::measured::{Measured, SharedType};
use crate::resolved::{DefaultValue, Shape};
use crate::type_error::TypeError;
use crate::types::Types;
use base::Text;
use pan_ast::{Field, FullType, Head, Item, Place, TypeForm};
use path_tree::{Name, Tree};
use std::alloc::{AllocError, Global};

/// The value of a default, where one is written, and the values behind it.
fn value_of<'a>(
    default: &Option<Item>,
    values: &'a [Tree],
) -> Result<(Option<DefaultValue>, &'a [Tree]), AllocError>
    ensures { IfOk result (λ r. (r.0, r.1.now)
        ≡ value_of (option_map item_seen default.now) values.now) }
{
    match (default, values) {
        (None, _) => Ok((None, values)),
        (Some(_), []) => Ok((None, values)),
        (Some(_), [first, rest @ ..]) => Ok((DefaultValue::of(first)?, rest)),
    }
}

fn shared_texts(alloc: Global, texts: &[Text]) -> Result<Vec<Text>, AllocError>
    ensures { IfOk result (λ ts. ts.items ≡ texts.now) }
{
    let mut shared = Vec::with_capacity(alloc, texts.len())?;
    for text in texts {
        shared.push(text.share()?)?;
    }
    Ok(shared)
}

/// Where a type that is too deep is told: at its name, or at what holds it.
#[tactic(auto, using(pan_ast::proofs::TypeForms::types))]
fn type_place<'a>(place: &'a Place, head: &'a Head) -> &'a Place
    ensures { result.now ≡ type_place place.now (head_seen head.now) }
{
    match head {
        Head::Named {
            name: _,
            place: name_place,
            bounds: _,
        } => name_place,
        Head::Record(_) => place,
        Head::Choice(_) => place,
    }
}

/// A type of a template, with the values of the defaults in it from here on; and the values behind
/// them. The place is that of the statement or the field that holds the type.
#[cycle(resolving)]
#[tactic(auto, using(pan_ast::proofs::TypeForms::types))]
fn resolve_full<'a>(
    alloc: Global,
    types: &Types,
    template: &Name,
    place: &Place,
    full: &FullType,
    values: &'a [Tree],
) -> Result<(Measured, &'a [Tree]), TypeError>
    ensures { Gives (λ r. (resolved_seen r.0, r.1.now)) type_refusal result
        (meaning.resolved (known types.now) template.now place.now (full_seen full.now)
        values.now) }
{
    let (inner, values) = resolve_form(alloc, types, template, place, &full.form, values)?;
    let (own, values) = value_of(&full.default, values)?;
    Ok((inner.completed(&full.with, own)?, values))
}

#[cycle(resolving)]
#[tactic(auto, using(pan_ast::proofs::TypeForms::types))]
fn resolve_form<'a>(
    alloc: Global,
    types: &Types,
    template: &Name,
    place: &Place,
    form: &TypeForm,
    values: &'a [Tree],
) -> Result<(Measured, &'a [Tree]), TypeError>
    ensures { Gives (λ r. (resolved_seen r.0, r.1.now)) type_refusal result
        (meaning.form_resolved (known types.now) template.now place.now (type_seen form.now)
        values.now) }
{
    let (inner, values) = resolve_head(alloc, types, template, place, &form.head, values)?;
    let place = type_place(place, &form.head);
    let whole = with_suffixes(alloc, template, place, inner, &form.suffixes)?;
    Ok((whole, values))
}

#[cycle(resolving)]
#[tactic(auto, using(pan_ast::proofs::TypeForms::types, crate::proofs::Shapes::shapes))]
fn resolve_head<'a>(
    alloc: Global,
    types: &Types,
    template: &Name,
    place: &Place,
    head: &Head,
    values: &'a [Tree],
) -> Result<(Measured, &'a [Tree]), TypeError>
    ensures { Gives (λ r. (resolved_seen r.0, r.1.now)) type_refusal result
        (meaning.head_resolved (known types.now) template.now place.now (head_seen head.now)
        values.now) }
{
    match head {
        Head::Named {
            name,
            place: name_place,
            bounds,
        } => {
            let inner = named(types, template, name_place, name)?;
            let whole = ranged(alloc, template, name_place, inner, bounds)?;
            Ok((whole, values))
        }
        Head::Record(form) => {
            let (done, values) = resolve_fields(alloc, types, template, &form.fields, values)?;
            let Fields { list, deepest } = done;
            let shape = Shape::Record {
                extensible: form.extensible,
                fields: list,
            };
            let whole = Measured::around(place, template, shape, None, deepest)?;
            Ok((whole, values))
        }
        Head::Choice(texts) => {
            let shape = Shape::Choice(shared_texts(alloc, texts)?);
            let whole = Measured::around(place, template, shape, None, 0)?;
            Ok((whole, values))
        }
    }
}

#[cycle(resolving)]
#[tactic(auto, using(crate::proofs::WrittenFields::resolved_more))]
fn resolve_fields<'a>(
    alloc: Global,
    types: &Types,
    template: &Name,
    fields: &[Field],
    values: &'a [Tree],
) -> Result<(Fields, &'a [Tree]), TypeError>
    ensures gives { Gives (λ r. (done_seen r.0, r.1.now)) type_refusal result
        (meaning.fields_resolved (known types.now) template.now (fields_seen fields.now) []
        values.now) }
    ensures measured { IfOk result (λ r. IsMeasured r.0) }
{
    let mut done = Fields {
        list: Vec::new(alloc),
        deepest: 0,
    };
    let mut left = values;
    for field in fields {
        left = resolve_field(alloc, types, template, field, &mut done, left)?;
    }
    Ok((done, left))
}

#[cycle(resolving)]
#[tactic(auto, using(pan_ast::proofs::TypeForms::types))]
fn resolve_field<'a>(
    alloc: Global,
    types: &Types,
    template: &Name,
    field: &Field,
    done: &mut Fields,
    values: &'a [Tree],
) -> Result<&'a [Tree], TypeError>
    requires measured { IsMeasured done.now }
    ensures gives { Gives (λ r. (done_seen done.new, r.now)) type_refusal result
        (meaning.field_resolved (known types.now) template.now (field_seen field.now)
        (done_seen done.old) values.now) }
    ensures measured { OnOk result (IsMeasured done.new) }
{
    match field {
        Field::Own {
            key,
            place,
            required,
            full,
        } => {
            if has_field(&done.list, key) {
                let key = Text::new(alloc, key.as_str())?;
                return Err(TypeError::Redefined(place.share()?, key));
            }
            let (resolved, values) = resolve_full(alloc, types, template, place, full, values)?;
            push_own(done, key, *required, &resolved.shared(alloc)?)?;
            Ok(values)
        }
        Field::Include {
            place,
            name,
            name_place,
        } => {
            included(alloc, types, place, name, name_place, done)?;
            Ok(values)
        }
    }
}

impl Types {
    /// The type that a written type of a template stands for; `place` is that of the statement that
    /// holds it. `values` are those of the defaults that are written in it, in the order of the
    /// text; one that is undef or null is no default. A refusal is the first fault from left to
    /// right.
    pub fn resolve(
        &self,
        alloc: Global,
        full: &FullType,
        values: &[Tree],
        template: &Name,
        place: &Place,
    ) -> Result<SharedType, TypeError>
        ensures { Gives resolved_seen type_refusal result (meaning.type_of (known self.now)
            template.now place.now (full_seen full.now) values.now) }
    {
        let (resolved, _rest) = resolve_full(alloc, self, template, place, full, values)?;
        Ok(resolved.shared(alloc)?)
    }
}
