ghost use Rattle.std.specs.Prelude.{◌≡◌, Bool, Some};
ghost use Rattle.path_tree.specs.Children.{child_fields, child_items};
ghost use Rattle.path_tree.specs.Find.{child_at, key_at, kind_of};
ghost use Rattle.path_tree.specs.declared.kind.Kind.TheVariants as kind;
ghost use Rattle.type_defs.specs.Resolved.{DictOf, Link, ListOf, Ranged, Record, fields_of};
ghost use Rattle.type_defs.specs.ResolvedSeen.{field_seen, resolved_seen, shape_seen};
ghost use Rattle.type_defs.specs.Tables.{all_seen};
ghost use Rattle.validate.specs.Check.{check, field_run, fields_run, items_run, shape_run, values_run};
ghost use Rattle.validate.specs.Validations.{Judges, KeepsLoans, total};
ghost use Rattle.validate.specs.Walks.{item_run, typed_run, value_run};

use crate::evaluator::Evaluator;
use crate::exits::{at_link, below_index, below_key};
use crate::kinds::{is_count, is_in};
use crate::leaf::{refusal, take_step};
use crate::parts::{
    check_absent, check_base, check_choice, check_condition, check_no_other, link_target,
};
use crate::refusal::{Exit, Misfit};
use crate::validation::Validation;
use pan_ast::Place;
use path_tree::{Key, Kind, Tree};
use std::sync::ledger::Ledger;
use type_defs::{Range, RecordField, Resolved, Shape};

/// Checks a value by a type, for a binding at the place: the first fault, in order.
#[cycle(checking)]
#[tactic(auto, using(type_defs::proofs::Shapes::seen_resolved, crate::proofs::Leaving::leaving))]
pub(crate) fn check_value<L: Ledger, E: Evaluator>(
    place: &Place,
    resolved: &Resolved,
    value: &Tree,
    validation: &mut Validation<'_, '_, E, L>,
) -> Result<(), Exit>
    ensures gives { Judges (λ x. x) result E.Evaluator validation.old validation.new
        (check E.means place.now (resolved_seen resolved.now) value.now) }
    ensures counted { total validation.new ≡ total validation.old }
    ensures lent { KeepsLoans validation.old validation.new }
{
    take_step(place, validation)?;
    check_shape(place, &resolved.shape, value, validation)?;
    let condition = &resolved.condition;
    let template = &resolved.template;
    check_condition(place, condition, template, value, validation)
}

#[inline(always)]
#[cycle(checking)]
#[tactic(auto, using(type_defs::proofs::Shapes::shapes))]
fn check_shape<L: Ledger, E: Evaluator>(
    place: &Place,
    shape: &Shape,
    value: &Tree,
    validation: &mut Validation<'_, '_, E, L>,
) -> Result<(), Exit>
    ensures gives { Judges (λ x. x) result E.Evaluator validation.old validation.new
        (shape_run E.means place.now (shape_seen shape.now) value.now) }
    ensures counted { total validation.new ≡ total validation.old }
    ensures lent { KeepsLoans validation.old validation.new }
{
    match shape {
        Shape::Base(base) => check_base(place, *base, value, validation),
        Shape::Named(inner) => check_value(place, inner, value, validation),
        Shape::Ranged(inner, range) => check_ranged(place, inner, *range, value, validation),
        Shape::ListOf(inner, range) => check_list(place, inner, *range, value, validation),
        Shape::DictOf(inner, range) => check_dict(place, inner, *range, value, validation),
        Shape::Link(inner) => check_link(place, inner, value, validation),
        Shape::Record { extensible, fields } => check_record(
            place,
            *extensible,
            fields,
            value,
            validation,
        ),
        Shape::Choice(texts) => check_choice(place, texts, value, validation),
    }
}

#[inline(always)]
#[cycle(checking)]
fn check_ranged<L: Ledger, E: Evaluator>(
    place: &Place,
    inner: &Resolved,
    range: Range,
    value: &Tree,
    validation: &mut Validation<'_, '_, E, L>,
) -> Result<(), Exit>
    ensures gives { Judges (λ x. x) result E.Evaluator validation.old validation.new
        (shape_run E.means place.now (Ranged (resolved_seen inner.now) range) value.now) }
    ensures counted { total validation.new ≡ total validation.old }
    ensures lent { KeepsLoans validation.old validation.new }
{
    check_value(place, inner, value, validation)?;
    if is_in(range, value) {
        Ok(())
    } else {
        Err(refusal(validation.alloc, Misfit::OutOfRange))
    }
}

#[cycle(checking)]
#[tactic(auto, using(crate::proofs::Walking::list_is, crate::proofs::Walking::no_list))]
fn check_list<L: Ledger, E: Evaluator>(
    place: &Place,
    inner: &Resolved,
    range: Range,
    value: &Tree,
    validation: &mut Validation<'_, '_, E, L>,
) -> Result<(), Exit>
    ensures gives { Judges (λ x. x) result E.Evaluator validation.old validation.new
        (shape_run E.means place.now (ListOf (resolved_seen inner.now) range) value.now) }
    ensures counted { total validation.new ≡ total validation.old }
    ensures lent { KeepsLoans validation.old validation.new }
{
    let Kind::List = value.kind() else {
        return Err(refusal(validation.alloc, Misfit::WrongType));
    };
    if !is_count(range, value.len()) {
        return Err(refusal(validation.alloc, Misfit::OutOfRange));
    }
    check_items(place, inner, value, validation)
}

#[cycle(checking)]
#[tactic(auto, using(crate::proofs::Walking::items_start, crate::proofs::Walking::items_more, crate::proofs::Walking::items_end, crate::proofs::Leaving::leaving))]
fn check_items<L: Ledger, E: Evaluator>(
    place: &Place,
    inner: &Resolved,
    value: &Tree,
    validation: &mut Validation<'_, '_, E, L>,
) -> Result<(), Exit>
    requires { kind_of value.now ≡ kind.List }
    ensures gives { Judges (λ x. x) result E.Evaluator validation.old validation.new
        (items_run (check E.means place.now (resolved_seen inner.now)) 0 (child_items value.now)) }
    ensures counted { total validation.new ≡ total validation.old }
    ensures lent { KeepsLoans validation.old validation.new }
{
    for i in 0..value.len() {
        check_item(place, inner, value, i, validation)?;
    }
    Ok(())
}

#[cycle(checking)]
#[tactic(auto, unfolding(crate::specs::Walks::item_run))]
fn check_item<L: Ledger, E: Evaluator>(
    place: &Place,
    inner: &Resolved,
    value: &Tree,
    i: usize,
    validation: &mut Validation<'_, '_, E, L>,
) -> Result<(), Exit>
    ensures gives { Judges (λ x. x) result E.Evaluator validation.old validation.new
        (item_run (check E.means place.now (resolved_seen inner.now)) i (child_at i value.now)) }
    ensures counted { total validation.new ≡ total validation.old }
    ensures lent { KeepsLoans validation.old validation.new }
{
    let Some(child) = value.child_at(i) else {
        return Ok(());
    };
    below_index(i, check_value(place, inner, child, validation))
}

#[cycle(checking)]
#[tactic(auto, using(crate::proofs::Walking::dict_is, crate::proofs::Walking::no_dict))]
fn check_dict<L: Ledger, E: Evaluator>(
    place: &Place,
    inner: &Resolved,
    range: Range,
    value: &Tree,
    validation: &mut Validation<'_, '_, E, L>,
) -> Result<(), Exit>
    ensures gives { Judges (λ x. x) result E.Evaluator validation.old validation.new
        (shape_run E.means place.now (DictOf (resolved_seen inner.now) range) value.now) }
    ensures counted { total validation.new ≡ total validation.old }
    ensures lent { KeepsLoans validation.old validation.new }
{
    let Kind::Dict = value.kind() else {
        return Err(refusal(validation.alloc, Misfit::WrongType));
    };
    if !is_count(range, value.len()) {
        return Err(refusal(validation.alloc, Misfit::OutOfRange));
    }
    check_entries(place, inner, value, validation)
}

#[cycle(checking)]
#[tactic(auto, using(crate::proofs::Walking::fields_start, crate::proofs::Walking::values_more, crate::proofs::Walking::values_end, crate::proofs::Leaving::leaving))]
fn check_entries<L: Ledger, E: Evaluator>(
    place: &Place,
    inner: &Resolved,
    value: &Tree,
    validation: &mut Validation<'_, '_, E, L>,
) -> Result<(), Exit>
    requires { kind_of value.now ≡ kind.Dict }
    ensures gives { Judges (λ x. x) result E.Evaluator validation.old validation.new
        (values_run (check E.means place.now (resolved_seen inner.now)) (child_fields value.now)) }
    ensures counted { total validation.new ≡ total validation.old }
    ensures lent { KeepsLoans validation.old validation.new }
{
    for i in 0..value.len() {
        check_entry(place, inner, value, i, validation)?;
    }
    Ok(())
}

#[cycle(checking)]
#[tactic(auto, unfolding(crate::specs::Walks::value_run))]
fn check_entry<L: Ledger, E: Evaluator>(
    place: &Place,
    inner: &Resolved,
    value: &Tree,
    i: usize,
    validation: &mut Validation<'_, '_, E, L>,
) -> Result<(), Exit>
    ensures gives { Judges (λ x. x) result E.Evaluator validation.old validation.new
        (value_run (check E.means place.now (resolved_seen inner.now)) (key_at i value.now)
        (child_at i value.now)) }
    ensures counted { total validation.new ≡ total validation.old }
    ensures lent { KeepsLoans validation.old validation.new }
{
    let Some(key) = value.key_handle(i) else {
        return Ok(());
    };
    let Some(child) = value.child_at(i) else {
        return Ok(());
    };
    below_key(key, check_value(place, inner, child, validation))
}

#[inline(never)]
#[cycle(checking)]
#[tactic(auto, using(crate::proofs::Leaving::leaving))]
fn check_link<L: Ledger, E: Evaluator>(
    place: &Place,
    inner: &Resolved,
    value: &Tree,
    validation: &mut Validation<'_, '_, E, L>,
) -> Result<(), Exit>
    ensures gives { Judges (λ x. x) result E.Evaluator validation.old validation.new
        (shape_run E.means place.now (Link (resolved_seen inner.now)) value.now) }
    ensures counted { total validation.new ≡ total validation.old }
    ensures lent { KeepsLoans validation.old validation.new }
{
    let target = link_target(place, value, validation)?;
    at_link(
        validation.alloc,
        check_value(place, inner, &target, validation),
    )
}

#[inline(always)]
#[cycle(checking)]
#[tactic(auto, using(crate::proofs::Walking::record_is, crate::proofs::Walking::no_record))]
fn check_record<L: Ledger, E: Evaluator>(
    place: &Place,
    extensible: bool,
    fields: &[RecordField],
    value: &Tree,
    validation: &mut Validation<'_, '_, E, L>,
) -> Result<(), Exit>
    ensures gives { Judges (λ x. x) result E.Evaluator validation.old validation.new
        (shape_run E.means place.now (Record extensible (fields_of (all_seen fields.now)))
        value.now) }
    ensures counted { total validation.new ≡ total validation.old }
    ensures lent { KeepsLoans validation.old validation.new }
{
    let Kind::Dict = value.kind() else {
        return Err(refusal(validation.alloc, Misfit::WrongType));
    };
    check_fields(place, fields, value, validation)?;
    if extensible {
        return Ok(());
    }
    check_no_other(fields, value, validation)
}

#[inline(always)]
#[cycle(checking)]
#[tactic(auto, using(crate::proofs::Walking::typed_more, crate::proofs::Leaving::leaving))]
fn check_fields<L: Ledger, E: Evaluator>(
    place: &Place,
    fields: &[RecordField],
    value: &Tree,
    validation: &mut Validation<'_, '_, E, L>,
) -> Result<(), Exit>
    requires { kind_of value.now ≡ kind.Dict }
    ensures gives { Judges (λ x. x) result E.Evaluator validation.old validation.new
        (fields_run E.means place.now (fields_of (all_seen fields.now)) (child_fields value.now)) }
    ensures counted { total validation.new ≡ total validation.old }
    ensures lent { KeepsLoans validation.old validation.new }
{
    for field in fields {
        check_field(place, field, value, validation)?;
    }
    Ok(())
}

/// A field of a record that is there.
#[cycle(checking)]
#[tactic(auto, unfolding(crate::specs::Check::field_run))]
fn check_present<L: Ledger, E: Evaluator>(
    place: &Place,
    key: &Key,
    inner: &Resolved,
    child: &Tree,
    validation: &mut Validation<'_, '_, E, L>,
) -> Result<(), Exit>
    ensures gives { (required : Bool) → Judges (λ x. x) result E.Evaluator validation.old
        validation.new
        (field_run key.now required (check E.means place.now (resolved_seen inner.now)) (Some
        child.now)) }
    ensures counted { total validation.new ≡ total validation.old }
    ensures lent { KeepsLoans validation.old validation.new }
{
    below_key(key, check_value(place, inner, child, validation))
}

#[inline(always)]
#[cycle(checking)]
#[tactic(auto, using(type_defs::proofs::Shapes::seen_field))]
fn check_field<L: Ledger, E: Evaluator>(
    place: &Place,
    field: &RecordField,
    value: &Tree,
    validation: &mut Validation<'_, '_, E, L>,
) -> Result<(), Exit>
    ensures gives { Judges (λ x. x) result E.Evaluator validation.old validation.new
        (typed_run E.means place.now (field_seen field.now) value.now) }
    ensures counted { total validation.new ≡ total validation.old }
    ensures lent { KeepsLoans validation.old validation.new }
{
    match value.field(field.key.as_str()) {
        None => check_absent(&field.key, field.required, validation),
        Some(child) => check_present(place, &field.key, &field.resolved, child, validation),
    }
}
