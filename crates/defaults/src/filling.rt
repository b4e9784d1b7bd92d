ghost use Rattle.std.specs.Prelude.{◌≡◌, ◌++◌, ◌∷◌, [], OnOk, IfOk, Some, length, option_copied};
ghost use Rattle.path_tree.specs.Children.{child_fields, child_items};
ghost use Rattle.path_tree.specs.Find.{get, item_count, key_at, kind_of};
ghost use Rattle.path_tree.specs.declared.kind.Kind.TheVariants as kind;
ghost use Rattle.path_tree.specs.declared.path.Term.TheVariants as term;
ghost use Rattle.type_defs.specs.Resolved.{fields_of};
ghost use Rattle.type_defs.specs.ResolvedSeen.{field_seen, resolved_seen, shape_seen};
ghost use Rattle.type_defs.specs.Tables.{all_seen};
ghost use Rattle.defaults.specs.Filled.{fields_filled, filled, filled_inside, items_filled, values_filled, visited, where_dict};
ghost use Rattle.defaults.specs.Fills.{FillsTarget, KeepsLoan, total};
ghost use Rattle.defaults.specs.Steps.{IsKnown, entry_filled};

use crate::bare::{bare_visits, visit_bare, visit_each, visits_of};
use crate::putting::{is_missing, put_missing};
use crate::target::{Target, copied, take_step};
use pan_ast::{Failure, Place};
use path_tree::{Kind, Term, Tree};
use std::alloc::AllocError;
use std::sync::ledger::Ledger;
use type_defs::{RecordField, Resolved, Shape};

/// How many items a list has; another value has none.
fn item_total(value: &Tree) -> usize
    ensures { result ≡ item_count (child_items value.now) }
{
    match value.kind() {
        Kind::List => value.len(),
        _ => 0,
    }
}

/// Fills what stands at the path by a type, for a binding at the place. What is found there comes
/// along, so that no visit looks it up from the root.
#[cycle(filling)]
#[tactic(auto, using(type_defs::proofs::Shapes::seen_resolved, crate::proofs::Lawful::leaving), unfolding(crate::specs::Filled::defaulted))]
pub(crate) fn fill_value<L: Ledger>(
    place: &Place,
    resolved: &Resolved,
    found: Option<&Tree>,
    target: &mut Target<'_, L>,
) -> Result<(), Failure>
    requires found { option_copied found ≡ get target.now.path.items target.now.tree }
    ensures path { OnOk result (target.new.path.items ≡ target.old.path.items) }
    ensures fills { FillsTarget result target.old target.new
        (filled place.now (resolved_seen resolved.now) target.old.path.items) }
    ensures counted { total target.new ≡ total target.old }
    ensures lent { KeepsLoan target.old target.new }
{
    if let Some(default) = &resolved.default {
        if is_missing(found) {
            put_missing(place, default, target)?;
            let Some(value) = target.standing()? else {
                return Ok(());
            };
            return fill_present(place, &resolved.shape, &value, target);
        }
    }
    match found {
        None => Ok(()),
        Some(value) => fill_present(place, &resolved.shape, value, target),
    }
}

/// Visits a value that is there.
#[inline(always)]
#[cycle(filling)]
#[tactic(auto, using(crate::proofs::Lawful::leaving))]
fn fill_present<L: Ledger>(
    place: &Place,
    shape: &Shape,
    value: &Tree,
    target: &mut Target<'_, L>,
) -> Result<(), Failure>
    requires standing { Some value.now ≡ get target.now.path.items target.now.tree }
    ensures path { OnOk result (target.new.path.items ≡ target.old.path.items) }
    ensures fills { FillsTarget result target.old target.new
        (visited place.now (filled_inside place.now (shape_seen shape.now) target.old.path.items)
        (Some value.now)) }
    ensures counted { total target.new ≡ total target.old }
    ensures lent { KeepsLoan target.old target.new }
{
    take_step(place, target)?;
    fill_shape(place, shape, value, target)
}

/// Fills a value that is there inside.
#[inline(always)]
#[cycle(filling)]
#[tactic(auto, using(type_defs::proofs::Shapes::shapes))]
fn fill_shape<L: Ledger>(
    place: &Place,
    shape: &Shape,
    value: &Tree,
    target: &mut Target<'_, L>,
) -> Result<(), Failure>
    requires standing { Some value.now ≡ get target.now.path.items target.now.tree }
    ensures path { OnOk result (target.new.path.items ≡ target.old.path.items) }
    ensures fills { FillsTarget result target.old target.new
        (filled_inside place.now (shape_seen shape.now) target.old.path.items value.now) }
    ensures counted { total target.new ≡ total target.old }
    ensures lent { KeepsLoan target.old target.new }
{
    match shape {
        Shape::Base(_) => Ok(()),
        Shape::Named(inner) => fill_value(place, inner, Some(value), target),
        Shape::Ranged(inner, _) => fill_value(place, inner, Some(value), target),
        Shape::ListOf(inner, _) => fill_items(place, inner, value, target),
        Shape::DictOf(inner, _) => fill_dict(place, inner, value, target),
        Shape::Link(_) => Ok(()),
        Shape::Record {
            extensible: _,
            fields,
        } => fill_record(place, fields, value, target),
        Shape::Choice(_) => Ok(()),
    }
}

/// Fills the items of a value, the first first.
#[cycle(filling)]
#[tactic(auto, using(crate::proofs::Loops::items_more, crate::proofs::Loops::items_end, crate::proofs::Lawful::leaving))]
fn fill_items<L: Ledger>(
    place: &Place,
    inner: &Resolved,
    value: &Tree,
    target: &mut Target<'_, L>,
) -> Result<(), Failure>
    requires standing { Some value.now ≡ get target.now.path.items target.now.tree }
    ensures path { OnOk result (target.new.path.items ≡ target.old.path.items) }
    ensures fills { FillsTarget result target.old target.new
        (items_filled (filled place.now (resolved_seen inner.now)) target.old.path.items 0
        (item_count (child_items value.now))) }
    ensures counted { total target.new ≡ total target.old }
    ensures lent { KeepsLoan target.old target.new }
{
    let count = item_total(value);
    if let Some(visits) = bare_visits(inner) {
        return visit_each(place, visits, count, target);
    }
    let mut whole = Some(value.copy()?);
    for i in 0..count {
        let term = index_term(i)?;
        fill_below(place, inner, term, &mut whole, target)?;
    }
    Ok(())
}

/// The term of an index. No list has 2^32 items.
fn index_term(i: usize) -> Result<Term, AllocError>
    ensures { IfOk result (λ t. t ≡ term.Index i) }
{
    match u32::try_from(i) {
        Ok(i) => Ok(Term::Index(i)),
        Err(_) => Err(AllocError),
    }
}

/// Goes one term below the path, to what stands there: in the value at the path where that is
/// known, else from the root.
#[inline(always)]
#[tactic(auto, using(path_tree::proofs::Growing::get_push))]
fn go_below<L: Ledger>(
    whole: &Option<Tree>,
    term: Term,
    target: &mut Target<'_, L>,
) -> Result<Option<Tree>, AllocError>
    requires known { IsKnown whole.now target.now.path.items target.now.tree }
    ensures path { OnOk result (target.new.path.items ≡ target.old.path.items ++ term ∷ []) }
    ensures tree { target.new.tree ≡ target.old.tree }
    ensures log { target.new.log ≡ target.old.log }
    ensures work { target.new.work ≡ target.old.work }
    ensures steps { target.new.steps ≡ target.old.steps }
    ensures found { IfOk result (λ v. v
        ≡ get (target.old.path.items ++ term ∷ []) target.old.tree) }
{
    match whole {
        Some(value) => {
            let found = copied(value.child(&term))?;
            target.path.push(term)?;
            Ok(found)
        }
        None => {
            target.path.push(term)?;
            target.standing()
        }
    }
}

/// Fills what stands one term below the path.
#[inline(always)]
#[cycle(filling)]
#[tactic(auto, using(crate::proofs::Lawful::leaving))]
fn fill_term<L: Ledger>(
    place: &Place,
    inner: &Resolved,
    term: Term,
    whole: &Option<Tree>,
    target: &mut Target<'_, L>,
) -> Result<(), Failure>
    requires known { IsKnown whole.now target.now.path.items target.now.tree }
    ensures path { OnOk result (target.new.path.items ≡ target.old.path.items) }
    ensures fills { FillsTarget result target.old target.new
        (filled place.now (resolved_seen inner.now) (target.old.path.items ++ term ∷ [])) }
    ensures counted { total target.new ≡ total target.old }
    ensures lent { KeepsLoan target.old target.new }
{
    let length = target.path.len();
    let found = go_below(whole, term, target)?;
    fill_value(place, inner, found.as_ref(), target)?;
    target.path.truncate(length);
    Ok(())
}

/// Forgets what stood at the path, where the log has grown. It is not looked up again, as it would
/// be shared then, and each default that is put below would copy it.
fn forget<L: Ledger>(whole: &mut Option<Tree>, logged: usize, target: &Target<'_, L>)
    requires { length target.now.log.items ≡ logged
        → IsKnown whole.now target.now.path.items target.now.tree }
    ensures { IsKnown whole.new target.now.path.items target.now.tree }
{
    if target.log.len() != logged {
        *whole = None;
    }
}

/// Fills what stands one term below the path, where `whole` stands at the path, if it is known.
#[cycle(filling)]
fn fill_below<L: Ledger>(
    place: &Place,
    inner: &Resolved,
    term: Term,
    whole: &mut Option<Tree>,
    target: &mut Target<'_, L>,
) -> Result<(), Failure>
    requires known { IsKnown whole.now target.now.path.items target.now.tree }
    ensures path { OnOk result (target.new.path.items ≡ target.old.path.items) }
    ensures known { OnOk result (IsKnown whole.new target.new.path.items target.new.tree) }
    ensures fills { FillsTarget result target.old target.new
        (filled place.now (resolved_seen inner.now) (target.old.path.items ++ term ∷ [])) }
    ensures counted { total target.new ≡ total target.old }
    ensures lent { KeepsLoan target.old target.new }
{
    let logged = target.log.len();
    fill_term(place, inner, term, whole, target)?;
    forget(whole, logged, target);
    Ok(())
}

#[cycle(filling)]
#[tactic(auto, using(crate::proofs::Loops::no_values))]
fn fill_dict<L: Ledger>(
    place: &Place,
    inner: &Resolved,
    value: &Tree,
    target: &mut Target<'_, L>,
) -> Result<(), Failure>
    requires standing { Some value.now ≡ get target.now.path.items target.now.tree }
    ensures path { OnOk result (target.new.path.items ≡ target.old.path.items) }
    ensures fills { FillsTarget result target.old target.new
        (values_filled (filled place.now (resolved_seen inner.now)) target.old.path.items
        (child_fields value.now)) }
    ensures counted { total target.new ≡ total target.old }
    ensures lent { KeepsLoan target.old target.new }
{
    match value.kind() {
        Kind::Dict => fill_values(place, inner, value, target),
        _ => Ok(()),
    }
}

#[cycle(filling)]
#[tactic(auto, using(crate::proofs::Loops::values_start, crate::proofs::Loops::values_more, crate::proofs::Loops::values_end, crate::proofs::Lawful::leaving))]
fn fill_values<L: Ledger>(
    place: &Place,
    inner: &Resolved,
    value: &Tree,
    target: &mut Target<'_, L>,
) -> Result<(), Failure>
    requires dict { kind_of value.now ≡ kind.Dict }
    requires standing { Some value.now ≡ get target.now.path.items target.now.tree }
    ensures path { OnOk result (target.new.path.items ≡ target.old.path.items) }
    ensures fills { FillsTarget result target.old target.new
        (values_filled (filled place.now (resolved_seen inner.now)) target.old.path.items
        (child_fields value.now)) }
    ensures counted { total target.new ≡ total target.old }
    ensures lent { KeepsLoan target.old target.new }
{
    let mut whole = Some(value.copy()?);
    for i in 0..value.len() {
        fill_entry(place, inner, value, i, &mut whole, target)?;
    }
    Ok(())
}

/// Fills the value of the i-th key.
#[cycle(filling)]
#[tactic(auto, using(crate::proofs::Lawful::leaving), unfolding(crate::specs::Steps::entry_filled))]
fn fill_entry<L: Ledger>(
    place: &Place,
    inner: &Resolved,
    value: &Tree,
    i: usize,
    whole: &mut Option<Tree>,
    target: &mut Target<'_, L>,
) -> Result<(), Failure>
    requires known { IsKnown whole.now target.now.path.items target.now.tree }
    ensures path { OnOk result (target.new.path.items ≡ target.old.path.items) }
    ensures known { OnOk result (IsKnown whole.new target.new.path.items target.new.tree) }
    ensures fills { FillsTarget result target.old target.new
        (entry_filled (filled place.now (resolved_seen inner.now)) target.old.path.items
        (key_at i value.now)) }
    ensures counted { total target.new ≡ total target.old }
    ensures lent { KeepsLoan target.old target.new }
{
    let Some(key) = value.key_handle(i) else {
        return Ok(());
    };
    if let Some(visits) = visits_of(key.as_str(), inner, whole) {
        return visit_bare(place, visits, target);
    }
    let term = Term::Key(key.share()?);
    fill_below(place, inner, term, whole, target)
}

#[inline(always)]
#[cycle(filling)]
#[tactic(auto, using(crate::proofs::Loops::no_record, crate::proofs::Loops::a_record))]
fn fill_record<L: Ledger>(
    place: &Place,
    fields: &[RecordField],
    value: &Tree,
    target: &mut Target<'_, L>,
) -> Result<(), Failure>
    requires standing { Some value.now ≡ get target.now.path.items target.now.tree }
    ensures path { OnOk result (target.new.path.items ≡ target.old.path.items) }
    ensures fills { FillsTarget result target.old target.new
        (where_dict value.now (fields_filled place.now (fields_of (all_seen fields.now))
        target.old.path.items)) }
    ensures counted { total target.new ≡ total target.old }
    ensures lent { KeepsLoan target.old target.new }
{
    match value.kind() {
        Kind::Dict => fill_fields(place, fields, value, target),
        _ => Ok(()),
    }
}

#[inline(always)]
#[cycle(filling)]
#[tactic(auto, using(crate::proofs::Loops::fields_more, crate::proofs::Lawful::leaving))]
fn fill_fields<L: Ledger>(
    place: &Place,
    fields: &[RecordField],
    value: &Tree,
    target: &mut Target<'_, L>,
) -> Result<(), Failure>
    requires standing { Some value.now ≡ get target.now.path.items target.now.tree }
    ensures path { OnOk result (target.new.path.items ≡ target.old.path.items) }
    ensures fills { FillsTarget result target.old target.new
        (fields_filled place.now (fields_of (all_seen fields.now)) target.old.path.items) }
    ensures counted { total target.new ≡ total target.old }
    ensures lent { KeepsLoan target.old target.new }
{
    let mut whole = Some(value.copy()?);
    for field in fields {
        fill_field(place, field, &mut whole, target)?;
    }
    Ok(())
}

#[inline(always)]
#[cycle(filling)]
#[tactic(auto, using(type_defs::proofs::Shapes::seen_field, crate::proofs::Lawful::leaving))]
fn fill_field<L: Ledger>(
    place: &Place,
    field: &RecordField,
    whole: &mut Option<Tree>,
    target: &mut Target<'_, L>,
) -> Result<(), Failure>
    requires known { IsKnown whole.now target.now.path.items target.now.tree }
    ensures path { OnOk result (target.new.path.items ≡ target.old.path.items) }
    ensures known { OnOk result (IsKnown whole.new target.new.path.items target.new.tree) }
    ensures fills { FillsTarget result target.old target.new
        (filled place.now (field_seen field.now).resolved (target.old.path.items
        ++ term.Key (field_seen field.now).key ∷ [])) }
    ensures counted { total target.new ≡ total target.old }
    ensures lent { KeepsLoan target.old target.new }
{
    if let Some(visits) = visits_of(field.key.as_str(), &field.resolved, whole) {
        return visit_bare(place, visits, target);
    }
    let term = Term::Key(field.key.share()?);
    fill_below(place, &field.resolved, term, whole, target)
}
