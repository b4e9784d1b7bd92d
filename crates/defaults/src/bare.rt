ghost use Rattle.std.specs.Prelude.{◌≡◌, IfSome, Some};
ghost use Rattle.type_defs.specs.ResolvedSeen.{resolved_seen, shape_seen};
ghost use Rattle.defaults.specs.Bare.{bare_inside, bare_visits, each_visited, visited_times, visits_at};
ghost use Rattle.defaults.specs.Fills.{FillsTarget, KeepsLoan, total};

use crate::target::{Target, take_step};
use pan_ast::{Failure, Place};
use path_tree::Tree;
use std::sync::ledger::Ledger;
use type_defs::{Resolved, Shape};

/// How many visits a value takes whose type has no default and no type of parts in it.
#[cycle(bare)]
#[tactic(auto, using(type_defs::proofs::Shapes::seen_resolved))]
pub(crate) fn bare_visits(resolved: &Resolved) -> Option<u64>
    ensures { IfSome result (λ n. bare_visits (resolved_seen resolved.now) ≡ Some n) }
{
    if resolved.default.is_some() {
        return None;
    }
    let inside = bare_inside(&resolved.shape)?;
    inside.checked_add(1)
}

/// How many of them are inside it.
#[cycle(bare)]
#[tactic(auto, using(type_defs::proofs::Shapes::shapes))]
fn bare_inside(shape: &Shape) -> Option<u64>
    ensures { IfSome result (λ n. bare_inside (shape_seen shape.now) ≡ Some n) }
{
    match shape {
        Shape::Base(_) | Shape::Link(_) | Shape::Choice(_) => Some(0),
        Shape::Named(inner) => bare_visits(inner),
        Shape::Ranged(inner, _) => bare_visits(inner),
        Shape::ListOf(_, _) | Shape::DictOf(_, _) => None,
        Shape::Record {
            extensible: _,
            fields: _,
        } => None,
    }
}

/// How many visits the value of a key takes, where the value around it is known and its type is
/// bare.
pub(crate) fn visits_of(key: &str, resolved: &Resolved, whole: &Option<Tree>) -> Option<u64>
    ensures { IfSome result (λ n. visits_at key.now (resolved_seen resolved.now) whole.now
        ≡ Some n) }
{
    let value = whole.as_ref()?;
    let visits = bare_visits(resolved)?;
    match value.field(key) {
        Some(_) => Some(visits),
        None => Some(0),
    }
}

/// So many visits.
#[tactic(auto, using(crate::proofs::BareTypes::visits_end, crate::proofs::BareTypes::visits_more, crate::proofs::BareTypes::visits_leave))]
pub(crate) fn visit_bare<L: Ledger>(
    place: &Place,
    visits: u64,
    target: &mut Target<'_, L>,
) -> Result<(), Failure>
    ensures path { target.new.path ≡ target.old.path }
    ensures tree { target.new.tree ≡ target.old.tree }
    ensures fills { FillsTarget result target.old target.new (visited_times place.now visits) }
    ensures counted { total target.new ≡ total target.old }
    ensures lent { KeepsLoan target.old target.new }
{
    for i in 0..visits {
        take_step(place, target)?;
    }
    Ok(())
}

/// So many visits for each of so many values.
#[tactic(auto, using(crate::proofs::BareTypes::each_end, crate::proofs::BareTypes::each_more, crate::proofs::BareTypes::each_leaves))]
pub(crate) fn visit_each<L: Ledger>(
    place: &Place,
    visits: u64,
    count: usize,
    target: &mut Target<'_, L>,
) -> Result<(), Failure>
    ensures path { target.new.path ≡ target.old.path }
    ensures fills { FillsTarget result target.old target.new (each_visited place.now visits count) }
    ensures counted { total target.new ≡ total target.old }
    ensures lent { KeepsLoan target.old target.new }
{
    for i in 0..count {
        visit_bare(place, visits, target)?;
    }
    Ok(())
}
