ghost use Rattle.std.specs.Prelude.{◌≡◌, None};
ghost use Rattle.base.specs.Answers.{Gives};
ghost use Rattle.type_defs.specs.Names.{base_of};
ghost use Rattle.type_defs.specs.Refusals.{type_refusal};
ghost use Rattle.type_defs.specs.ResolvedSeen.{resolved_seen};
ghost use Rattle.type_defs.specs.Resolved.{Known, Ranged, default_of};
ghost use Rattle.type_defs.specs.Resolving.{bounds_range, named, range_of, ranged, with_suffix, with_suffixes, within};
ghost use Rattle.type_defs.specs.Tables.{known};

use crate::measured::Measured;
use crate::resolved::{Range, Shape};
use crate::type_error::TypeError;
use crate::types::{Types, base_of};
use base::Text;
use pan_ast::{Bounds, Place, Suffix};
use path_tree::Name;
use std::alloc::Global;

/// The range of bounds, whose lower end is not to be above the upper one.
#[tactic(auto, unfolding(crate::specs::Resolving::bounds_range))]
fn bounds_range(bounds: &Bounds) -> Result<Range, TypeError>
    ensures { Gives (λ r. r) type_refusal result (bounds_range bounds.now) }
{
    if let (Some(low), Some(high)) = (bounds.low, bounds.high) {
        if high < low {
            return Err(TypeError::BadRange(bounds.place.share()?));
        }
    }
    Ok(Range {
        low: bounds.low,
        high: bounds.high,
    })
}

/// The range of bounds; without bounds the range that holds every number.
#[tactic(auto, unfolding(crate::specs::Resolving::range_of))]
fn range_of(bounds: &Option<Bounds>) -> Result<Range, TypeError>
    ensures { Gives (λ r. r) type_refusal result (range_of bounds.now) }
{
    match bounds {
        Some(bounds) => bounds_range(bounds),
        None => Ok(Range {
            low: None,
            high: None,
        }),
    }
}

/// The type that a name stands for: a base type, or a definition, whose default it takes.
#[tactic(auto, using(crate::proofs::Shapes::shapes), unfolding(crate::specs::Resolving::named))]
pub(crate) fn named(
    types: &Types,
    template: &Name,
    place: &Place,
    name: &Text,
) -> Result<Measured, TypeError>
    ensures { Gives resolved_seen type_refusal result
        (named template.now place.now name.now (base_of name.now) (known types.now name.now)) }
{
    if let Some(base) = base_of(name.as_str()) {
        return Measured::around(place, template, Shape::Base(base), None, 0);
    }
    let Some(definition) = types.find(name) else {
        return Err(TypeError::NoType(place.share()?, name.share()?));
    };
    let default = definition.default()?;
    let shape = Shape::Named(definition.as_part()?);
    Measured::around(place, template, shape, default, definition.depth())
}

/// A type behind which bounds may stand. Its default is the type's.
#[tactic(auto, using(crate::proofs::Shapes::shapes), unfolding(crate::specs::Resolving::ranged))]
pub(crate) fn ranged(
    alloc: Global,
    template: &Name,
    place: &Place,
    inner: Measured,
    bounds: &Option<Bounds>,
) -> Result<Measured, TypeError>
    ensures { Gives resolved_seen type_refusal result
        (ranged template.now place.now (resolved_seen inner) bounds.now) }
{
    match bounds {
        Some(bounds) => {
            let range = bounds_range(bounds)?;
            in_range(alloc, template, place, inner, range)
        }
        None => Ok(inner),
    }
}

/// A type in a range.
#[tactic(auto, using(crate::proofs::Shapes::shapes))]
fn in_range(
    alloc: Global,
    template: &Name,
    place: &Place,
    inner: Measured,
    range: Range,
) -> Result<Measured, TypeError>
    ensures { Gives resolved_seen type_refusal result (within place.now
        (Known (Ranged (resolved_seen inner) range) None template.now
        (default_of (resolved_seen inner)))) }
{
    let default = inner.default()?;
    let inner = inner.shared(alloc)?;
    let shape = Shape::Ranged(inner.as_part()?, range);
    Measured::around(place, template, shape, default, inner.depth())
}

/// A type with a suffix.
#[tactic(auto, using(crate::proofs::Shapes::shapes), unfolding(crate::specs::Resolving::with_suffix))]
fn with_suffix(
    alloc: Global,
    template: &Name,
    place: &Place,
    inner: Measured,
    suffix: &Suffix,
) -> Result<Measured, TypeError>
    ensures { Gives resolved_seen type_refusal result
        (with_suffix template.now place.now (resolved_seen inner) suffix.now) }
{
    let inner = inner.shared(alloc)?;
    let part = inner.as_part()?;
    let shape = match suffix {
        Suffix::List(bounds) => Shape::ListOf(part, range_of(bounds)?),
        Suffix::Dict(bounds) => Shape::DictOf(part, range_of(bounds)?),
        Suffix::Link => Shape::Link(part),
    };
    Measured::around(place, template, shape, None, inner.depth())
}

/// A type behind which suffixes stand, from left to right.
#[tactic(auto, using(crate::proofs::Suffixes::suffixes_more), unfolding(crate::specs::Resolving::with_suffixes))]
pub(crate) fn with_suffixes(
    alloc: Global,
    template: &Name,
    place: &Place,
    inner: Measured,
    suffixes: &[Suffix],
) -> Result<Measured, TypeError>
    ensures { Gives resolved_seen type_refusal result
        (with_suffixes template.now place.now (resolved_seen inner) suffixes.now) }
{
    let mut whole = inner;
    for suffix in suffixes {
        whole = with_suffix(alloc, template, place, whole, suffix)?;
    }
    Ok(whole)
}
