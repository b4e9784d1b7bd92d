ghost use Rattle.std.specs.Prelude.{◌≡◌, IfOk, Some, option_copied, true};
ghost use Rattle.path_tree.specs.Find.{get};
ghost use Rattle.defaults.specs.Filled.{default_change, defaulted, is_missing};
ghost use Rattle.defaults.specs.Fills.{FillsTarget};

use crate::target::{Target, fault};
use base::Seq;
use pan_ast::{Change, Code, Failure, Place};
use path_tree::{Kind, PutError, Term, Tree};
use std::alloc::{AllocError, Global};
use std::sync::ledger::Ledger;
use type_defs::{DefaultValue, push_terms};

/// Whether a value is absent or undef.
pub(crate) fn is_missing(found: Option<&Tree>) -> bool
    ensures { result ≡ is_missing (option_copied found.entry) }
{
    match found {
        None => true,
        Some(value) => matches!(value.kind(), Kind::Undef),
    }
}

/// What the log says of a default that is put.
fn default_change(
    alloc: Global,
    place: &Place,
    default: &DefaultValue,
    path: &[Term],
) -> Result<Change, AllocError>
    ensures { IfOk result (λ c. c ≡ default_change place.now path.now default.now) }
{
    let mut terms = Vec::with_capacity(alloc, path.len())?;
    push_terms(&mut terms, path)?;
    Ok(Change {
        terms: Seq::from_vec(terms),
        value: Some(default.tree().copy()?),
        place: place.share()?,
        default: true,
    })
}

/// Puts a default where the value is missing, and logs it. A place to which no walk leads is left
/// as it is.
#[inline(never)]
#[tactic(auto, unfolding(crate::specs::Filled::defaulted))]
pub(crate) fn put_missing<L: Ledger>(
    place: &Place,
    default: &DefaultValue,
    target: &mut Target<'_, L>,
) -> Result<(), Failure>
    requires { is_missing (get target.now.path.items target.now.tree) ≡ true }
    ensures path { target.new.path ≡ target.old.path }
    ensures work { target.new.work ≡ target.old.work }
    ensures steps { target.new.steps ≡ target.old.steps }
    ensures fills { FillsTarget result target.old target.new
        (defaulted place.now (Some default.now) target.old.path.items) }
{
    let change = default_change(target.alloc, place, default, &target.path)?;
    match target
        .tree
        .put(target.alloc, &target.path, default.tree().copy()?)
    {
        Ok(()) => {
            target.log.push(change)?;
            Ok(())
        }
        Err(PutError::TooLarge) => Err(fault(target.alloc, Code::TooLarge, place)),
        Err(PutError::TooHigh) => Err(fault(target.alloc, Code::TooLarge, place)),
        Err(PutError::ThroughProperty(_)) => Ok(()),
        Err(PutError::KeyInList) => Ok(()),
        Err(PutError::IndexInDict) => Ok(()),
        Err(PutError::Memory) => Err(Failure::Memory),
    }
}
