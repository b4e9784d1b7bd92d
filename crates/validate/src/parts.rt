ghost use Rattle.std.specs.Prelude.{◌≡◌, None, Some};
ghost use Rattle.pan_ast.specs.Seen.{item_seen};
ghost use Rattle.pan_ast.specs.TypesSeen.{body_seen};
ghost use Rattle.path_tree.specs.Children.{child_fields};
ghost use Rattle.path_tree.specs.Find.{kind_of};
ghost use Rattle.path_tree.specs.declared.kind.Kind.TheVariants as kind;
ghost use Rattle.type_defs.specs.Resolved.{fields_of};
ghost use Rattle.type_defs.specs.Tables.{all_seen};
ghost use Rattle.path_tree.specs.Plain.{Plain};
ghost use Rattle.validate.specs.Check.{condition_run, field_run, no_other, other_key, shape_run, target_run};
ghost use Rattle.validate.specs.Kinds.{link_path};
ghost use Rattle.validate.specs.Refusals.{Checks};
ghost use Rattle.validate.specs.Validations.{Judges, KeepsLoans, total};
ghost use Rattle.type_defs.specs.Resolved.{Choice, OfBase};

use crate::evaluator::Evaluator;
use crate::extra::other_key;
use crate::kinds::{is_among, is_of, link_path};
use crate::leaf::{fault, refusal, refusal_at};
use crate::refusal::{Exit, Misfit};
use crate::validation::Validation;
use base::Text;
use pan_ast::{Code, Item, Place};
use path_tree::{Key, Name, Tree};
use std::rc::Rc;
use std::sync::ledger::Ledger;
use type_defs::{Base, RecordField};

/// A value and a type that the language gives.
#[inline(always)]
pub(crate) fn check_base<L: Ledger, E: Evaluator>(
    place: &Place,
    base: Base,
    value: &Tree,
    validation: &Validation<'_, '_, E, L>,
) -> Result<(), Exit>
    ensures { Judges (λ x. x) result E.Evaluator validation.now validation.now
        (shape_run E.means place.now (OfBase base) value.now) }
{
    if is_of(base, value.kind()) {
        Ok(())
    } else {
        Err(refusal(validation.alloc, Misfit::WrongType))
    }
}

/// A value and the texts that it may be.
#[inline(never)]
pub(crate) fn check_choice<L: Ledger, E: Evaluator>(
    place: &Place,
    texts: &[Text],
    value: &Tree,
    validation: &Validation<'_, '_, E, L>,
) -> Result<(), Exit>
    ensures { Judges (λ x. x) result E.Evaluator validation.now validation.now
        (shape_run E.means place.now (Choice texts.now) value.now) }
{
    let Some(text) = value.as_text() else {
        return Err(refusal(validation.alloc, Misfit::WrongType));
    };
    if is_among(text, texts) {
        Ok(())
    } else {
        Err(refusal(validation.alloc, Misfit::OutOfRange))
    }
}

/// What `with` tests, of a value.
#[inline(never)]
#[tactic(auto, unfolding(crate::specs::Check::condition_run))]
fn check_test<L: Ledger, E: Evaluator>(
    place: &Place,
    item: &Item,
    template: &Name,
    value: &Tree,
    validation: &mut Validation<'_, '_, E, L>,
) -> Result<(), Exit>
    ensures gives { Judges (λ x. x) result E.Evaluator validation.old validation.new
        (condition_run E.means place.now (Some (item_seen item.now)) template.now value.now) }
    ensures counted { total validation.new ≡ total validation.old }
    ensures lent { KeepsLoans validation.old validation.new }
{
    let holds = validation.evaluator.value(
        validation.alloc,
        template,
        item,
        value,
        &mut validation.work,
        &mut *validation.steps,
    )?;
    match holds.as_boolean() {
        Some(true) => Ok(()),
        Some(false) => Err(refusal(validation.alloc, Misfit::FalseTest)),
        None => Err(Exit::Stopped(fault(validation.alloc, Code::NotBoolean, place))),
    }
}

/// What `with` tests, where it is written.
#[inline(always)]
#[tactic(auto, unfolding(crate::specs::Check::condition_run))]
pub(crate) fn check_condition<L: Ledger, E: Evaluator>(
    place: &Place,
    condition: &Option<Rc<Item>>,
    template: &Name,
    value: &Tree,
    validation: &mut Validation<'_, '_, E, L>,
) -> Result<(), Exit>
    ensures gives { Judges (λ x. x) result E.Evaluator validation.old validation.new
        (condition_run E.means place.now (body_seen condition.now) template.now value.now) }
    ensures counted { total validation.new ≡ total validation.old }
    ensures lent { KeepsLoans validation.old validation.new }
{
    match condition {
        None => Ok(()),
        Some(item) => check_test(place, item, template, value, validation),
    }
}

/// The value behind a link.
#[tactic(auto, using(crate::proofs::Leaving::leaving), unfolding(crate::specs::Check::target_run))]
pub(crate) fn link_target<L: Ledger, E: Evaluator>(
    place: &Place,
    value: &Tree,
    validation: &mut Validation<'_, '_, E, L>,
) -> Result<Tree, Exit>
    ensures gives { Judges (λ t. t) result E.Evaluator validation.old validation.new
        (target_run E.means place.now (link_path value.now)) }
    ensures counted { total validation.new ≡ total validation.old }
    ensures lent { KeepsLoans validation.old validation.new }
{
    let Some(path) = link_path(validation.alloc, value)? else {
        return Err(refusal(validation.alloc, Misfit::WrongType));
    };
    match validation
        .evaluator
        .look(validation.alloc, place, &path, &validation.work)?
    {
        Some(target) => Ok(target),
        None => Err(refusal(validation.alloc, Misfit::WrongType)),
    }
}

/// A field of a record that is not there.
#[tactic(auto, unfolding(crate::specs::Check::field_run))]
pub(crate) fn check_absent<L: Ledger, E: Evaluator>(
    key: &Key,
    required: bool,
    validation: &Validation<'_, '_, E, L>,
) -> Result<(), Exit>
    ensures { (f : Plain → Checks (Unit {0})) → Judges (λ x. x) result E.Evaluator validation.now
        validation.now (field_run key.now required f None) }
{
    if required {
        Err(refusal_at(validation.alloc, Misfit::MissingField, key))
    } else {
        Ok(())
    }
}

/// Checks that a dict has no key but those of fields.
pub(crate) fn check_no_other<L: Ledger, E: Evaluator>(
    fields: &[RecordField],
    value: &Tree,
    validation: &Validation<'_, '_, E, L>,
) -> Result<(), Exit>
    requires { kind_of value.now ≡ kind.Dict }
    ensures { Judges (λ x. x) result E.Evaluator validation.now validation.now
        (no_other (other_key (fields_of (all_seen fields.now)) (child_fields value.now))) }
{
    match other_key(validation.alloc, fields, value)? {
        None => Ok(()),
        Some(key) => Err(refusal_at(validation.alloc, Misfit::ExtraField, key)),
    }
}
