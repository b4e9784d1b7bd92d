ghost use Rattle.std.specs.Prelude.{◌≡◌, ◌++◌, [], OnOk, IfOk, map};
ghost use Rattle.pan_ast.specs.Seen.{item_seen};
ghost use Rattle.pan_ast.specs.TypesSeen.{field_seen, fields_seen, full_seen, head_seen};
ghost use Rattle.template_meaning.specs.Statements.{default_run, defaults_run, or_no_type, type_run};
ghost use Rattle.template_meaning.specs.WrittenDefaults.{defaults_in, field_defaults, fields_defaults, head_defaults};
ghost use Rattle.plain_statements.specs.Executions.{Executes, KeepsLoans, total};
ghost use Rattle.plain_statements.specs.Refusals.{IsUntyped};
ghost use Rattle.plain_statements.specs.Seen.{inside_of, items_at, site_in};
ghost use Rattle.type_defs.specs.ResolvedSeen.{resolved_seen};
ghost use Rattle.type_defs.specs.Resolving.{type_of};
ghost use Rattle.type_defs.specs.Tables.{known};

use crate::dml::run_in;
use crate::execution::Execution;
use crate::site::Inside;
use dml_runner::DmlRunner;
use dml_world::leaf::stop_on;
use dml_world::{SelfUse, Stop, World};
use pan_ast::{Code, Field, FullType, Head, Item, Place};
use path_tree::Tree;
use std::alloc::{AllocError, Global};
use std::sync::ledger::Ledger;
use type_defs::{SharedType, TypeError};

/// Puts the items of the defaults in a type behind those of a list.
#[cycle(written)]
#[tactic(auto, using(pan_ast::proofs::TypeForms::types))]
fn push_defaults<'a>(list: &mut Vec<&'a Item>, full: &'a FullType) -> Result<(), AllocError>
    ensures { OnOk result (items_at list.new.items ≡ items_at list.old.items
        ++ defaults_in (full_seen full.now)) }
{
    push_of_head(list, &full.form.head)?;
    if let Some(item) = &full.default {
        list.push(item)?;
    }
    Ok(())
}

#[cycle(written)]
#[tactic(auto, using(pan_ast::proofs::TypeForms::types))]
fn push_of_head<'a>(list: &mut Vec<&'a Item>, head: &'a Head) -> Result<(), AllocError>
    ensures { OnOk result (items_at list.new.items ≡ items_at list.old.items
        ++ head_defaults (head_seen head.now)) }
{
    match head {
        Head::Record(record) => push_of_fields(list, &record.fields),
        Head::Named { .. } | Head::Choice(_) => Ok(()),
    }
}

#[cycle(written)]
#[tactic(auto, using(crate::proofs::Items::fields_more, std::proofs::Common::append_assoc))]
fn push_of_fields<'a>(list: &mut Vec<&'a Item>, fields: &'a [Field]) -> Result<(), AllocError>
    ensures { OnOk result (items_at list.new.items ≡ items_at list.old.items
        ++ fields_defaults (fields_seen fields.now)) }
{
    'fields: for field in fields {
        push_of_field(list, field)?;
    }
    Ok(())
}

#[cycle(written)]
#[tactic(auto, using(pan_ast::proofs::TypeForms::types))]
fn push_of_field<'a>(list: &mut Vec<&'a Item>, field: &'a Field) -> Result<(), AllocError>
    ensures { OnOk result (items_at list.new.items ≡ items_at list.old.items
        ++ field_defaults (field_seen field.now)) }
{
    match field {
        Field::Own { full, .. } => push_defaults(list, full),
        Field::Include { .. } => Ok(()),
    }
}

/// The value of a default, which is not null.
#[tactic(auto, using(pan_ast::proofs::Places::item_place_seen, template_meaning::proofs::Leaving::leaving), unfolding(template_meaning::specs::Statements::default_run))]
fn run_default<D: DmlRunner, W: World, L: Ledger>(
    item: &Item,
    inside: &Inside<'_>,
    execution: &mut Execution<'_, '_, '_, D, W, L>,
) -> Result<Tree, Stop>
    ensures gives { Executes (λ t. t) result W.World execution.old execution.new
        (default_run (site_in W.World inside.now) (inside_of inside.now) (item_seen item.now)) }
    ensures counted { total execution.new ≡ total execution.old }
    ensures lent { KeepsLoans execution.old execution.new }
{
    let value = run_in(item, SelfUse::Fixed, Tree::undef(), inside, execution)?;
    if value.is_null() {
        return Err(stop_on(execution.alloc, Code::BadArgument, &item.place, ""));
    }
    Ok(value)
}

/// The values of defaults, in order.
#[tactic(auto, using(crate::proofs::Items::defaults_more, template_meaning::proofs::Leaving::leaving), unfolding(template_meaning::specs::Statements::defaults_run))]
fn run_defaults<D: DmlRunner, W: World, L: Ledger>(
    items: &[&Item],
    inside: &Inside<'_>,
    execution: &mut Execution<'_, '_, '_, D, W, L>,
) -> Result<Vec<Tree>, Stop>
    ensures gives { Executes (λ v. v.items) result W.World execution.old execution.new
        (defaults_run (site_in W.World inside.now) (inside_of inside.now) (items_at items.now)
        []) }
    ensures counted { total execution.new ≡ total execution.old }
    ensures lent { KeepsLoans execution.old execution.new }
{
    let mut values = Vec::new(execution.alloc);
    'items: for item in items {
        let value = run_default(item, inside, execution)?;
        values.push(value)?;
    }
    Ok(values)
}

/// The fault of a written type that is none.
fn untyped(alloc: Global, error: TypeError) -> Stop
    ensures { IsUntyped error result }
{
    match error {
        TypeError::Memory => Stop::Memory,
        TypeError::NoType(place, name) => stop_on(alloc, Code::NoType, &place, name.as_str()),
        TypeError::Redefined(place, key) => stop_on(alloc, Code::Redefined, &place, key.as_str()),
        TypeError::BadRange(place) => stop_on(alloc, Code::BadRange, &place, ""),
        TypeError::TooDeep(place) => stop_on(alloc, Code::TooDeep, &place, ""),
    }
}

/// The type that a written type stands for, with these values of its defaults.
#[tactic(auto, using(crate::proofs::Refused::untyped_comes))]
fn resolve<D: DmlRunner, W: World, L: Ledger>(
    full: &FullType,
    values: &[Tree],
    place: &Place,
    inside: &Inside<'_>,
    execution: &Execution<'_, '_, '_, D, W, L>,
) -> Result<SharedType, Stop>
    ensures { Executes resolved_seen result W.World execution.now execution.now
        (or_no_type place.now (type_of (known execution.now.program.types)
        inside.now.template place.now (full_seen full.now) values.now)) }
{
    let (alloc, types) = (execution.alloc, &execution.program.types);
    match types.resolve(alloc, full, values, &inside.template, place) {
        Ok(resolved) => Ok(resolved),
        Err(error) => Err(untyped(alloc, error)),
    }
}

/// The type of a statement: the values of its defaults (Pan Book, "Types"), and then its names.
#[tactic(auto, using(template_meaning::proofs::Leaving::leaving), unfolding(template_meaning::specs::Statements::type_run))]
pub(crate) fn run_type<D: DmlRunner, W: World, L: Ledger>(
    full: &FullType,
    place: &Place,
    inside: &Inside<'_>,
    execution: &mut Execution<'_, '_, '_, D, W, L>,
) -> Result<SharedType, Stop>
    ensures gives { Executes resolved_seen result W.World execution.old execution.new
        (type_run (site_in W.World inside.now) (inside_of inside.now) place.now
        (full_seen full.now)) }
    ensures counted { total execution.new ≡ total execution.old }
    ensures lent { KeepsLoans execution.old execution.new }
{
    let mut items = Vec::new(execution.alloc);
    push_defaults(&mut items, full)?;
    let values = run_defaults(&items, inside, execution)?;
    resolve(full, &values, place, inside, execution)
}
