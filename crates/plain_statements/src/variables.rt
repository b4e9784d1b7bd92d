ghost use Rattle.std.specs.Prelude.{◌≡◌, IfOk, true};
ghost use Rattle.std.specs.List.{list_all};
ghost use Rattle.dml_meaning.specs.Around.{found};
ghost use Rattle.dml_meaning.specs.Values.{is_list};
ghost use Rattle.path_tree.specs.Find.{child_at};
ghost use Rattle.plain_statements.specs.Prefixes.{prefix_at};
ghost use Rattle.assign_rules.specs.Profiles.{is_value};
ghost use Rattle.pan_ast.specs.Seen.{item_seen};
ghost use Rattle.template_meaning.specs.Statements.{is_load_path, is_prefix, list_items, is_value_for, present_global, set_run, variable_run, variable_value};
ghost use Rattle.plain_statements.specs.Executions.{Executes, KeepsLoans, total};
ghost use Rattle.plain_statements.specs.Refusals.{IsUnset};
ghost use Rattle.plain_statements.specs.Seen.{inside_of, program_of, site_in};

use crate::assignments::Assignment;
use crate::dml::run_in;
use crate::execution::Execution;
use crate::program::Program;
use crate::site::Inside;
use assign_rules::SetError;
use base::Text;
use dml_meaning::automatic_name;
use dml_runner::DmlRunner;
use dml_world::leaf::stop_on;
use dml_world::{SelfUse, Stop, World};
use pan_ast::{Code, Place};
use path_tree::{Kind, Tree, is_name};
use std::alloc::{AllocError, Global};
use std::sync::ledger::Ledger;
use template_meaning::limits::MAX_LOAD_PATHS;

/// Whether a value is a prefix of LOADPATH: an empty text or a template name.
fn is_prefix(value: &Tree) -> bool
    ensures { result ≡ is_prefix value.now }
{
    match value.as_text() {
        None => false,
        Some(text) => text.is_empty() || is_name(text.as_bytes()),
    }
}

fn is_prefix_at(list: &Tree, i: usize) -> bool
    ensures { result ≡ prefix_at (child_at i list.now) }
{
    match list.child_at(i) {
        None => false,
        Some(item) => is_prefix(item),
    }
}

/// Whether all items of a list are prefixes.
#[tactic(auto, using(crate::proofs::Items::prefixes))]
fn are_all_prefixes(list: &Tree) -> bool
    requires { is_list list.now ≡ true }
    ensures { result ≡ list_all is_prefix (list_items list.now) }
{
    let _size = list.size();
    let mut i = 0;
    'items: while i < list.len() {
        if !is_prefix_at(list, i) {
            return false;
        }
        i += 1;
    }
    true
}

/// Whether a value is one that LOADPATH may have (Pan Book, "Template Loading").
fn is_load_path(value: &Tree) -> bool
    ensures { result ≡ is_load_path value.now }
{
    match value.kind() {
        Kind::Undef | Kind::Null => true,
        Kind::List => value.len() as u64 <= MAX_LOAD_PATHS && are_all_prefixes(value),
        Kind::Dict | Kind::Text | Kind::Long | Kind::Bool => false,
    }
}

/// Whether a variable of this name may have a value.
fn is_value_for(name: &Text, value: &Tree) -> bool
    ensures { result ≡ is_value_for name.now value.now }
{
    name.as_str() != "LOADPATH" || is_load_path(value)
}

/// The fault of a change that is refused.
fn unset(alloc: Global, place: &Place, name: &Text, error: SetError) -> Stop
    ensures { IsUnset error result place.now name.now }
{
    match error {
        SetError::Memory => Stop::Memory,
        SetError::Automatic => stop_on(alloc, Code::GlobalChange, place, name.as_str()),
        SetError::Final => stop_on(alloc, Code::Final, place, name.as_str()),
    }
}

/// Sets a variable.
#[tactic(auto, using(crate::proofs::Refused::unset_comes), unfolding(template_meaning::specs::Statements::set_run))]
fn set<D: DmlRunner, W: World, L: Ledger>(
    assignment: Assignment<'_>,
    value: Tree,
    execution: &mut Execution<'_, '_, '_, D, W, L>,
) -> Result<(), Stop>
    ensures gives { Executes (λ u. u) result W.World execution.old execution.new
        (set_run assignment.entry.place.now assignment.entry.last
        assignment.entry.target.now value) }
    ensures counted { total execution.new ≡ total execution.old }
    ensures lent { KeepsLoans execution.old execution.new }
{
    let (alloc, place) = (execution.alloc, assignment.place);
    if !is_value_for(assignment.target, &value) {
        return Err(stop_on(alloc, Code::BadArgument, place, ""));
    }
    let globals = &mut execution.program.globals;
    match globals.set(assignment.target, assignment.last, value) {
        Ok(()) => Ok(()),
        Err(error) => Err(unset(alloc, place, assignment.target, error)),
    }
}

/// The value of a variable; undef where it has none.
fn present(program: &Program, name: &Text) -> Result<Tree, AllocError>
    ensures { IfOk result (λ t. t ≡ present_global name.now (program_of program.now)) }
{
    match program.globals.value(name.as_str()) {
        Some(value) => Ok(value.copy()?),
        None => Ok(Tree::undef()),
    }
}

/// Whether a variable has a value other than undef.
fn is_set(program: &Program, name: &Text) -> bool
    ensures { result ≡ is_value (found program.now.globals.variables name.now) }
{
    match program.globals.value(name.as_str()) {
        Some(value) => value.kind() != Kind::Undef,
        None => false,
    }
}

/// A statement that may set its variable.
#[tactic(auto, using(template_meaning::proofs::Leaving::leaving), unfolding(template_meaning::specs::Statements::variable_value))]
fn run_value<D: DmlRunner, W: World, L: Ledger>(
    assignment: Assignment<'_>,
    inside: &Inside<'_>,
    execution: &mut Execution<'_, '_, '_, D, W, L>,
) -> Result<(), Stop>
    ensures gives { Executes (λ u. u) result W.World execution.old execution.new
        (variable_value (site_in W.World inside.now) (inside_of inside.now)
        assignment.entry.place.now assignment.entry.last assignment.entry.target.now
        assignment.entry.conditional (item_seen assignment.entry.item.now)) }
    ensures counted { total execution.new ≡ total execution.old }
    ensures lent { KeepsLoans execution.old execution.new }
{
    let program = &execution.program;
    if assignment.conditional && is_set(program, assignment.target) {
        return Ok(());
    }
    let self_value = present(program, assignment.target)?;
    let item = assignment.item;
    let value = run_in(item, SelfUse::Changeable, self_value, inside, execution)?;
    set(assignment, value, execution)
}

/// A variable statement (Pan Book, "Variables"): whether its name may be set, whether it is set
/// already, its DML, and the change.
#[tactic(auto, unfolding(template_meaning::specs::Statements::variable_run))]
pub fn run_variable<D: DmlRunner, W: World, L: Ledger>(
    assignment: Assignment<'_>,
    inside: &Inside<'_>,
    execution: &mut Execution<'_, '_, '_, D, W, L>,
) -> Result<(), Stop>
    ensures gives { Executes (λ u. u) result W.World execution.old execution.new
        (variable_run (site_in W.World inside.now) (inside_of inside.now)
        assignment.entry.place.now assignment.entry.last assignment.entry.target.now
        assignment.entry.conditional (item_seen assignment.entry.item.now)) }
    ensures counted { total execution.new ≡ total execution.old }
    ensures lent { KeepsLoans execution.old execution.new }
{
    let (place, name) = (assignment.place, assignment.target.as_str());
    if automatic_name(name).is_some() {
        return Err(stop_on(execution.alloc, Code::GlobalChange, place, name));
    }
    if !execution.program.globals.may_set(name) {
        return Err(stop_on(execution.alloc, Code::Final, place, name));
    }
    run_value(assignment, inside, execution)
}
