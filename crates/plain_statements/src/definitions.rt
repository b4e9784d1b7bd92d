ghost use Rattle.std.specs.Prelude.{◌≡◌};
ghost use Rattle.pan_ast.specs.Seen.{item_seen};
ghost use Rattle.pan_ast.specs.TypesSeen.{full_seen};
ghost use Rattle.template_meaning.specs.Statements.{bind_run, bind_type, define_run, function_run, name_type, valid_run, want_valid};
ghost use Rattle.plain_statements.specs.Executions.{Executes, KeepsLoans, total};
ghost use Rattle.plain_statements.specs.Seen.{inside_of, site_in};
ghost use Rattle.type_defs.specs.ResolvedSeen.{resolved_seen};

use crate::execution::Execution;
use crate::paths::{Prefix, path_terms};
use crate::site::Inside;
use crate::written_types::run_type;
use base::{Seq, Text};
use dml_runner::DmlRunner;
use dml_world::leaf::stop_on;
use dml_world::{DefineError, Stop, World};
use pan_ast::{Code, FullType, Item, Place};
use path_tree::Term;
use std::rc::Rc;
use std::sync::ledger::Ledger;
use type_defs::{Bound, SharedType, Valid};

/// A function statement (Pan Book, "Functions"): the name is not taken yet.
#[tactic(auto, using(crate::proofs::Refused::defined_ends, template_meaning::proofs::Leaving::leaving), unfolding(template_meaning::specs::Statements::function_run))]
pub fn define_function<D: DmlRunner, W: World, L: Ledger>(
    place: &Place,
    name: &Text,
    body: &Rc<Item>,
    inside: &Inside<'_>,
    execution: &mut Execution<'_, '_, '_, D, W, L>,
) -> Result<(), Stop>
    ensures gives { Executes (λ u. u) result W.World execution.old execution.new
        (function_run (site_in W.World inside.now) place.now name.now (item_seen body.now.value)) }
    ensures counted { total execution.new ≡ total execution.old }
    ensures lent { KeepsLoans execution.old execution.new }
{
    let body = body.clone()?;
    let functions = &mut execution.program.functions;
    match functions.define(name, body, &*execution.world) {
        Ok(()) => Ok(()),
        Err(DefineError::Redefined) => {
            Err(stop_on(execution.alloc, Code::Redefined, place, name.as_str()))
        }
        Err(DefineError::Memory) => Err(Stop::Memory),
    }
}

/// Gives a type a name that is not taken.
#[tactic(auto, using(crate::proofs::Programs::same_types))]
fn name_type<D: DmlRunner, W: World, L: Ledger>(
    name: &Text,
    resolved: SharedType,
    execution: &mut Execution<'_, '_, '_, D, W, L>,
) -> Result<(), Stop>
    ensures gives { Executes (λ u. u) result W.World execution.old execution.new
        (name_type name.now (resolved_seen resolved)) }
    ensures counted { total execution.new ≡ total execution.old }
    ensures lent { KeepsLoans execution.old execution.new }
{
    match execution.program.types.define(name, resolved) {
        Ok(()) => Ok(()),
        Err(type_defs::DefineError::Redefined | type_defs::DefineError::Memory) => Err(
            Stop::Memory,
        ),
    }
}

/// A type statement (Pan Book, "Types").
#[tactic(auto, using(template_meaning::proofs::Leaving::leaving), unfolding(template_meaning::specs::Statements::define_run))]
pub fn define_type<D: DmlRunner, W: World, L: Ledger>(
    place: &Place,
    name: &Text,
    full: &FullType,
    inside: &Inside<'_>,
    execution: &mut Execution<'_, '_, '_, D, W, L>,
) -> Result<(), Stop>
    ensures gives { Executes (λ u. u) result W.World execution.old execution.new
        (define_run (site_in W.World inside.now) (inside_of inside.now) place.now name.now
        (full_seen full.now)) }
    ensures counted { total execution.new ≡ total execution.old }
    ensures lent { KeepsLoans execution.old execution.new }
{
    if execution.program.types.taken(name) {
        return Err(stop_on(execution.alloc, Code::Redefined, place, name.as_str()));
    }
    let resolved = run_type(full, place, inside, execution)?;
    name_type(name, resolved, execution)
}

/// Binds a type to terms.
#[tactic(auto, using(template_meaning::proofs::Leaving::leaving))]
fn bind_type<D: DmlRunner, W: World, L: Ledger>(
    place: &Place,
    terms: Seq<Term>,
    resolved: SharedType,
    execution: &mut Execution<'_, '_, '_, D, W, L>,
) -> Result<(), Stop>
    ensures gives { Executes (λ u. u) result W.World execution.old execution.new
        (bind_type place.now terms (resolved_seen resolved)) }
    ensures counted { total execution.new ≡ total execution.old }
    ensures lent { KeepsLoans execution.old execution.new }
{
    let bound = Bound {
        terms,
        resolved,
        place: place.share()?,
    };
    execution.program.bindings.add(bound)?;
    Ok(())
}

/// A bind statement (Pan Book, "Binding").
#[tactic(auto, using(template_meaning::proofs::Leaving::leaving), unfolding(template_meaning::specs::Statements::bind_run))]
pub fn bind<D: DmlRunner, W: World, L: Ledger>(
    place: &Place,
    path: &Text,
    full: &FullType,
    prefix: &Prefix,
    inside: &Inside<'_>,
    execution: &mut Execution<'_, '_, '_, D, W, L>,
) -> Result<(), Stop>
    ensures gives { Executes (λ u. u) result W.World execution.old execution.new
        (bind_run (site_in W.World inside.now) (inside_of inside.now) prefix.now place.now path.now
        (full_seen full.now)) }
    ensures counted { total execution.new ≡ total execution.old }
    ensures lent { KeepsLoans execution.old execution.new }
{
    let terms = path_terms(prefix, place, path, execution)?;
    let resolved = run_type(full, place, inside, execution)?;
    bind_type(place, terms, resolved, execution)
}

/// Adds what is to hold at terms.
#[tactic(auto, using(template_meaning::proofs::Leaving::leaving))]
fn want_valid<D: DmlRunner, W: World, L: Ledger>(
    place: &Place,
    body: &Rc<Item>,
    terms: Seq<Term>,
    inside: &Inside<'_>,
    execution: &mut Execution<'_, '_, '_, D, W, L>,
) -> Result<(), Stop>
    ensures gives { Executes (λ u. u) result W.World execution.old execution.new
        (want_valid (inside_of inside.now) place.now (item_seen body.now.value) terms) }
    ensures counted { total execution.new ≡ total execution.old }
    ensures lent { KeepsLoans execution.old execution.new }
{
    let valid = Valid {
        terms,
        body: body.clone()?,
        template: inside.template.share()?,
        place: place.share()?,
    };
    execution.program.valids.push(valid)?;
    Ok(())
}

/// A valid statement (Pan Book, "Validation").
#[tactic(auto, using(template_meaning::proofs::Leaving::leaving), unfolding(template_meaning::specs::Statements::valid_run))]
pub fn add_valid<D: DmlRunner, W: World, L: Ledger>(
    place: &Place,
    path: &Text,
    body: &Rc<Item>,
    prefix: &Prefix,
    inside: &Inside<'_>,
    execution: &mut Execution<'_, '_, '_, D, W, L>,
) -> Result<(), Stop>
    ensures gives { Executes (λ u. u) result W.World execution.old execution.new
        (valid_run (inside_of inside.now) prefix.now place.now path.now
        (item_seen body.now.value)) }
    ensures counted { total execution.new ≡ total execution.old }
    ensures lent { KeepsLoans execution.old execution.new }
{
    let terms = path_terms(prefix, place, path, execution)?;
    want_valid(place, body, terms, inside, execution)
}
