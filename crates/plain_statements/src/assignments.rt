ghost use Rattle.std.specs.Prelude.{◌≡◌, IfOk};
ghost use Rattle.dml_world.specs.Exits.{IsStop};
ghost use Rattle.pan_ast.specs.Detail.{fault_with};
ghost use Rattle.pan_ast.specs.declared.fault.Code.TheVariants as code;
ghost use Rattle.pan_ast.specs.Seen.{item_seen};
ghost use Rattle.template_meaning.specs.Statements.{absolute, assign_run, assign_terms, present, put_run};
ghost use Rattle.plain_statements.specs.Executions.{Executes, KeepsLoans, total};
ghost use Rattle.plain_statements.specs.Refusals.{IsUnassigned};
ghost use Rattle.plain_statements.specs.Seen.{inside_of, program_of, site_in};

use crate::dml::run_in;
use crate::execution::Execution;
use crate::paths::{Prefix, absolute, path_terms};
use crate::program::Program;
use crate::site::Inside;
use assign_rules::AssignError;
use base::Text;
use dml_runner::DmlRunner;
use dml_world::leaf::stop_on;
use dml_world::{SelfUse, Stop, World};
use pan_ast::{Code, Item, Place};
use path_tree::{PutError, Term, Tree};
use std::alloc::{AllocError, Global};
use std::sync::ledger::Ledger;

/// What a statement assigns, and how: to a path or a variable as it is written.
#[derive(Clone, Copy)]
pub struct Assignment<'a> {
    pub place: &'a Place,
    pub last: bool,
    pub target: &'a Text,
    pub conditional: bool,
    pub item: &'a Item,
}

impl<'a> Assignment<'a> {
    /// An assignment, of its parts.
    pub fn new(
        place: &'a Place,
        last: bool,
        target: &'a Text,
        conditional: bool,
        item: &'a Item,
    ) -> Assignment<'a>
        ensures { result ≡ record {
          place = place.entry;
          last = last;
          target = target.entry;
          conditional = conditional;
          item = item.entry;
        } }
    {
        Assignment {
            place,
            last,
            target,
            conditional,
            item,
        }
    }
}

/// The fault of an assignment that is refused.
fn unassigned(alloc: Global, place: &Place, path: &Text, error: AssignError) -> Stop
    ensures { IsUnassigned error result place.now path.now }
{
    match error {
        AssignError::Memory => Stop::Memory,
        AssignError::Put(PutError::TooLarge | PutError::TooHigh) => {
            stop_on(alloc, Code::TooLarge, place, "")
        }
        AssignError::Final | AssignError::NotDict | AssignError::Put(_) => {
            stop_on(alloc, Code::BadPath, place, path.as_str())
        }
    }
}

/// Puts a value at terms.
#[tactic(auto, using(crate::proofs::Refused::unassigned_comes), unfolding(template_meaning::specs::Statements::put_run))]
fn put_at<D: DmlRunner, W: World, L: Ledger>(
    assignment: Assignment<'_>,
    terms: &[Term],
    value: Tree,
    execution: &mut Execution<'_, '_, '_, D, W, L>,
) -> Result<(), Stop>
    ensures gives { Executes (λ u. u) result W.World execution.old execution.new
        (put_run assignment.entry.place.now assignment.entry.target.now assignment.entry.last
        terms.now value) }
    ensures counted { total execution.new ≡ total execution.old }
    ensures lent { KeepsLoans execution.old execution.new }
{
    let (alloc, place) = (execution.alloc, assignment.place);
    let profile = &mut execution.program.profile;
    match profile.assign(alloc, place, terms, assignment.last, value) {
        Ok(()) => Ok(()),
        Err(error) => Err(unassigned(alloc, place, assignment.target, error)),
    }
}

/// The value at terms; undef where there is none.
fn present(program: &Program, terms: &[Term]) -> Result<Tree, AllocError>
    ensures { IfOk result (λ t. t ≡ present terms.now (program_of program.now)) }
{
    match program.profile.root().get(terms) {
        Some(value) => Ok(value.copy()?),
        None => Ok(Tree::undef()),
    }
}

/// The fault of an assignment to a final path.
fn is_final(alloc: Global, place: &Place, terms: &[Term]) -> Stop
    ensures { IsStop result (fault_with code.Final place.now (absolute terms.now)) }
{
    match absolute(alloc, terms) {
        Ok(path) => stop_on(alloc, Code::Final, place, path.as_str()),
        Err(_) => Stop::Memory,
    }
}

/// An assignment to terms.
#[tactic(auto, using(template_meaning::proofs::Leaving::leaving), unfolding(template_meaning::specs::Statements::assign_terms))]
fn assign_at<D: DmlRunner, W: World, L: Ledger>(
    assignment: Assignment<'_>,
    terms: &[Term],
    inside: &Inside<'_>,
    execution: &mut Execution<'_, '_, '_, D, W, L>,
) -> Result<(), Stop>
    ensures gives { Executes (λ u. u) result W.World execution.old execution.new
        (assign_terms (site_in W.World inside.now) (inside_of inside.now)
        assignment.entry.place.now assignment.entry.last assignment.entry.target.now
        assignment.entry.conditional (item_seen assignment.entry.item.now) terms.now) }
    ensures counted { total execution.new ≡ total execution.old }
    ensures lent { KeepsLoans execution.old execution.new }
{
    let program = &execution.program;
    if !program.profile.may_assign(terms) {
        return Err(is_final(execution.alloc, assignment.place, terms));
    }
    if assignment.conditional && program.profile.is_set(terms) {
        return Ok(());
    }
    let self_value = present(program, terms)?;
    let item = assignment.item;
    let value = run_in(item, SelfUse::Changeable, self_value, inside, execution)?;
    put_at(assignment, terms, value, execution)
}

/// An assignment to a path (Pan Book, "Statements"): its terms, whether they are final, whether
/// they are set already, its DML, and the change.
#[tactic(auto, using(template_meaning::proofs::Leaving::leaving), unfolding(template_meaning::specs::Statements::assign_run))]
pub fn assign<D: DmlRunner, W: World, L: Ledger>(
    assignment: Assignment<'_>,
    prefix: &Prefix,
    inside: &Inside<'_>,
    execution: &mut Execution<'_, '_, '_, D, W, L>,
) -> Result<(), Stop>
    ensures gives { Executes (λ u. u) result W.World execution.old execution.new
        (assign_run (site_in W.World inside.now) (inside_of inside.now) prefix.now
        assignment.entry.place.now assignment.entry.last assignment.entry.target.now
        assignment.entry.conditional (item_seen assignment.entry.item.now)) }
    ensures counted { total execution.new ≡ total execution.old }
    ensures lent { KeepsLoans execution.old execution.new }
{
    let terms = path_terms(prefix, assignment.place, assignment.target, execution)?;
    assign_at(assignment, terms.as_slice(), inside, execution)
}
