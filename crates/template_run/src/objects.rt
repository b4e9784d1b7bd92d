ghost use Rattle.std.specs.Prelude.{◌≡◌, ◌+◌, IfOk};
ghost use Rattle.dml_world.specs.Seen.{meter};
ghost use Rattle.pan_ast.specs.TemplatesSeen.{template_seen};
ghost use Rattle.template_meaning.specs.Objects.{object_run, run_top, top_place};
ghost use Rattle.template_meaning.specs.Program.{at_top, no_program};
ghost use Rattle.plain_statements.specs.Executions.{Executes, KeepsLoans, total};
ghost use Rattle.template_run.specs.Runs.{MakesObject};
ghost use Rattle.plain_statements.specs.Seen.{inside_of, program_of, site_in, site_of};

use crate::statements::run_statements;
use base::{Steps, Text};
use dml_meaning::limits::MAX_INCLUDES;
use dml_runner::DmlRunner;
use dml_world::leaf::stop_on;
use dml_world::{Stop, World};
use pan_ast::{Code, Place, Template, TemplateKind, Work};
use path_tree::Name;
use plain_statements::dml::find_named;
use plain_statements::{Execution, Inside, Program, Site};
use std::alloc::{AllocError, Global};
use std::marker::PhantomData;
use std::sync::ledger::Ledger;

/// Line 1, column 1 of the object's file.
fn top_place(alloc: Global, object: &Name) -> Result<Place, AllocError>
    ensures { IfOk result (λ p. p ≡ top_place object.now) }
{
    Ok(Place {
        file: Text::joined(alloc, object.as_str(), ".pan")?,
        line: 1,
        column: 1,
    })
}

/// Runs the statements of the object's own template.
fn run_top<D: DmlRunner, W: World, L: Ledger>(
    place: &Place,
    template: &Template,
    inside: &Inside<'_>,
    execution: &mut Execution<'_, '_, '_, D, W, L>,
) -> Result<(), Stop>
    requires place { place.now ≡ top_place inside.now.site.now.object.now }
    requires top { inside_of inside.now ≡ at_top (site_in W.World inside.now) }
    ensures gives { Executes (λ u. u) result W.World execution.old execution.new
        (run_top (site_in W.World inside.now) (template_seen template.now)) }
    ensures counted { total execution.new ≡ total execution.old }
    ensures lent { KeepsLoans execution.old execution.new }
{
    if template.kind != TemplateKind::Object {
        let object = inside.site.object.as_str();
        return Err(stop_on(execution.alloc, Code::WrongKind, place, object));
    }
    run_statements(&template.statements, inside, execution)
}

/// Runs the object template of a name from an empty dict (Pan Book, "Object Template"). Gives the
/// place of its header.
#[tactic(auto, using(template_meaning::proofs::Leaving::leaving), unfolding(template_meaning::specs::Objects::object_run))]
fn run_from<D: DmlRunner, W: World, L: Ledger>(
    site: &Site<'_>,
    execution: &mut Execution<'_, '_, '_, D, W, L>,
) -> Result<Place, Stop>
    requires fresh { program_of execution.old.program ≡ no_program }
    ensures gives { Executes (λ p. p) result W.World execution.old execution.new
        (object_run (site_of site.now W.reading W.calls)) }
    ensures counted { total execution.new ≡ total execution.old }
    ensures lent { KeepsLoans execution.old execution.new }
{
    let place = top_place(execution.alloc, site.object)?;
    let inside = Inside {
        site,
        kind: TemplateKind::Object,
        template: site.object.share()?,
        includes_left: MAX_INCLUDES,
    };
    let template = find_named(&place, site.object.as_str(), &inside, execution)?;
    run_top(&place, &template, &inside, execution)?;
    Ok(template.place.share()?)
}

/// What the statements of an object have made, and the place of its header.
#[derive(Drop)]
pub struct Made {
    pub program: Program,
    pub header: Place,
}

/// Runs the object template of a name from an empty dict (Pan Book, "Object Template"): its value is
/// what its statements have made, before any default; or the first fault, or what has to be known
/// first. Want of memory may come at any time; then at least the work is left that the run leaves
/// where it is told what was answered by then.
#[tactic(auto, using(template_meaning::proofs::Leaving::leaving))]
pub fn run_object<D: DmlRunner, W: World, L: Ledger>(
    alloc: Global,
    site: &Site<'_>,
    world: &mut W,
    work: &mut Work,
    steps: &mut Steps<L>,
) -> Result<Made, Stop>
    ensures gives { MakesObject result W.answers (meter work.old (W.asked world.old))
        (meter work.new (W.asked world.new))
        (object_run (site_of site.now W.reading W.calls)) }
    ensures counted { steps.new + work.new.left ≡ steps.old + work.old.left }
{
    let program = Program::new(alloc)?;
    let mut execution = Execution {
        alloc,
        dml: PhantomData::<D>,
        program,
        world,
        work,
        steps,
    };
    let end = run_from(site, &mut execution);
    let Execution {
        alloc: _,
        dml: _,
        program,
        world: lent_world,
        work: lent_work,
        steps: lent_steps,
    } = execution;
    // (each loan ends by itself, so that what stands behind it is known)
    let _world = lent_world;
    let _work = lent_work;
    let _steps = lent_steps;
    let header = end?;
    Ok(Made { program, header })
}
