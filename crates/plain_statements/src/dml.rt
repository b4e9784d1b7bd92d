ghost use Rattle.std.specs.Prelude.{◌≡◌, IfOk, None};
ghost use Rattle.dml_world.specs.Seen.{is_fixed};
ghost use Rattle.pan_ast.specs.Seen.{item_seen};
ghost use Rattle.pan_ast.specs.TemplatesSeen.{template_seen};
ghost use Rattle.template_meaning.specs.Statements.{dml_in, named_in};
ghost use Rattle.plain_statements.specs.Executions.{Executes, KeepsLoans, total};
ghost use Rattle.plain_statements.specs.Frames.{IsFrame};
ghost use Rattle.plain_statements.specs.Seen.{inside_of, site_in};

use crate::execution::Execution;
use crate::program::Program;
use crate::site::Inside;
use dml_runner::DmlRunner;
use dml_world::templates::template_named;
use dml_world::{Around, Frame, SelfUse, Stop, World};
use pan_ast::{Item, Place, Template};
use path_tree::Tree;
use std::alloc::AllocError;
use std::rc::Rc;
use std::sync::ledger::Ledger;

/// The program so far, around the DML of a statement.
fn frame_in<'a>(inside: &'a Inside<'_>, program: &'a Program) -> Result<Frame<'a>, AllocError>
    ensures { IfOk result (λ f. IsFrame inside.now program.now f) }
{
    let site = inside.site;
    Ok(Frame {
        globals: &program.globals,
        functions: &program.functions,
        root: program.profile.root(),
        object: site.object,
        template: inside.template.share()?,
        dirs: site.dirs,
        max_iteration: site.limits.max_iteration,
    })
}

/// What stands around the DML of a statement, in which no call is open.
fn around_in<'a>(frame: &'a Frame<'a>, self_use: SelfUse, inside: &Inside<'_>) -> Around<'a>
    ensures { result ≡ record {
      frame = frame.entry;
      self_use = self_use;
      called = None;
      calls_left = inside.now.site.now.limits.max_recursion;
      includes_left = inside.now.includes_left;
    } }
{
    Around {
        frame,
        self_use,
        called: None,
        calls_left: inside.site.limits.max_recursion,
        includes_left: inside.includes_left,
    }
}

/// The value of the DML of a statement, whose SELF begins with a value.
#[tactic(auto, using(template_meaning::proofs::Leaving::leaving), unfolding(template_meaning::specs::Statements::dml_in, dml_meaning::specs::Structures::dml_run))]
pub fn run_in<D: DmlRunner, W: World, L: Ledger>(
    item: &Item,
    self_use: SelfUse,
    self_value: Tree,
    inside: &Inside<'_>,
    execution: &mut Execution<'_, '_, '_, D, W, L>,
) -> Result<Tree, Stop>
    ensures gives { Executes (λ t. t) result W.World execution.old execution.new
        (dml_in (site_in W.World inside.now) (inside_of inside.now) (is_fixed self_use) self_value
        (item_seen item.now)) }
    ensures counted { total execution.new ≡ total execution.old }
    ensures lent { KeepsLoans execution.old execution.new }
{
    let frame = frame_in(inside, &execution.program)?;
    let around = around_in(&frame, self_use, inside);
    D::run_dml(
        execution.alloc,
        item,
        self_value,
        &around,
        &mut *execution.world,
        &mut *execution.work,
        &mut *execution.steps,
    )
}

/// The template of a name, looked for from a statement.
#[tactic(auto, using(template_meaning::proofs::Leaving::leaving))]
pub fn find_named<D: DmlRunner, W: World, L: Ledger>(
    place: &Place,
    name: &str,
    inside: &Inside<'_>,
    execution: &mut Execution<'_, '_, '_, D, W, L>,
) -> Result<Rc<Template>, Stop>
    ensures gives { Executes (λ t. template_seen t.value) result W.World execution.old
        execution.new (named_in (site_in W.World inside.now) (inside_of inside.now) place.now
        name.now) }
    ensures counted { total execution.new ≡ total execution.old }
    ensures lent { KeepsLoans execution.old execution.new }
{
    let frame = frame_in(inside, &execution.program)?;
    let around = around_in(&frame, SelfUse::Changeable, inside);
    template_named(
        execution.alloc,
        place,
        name,
        &around,
        &mut *execution.world,
        &mut *execution.work,
        &mut *execution.steps,
    )
}
