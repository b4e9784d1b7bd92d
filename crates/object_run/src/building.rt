ghost use Rattle.std.specs.Prelude.{◌≡◌, ◌+◌, List, Ok};
ghost use Rattle.dml_world.specs.Exits.{Tells};
ghost use Rattle.dml_world.specs.Seen.{meter};
ghost use Rattle.object_meaning.specs.Builds.{build_ending, built_of, built_run, defaults_run};
ghost use Rattle.object_run.specs.Ended.{IsFilled, ended};
ghost use Rattle.questions.specs.Contents.{Answers};
ghost use Rattle.questions.specs.declared.key.Key.{Key};
ghost use Rattle.questions.specs.Told.{ToldEnough};
ghost use Rattle.template_meaning.specs.Program.{no_program};
ghost use Rattle.plain_statements.specs.Seen.{program_of, site_of};

use crate::rest::Rest;
use base::Steps;
use defaults::fill;
use dml_runner::DmlRunner;
use dml_world::{Stop, World};
use pan_ast::{Failure, Place, Work};
use plain_statements::{Program, Site};
use runner::Built;
use std::alloc::Global;
use std::sync::ledger::Ledger;
use template_run::{Made, run_object};

/// What a build makes of a program, once its defaults are put into the tree.
fn filled<L: Ledger>(
    alloc: Global,
    header: Place,
    program: Program,
    site: &Site<'_>,
    work: &mut Work,
    steps: &mut Steps<L>,
) -> Result<Built<Rest>, Stop>
    ensures gives { (told : Answers) (asked : List Key) → IsFilled result header
        site.now.object.now told (program_of program) (meter work.old asked)
        (meter work.new asked) }
    ensures counted { steps.new + work.new.left ≡ steps.old + work.old.left }
{
    let Program {
        profile,
        globals,
        functions,
        bindings,
        valids,
        ..
    } = program;
    let (mut tree, mut log) = profile.into_parts();
    match fill(alloc, &mut tree, &bindings, &mut log, work, steps) {
        Ok(()) => {}
        Err(Failure::Fault(fault)) => return Err(Stop::Fault(Box::new(alloc, fault)?)),
        Err(Failure::Memory) => return Err(Stop::Memory),
    }
    let rest = Rest {
        header,
        globals,
        functions,
        bindings,
        valids,
        log,
    };
    Ok(Built {
        object: site.object.share()?,
        tree,
        rest,
    })
}

/// Builds an object in a world: its statements, and then its defaults.
#[tactic(auto, unfolding(object_meaning::specs::Builds::built_run))]
pub(crate) fn build_object<D: DmlRunner, W: World, L: Ledger>(
    alloc: Global,
    site: &Site<'_>,
    world: &mut W,
    work: &mut Work,
    steps: &mut Steps<L>,
) -> Result<Built<Rest>, Stop>
    ensures gives { ToldEnough W.answers (W.asked world.old) (W.asked world.new) (λ told.
        Tells Ok result (meter work.new (W.asked world.new)) (ended
        (build_ending (site_of site.now W.reading W.calls))
        (built_run (site_of site.now W.reading W.calls) told no_program
        (meter work.old (W.asked world.old))))) }
    ensures counted { steps.new + work.new.left ≡ steps.old + work.old.left }
{
    let Made { program, header } = run_object::<D, W, L>(alloc, site, world, work, steps)?;
    filled(alloc, header, program, site, work, steps)
}
