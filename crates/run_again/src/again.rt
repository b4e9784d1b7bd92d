ghost use Rattle.std.specs.Prelude.{◌≡◌, ◌≤◌, ◌+◌, IfOk, OnOk, OnErr};
ghost use Rattle.engine_machine.specs.Compiled.{built_end};
ghost use Rattle.engine_turns.specs.States.{pictured};
ghost use Rattle.read_index.specs.Readers.{asks};
ghost use Rattle.rebuild.specs.Engines.{objects_of, turns_left_of};
ghost use Rattle.rebuild.specs.Sound.{IsSound};
ghost use Rattle.runner.specs.Meaning.{counted};
ghost use Rattle.run_again.specs.Again.{IsEndOf, scratch_steps};

use base::Steps;
use engine_turns::Knowing;
use pan_ast::Fault;
use path_tree::Name;
use rebuild::Engine;
use runner::{BuildEnd, Built, Runner};
use std::alloc::AllocError;
use std::sync::ledger::Ledger;

/// Runs the build of an object, over an engine in which all is settled, and leaves the engine as it is: what it gives
/// is what a build from scratch gives.
///
/// The runner's count rises by one, and `steps` by the work of the build; where the run is refused, by no more. Where
/// the engine is not sound it may have to wait for another object, which is told as want of memory.
pub fn run_again<R: Runner, L: Ledger>(
    engine: &Engine<R>,
    name: &Name,
    runner: &mut R,
    steps: &mut Steps<L>,
) -> Result<Result<Built<R::Rest>, Fault>, AllocError>
    requires picture { R.files_of runner.old ≡ pictured engine.now.core.files.items }
    requires dirs { R.dirs_of runner.old ≡ engine.now.core.dirs }
    ensures end { IsSound R.meaning engine.now.core (asks engine.now.index)
        → turns_left_of engine.now.core ≡ 0 → IfOk result (λ end. end ≡ built_end
        (R.meaning engine.now.core.dirs engine.now.core.limits)
        (pictured engine.now.core.files.items) (objects_of engine.now.core) name.now) }
    ensures by_runner { IfOk result (λ end. IsEndOf
        (R.meaning engine.now.core.dirs engine.now.core.limits) name.now end) }
    ensures steps { IsSound R.meaning engine.now.core (asks engine.now.index)
        → turns_left_of engine.now.core ≡ 0 → OnOk result (steps.new ≡ steps.old + scratch_steps
        (R.meaning engine.now.core.dirs engine.now.core.limits)
        (pictured engine.now.core.files.items) (objects_of engine.now.core) name.now) }
    ensures runs { OnOk result (R.runs_of runner.new ≡ counted (R.runs_of runner.old)) }
    ensures files { R.files_of runner.new ≡ R.files_of runner.old }
    ensures runner_dirs { R.dirs_of runner.new ≡ R.dirs_of runner.old }
    ensures refused_steps { IsSound R.meaning engine.now.core (asks engine.now.index)
        → turns_left_of engine.now.core ≡ 0 → OnErr result (steps.new ≤ steps.old + scratch_steps
        (R.meaning engine.now.core.dirs engine.now.core.limits)
        (pictured engine.now.core.files.items) (objects_of engine.now.core) name.now) }
    ensures refused_runs { OnErr result ((R.runs_of runner.old ≤ R.runs_of runner.new)
        × (R.runs_of runner.new ≤ counted (R.runs_of runner.old))) }
{
    let core = engine.core();
    let known = Knowing { core };
    match runner.run_build(name, &known, &core.limits, steps)? {
        BuildEnd::Done(built, _reads) => Ok(Ok(built)),
        BuildEnd::Fault(fault, _reads) => Ok(Err(fault)),
        BuildEnd::Need(_name) => Err(AllocError),
    }
}
