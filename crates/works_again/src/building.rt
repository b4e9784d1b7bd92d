ghost use Rattle.std.specs.Prelude.{◌≡◌, IfOk};
ghost use Rattle.engine_machine.specs.Compiled.{built_end};
ghost use Rattle.engine_turns.specs.Spent.{Spends};
ghost use Rattle.engine_turns.specs.States.{pictured};
ghost use Rattle.rebuild.specs.Engines.{objects_of, turns_left_of};
ghost use Rattle.run_again.specs.Again.{IsEndOf, scratch_steps};
ghost use Rattle.engine_session.specs.Standing.{IsFaithful};

use base::Steps;
use engine_session::Works;
use engine_turns::row_in;
use pan_ast::Fault;
use run_again::run_again;
use runner::{Built, Runner};
use std::alloc::AllocError;
use std::sync::ledger::Ledger;

/// How the build of an object ends that is run again. The engine stays as it is; where it has no such object, that is told
/// as want of memory.
pub fn build_end_again<R: Runner, L: Ledger>(
    works: &mut Works<R>,
    name: &str,
    steps: &mut Steps<L>,
) -> Result<Result<Built<R::Rest>, Fault>, AllocError>
    ensures end { IsFaithful R.meaning works.old → turns_left_of works.old.engine.core ≡ 0
        → IfOk result (λ end. end ≡ built_end (R.meaning works.old.engine.core.dirs
        works.old.engine.core.limits) (pictured works.old.engine.core.files.items)
        (objects_of works.old.engine.core) name.now) }
    ensures by_runner { IfOk result (λ end. IsEndOf (R.meaning works.old.engine.core.dirs
        works.old.engine.core.limits) name.now end) }
    ensures spent { IsFaithful R.meaning works.old → turns_left_of works.old.engine.core ≡ 0
        → Spends result (
          1,
          scratch_steps (R.meaning works.old.engine.core.dirs
              works.old.engine.core.limits) (pictured works.old.engine.core.files.items)
              (objects_of works.old.engine.core) name.now,
        ) steps.old steps.new
        (R.runs_of works.old.runner) (R.runs_of works.new.runner) }
    ensures faithful { IsFaithful R.meaning works.old → IsFaithful R.meaning works.new }
    ensures engine { works.new.engine ≡ works.old.engine }
{
    let Some(row) = row_in(&works.engine.core().rows, name) else {
        return Err(AllocError);
    };
    let end = run_again(&works.engine, &row.name, &mut works.runner, steps)?;
    Ok(end)
}
