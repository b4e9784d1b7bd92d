ghost use Rattle.std.specs.Prelude.{◌≡◌, ◌++◌, List, ℕ, IfOk, OnOk, Ok};
ghost use Rattle.pan_ast.specs.declared.work.Limits.{Limits};
ghost use Rattle.engine_laws.specs.Names.{Name};
ghost use Rattle.engine_machine.specs.Compiled.{built_end};
ghost use Rattle.engine_turns.specs.Spent.{Spends};
ghost use Rattle.engine_turns.specs.States.{pictured};
ghost use Rattle.rebuild.specs.Engines.{objects_of, turns_left_of};
ghost use Rattle.run_again.specs.Again.{IsEndOf, scratch_steps};
ghost use Rattle.session.specs.Texts.{blame_text};
ghost use Rattle.engine_session.specs.Blaming.{leaves_of};
ghost use Rattle.engine_session.specs.Standing.{IsFaithful};

use crate::texts::push_leaves;
use base::Steps;
use engine_session::Works;
use path_tree::Term;
use runner::{Built, Runner};
use std::alloc::{AllocError, Global};
use std::sync::ledger::Ledger;
use works_again::build_end_again;

/// Writes the leaves at and below the terms of what a build made.
pub(crate) fn push_built<R: Runner>(
    alloc: Global,
    text: &mut Vec<u8>,
    built: &Built<R::Rest>,
    terms: &[Term],
) -> Result<(), AllocError>
    requires { (dirs : List (List ℕ)) × (limits : Limits) × (o : Name)
        × IsEndOf (R.meaning dirs limits) o (Ok built.now) }
    ensures { OnOk result ((dirs : List (List ℕ)) (limits : Limits) → let m = R.meaning dirs limits
        in text.new.items ≡ text.old.items ++ blame_text (leaves_of m (Ok built.now) terms.now)) }
{
    let Some(log) = R::log(&built.rest) else {
        return text.extend_from_slice(b"end\n");
    };
    match pan_blame::blame(alloc, &built.object, log.header, log.changes, terms)? {
        None => text.extend_from_slice(b"no path\n"),
        Some(leaves) => {
            push_leaves(alloc, text, leaves)?;
            text.extend_from_slice(b"end\n")
        }
    }
}

/// What the build of an object makes that is run again, and has a tree. Of an engine that is not faithful it may have
/// none, which is told as want of memory.
pub(crate) fn build_again<R: Runner, L: Ledger>(
    works: &mut Works<R>,
    name: &str,
    steps: &mut Steps<L>,
) -> Result<Built<R::Rest>, AllocError>
    ensures end { IsFaithful R.meaning works.old → turns_left_of works.old.engine.core ≡ 0
        → IfOk result (λ built. built_end (R.meaning works.old.engine.core.dirs
        works.old.engine.core.limits) (pictured works.old.engine.core.files.items)
        (objects_of works.old.engine.core) name.now ≡ Ok built) }
    ensures by_runner { IfOk result (λ built. IsEndOf (R.meaning works.old.engine.core.dirs
        works.old.engine.core.limits) name.now (Ok built)) }
    ensures spent { IsFaithful R.meaning works.old → turns_left_of works.old.engine.core ≡ 0
        → Spends result (
          1,
          scratch_steps (R.meaning works.old.engine.core.dirs
              works.old.engine.core.limits) (pictured works.old.engine.core.files.items)
              (objects_of works.old.engine.core) name.now,
        ) steps.old steps.new
        (R.runs_of works.old.runner) (R.runs_of works.new.runner) }
    ensures engine { works.new.engine ≡ works.old.engine }
{
    match build_end_again(works, name, steps)? {
        Ok(built) => Ok(built),
        Err(_fault) => Err(AllocError),
    }
}
