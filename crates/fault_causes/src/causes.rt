ghost use Rattle.std.specs.Prelude.{◌≡◌, List, ℕ, IfOk, Ok, option_map, string_bytes};
ghost use Rattle.pan_ast.specs.declared.work.Limits.{Limits};
ghost use Rattle.json_profile.specs.Json.{json_text_of};
ghost use Rattle.path_tree.specs.Find.{get};
ghost use Rattle.pan_blame.specs.Blamed.{leaf_seen};
ghost use Rattle.engine_laws.specs.Names.{Name};
ghost use Rattle.engine_machine.specs.Compiled.{built_end};
ghost use Rattle.engine_turns.specs.States.{pictured};
ghost use Rattle.rebuild.specs.Engines.{objects_of, turns_left_of};
ghost use Rattle.run_again.specs.Again.{IsEndOf};
ghost use Rattle.engine_session.specs.Standing.{IsFaithful};
ghost use Rattle.fault_causes.specs.Causes.{cause_in, cause_seen, setter_of};

use crate::setters::setter_within;
use base::Steps;
use engine_session::Works;
use json_profile::json_text;
use pan_blame::Leaf;
use path_tree::{Term, Tree};
use runner::{Built, Runner};
use std::alloc::{AllocError, Global};
use std::sync::ledger::Ledger;
use works_again::build_end_again;

/// What is known of what stands at a path in an object, and what was built.
#[derive(Drop)]
pub struct Cause<T> {
    /// What the build made.
    pub built: Built<T>,
    /// The value at the path as compact JSON; none where nothing is there.
    pub value: Option<String>,
    /// The first leaf at or below the path, with who set it; where nothing is there, at or below the longest part of
    /// the path where something is. None of a runner that keeps no log.
    pub setter: Option<Leaf>,
}

fn value_at(alloc: Global, tree: &Tree, terms: &[Term]) -> Result<Option<String>, AllocError>
    ensures { IfOk result (λ text. option_map string_bytes text
        ≡ option_map json_text_of (get terms.now tree.now)) }
{
    match tree.get(terms) {
        Some(value) => Ok(Some(json_text(alloc, value)?)),
        None => Ok(None),
    }
}

fn setter_of<R: Runner>(
    alloc: Global,
    built: &Built<R::Rest>,
    terms: &[Term],
) -> Result<Option<Leaf>, AllocError>
    requires { (dirs : List (List ℕ)) × (limits : Limits) × (o : Name)
        × IsEndOf (R.meaning dirs limits) o (Ok built.now) }
    ensures { (dirs : List (List ℕ)) (limits : Limits) → IfOk result (λ leaf.
        option_map leaf_seen leaf
        ≡ setter_of ((R.meaning dirs limits).log built.now.rest) terms.now) }
{
    let Some(log) = R::log(&built.rest) else {
        return Ok(None);
    };
    setter_within(alloc, &built.object, log, terms, terms.len())
}

/// What is known of what stands at the terms in what the build of an object makes, which is run again; none where the
/// build has a fault. The engine stays as it is; where it has no such object, that is told as want of memory.
pub fn cause_of<R: Runner, L: Ledger>(
    alloc: Global,
    works: &mut Works<R>,
    name: &str,
    terms: &[Term],
    steps: &mut Steps<L>,
) -> Result<Option<Cause<R::Rest>>, AllocError>
    ensures cause { IsFaithful R.meaning works.old → turns_left_of works.old.engine.core ≡ 0
        → let m = R.meaning works.old.engine.core.dirs works.old.engine.core.limits
        in IfOk result (λ cause. option_map cause_seen cause ≡ cause_in m (built_end m
        (pictured works.old.engine.core.files.items) (objects_of works.old.engine.core) name.now)
        terms.now) }
    ensures faithful { IsFaithful R.meaning works.old → IsFaithful R.meaning works.new }
    ensures engine { works.new.engine ≡ works.old.engine }
{
    match build_end_again(works, name, steps)? {
        Ok(built) => {
            let value = value_at(alloc, &built.tree, terms)?;
            let setter = setter_of::<R>(alloc, &built, terms)?;
            Ok(Some(Cause {
                built,
                value,
                setter,
            }))
        }
        Err(_fault) => Ok(None),
    }
}
