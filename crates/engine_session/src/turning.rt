ghost use Rattle.std.specs.Prelude.{◌≡◌, ◌≤◌, List, ℕ, IfOk, OnOk, OnErr, true};
ghost use Rattle.pan_ast.specs.declared.work.Limits.{Limits};
ghost use Rattle.rebuild.specs.Engines.{situation_of, turns_left_of};
ghost use Rattle.session.specs.Sessions.{Next, state_in, worked, with_turns};
ghost use Rattle.engine_session.specs.Compiler.{Compiled, compiler};
ghost use Rattle.engine_session.specs.KeptTexts.{KeepsTrees};
ghost use Rattle.engine_session.specs.Standing.{IsFaithful, Here, Counts, counts, IsAt, HasSpentAtMost, IsRising, MakesTurn, MakesTurns};

use crate::works::Works;
use base::Steps;
use rebuild::TurnError;
use runner::Runner;
use std::alloc::{AllocError, Global};
use std::sync::ledger::Ledger;

/// Makes a turn, or says that the numbers are spent.
fn make_turn<R: Runner, L: Ledger>(
    alloc: Global,
    works: &mut Works<R>,
    steps: &mut Steps<L>,
) -> Result<bool, AllocError>
    ensures made { IsFaithful R.meaning works.old → IfOk result (λ made. (dirs : List (List ℕ))
        (limits : Limits) (s : Here R.Rest) (start : Counts) → IsAt dirs limits s
        works.old.engine.core start (counts (R.runs_of works.old.runner) steps.old) → MakesTurn
        (compiler (R.meaning dirs limits) dirs) dirs limits s made works.new.engine.core start
        (counts (R.runs_of works.new.runner) steps.new)) }
    ensures cut { IsFaithful R.meaning works.old → OnErr result ((dirs : List (List ℕ))
        (limits : Limits) (s : Here R.Rest) (start : Counts) → IsAt dirs limits s
        works.old.engine.core start (counts (R.runs_of works.old.runner) steps.old)
        → let machine = compiler (R.meaning dirs
        limits) dirs in HasSpentAtMost (worked machine (machine.turn s.engine) s) start
        (counts (R.runs_of works.new.runner) steps.new)) }
    ensures faithful { IsFaithful R.meaning works.old → IsFaithful R.meaning works.new }
    ensures trees { IsFaithful R.meaning works.old
        → OnOk result (KeepsTrees (situation_of works.old.engine.core)
        (situation_of works.new.engine.core)) }
{
    match works.engine.turn(alloc, &mut works.runner, steps) {
        Ok(_turned) => Ok(true),
        Err(TurnError::NumbersSpent) => Ok(false),
        Err(TurnError::Memory) => Err(AllocError),
    }
}

/// Makes so many turns, or says that the numbers were spent in one of them.
pub fn make_turns<R: Runner, L: Ledger>(
    alloc: Global,
    works: &mut Works<R>,
    count: u64,
    steps: &mut Steps<L>,
) -> Result<bool, AllocError>
    ensures made { IsFaithful R.meaning works.old → IfOk result (λ all. (dirs : List (List ℕ))
        (limits : Limits) (s : Here R.Rest) (start : Counts) → IsAt dirs limits s
        works.old.engine.core start (counts (R.runs_of works.old.runner) steps.old) → MakesTurns
        (compiler (R.meaning dirs limits) dirs) dirs limits count s all works.new.engine.core start
        (counts (R.runs_of works.new.runner) steps.new)) }
    ensures cut { IsFaithful R.meaning works.old → OnErr result ((dirs : List (List ℕ))
        (limits : Limits) (s : Here R.Rest) (start : Counts) → IsAt dirs limits s
        works.old.engine.core start (counts (R.runs_of works.old.runner) steps.old)
        → (next : Here R.Rest → Next (Compiled R.Rest)) → IsRising next → HasSpentAtMost
        (state_in (with_turns (compiler (R.meaning dirs limits) dirs) count s next)) start
        (counts (R.runs_of works.new.runner) steps.new)) }
    ensures faithful { IsFaithful R.meaning works.old → IsFaithful R.meaning works.new }
    ensures trees { IsFaithful R.meaning works.old
        → OnOk result (KeepsTrees (situation_of works.old.engine.core)
        (situation_of works.new.engine.core)) }
{
    for _i in 0..count {
        if !make_turn(alloc, works, steps)? {
            return Ok(false);
        }
    }
    Ok(true)
}

/// Makes all turns that are left, or says that the numbers were spent in one of them. Of an engine that is not faithful
/// turns may be left then, which is told as want of memory.
pub fn make_all_turns<R: Runner, L: Ledger>(
    alloc: Global,
    works: &mut Works<R>,
    steps: &mut Steps<L>,
) -> Result<bool, AllocError>
    ensures made { IsFaithful R.meaning works.old → IfOk result (λ all. (dirs : List (List ℕ))
        (limits : Limits) (s : Here R.Rest) (start : Counts) → IsAt dirs limits s
        works.old.engine.core start (counts (R.runs_of works.old.runner) steps.old) → MakesTurns
        (compiler (R.meaning dirs limits) dirs) dirs limits (turns_left_of works.old.engine.core) s
        all works.new.engine.core start (counts (R.runs_of works.new.runner) steps.new)) }
    ensures cut { IsFaithful R.meaning works.old → OnErr result ((dirs : List (List ℕ))
        (limits : Limits) (s : Here R.Rest) (start : Counts) → IsAt dirs limits s
        works.old.engine.core start (counts (R.runs_of works.old.runner) steps.old)
        → (next : Here R.Rest → Next (Compiled R.Rest)) → IsRising next → HasSpentAtMost
        (state_in (with_turns (compiler (R.meaning dirs limits) dirs)
        (turns_left_of works.old.engine.core) s next)) start (counts (R.runs_of works.new.runner)
        steps.new)) }
    ensures settled { IfOk result (λ all. all ≡ true → turns_left_of works.new.engine.core ≡ 0) }
    ensures faithful { IsFaithful R.meaning works.old → IsFaithful R.meaning works.new }
    ensures trees { IsFaithful R.meaning works.old
        → OnOk result (KeepsTrees (situation_of works.old.engine.core)
        (situation_of works.new.engine.core)) }
{
    let left = works.engine.turns_left();
    if !make_turns(alloc, works, left, steps)? {
        return Ok(false);
    }
    if works.engine.turns_left() > 0 {
        return Err(AllocError);
    }
    Ok(true)
}
