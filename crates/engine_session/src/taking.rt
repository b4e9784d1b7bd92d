ghost use Rattle.std.specs.Prelude.{◌≡◌, ◌≤◌, ◌⊎◌, ◌+◌, List, ℕ, IfOk, OnOk, OnErr, Ok, Some, length, option_map, IsSome};
ghost use Rattle.outside.specs.Causes.{Counted};
ghost use Rattle.pan_ast.specs.declared.work.Limits.{Limits};
ghost use Rattle.scans.specs.Outcomes.{IsPassed, IsPerhapsPassed};
ghost use Rattle.session.specs.Sessions.{Next, Done, state_in, scanned};
ghost use Rattle.engine_session.specs.Compiler.{Compiled, compiler};
ghost use Rattle.rebuild.specs.Engines.{situation_of};
ghost use Rattle.engine_session.specs.KeptTexts.{KeepsTrees};
ghost use Rattle.engine_session.specs.Standing.{IsBegun, IsFaithful, Here, Counts, counts, IsAt, HasSpentAtMost, IsRising, Takes, TakesNext};

use crate::works::Works;
use base::Steps;
use load_path::Picture;
use outside::Source;
use rebuild::TakeError;
use runner::Runner;
use scans::{ScanError, scan};
use std::alloc::{AllocError, Global};
use std::sync::ledger::Ledger;

/// What became of a picture that was wanted.
#[derive(Clone, Copy, PartialEq, Eq)]
pub enum Took {
    /// The source failed.
    Failed,
    Taken,
    SpendsNumbers,
    IsTooMuch,
}

/// The engine takes a picture, or says why it does not.
fn take<R: Runner, L: Ledger>(
    alloc: Global,
    works: &mut Works<R>,
    picture: Picture,
    steps: &mut Steps<L>,
) -> Result<Took, AllocError>
    ensures took { IsBegun R.meaning works.old → IfOk result (λ how. (dirs : List (List ℕ))
        (limits : Limits) (s : Here R.Rest) (start : Counts) → IsAt dirs limits s
        works.old.engine.core start (counts (R.runs_of works.old.runner) steps.old)
        → Takes (compiler (R.meaning dirs limits)
        dirs) dirs limits picture s how works.new.engine.core start (counts (R.runs_of
        works.new.runner) steps.new)) }
    ensures begun { IsBegun R.meaning works.old
        → IfOk result (λ how. how ≡ Took.Taken → IsFaithful R.meaning works.new) }
    ensures still { IsBegun R.meaning works.old → IsBegun R.meaning works.new }
    ensures faithful { IsFaithful R.meaning works.old → IsFaithful R.meaning works.new }
    ensures trees { IsBegun R.meaning works.old
        → OnOk result (KeepsTrees (situation_of works.old.engine.core)
        (situation_of works.new.engine.core)) }
    ensures source { IfOk result (λ how. how ≡ Took.Failed → ⊥) }
    ensures runs { R.runs_of works.new.runner ≡ R.runs_of works.old.runner }
    ensures steps { steps.new ≤ steps.old + length picture }
{
    match works.engine.take(alloc, picture, &mut works.runner, steps) {
        Ok(()) => Ok(Took::Taken),
        Err(TakeError::TooManyObjects) => Ok(Took::IsTooMuch),
        Err(TakeError::NumbersSpent) => Ok(Took::SpendsNumbers),
        Err(TakeError::Memory) => Err(AllocError),
    }
}

/// The engine takes the source's next picture, or says why it does not.
pub fn take_next<R: Runner, S: Source, L: Ledger>(
    alloc: Global,
    works: &mut Works<R>,
    source: &mut S,
    steps: &mut Steps<L>,
) -> Result<Took, AllocError>
    requires open { IsSome (S.opened source.old) }
    ensures took { IsBegun R.meaning works.old → IfOk result (λ how. (dirs : List (List ℕ))
        (limits : Limits) (s : Here R.Rest) (start : Counts) → IsAt dirs limits s
        works.old.engine.core start (counts (R.runs_of works.old.runner) steps.old)
        → S.coming source.old ≡ Some s.coming
        → TakesNext (compiler (R.meaning dirs limits) dirs) dirs limits s how works.new.engine.core
        start (counts (R.runs_of works.new.runner) steps.new) (S.coming source.new)
        (S.fault_count source.old) (S.fault_count source.new)) }
    ensures cut { OnErr result ((dirs : List (List ℕ)) (limits : Limits) (s : Here R.Rest)
        (start : Counts) → IsAt dirs limits s works.old.engine.core start
        (counts (R.runs_of works.old.runner) steps.old) → S.coming source.old ≡ Some s.coming
        → (next : Here R.Rest → Next (Compiled R.Rest)) → IsRising next → HasSpentAtMost
        (state_in (scanned (compiler (R.meaning dirs limits) dirs) Done s next)) start
        (counts (R.runs_of works.new.runner) steps.new)) }
    ensures begun { IsBegun R.meaning works.old
        → IfOk result (λ how. how ≡ Took.Taken → IsFaithful R.meaning works.new) }
    ensures still { IsBegun R.meaning works.old → IsBegun R.meaning works.new }
    ensures faithful { IsFaithful R.meaning works.old → IsFaithful R.meaning works.new }
    ensures trees { IsBegun R.meaning works.old
        → OnOk result (KeepsTrees (situation_of works.old.engine.core)
        (situation_of works.new.engine.core)) }
    ensures runs { R.runs_of works.new.runner ≡ R.runs_of works.old.runner }
    ensures taken { IfOk result (λ how. (how ≡ Took.Failed → ⊥)
        → IsPassed (S.coming source.old) (S.coming source.new)) }
    ensures perhaps { IsPerhapsPassed (S.coming source.old) (S.coming source.new) }
    ensures opened { S.opened source.new ≡ S.opened source.old }
    ensures count { Counted (result ≡ Ok Took.Failed) (S.fault_count source.old)
        (S.fault_count source.new) }
{
    match scan(alloc, source) {
        Ok(picture) => take(alloc, works, picture, steps),
        Err(ScanError::TooMuch) => Ok(Took::IsTooMuch),
        Err(ScanError::Fault) => Ok(Took::Failed),
        Err(ScanError::Memory) => Err(AllocError),
    }
}
