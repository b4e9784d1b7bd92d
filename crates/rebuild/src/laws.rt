//! What holds of a runner's engine over any list of takes and turns.

ghost use Rattle.std.specs.Prelude.{ℕ, List};
ghost use Rattle.pan_ast.specs.declared.work.Limits.{Limits};
ghost use Rattle.rebuild.specs.Rounds.{AreRounds};

use runner::Runner;

/// A round that begins where no name was run, with a take and turns until all is settled, runs exactly the objects that
/// had no whole record, or whose record had changed; and why each of them was run is that cause.
///
/// The turns after a take cost at most this: for each object with a record, its items once, and once more for each other
/// object that it read; for each object that they run, the work of its build and its check once, and once more for each
/// other object that it reads.
///
/// An object has the fault of circular objects exactly where its chain of reads never ends, and then it is the fault of
/// its own build, at its own read of another such object.
pub fn rounds<R: Runner>()
    ensures { (dirs : List (List ℕ)) (limits : Limits) → AreRounds (R.meaning dirs limits) }
{}
