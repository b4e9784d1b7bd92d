//! What holds of an engine from run to run.

ghost use Rattle.std.specs.Prelude.{◌≡◌, false, true, map};
ghost use Rattle.engine_turns.specs.declared.core_data.Core.{Core};
ghost use Rattle.kept_state.specs.Stored.{Stored, object_name};
ghost use Rattle.questions.specs.declared.key.Key.{Key};
ghost use Rattle.rebuild.specs.Engines.{IsEngine, is_ready, value_of, objects_of, turns_left_of};
ghost use Rattle.rebuild.specs.Reaching.{Asking};
ghost use Rattle.rebuild.specs.Sound.{IsSound};
ghost use Rattle.engine_rows.specs.Restoring.{IsRestored, IsSoundKept, restored_value};
ghost use Rattle.engine_rows.specs.Storing.{kept_of};

use runner::Runner;

/// What is kept of an engine in which all is settled is sound, and it is kept of each of its objects. An engine that is
/// restored from what is sound, and has no readers in its index, is sound: so what holds of an engine holds over any
/// number of programs, each of which begins with what the one before it kept.
pub fn goes_on<R: Runner>()
    ensures sound { (core : Core R.Rest) → is_ready core ≡ true → turns_left_of core ≡ 0
        → ∥ IsEngine R.meaning (value_of core) ∥₁
        → ∥ IsSoundKept R.meaning (kept_of (value_of core)) ∥₁ }
    ensures all { (core : Core R.Rest) → is_ready core ≡ true → turns_left_of core ≡ 0
        → ∥ IsEngine R.meaning (value_of core) ∥₁
        → map object_name (kept_of (value_of core)).objects ≡ objects_of core }
    ensures engine { (kept : Stored) → IsSoundKept R.meaning kept
        → IsEngine R.meaning (restored_value kept) }
    ensures restored { (kept : Stored) (core : Core R.Rest) (asks : Asking)
        → IsRestored kept core → ((r k : Key) → asks r k ≡ false)
        → ∥ IsSoundKept R.meaning kept ∥₁ → IsSound R.meaning core asks }
{}
