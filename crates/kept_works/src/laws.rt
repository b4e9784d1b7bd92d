ghost use Rattle.std.specs.Prelude.{◌≡◌, ℕ, List, [], map};
ghost use Rattle.pan_ast.specs.declared.work.Limits.{Limits};
ghost use Rattle.kept_state.specs.Stored.{Stored, object_name};
ghost use Rattle.record_rows.specs.Rows.{Give};
ghost use Rattle.rebuild.specs.Engines.{objects_of, turns_left_of};
ghost use Rattle.engine_session.specs.Compiler.{Compiled};
ghost use Rattle.engine_session.specs.Standing.{IsFaithful, IsIn};
ghost use Rattle.engine_session.specs.declared.works.Works.{Works};
ghost use Rattle.engine_rows.specs.Restoring.{IsSoundKept};
ghost use Rattle.kept_works.specs.Kept.{kept_by};

use runner::Runner;

/// What is kept of an engine that is faithful, and in which all is settled, is sound, and it is kept of each of its
/// objects: so an engine that begins with it will be faithful once it has taken a picture.
pub fn goes_on<R: Runner>()
    ensures sound { (works : Works R R.Rest R.Runner) → turns_left_of works.engine.core ≡ 0
        → IsFaithful R.meaning works → (dirs : List (List ℕ)) (limits : Limits)
        (e : Compiled R.Rest) → IsIn dirs limits works.engine.core e
        → ∥ IsSoundKept R.meaning (kept_by dirs limits e) ∥₁ }
    ensures all { (works : Works R R.Rest R.Runner) → turns_left_of works.engine.core ≡ 0
        → IsFaithful R.meaning works → (dirs : List (List ℕ)) (limits : Limits)
        (e : Compiled R.Rest) → IsIn dirs limits works.engine.core e
        → map object_name (kept_by dirs limits e).objects ≡ objects_of works.engine.core }
{}

/// What no rows give is sound: so a list of builds with one file that begins without rows needs no premise on rows.
pub fn nothing_kept<R: Runner>()
    ensures { (found : Stored) → Give [] found → IsSoundKept R.meaning found }
{}
