ghost use Rattle.std.specs.Prelude.{ℕ, List};
ghost use Rattle.pan_ast.specs.declared.work.Limits.{Limits};
ghost use Rattle.blamed_works.specs.Profiles.{TellsProfiles};

use runner::Runner;

/// For all runners: without their places the leaves that are told of an object are those of its profile's tree.
pub fn told_profiles<R: Runner>()
    ensures { (dirs : List (List ℕ)) (limits : Limits) → TellsProfiles (R.meaning dirs limits) }
{}
