ghost use Rattle.std.specs.Prelude.{ℕ, List};
ghost use Rattle.pan_ast.specs.declared.work.Limits.{Limits};
ghost use Rattle.questions.specs.Told.{IsRanBy, IsWorkOf};
ghost use Rattle.runner.specs.Meaning.{IsLawful};
ghost use Rattle.runner.specs.declared.ends.Built.{Built};
ghost use Rattle.template_meaning.specs.Program.{no_program};
ghost use Rattle.object_meaning.specs.Rest.{Rest};
ghost use Rattle.object_meaning.specs.Builds.{build_ending, built_run, site_at};
ghost use Rattle.object_meaning.specs.Checks.{check_ending, check_run};
ghost use Rattle.object_meaning.specs.Meanings.{meaning_of};

/// The laws of builds and checks as questions and answers: what they ask, their work, and where F31
/// stands.
pub fn lawful()
    ensures { (dirs : List (List ℕ)) (limits : Limits) → IsLawful (meaning_of dirs limits) }
{}

/// A build and a check that are told words, one question after another, are those that are told them
/// at once.
pub fn at_once()
    ensures builds { (dirs : List (List ℕ)) (limits : Limits) (object : List ℕ)
        → IsRanBy (build_ending (site_at dirs limits object))
        (built_run (site_at dirs limits object)) no_program }
    ensures checks { (dirs : List (List ℕ)) (limits : Limits) (b : Built Rest)
        → IsRanBy check_ending (check_run (site_at dirs limits b.object) b) tt }
{}

/// Their work is that of those that are told the pairs that they were told.
pub fn work_at_once()
    ensures builds { (dirs : List (List ℕ)) (limits : Limits) (object : List ℕ)
        → IsWorkOf (build_ending (site_at dirs limits object))
        (built_run (site_at dirs limits object)) no_program }
    ensures checks { (dirs : List (List ℕ)) (limits : Limits) (b : Built Rest)
        → IsWorkOf check_ending (check_run (site_at dirs limits b.object) b) tt }
{}
