ghost use Rattle.std.specs.Prelude.{◌≡◌, ◌↔◌, ℕ, List, None, Ok};
ghost use Rattle.asking.specs.Asked.{Ends};
ghost use Rattle.questions.specs.Contents.{Content};
ghost use Rattle.questions.specs.declared.key.Key.{Key};
ghost use Rattle.pan_ast.specs.declared.work.Limits.{Limits};
ghost use Rattle.runner.specs.declared.ends.Built.{Built};
ghost use Rattle.validate.specs.Sound.{IsSpent};
ghost use Rattle.object_meaning.specs.Rest.{Rest};
ghost use Rattle.object_meaning.specs.Builds.{site_at};
ghost use Rattle.object_meaning.specs.Checks.{check_told};
ghost use Rattle.object_meaning.specs.Meanings.{meaning_of};
ghost use Rattle.sound_profiles.specs.Built.{IsSoundBuilt};

/// A law: whatever was built, and whatever contents files and other objects have, the check gives no
/// fault exactly where no undef is left, each bound path has a value that conforms to its type and
/// each valid statement holds, and the work of the check is not spent.
pub fn check_tells_soundness()
    ensures { (dirs : List (List ℕ)) (limits : Limits) (b : Built Rest)
        (pairs : List (Key × Content))
        → ((meaning_of dirs limits).check b pairs ≡ Ends None)
        ↔ (IsSoundBuilt (site_at dirs limits b.object) b pairs
        × (IsSpent (check_told (site_at dirs limits b.object) b pairs) → ⊥)) }
{}

/// A law: where an object's build is done, whatever it was told, and the check of what it made gives
/// no fault, then what it made is sound.
pub fn checked_profiles_are_sound()
    ensures { (dirs : List (List ℕ)) (limits : Limits) (object : List ℕ) (b : Built Rest)
        (build_pairs check_pairs : List (Key × Content))
        → (meaning_of dirs limits).build object build_pairs ≡ Ends (Ok b)
        → (meaning_of dirs limits).check b check_pairs ≡ Ends None
        → IsSoundBuilt (site_at dirs limits object) b check_pairs }
{}
