//! What the product's runner is: that it means what the language says, and what it promises.

ghost use Rattle.std.specs.Prelude.{◌≡◌, ℕ, List};
ghost use Rattle.object_meaning.specs.Builds.{site_at};
ghost use Rattle.object_meaning.specs.Meanings.{meaning_of};
ghost use Rattle.object_meaning.specs.Rest.{Rest};
ghost use Rattle.pan_ast.specs.declared.work.Limits.{Limits};
ghost use Rattle.questions.specs.Contents.{Content};
ghost use Rattle.questions.specs.declared.key.Key.{Key};
ghost use Rattle.runner.specs.declared.ends.Built.{Built};
ghost use Rattle.sound_profiles.specs.Built.{IsSoundBuilt};

use crate::library::Library;
use dml_runner::DmlRunner;
use runner::Runner;

/// Builds and checks mean what the language says, and what is told of how a tree was made is the log of its build; a check
/// that gives no fault promises that what was built is sound: no undef is left, each path that a type is bound to has a
/// value that conforms to it, and each valid statement holds.
pub fn product_runner<D: DmlRunner>()
    ensures means { ⟦<Library<D> as Runner>⟧.meaning ≡ meaning_of }
    ensures promises { (dirs : List (List ℕ)) (limits : Limits) (b : Built Rest)
        (pairs : List (Key × Content)) → ⟦<Library<D> as Runner>⟧.promises dirs limits b pairs
        → IsSoundBuilt (site_at dirs limits b.object) b pairs }
{}
