ghost use Rattle.std.specs.Prelude.{◌≡◌, ℕ, List, Ok};
ghost use Rattle.load_path.specs.declared.picture.PictureFile.{PictureFile};
ghost use Rattle.path_tree.specs.Plain.{Plain};
ghost use Rattle.pan_ast.specs.declared.work.Limits.{Limits};
ghost use Rattle.engine_laws.specs.Names.{Name};
ghost use Rattle.engine_machine.specs.Compiled.{compiled};
ghost use Rattle.promised_profiles.specs.Promised.{KeepsPromise};

use runner::Runner;

/// A law: each tree that compiling from scratch gives is that of what the build of its object made, told the true contents
/// of files and objects, and the check of that, told them too, found no fault: so it keeps what the runner promises.
pub fn profiles_keep_promises<R: Runner>()
    ensures { (dirs : List (List ℕ)) (limits : Limits) (files : List PictureFile)
        (objects : List Name) (o : Name) (t : Plain)
        → compiled (R.meaning dirs limits) files objects o ≡ Ok t
        → KeepsPromise (R.meaning dirs limits) files objects (R.promises dirs limits) o t }
{}
