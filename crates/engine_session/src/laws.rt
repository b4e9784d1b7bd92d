ghost use Rattle.std.specs.Prelude.{◌≡◌, ◌≤◌, ℕ, List, length};
ghost use Rattle.asking.specs.declared.limits.TheConstants.{MAX_WORK};
ghost use Rattle.load_path.specs.declared.picture.PictureFile.{PictureFile};
ghost use Rattle.object_names.specs.Objects.{AreObjects};
ghost use Rattle.pan_ast.specs.declared.work.Limits.{Limits};
ghost use Rattle.engine_session.specs.Names.{objects_in};
ghost use Rattle.engine_session.specs.Rounds.{HasRounds};
ghost use Rattle.engine_session.specs.Untouched.{LeavesRest};

use runner::Runner;

/// For all pictures and directories: the list of objects that definitions speak of has exactly the objects of the
/// picture, in byte order, and no other list does.
pub fn object_lists()
    ensures objects { (files : List PictureFile) (dirs : List (List ℕ))
        → AreObjects files dirs (objects_in files dirs) }
    ensures only { (files : List PictureFile) (dirs names : List (List ℕ))
        → AreObjects files dirs names → names ≡ objects_in files dirs }
{}

/// For all runners: an edit of one file leaves each object and its answer as it was, but for those that the machine names
/// as touched, and brings no object but by a file that may be its template.
pub fn untouched_answers<R: Runner>()
    ensures { (dirs : List (List ℕ)) (limits : Limits) → length dirs ≤ MAX_WORK
        → LeavesRest (R.meaning dirs limits) dirs }
{}

/// For all runners: wherever a session has come to, the take of a picture and turns until all is settled run just the
/// objects that had no whole record, or whose record has changed; and turns cost at most what the records, and the runs
/// that they make, may cost, so that the rounds of a session cost at most the sum.
pub fn session_rounds<R: Runner>()
    ensures { (dirs : List (List ℕ)) (limits : Limits) → HasRounds (R.meaning dirs limits) dirs }
{}
