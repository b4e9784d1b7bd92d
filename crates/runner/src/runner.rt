ghost use Rattle.std.specs.Prelude.{◌≡◌, ◌≤◌, ◌+◌, IfOk, OnOk, OnErr, option_map};
ghost use Rattle.runner.specs.Words.{words};
ghost use Rattle.runner.specs.Ends.{build_ran, check_ran};
ghost use Rattle.runner.specs.Logged.{seen_log};
ghost use Rattle.runner.specs.Meaning.{build_run, build_steps, check_run, check_steps, counted};

use crate::ends::{BuildEnd, Built, CheckEnd};
use crate::known::Known;
use crate::log::Log;
use base::{Seq, Steps, Text};
use load_path::Picture;
use pan_ast::Limits;
use path_tree::Name;
use std::alloc::AllocError;
use std::sync::ledger::Ledger;

/// Runs the builds and the checks of objects, over a picture and include directories that it keeps.
///
/// A runner answers by its meaning alone: what a build and a check ask and give is a function of the directories, the
/// limits, the object's name or what was built, and of the answers so far. Whoever uses a runner knows nothing of that
/// meaning but its laws, and what a check that gives no fault promises.
pub trait Runner {
    ghost use Rattle.std.specs.Prelude.{ℕ, List, None};
    ghost use Rattle.asking.specs.Asked.{Ends};
    ghost use Rattle.load_path.specs.declared.picture.PictureFile.{PictureFile};
    ghost use Rattle.pan_ast.specs.declared.work.Limits.{Limits};
    ghost use Rattle.questions.specs.Contents.{Content};
    ghost use Rattle.questions.specs.declared.key.Key.{Key};
    ghost use Rattle.runner.specs.Logged.{LogItsTrees};
    ghost use Rattle.runner.specs.Looking.{LooksForTemplates};
    ghost use Rattle.runner.specs.Meaning.{Meaning, IsLawful, BuildsByName};
    ghost use Rattle.runner.specs.declared.ends.Built.{Built};

    /// What a build makes besides the tree, for the check.
    type Rest: Drop;

    /// What builds and checks ask and give, and what is told of how a tree was made, by directories and limits.
    ghost meaning: { List (List ℕ) → Limits → Meaning Self.Rest };

    /// What a check that gives no fault promises of what was built, where files and other objects have these contents.
    ghost promises: { List (List ℕ) → Limits → Built Self.Rest → List (Key × Content) → Type 0 };

    /// The files of the picture, the directories, and the count of runs.
    ghost files_of: { Self → List PictureFile };

    ghost dirs_of: { Self → List (List ℕ) };

    ghost runs_of: { Self → ℕ };

    /// Another picture with other directories.
    fn set_picture(&mut self, picture: Picture, dirs: Seq<Text>)
        ensures files { files_of self.new ≡ picture }
        ensures dirs { dirs_of self.new ≡ dirs }
        ensures runs { runs_of self.new ≡ runs_of self.old };

    /// The picture.
    fn picture(&self) -> &Picture
        ensures { result.now ≡ files_of self.now };

    /// How the tree of a build was made. None of a runner that does not keep it.
    fn log(rest: &Self::Rest) -> Option<Log<'_>>
        ensures { (dirs : List (List ℕ)) (limits : Limits)
            → option_map seen_log result ≡ (meaning dirs limits).log rest.now };

    /// Runs the build of an object of the picture.
    ///
    /// Files are told by the picture, with the numbers that `known` gives; objects are told as they are known. A run that
    /// ends gives the keys that it asked, in order, with these numbers. `steps` rises by the work of the run.
    fn run_build<K: Known, L: Ledger>(
        &mut self,
        name: &Name,
        known: &K,
        limits: &Limits,
        steps: &mut Steps<L>,
    ) -> Result<BuildEnd<Self::Rest>, AllocError>
        ensures answer { IfOk result (λ end.
            build_run (meaning (dirs_of self.old) limits.now) name.now
            (words (files_of self.old) (K.numbers known.now) (K.objects known.now))
            ≡ build_ran end) }
        ensures steps { OnOk result (steps.new ≡ steps.old
            + build_steps (meaning (dirs_of self.old) limits.now) name.now
            (words (files_of self.old) (K.numbers known.now) (K.objects known.now))) }
        ensures files { files_of self.new ≡ files_of self.old }
        ensures dirs { dirs_of self.new ≡ dirs_of self.old }
        ensures runs { OnOk result (runs_of self.new ≡ counted (runs_of self.old)) }
        ensures refused_steps { OnErr result (steps.new ≤ steps.old
            + build_steps (meaning (dirs_of self.old) limits.now) name.now
            (words (files_of self.old) (K.numbers known.now) (K.objects known.now))) }
        ensures refused_runs { OnErr result ((runs_of self.old ≤ runs_of self.new)
            × (runs_of self.new ≤ counted (runs_of self.old))) };

    /// Runs the check of what was built, told as a build is.
    fn run_check<K: Known, L: Ledger>(
        &mut self,
        built: &Built<Self::Rest>,
        known: &K,
        limits: &Limits,
        steps: &mut Steps<L>,
    ) -> Result<CheckEnd, AllocError>
        ensures answer { IfOk result (λ end.
            check_run (meaning (dirs_of self.old) limits.now) built.now
            (words (files_of self.old) (K.numbers known.now) (K.objects known.now))
            ≡ check_ran end) }
        ensures steps { OnOk result (steps.new ≡ steps.old
            + check_steps (meaning (dirs_of self.old) limits.now) built.now
            (words (files_of self.old) (K.numbers known.now) (K.objects known.now))) }
        ensures files { files_of self.new ≡ files_of self.old }
        ensures dirs { dirs_of self.new ≡ dirs_of self.old }
        ensures runs { OnOk result (runs_of self.new ≡ counted (runs_of self.old)) }
        ensures refused_steps { OnErr result (steps.new ≤ steps.old
            + check_steps (meaning (dirs_of self.old) limits.now) built.now
            (words (files_of self.old) (K.numbers known.now) (K.objects known.now))) }
        ensures refused_runs { OnErr result ((runs_of self.old ≤ runs_of self.new)
            × (runs_of self.new ≤ counted (runs_of self.old))) };

    /// The laws of builds and checks: a key is asked once, each question costs a step, the work of a run is bounded, and
    /// an object whose chain of reads never ends has the fault of a circular object.
    ghost laws: { (dirs : List (List ℕ)) (limits : Limits) → IsLawful (meaning dirs limits) };

    /// What a build makes is of the object that it builds.
    ghost by_name: { (dirs : List (List ℕ)) (limits : Limits) → BuildsByName (meaning dirs limits) };

    /// The build of an object looks for its own template in the directories.
    ghost looks: { (dirs : List (List ℕ)) (limits : Limits)
        → LooksForTemplates (meaning dirs limits) dirs };

    /// The changes that it tells give the tree.
    ghost logged: { (dirs : List (List ℕ)) (limits : Limits)
        → LogItsTrees (meaning dirs limits) };

    /// A check that ends without a fault keeps its promise.
    ghost kept: { (dirs : List (List ℕ)) (limits : Limits) (b : Built Self.Rest)
        (pairs : List (Key × Content)) → (meaning dirs limits).check b pairs ≡ Ends None
        → promises dirs limits b pairs };
}
