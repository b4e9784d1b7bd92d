ghost use Rattle.object_meaning.specs.Meanings.{meaning_of};
ghost use Rattle.object_meaning.proofs.BothLawful.{is_lawful};
ghost use Rattle.object_meaning.proofs.Logging.{logs_its_trees};
ghost use Rattle.object_meaning.proofs.Looking.{looks_for_template};
ghost use Rattle.sound_profiles.specs.Built.{PromisesSound};
ghost use Rattle.sound_profiles.proofs.Profiles.{builds_by_name, keeps_sound};
ghost use Rattle.runner.specs.Logged.{put_no_null, puts_no_null};
ghost use Rattle.runner.specs.Meaning.{counted};
ghost use Rattle.std.specs.Prelude.{◌≡◌, []};

use crate::rest::Rest;
use crate::runs::{Ran, build_in, check_in};
use base::{Seq, Steps, Text};
use dml_runner::DmlRunner;
use load_path::Picture;
use pan_ast::{Change, Limits, Place};
use path_tree::Name;
use run_world::Kept;
use runner::{BuildEnd, Built, CheckEnd, Known, Log, Runner};
use std::alloc::{AllocError, Global};
use std::marker::{Brand, PhantomData};
use std::mem;
use std::sync::ledger::{Blank, Ledger};

/// The product's runner: builds and checks of objects over one picture, whose DML D runs. Templates are
/// read once for the bytes that their files hold, and patterns are compiled once.
#[derive(Drop)]
pub struct Library<D: DmlRunner> {
    alloc: Global,
    picture: Picture,
    dirs: Seq<Text>,
    kept: Kept,
    runs: u64,
    dml: PhantomData<D>,
}

/// A count with one more run; the last one stands.
fn count_up(runs: u64) -> u64
    ensures { result ≡ counted runs }
{
    if runs < u64::MAX { runs + 1 } else { runs }
}

/// Whether a change puts no null.
fn puts_no_null(change: &Change) -> bool
    ensures { result ≡ puts_no_null change.now }
{
    match &change.value {
        None => true,
        Some(value) => !value.is_null(),
    }
}

/// Whether no change puts null.
fn put_no_null(changes: &[Change]) -> bool
    ensures { result ≡ put_no_null changes.now }
{
    changes.iter().all(|change| puts_no_null(change))
}

fn is_build_fault(end: &BuildEnd<Rest>) -> bool {
    match end {
        BuildEnd::Fault(_fault, _trace) => true,
        BuildEnd::Done(_built, _trace) => false,
        BuildEnd::Need(_name) => false,
    }
}

fn is_check_fault(end: &CheckEnd) -> bool {
    match end {
        CheckEnd::Fault(_fault, _trace) => true,
        CheckEnd::Done(_trace) => false,
        CheckEnd::Need(_name) => false,
    }
}

impl<D: DmlRunner> Library<D> {
    /// An empty picture, no directories, and no runs yet.
    pub fn new(alloc: Global) -> Library<D>
        ensures picture { result.picture ≡ [] }
        ensures dirs { result.dirs ≡ [] }
        ensures runs { result.runs ≡ 0 }
    {
        Library {
            alloc,
            picture: Picture::new(alloc),
            dirs: Seq::new(alloc),
            kept: Kept::new(alloc),
            runs: 0,
            dml: PhantomData,
        }
    }

    /// The places of the calls and includes inside which the last run of an object had its fault, the innermost
    /// first; none where it had no fault, or where they were taken before.
    pub fn take_trail(&self, object: &str) -> Option<Vec<Place>> {
        self.kept.trails.take(object)
    }
}

impl<D: DmlRunner> Runner for Library<D> {
    type Rest = Rest;

    ghost meaning = { meaning_of };

    ghost promises = { PromisesSound };

    ghost files_of = { λ l. l.picture };

    ghost dirs_of = { λ l. l.dirs };

    ghost runs_of = { λ l. l.runs };

    fn set_picture(&mut self, picture: Picture, dirs: Seq<Text>) {
        self.picture = picture;
        self.dirs = dirs;
    }

    fn picture(&self) -> &Picture {
        &self.picture
    }

    fn log(rest: &Rest) -> Option<Log<'_>> {
        if !put_no_null(&rest.log) {
            return None;
        }
        Some(Log {
            header: &rest.header,
            changes: &rest.log,
        })
    }

    fn run_build<K: Known, L: Ledger>(
        &mut self,
        name: &Name,
        known: &K,
        limits: &Limits,
        steps: &mut Steps<L>,
    ) -> Result<BuildEnd<Rest>, AllocError> {
        let alloc = self.alloc;
        let kept = mem::replace(&mut self.kept, Kept::new(alloc));
        kept.trails.begin();
        let Ran { end, kept, spent } = build_in::<D, Brand, K, Brand>(
            alloc,
            Blank::new(1),
            &self.picture,
            self.dirs.as_slice(),
            kept,
            name,
            known,
            limits,
        );
        self.kept = kept;
        self.runs = count_up(self.runs);
        let end = end?;
        self.kept.trails.end(name.as_str(), is_build_fault(&end));
        steps.pay(spent);
        Ok(end)
    }

    fn run_check<K: Known, L: Ledger>(
        &mut self,
        built: &Built<Rest>,
        known: &K,
        limits: &Limits,
        steps: &mut Steps<L>,
    ) -> Result<CheckEnd, AllocError> {
        let alloc = self.alloc;
        let kept = mem::replace(&mut self.kept, Kept::new(alloc));
        kept.trails.begin();
        let Ran { end, kept, spent } = check_in::<D, Brand, K, Brand, Brand>(
            alloc,
            Blank::new(1),
            &self.picture,
            self.dirs.as_slice(),
            kept,
            built,
            known,
            limits,
        );
        self.kept = kept;
        self.runs = count_up(self.runs);
        let end = end?;
        self.kept
            .trails
            .end(built.object.as_str(), is_check_fault(&end));
        steps.pay(spent);
        Ok(end)
    }

    ghost laws = { is_lawful };

    ghost by_name = { builds_by_name };

    ghost looks = { looks_for_template };

    ghost logged = { logs_its_trees };

    ghost kept = { keeps_sound };
}
