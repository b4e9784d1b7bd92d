//! The runner.

ghost use Rattle.std.specs.Prelude.{◌≡◌, []};
ghost use Rattle.runner.specs.Meaning.{counted};
ghost use Rattle.written_runner.specs.Meaning.{build_end_of, check_end_of};

use crate::running::{Ran, Side, run_object};
use crate::used::{Came, Used};
use asking::limits::MAX_WORK;
use base::{Seq, Steps, Text};
use load_path::Picture;
use pan_ast::Limits;
use path_tree::Name;
use runner::{BuildEnd, Built, CheckEnd, Known, Log, Runner};
use std::alloc::{AllocError, Global};
use std::sync::ledger::Ledger;

/// A runner of written objects, over a picture that it keeps.
#[derive(Drop)]
pub struct Written {
    alloc: Global,
    picture: Picture,
    dirs: Seq<Text>,
    runs: u64,
}

impl Written {
    /// A runner with an empty picture and no runs.
    pub fn new(alloc: Global) -> Written
        ensures files { result.picture ≡ [] }
        ensures dirs { result.dirs ≡ [] }
        ensures runs { result.runs ≡ 0 }
    {
        Written {
            alloc,
            picture: Picture::new(alloc),
            dirs: Seq::new(alloc),
            runs: 0,
        }
    }

    /// How many runs were made.
    pub fn runs(&self) -> u64
        ensures { result ≡ self.now.runs }
    {
        self.runs
    }
}

/// A count with one more; the last count stands.
fn count_up(runs: u64) -> u64
    ensures { result ≡ counted runs }
{
    if runs < u64::MAX { runs + 1 } else { runs }
}

/// How a build ends.
fn build_end(ran: Ran, object: Name) -> BuildEnd<()>
    ensures { result ≡ build_end_of ran.came ran.used.value ran.used.trace object }
{
    let Ran { came, used } = ran;
    let Used { value, trace, .. } = used;
    match came {
        Came::Done => {
            let built = Built {
                object,
                tree: value,
                rest: (),
            };
            BuildEnd::Done(built, trace)
        }
        Came::Failed(fault) => BuildEnd::Fault(fault, trace),
        Came::Waits(name) => BuildEnd::Need(name),
    }
}

/// How a check ends.
fn check_end(ran: Ran) -> CheckEnd
    ensures { result ≡ check_end_of ran.came ran.used.trace }
{
    let Ran { came, used } = ran;
    match came {
        Came::Done => CheckEnd::Done(used.trace),
        Came::Failed(fault) => CheckEnd::Fault(fault, used.trace),
        Came::Waits(name) => CheckEnd::Need(name),
    }
}

impl Runner for Written {
    ghost use Rattle.written_runner.specs.Meaning.{meaning, PromisesNothing};
    ghost use Rattle.written_runner.specs.Laws.{lawful};
    ghost use Rattle.written_runner.specs.Promised.{builds_by_name, looks_for_template};

    type Rest = ();

    ghost meaning = { λ dirs limits. meaning dirs };

    ghost promises = { λ dirs limits. PromisesNothing };

    ghost files_of = { λ r. r.picture };

    ghost dirs_of = { λ r. r.dirs };

    ghost runs_of = { λ r. r.runs };

    fn set_picture(&mut self, picture: Picture, dirs: Seq<Text>) {
        self.picture = picture;
        self.dirs = dirs;
    }

    fn picture(&self) -> &Picture {
        &self.picture
    }

    fn log(_rest: &()) -> Option<Log<'_>> {
        None
    }

    fn run_build<K: Known, L: Ledger>(
        &mut self,
        name: &Name,
        known: &K,
        _limits: &Limits,
        steps: &mut Steps<L>,
    ) -> Result<BuildEnd<()>, AllocError> {
        let object = name.share()?;
        let dirs = self.dirs.as_slice();
        let ran = run_object(self.alloc, &self.picture, dirs, known, name, Side::Build)?;
        steps.pay(MAX_WORK.saturating_sub(ran.used.left));
        self.runs = count_up(self.runs);
        Ok(build_end(ran, object))
    }

    fn run_check<K: Known, L: Ledger>(
        &mut self,
        built: &Built<()>,
        known: &K,
        _limits: &Limits,
        steps: &mut Steps<L>,
    ) -> Result<CheckEnd, AllocError> {
        let dirs = self.dirs.as_slice();
        let object = &built.object;
        let ran = run_object(self.alloc, &self.picture, dirs, known, object, Side::Check)?;
        steps.pay(MAX_WORK.saturating_sub(ran.used.left));
        self.runs = count_up(self.runs);
        Ok(check_end(ran))
    }

    ghost laws = { λ dirs limits. lawful dirs };

    ghost by_name = { λ dirs limits. builds_by_name dirs };

    ghost looks = { λ dirs limits. looks_for_template dirs };

    ghost logged = { λ dirs limits object asked built is. tt };

    ghost kept = { λ dirs limits built asked none. tt };
}
