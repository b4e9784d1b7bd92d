ghost use Rattle.std.specs.Prelude.{◌≡◌, ◌<◌, ◌-◌, IfOk, OnOk, Some};
ghost use Rattle.asking.specs.declared.limits.TheConstants.{MAX_WORK};
ghost use Rattle.object_meaning.specs.Builds.{build_ending, built_run, site_at};
ghost use Rattle.object_meaning.specs.Checks.{check_ending, check_run};
ghost use Rattle.object_run.specs.Ended.{IsBuildEnd, IsCheckEnd};
ghost use Rattle.questions.specs.Keys.{object_of};
ghost use Rattle.questions.specs.Told.{answers_of, ran_by, whole, work_of};
ghost use Rattle.run_world.specs.Noted.{AreWords};
ghost use Rattle.runner.specs.Ends.{build_ran, check_ran};
ghost use Rattle.runner.specs.Words.{words};
ghost use Rattle.template_meaning.specs.Program.{no_program};

use crate::building::build_object;
use crate::checking::{Tests, check_object};
use crate::rest::Rest;
use crate::tester::Tested;
use asking::limits::MAX_WORK;
use base::{Steps, Text};
use dml_runner::DmlRunner;
use dml_world::{Question, Stop};
use load_path::Picture;
use pan_ast::{Limits, Work};
use path_tree::Name;
use plain_statements::Site;
use questions::Key;
use read_sets::Trace;
use run_world::{Kept, Notes, RunWorld, Words};
use runner::{BuildEnd, Built, CheckEnd, Known};
use std::alloc::{AllocError, Global};
use std::marker::PhantomData;
use std::sync::ledger::{Blank, Ledger};

/// How a run ended, what it leaves for the next one, and the work that it used.
#[derive(Drop)]
pub(crate) struct Ran<E> {
    pub end: Result<E, AllocError>,
    pub kept: Kept,
    pub spent: u64,
}

/// How a build ended, with what it asked.
fn build_end(built: Result<Built<Rest>, Stop>, trace: Trace) -> Result<BuildEnd<Rest>, AllocError>
    ensures { IfOk result (λ end. IsBuildEnd built trace end) }
{
    match built {
        Ok(built) => Ok(BuildEnd::Done(built, trace)),
        Err(Stop::Fault(fault)) => Ok(BuildEnd::Fault(Box::into_inner(fault), trace)),
        Err(Stop::Need(question)) => {
            let Question {
                object,
                terms: _terms,
            } = Box::into_inner(question);
            Ok(BuildEnd::Need(object))
        }
        Err(Stop::Memory) => Err(AllocError),
    }
}

/// A build of an object, where the keys tell what T says. It counts its steps by itself.
pub(crate) fn build_in<D: DmlRunner, T: Words, K: Known, N: Ledger>(
    alloc: Global,
    blank: Blank,
    picture: &Picture,
    dirs: &[Text],
    kept: Kept,
    name: &Name,
    known: &K,
    limits: &Limits,
) -> Ran<BuildEnd<Rest>>
    requires told { AreWords (words picture.now (K.numbers known.now) (K.objects known.now))
        T.tells }
    requires name { blank.name ≡ N.name }
    requires parts { blank.parts ≡ N.parts }
    requires some { 0 < blank.parts }
    ensures answer { IfOk result.end (λ end. ran_by T.tells
        (build_ending (site_at dirs.now limits.now name.now))
        (built_run (site_at dirs.now limits.now name.now) (answers_of T.tells) no_program whole)
        ≡ build_ran end) }
    ensures spent { OnOk result.end (result.spent ≡ work_of
        (built_run (site_at dirs.now limits.now name.now) (answers_of T.tells) no_program whole)) }
{
    let mut steps: Steps<N> = Steps::new(blank);
    let mut world: RunWorld<'_, K, T> = RunWorld {
        picture,
        known,
        kept,
        notes: Notes::new(alloc),
        of: PhantomData,
    };
    let site = Site {
        object: name,
        dirs,
        limits: *limits,
    };
    let mut work = Work { left: MAX_WORK };
    let built = build_object::<D, RunWorld<'_, K, T>, N>(
        alloc, &site, &mut world, &mut work, &mut steps,
    );
    let RunWorld { kept, notes, .. } = world;
    Ran {
        end: build_end(built, notes.into_trace()),
        kept,
        spent: MAX_WORK - work.left,
    }
}

/// The object that a key names.
fn object_of(key: Key) -> Result<Name, AllocError>
    ensures { IfOk result (λ p. object_of key ≡ Some p) }
{
    match key {
        Key::Under {
            object,
            terms: _terms,
        } => Ok(object),
        Key::File(_file) => Err(AllocError),
    }
}

/// How a check ended, with what it asked.
fn check_end(end: Result<(), validate::Stop>, trace: Trace) -> Result<CheckEnd, AllocError>
    ensures { IfOk result (λ e. IsCheckEnd end trace e) }
{
    match end {
        Ok(()) => Ok(CheckEnd::Done(trace)),
        Err(validate::Stop::Fault(fault)) => Ok(CheckEnd::Fault(Box::into_inner(fault), trace)),
        Err(validate::Stop::Need(key)) => Ok(CheckEnd::Need(object_of(Box::into_inner(key))?)),
        Err(validate::Stop::Memory) => Err(AllocError),
    }
}

/// A check of what was built, where the keys tell what T says. It counts its steps by itself.
pub(crate) fn check_in<D: DmlRunner, T: Words, K: Known, C: Tested, N: Ledger>(
    alloc: Global,
    blank: Blank,
    picture: &Picture,
    dirs: &[Text],
    kept: Kept,
    built: &Built<Rest>,
    known: &K,
    limits: &Limits,
) -> Ran<CheckEnd>
    requires told { AreWords (words picture.now (K.numbers known.now) (K.objects known.now))
        T.tells }
    requires case { record {
      object = built.now.object;
      dirs = dirs.now;
      limits = limits.now;
      built = built.now;
    } ≡ C.case }
    requires name { blank.name ≡ N.name }
    requires parts { blank.parts ≡ N.parts }
    requires some { 0 < blank.parts }
    ensures answer { IfOk result.end (λ end. ran_by T.tells check_ending
        (check_run (site_at dirs.now limits.now built.now.object) built.now (answers_of T.tells) tt
        whole) ≡ check_ran end) }
    ensures spent { OnOk result.end (result.spent ≡ work_of
        (check_run (site_at dirs.now limits.now built.now.object) built.now (answers_of T.tells) tt
        whole)) }
{
    let mut steps: Steps<N> = Steps::new(blank);
    let world: RunWorld<'_, K, T> = RunWorld {
        picture,
        known,
        kept,
        notes: Notes::new(alloc),
        of: PhantomData,
    };
    let site = Site {
        object: &built.object,
        dirs,
        limits: *limits,
    };
    let mut work = Work { left: MAX_WORK };
    let Tests { end, world } = check_object::<D, C, RunWorld<'_, K, T>, N>(
        alloc, &site, built, world, &mut work, &mut steps,
    );
    let RunWorld { kept, notes, .. } = world;
    Ran {
        end: check_end(end, notes.into_trace()),
        kept,
        spent: MAX_WORK - work.left,
    }
}
