ghost use Rattle.std.specs.Prelude.{◌≡◌, ◌≤◌, [], List, ℕ, IfOk, OnOk, OnErr, Some, IsSome};
ghost use Rattle.engine_session.specs.Compiler.{Compiled, compiler, nothing};
ghost use Rattle.engine_session.specs.Standing.{IsFaithful, Here, Counts, counts, HasSpentAtMost, IsAt, IsIn, compiled_in, machine_in};
ghost use Rattle.outside.specs.Causes.{Caused};
ghost use Rattle.outside.specs.Contents.{Appends, AppendsPart};
ghost use Rattle.outside.specs.declared.source.MemFile.{MemFile};
ghost use Rattle.pan_ast.specs.declared.work.Limits.{Limits};
ghost use Rattle.rebuild.specs.Engines.{turns_left_of};
ghost use Rattle.session.specs.Sessions.{build_round, next, state_in, started};
ghost use Rattle.demo.specs.Demo.{builds, demo_dirs, demo_session, Ends, Breaks};
ghost use Rattle.demo.specs.Pictures.{demo_pictures};
ghost use Rattle.demo.specs.Played.{Goes, Says};

use crate::ends::End;
use crate::pictures::pictures;
use crate::plan::Plan;
use crate::report::last_line;
use base::{Seq, Steps, Text};
use engine_session::{Took, Works, build, make_all_turns, start, take_next};
use outside::{Sink, Source, StoreError, SureSource};
use pan_ast::Limits;
use runner::Runner;
use session::{Ended, ended_by};
use std::alloc::{AllocError, Global};
use std::sync::ledger::Ledger;

const BUILDS: u32 = 4;

/// How a build leaves a session.
#[derive(Clone, Copy, PartialEq, Eq)]
pub enum Step {
    Reports,
    SpendsNumbers,
    IsTooMuch,
}

/// Writes the last line of the report of a settled engine, and tells whether an object has a fault.
fn push_line<R: Runner>(
    alloc: Global,
    works: &Works<R>,
    line: &mut Vec<u8>,
) -> Result<bool, AllocError>
    requires line { line.old.items ≡ [] }
    requires settled { turns_left_of works.now.engine.core ≡ 0 }
    ensures { IsFaithful R.meaning works.now → IfOk result (λ faults. Says
        (machine_in R.meaning works.now.engine.core) (compiled_in works.now.engine.core) faults
        line.new.items) }
{
    let built = build(alloc, works)?;
    line.extend_from_slice(last_line(&built.report))?;
    Ok(built.has_faults)
}

/// Builds the source's next picture.
fn build_next<R: Runner, L: Ledger>(
    alloc: Global,
    works: &mut Works<R>,
    source: &mut SureSource,
    line: &mut Vec<u8>,
    has_faults: &mut bool,
    steps: &mut Steps<L>,
) -> Result<Step, AllocError>
    requires open { IsSome source.old.root }
    requires line { line.old.items ≡ [] }
    ensures went { IsFaithful R.meaning works.old → IfOk result (λ step. (dirs : List (List ℕ))
        (limits : Limits) (s : Here R.Rest) (start : Counts) → IsAt dirs limits s
        works.old.engine.core start (counts (R.runs_of works.old.runner) steps.old)
        → source.old.coming ≡ s.coming → s.text ≡ []
        → Goes (compiler (R.meaning dirs limits) dirs) dirs limits s step line.new.items
        has_faults.new works.new.engine.core source.new.coming start
        (counts (R.runs_of works.new.runner) steps.new)) }
    ensures cut { IsFaithful R.meaning works.old → OnErr result ((dirs : List (List ℕ))
        (limits : Limits) (s : Here R.Rest) (start : Counts) → IsAt dirs limits s
        works.old.engine.core start (counts (R.runs_of works.old.runner) steps.old)
        → source.old.coming ≡ s.coming → HasSpentAtMost (state_in (next (compiler (R.meaning dirs
        limits) dirs) build_round s)) start (counts (R.runs_of works.new.runner) steps.new)) }
    ensures faithful { IsFaithful R.meaning works.old
        → OnOk result (IsFaithful R.meaning works.new) }
    ensures opened { source.new.root ≡ source.old.root }
{
    match take_next(alloc, works, source, steps)? {
        Took::Failed => unreachable!(),
        Took::Taken => {}
        Took::SpendsNumbers => return Ok(Step::SpendsNumbers),
        Took::IsTooMuch => return Ok(Step::IsTooMuch),
    }
    if !make_all_turns(alloc, works, steps)? {
        return Ok(Step::SpendsNumbers);
    }
    *has_faults = push_line(alloc, works, line)?;
    works.engine.forget_runs();
    Ok(Step::Reports)
}

fn write<O: Sink>(out: &mut O, text: &[u8]) -> Result<(), End>
    ensures ok { OnOk result (Appends (O.held out.old) text.now (O.held out.new)) }
    ensures err { OnErr result (AppendsPart (O.held out.old) text.now (O.held out.new)) }
    ensures cause { Caused (λ e. e ≡ End.Out) (O.fault_count out.old) (O.fault_count out.new)
        result }
{
    match out.write(text) {
        Ok(()) => Ok(()),
        Err(StoreError::Failed) => Err(End::Out),
        Err(StoreError::Memory) => Err(End::Memory),
    }
}

/// Makes the builds, one after the other, and writes the last line of each report.
fn play<R: Runner, O: Sink, L: Ledger>(
    alloc: Global,
    works: &mut Works<R>,
    source: &mut SureSource,
    out: &mut O,
    steps: &mut Steps<L>,
) -> Result<Ended, End>
    requires { IsSome source.old.root }
    ensures ok { IsFaithful R.meaning works.old → IfOk result (λ how. (dirs : List (List ℕ))
        (limits : Limits) (e : Compiled R.Rest) (ps : List (List MemFile))
        → IsIn dirs limits works.old.engine.core e
        → source.old.coming ≡ ps
        → Ends (builds (compiler (R.meaning dirs limits) dirs) 4 (started e ps [])) how
        (counts (R.runs_of works.old.runner) steps.old) (counts (R.runs_of works.new.runner)
        steps.new) (O.held out.old) (O.held out.new)) }
    ensures err { IsFaithful R.meaning works.old → OnErr result ((dirs : List (List ℕ))
        (limits : Limits) (e : Compiled R.Rest) (ps : List (List MemFile))
        → IsIn dirs limits works.old.engine.core e
        → source.old.coming ≡ ps
        → Breaks (builds (compiler (R.meaning dirs limits) dirs) 4 (started e ps []))
        (counts (R.runs_of works.old.runner) steps.old) (counts (R.runs_of works.new.runner)
        steps.new) (O.held out.old) (O.held out.new)) }
    ensures out_cause { Caused (λ e. e ≡ End.Out) (O.fault_count out.old) (O.fault_count out.new)
        result }
{
    let mut line = Vec::new(alloc);
    let mut has_faults = false;
    for _i in 0..BUILDS {
        line.clear();
        match build_next(alloc, works, source, &mut line, &mut has_faults, steps) {
            Ok(Step::Reports) => {}
            Ok(Step::SpendsNumbers) => return Ok(Ended::NumbersSpent),
            Ok(Step::IsTooMuch) => return Ok(Ended::TooMuch),
            Err(AllocError) => return Err(End::Memory),
        }
        match write(out, &line) {
            Ok(()) => {}
            Err(end) => return Err(end),
        }
    }
    Ok(ended_by(has_faults))
}

/// A source of the demo's pictures, opened.
fn open_source(alloc: Global, count: u32, start: u64) -> Result<SureSource, AllocError>
    ensures coming { IfOk result (λ source. source.coming ≡ demo_pictures count start) }
    ensures opened { IfOk result (λ source. IsSome source.root) }
{
    let mut source = SureSource::new(alloc, pictures(alloc, count, start)?);
    // (no call of it fails, so memory was wanting)
    match source.open_root("") {
        Ok(()) => Ok(source),
        Err(_) => Err(AllocError),
    }
}

/// The root alone.
fn root(alloc: Global) -> Result<Seq<Text>, AllocError>
    ensures { IfOk result (λ dirs. dirs ≡ demo_dirs) }
{
    let mut dirs = Vec::new(alloc);
    dirs.push(Text::new(alloc, "")?)?;
    Ok(Seq::from_vec(dirs))
}

/// Makes the engine one that has taken no picture, with these limits, over the root.
fn start_at_root<R: Runner>(
    alloc: Global,
    works: &mut Works<R>,
    limits: Limits,
) -> Result<(), AllocError>
    ensures at { OnOk result (IsIn demo_dirs limits works.new.engine.core nothing) }
    ensures faithful { OnOk result (IsFaithful R.meaning works.new) }
    ensures runs { R.runs_of works.new.runner ≡ R.runs_of works.old.runner }
{
    let dirs = root(alloc)?;
    start(alloc, works, limits, dirs.as_slice())
}

/// Four builds of a site of so many machines that is made from a number, in memory and over one engine; the last line of
/// each report is written.
///
/// Before the second build a line is added to the first machine's template, before the third that machine's port is
/// another one, and before the fourth a line is added to the template that all machines include. Objects are built and
/// checked by the runner. `steps` rises by the session's steps. Where a line cannot be written, or memory is wanting, a
/// first part of the session's text was written.
pub fn demo<R: Runner, O: Sink, L: Ledger>(
    alloc: Global,
    plan: Plan,
    works: &mut Works<R>,
    out: &mut O,
    steps: &mut Steps<L>,
) -> Result<Ended, End>
    ensures ok { IfOk result (λ how. Ends
        (demo_session R.meaning plan.limits plan.count plan.start) how
        (counts (R.runs_of works.old.runner) steps.old)
        (counts (R.runs_of works.new.runner) steps.new) (O.held out.old) (O.held out.new)) }
    ensures err { OnErr result (Breaks
        (demo_session R.meaning plan.limits plan.count plan.start)
        (counts (R.runs_of works.old.runner) steps.old)
        (counts (R.runs_of works.new.runner) steps.new) (O.held out.old) (O.held out.new)) }
    ensures out_cause { Caused (λ e. e ≡ End.Out) (O.fault_count out.old) (O.fault_count out.new)
        result }
{
    let mut source = open_source(alloc, plan.count, plan.start)?;
    start_at_root(alloc, works, plan.limits)?;
    play(alloc, works, &mut source, out, steps)
}
