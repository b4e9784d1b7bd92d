ghost use Rattle.std.specs.Prelude.{◌≡◌, ◌≤◌, ◌⊎◌, IfOk, IfErr, OnOk, OnErr, IfSome, IsSome, Some, true};
ghost use Rattle.engine_session.specs.Compiler.{Compiled};
ghost use Rattle.engine_session.specs.Standing.{IsBegun, IsFaithful, IsIn, HasSpentAtMost, counts};
ghost use Rattle.outside.specs.Causes.{Caused};
ghost use Rattle.outside.specs.Contents.{Appends, AppendsPart};
ghost use Rattle.publication.specs.Listings.{Lists};
ghost use Rattle.publication.specs.Wants.{proper, wants_of};
ghost use Rattle.rebuild.specs.Engines.{turns_left_of};
ghost use Rattle.site_build.specs.Ends.{IsEndOf, IsFailureOf, OfSink, OfSource, IsRoundEnd};
ghost use Rattle.site_build.specs.Rounds.{Follows, Reaches, Spends, given_by, session_at};
ghost use Rattle.site_build.specs.Scenes.{outs};
ghost use Rattle.site_build.specs.Session.{TakesEarly, IsPassed, ended_behind, limits_of, session_for, state_for, state_from, text_behind};
ghost use Rattle.session.specs.Sessions.{end_line};
ghost use Rattle.session.specs.declared.Ended.TheVariants as ended;
ghost use Rattle.site_build.specs.declared.ends.Device.{Device};

use crate::devices::{publish, write};
use crate::ends::End;
use crate::handed::Devices;
use base::{Steps, Text};
use command_words::Work;
use engine_session::{Built, Took, Works, make_all_turns, start, take_next};
use outside::{Lines, Shelf, Sink, Source};
use pan_ast::Limits;
use publication::Publication;
use runner::Runner;
use session::{Ended, ended_by, push_too_many};
use std::alloc::{AllocError, Global};
use std::sync::ledger::Ledger;

/// How far a build came.
#[derive(Clone, Copy, PartialEq, Eq)]
pub enum Reached {
    /// All of the picture is settled.
    All,
    NumbersSpent,
    /// The picture is past the limits.
    TooMuch,
}

/// The limits of a command's runs.
pub fn limits(work: &Work) -> Limits
    ensures { result ≡ limits_of work.now }
{
    Limits {
        max_iteration: work.iterations,
        max_recursion: work.recursion,
    }
}

/// A session that ends with a line.
pub fn end_with_line<O: Sink>(out: &mut O, line: &[u8], ended: Ended) -> Result<Ended, End>
    ensures ended { IfOk result (λ reached. reached ≡ ended) }
    ensures ok { OnOk result (Appends (O.held out.old) line.now (O.held out.new)) }
    ensures err { OnErr result (AppendsPart (O.held out.old) line.now (O.held out.new)) }
    ensures kind { IfErr result (IsEndOf OfSink) }
    ensures cause { Caused (IsFailureOf Device.Out) (O.fault_count out.old) (O.fault_count out.new)
        result }
{
    write(out, line)?;
    Ok(ended)
}

/// The line of a publication that was to remove so many names, which is more than it may.
fn too_many(alloc: Global, removals: usize) -> Result<Vec<u8>, AllocError>
    ensures { IfOk result (λ line. line.items ≡ end_line (ended.TooManyRemovals removals)) }
{
    let mut line = Vec::new(alloc);
    push_too_many(&mut line, removals)?;
    Ok(line)
}

/// Writes the report behind a publication, or the line of one that was refused.
pub fn tell<O: Sink>(
    alloc: Global,
    publication: &Publication,
    report: &[u8],
    how: Ended,
    out: &mut O,
) -> Result<Ended, End>
    ensures ended { IfOk result (λ reached. reached ≡ ended_behind publication.now how) }
    ensures ok { OnOk result (Appends (O.held out.old) (text_behind publication.now report.now)
        (O.held out.new)) }
    ensures err { OnErr result (AppendsPart (O.held out.old)
        (text_behind publication.now report.now) (O.held out.new)) }
    ensures kind { IfErr result (IsEndOf OfSink) }
    ensures cause { Caused (IsFailureOf Device.Out) (O.fault_count out.old) (O.fault_count out.new)
        result }
{
    match publication {
        Publication::Done(_) => end_with_line(out, report, how),
        Publication::TooManyRemovals(removals) => {
            let line = too_many(alloc, *removals)?;
            end_with_line(out, &line, Ended::TooManyRemovals(*removals))
        }
    }
}

/// Publishes profiles, and then writes the report.
fn publish_built<H: Shelf, O: Sink>(
    alloc: Global,
    built: Built,
    most: Option<u64>,
    listed: &[Text],
    shelf: &mut H,
    out: &mut O,
) -> Result<Ended, End>
    requires open { IsSome (H.opened shelf.old) }
    requires proper { proper (wants_of built.profiles.items) ≡ true }
    requires listed { Lists listed.now (H.cell shelf.old) }
    ensures follows { Follows (given_by most listed.now built) listed.now result
        (outs H.Shelf O.Sink shelf.old out.old) (outs H.Shelf O.Sink shelf.new out.new) }
    ensures kind { IfErr result IsRoundEnd }
    ensures opened { H.opened shelf.new ≡ H.opened shelf.old }
    ensures shelf_cause { Caused (IsFailureOf Device.Shelf) (H.fault_count shelf.old)
        (H.fault_count shelf.new) result }
    ensures out_cause { Caused (IsFailureOf Device.Out) (O.fault_count out.old)
        (O.fault_count out.new) result }
{
    let publication = publish(alloc, shelf, listed, &built.profiles, most)?;
    let how = ended_by(built.has_faults);
    tell(alloc, &publication, &built.report, how, out)
}

/// Publishes and reports what is settled, or writes why it is not.
fn finish<R: Runner, S: Source, H: Shelf, N: Lines, O: Sink>(
    alloc: Global,
    reached: Reached,
    works: &Works<R>,
    most: Option<u64>,
    listed: &[Text],
    devices: &mut Devices<S, H, N, O>,
) -> Result<Ended, End>
    requires open { IsSome (H.opened devices.old.shelf) }
    requires settled { reached ≡ Reached.All → turns_left_of works.now.engine.core ≡ 0 }
    requires listed { Lists listed.now (H.cell devices.old.shelf) }
    ensures follows { (reached ≡ Reached.All → IsFaithful R.meaning works.now) → Follows
        (session_at most listed.now R.meaning reached works.now.engine.core) listed.now result
        (outs H.Shelf O.Sink devices.old.shelf devices.old.out)
        (outs H.Shelf O.Sink devices.new.shelf devices.new.out) }
    ensures kind { IfErr result IsRoundEnd }
    ensures opened { H.opened devices.new.shelf ≡ H.opened devices.old.shelf }
    ensures source { devices.new.source ≡ devices.old.source }
    ensures lines { devices.new.lines ≡ devices.old.lines }
    ensures shelf_cause { Caused (IsFailureOf Device.Shelf) (H.fault_count devices.old.shelf)
        (H.fault_count devices.new.shelf) result }
    ensures out_cause { Caused (IsFailureOf Device.Out) (O.fault_count devices.old.out)
        (O.fault_count devices.new.out) result }
{
    match reached {
        Reached::All => {
            let built = engine_session::build(alloc, works)?;
            publish_built(
                alloc,
                built,
                most,
                listed,
                &mut devices.shelf,
                &mut devices.out,
            )
        }
        Reached::NumbersSpent => end_with_line(
            &mut devices.out,
            b"numbers spent\n",
            Ended::NumbersSpent,
        ),
        Reached::TooMuch => end_with_line(&mut devices.out, b"too much\n", Ended::TooMuch),
    }
}

/// Scans the source and compiles what was scanned, as far as it goes.
pub fn settle<R: Runner, S: Source, L: Ledger>(
    alloc: Global,
    works: &mut Works<R>,
    source: &mut S,
    steps: &mut Steps<L>,
) -> Result<Reached, End>
    requires open { IsSome (S.opened source.old) }
    ensures ok { IsBegun R.meaning works.old → IfOk result (λ how. (work : Work)
        (e : Compiled R.Rest) → IsIn work.directories (limits_of work) works.old.engine.core e
        → IfSome (S.coming source.old) (λ ps. Reaches R.meaning e work how ps
        works.new.engine.core (counts (R.runs_of works.old.runner) steps.old)
        (counts (R.runs_of works.new.runner) steps.new))) }
    ensures cut { IsBegun R.meaning works.old → OnErr result ((work : Work)
        (e : Compiled R.Rest) → IsIn work.directories (limits_of work) works.old.engine.core e
        → IfSome (S.coming source.old) (λ ps. HasSpentAtMost (state_from R.meaning e work ps)
        (counts (R.runs_of works.old.runner) steps.old) (counts (R.runs_of works.new.runner)
        steps.new))) }
    ensures faithful { IsBegun R.meaning works.old
        → IfOk result (λ how. how ≡ Reached.All → IsFaithful R.meaning works.new) }
    ensures settled { IfOk result (λ how. how ≡ Reached.All
        → turns_left_of works.new.engine.core ≡ 0) }
    ensures kind { IfErr result (IsEndOf OfSource) }
    ensures taken { OnOk result (IsPassed (S.coming source.old) (S.coming source.new)) }
    ensures perhaps { (S.coming source.new ≡ S.coming source.old) ⊎
        (IsPassed (S.coming source.old) (S.coming source.new)) }
    ensures opened { S.opened source.new ≡ S.opened source.old }
    ensures cause { Caused (IsFailureOf Device.Source) (S.fault_count source.old)
        (S.fault_count source.new) result }
{
    match take_next(alloc, works, source, steps)? {
        Took::Failed => return Err(End::Source),
        Took::SpendsNumbers => return Ok(Reached::NumbersSpent),
        Took::IsTooMuch => return Ok(Reached::TooMuch),
        Took::Taken => {}
    }
    if make_all_turns(alloc, works, steps)? {
        return Ok(Reached::All);
    }
    Ok(Reached::NumbersSpent)
}

/// Builds what the source has next, over a shelf on which these names are.
pub fn build_over<R: Runner, S: Source, H: Shelf, N: Lines, O: Sink, L: Ledger>(
    alloc: Global,
    work: &Work,
    works: &mut Works<R>,
    devices: &mut Devices<S, H, N, O>,
    listed: &[Text],
    steps: &mut Steps<L>,
) -> Result<Ended, End>
    requires source_open { IsSome (S.opened devices.old.source) }
    requires shelf_open { IsSome (H.opened devices.old.shelf) }
    requires listed { Lists listed.now (H.cell devices.old.shelf) }
    ensures follows { IfSome (S.coming devices.old.source) (λ ps. Follows
        (session_for R.meaning work.now listed.now ps) listed.now result
        (outs H.Shelf O.Sink devices.old.shelf devices.old.out)
        (outs H.Shelf O.Sink devices.new.shelf devices.new.out)) }
    ensures spent { IfSome (S.coming devices.old.source) (λ ps. Spends result
        (state_for R.meaning work.now ps) (counts (R.runs_of works.old.runner) steps.old)
        (counts (R.runs_of works.new.runner) steps.new)) }
    ensures taken { OnOk result
        (IsPassed (S.coming devices.old.source) (S.coming devices.new.source)) }
    ensures pictures { IfErr result
        (λ e. TakesEarly e (S.coming devices.old.source) (S.coming devices.new.source)) }
    ensures source_opened { S.opened devices.new.source ≡ S.opened devices.old.source }
    ensures shelf_opened { H.opened devices.new.shelf ≡ H.opened devices.old.shelf }
    ensures lines { devices.new.lines ≡ devices.old.lines }
    ensures source_cause { Caused (IsFailureOf Device.Source)
        (S.fault_count devices.old.source) (S.fault_count devices.new.source) result }
    ensures shelf_cause { Caused (IsFailureOf Device.Shelf) (H.fault_count devices.old.shelf)
        (H.fault_count devices.new.shelf) result }
    ensures out_cause { Caused (IsFailureOf Device.Out) (O.fault_count devices.old.out)
        (O.fault_count devices.new.out) result }
{
    start(alloc, works, limits(work), work.directories.as_slice())?;
    let reached = settle(alloc, works, &mut devices.source, steps)?;
    finish(alloc, reached, works, work.most_removed, listed, devices)
}
