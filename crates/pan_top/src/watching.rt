ghost use Rattle.std.specs.Prelude.{◌≡◌, ◌≤◌, ◌⊎◌, ℕ, List, None, Option, Some, false, IfOk, IfErr, IfSome, OnOk, option_map, true, vec_items, IsSome};
ghost use Rattle.command_words.specs.declared.commands.Command.TheVariants.{Watch};
ghost use Rattle.engine_session.specs.Compiler.{Compiled};
ghost use Rattle.engine_session.specs.Standing.{IsBegun, IsIn};
ghost use Rattle.kept_build.specs.Kept.{IsSoundStart, begun_for};
ghost use Rattle.kept_state.specs.Stored.{stored};
ghost use Rattle.outside.specs.Causes.{Caused, Counted};
ghost use Rattle.outside.specs.Cells.{AreSame, Cell};
ghost use Rattle.pan_top.specs.Calls.{CallOf};
ghost use Rattle.pan_top.specs.KeptWatches.{KeptWatchCall};
ghost use Rattle.publication.specs.Listings.{Lists};
ghost use Rattle.publication.specs.Published.{Knows};
ghost use Rattle.row_changes.specs.Stores.{store_of};
ghost use Rattle.site_build.specs.Ends.{IsFailureOf};
ghost use Rattle.site_build.specs.Session.{IsPerhapsOpened, limits_of};
ghost use Rattle.site_build.specs.declared.ends.Device.{Device};
ghost use Rattle.watch.specs.Played.{HasNames};
ghost use Rattle.watch.specs.Shelves.{is_rising};
ghost use Rattle.watch.specs.Sites.{IsReady, MayKeep};
ghost use Rattle.watch.specs.declared.ends.End.TheVariants as ends;
ghost use Rattle.site_build.specs.Scenes.{scene};
ghost use Rattle.pan_top.specs.Watches.{EndsWith, HasListed, IsOpening, PlaysAll, SourceAt, WatchCall, held_by, line_at, status_at};
ghost use Rattle.call_status.specs.declared.status.Status.{Status};

use crate::closing::{close_build, close_kept, say};
use crate::handed_back::{HandedBack, beside, hand_back, hand_back_kept};
use base::{Steps, Text};
use call_status::Status;
use command_words::Work;
use engine_session::{KeptTexts, Works, start};
use keepers::Keeper;
use kept_build::{Found, KeptDevices, KeptWork, open as open_kept};
use kept_state::Kept;
use kept_works::begin;
use outside::{Lines, Shelf, Sink, Source};
use publication::Publisher;
use runner::Runner;
use session::ended_by;
use site_build::{Devices, End, limits, list_shelf, open_shelf, open_source};
use std::alloc::{AllocError, Global};
use std::sync::ledger::Ledger;
use stored_rows::StoredRow;
use watch::{Carried, End as Stop, Site, play};

/// Opens SOURCE and OUT, and knows the names on the shelf.
fn open<S: Source, H: Shelf>(
    alloc: Global,
    work: &Work,
    source: &mut S,
    shelf: &mut H,
) -> Result<Publisher, End>
    requires source_closed { S.opened source.old ≡ None }
    requires shelf_closed { H.opened shelf.old ≡ None }
    ensures knows { IfOk result (λ publisher. Knows publisher (H.cell shelf.new)) }
    ensures most { IfOk result (λ publisher. publisher.most ≡ work.now.most_removed) }
    ensures names { IfOk result (λ publisher. HasListed publisher (H.cell shelf.old)) }
    ensures coming { S.coming source.new ≡ S.coming source.old }
    ensures same { AreSame (H.cell shelf.old) (H.cell shelf.new) }
    ensures changes { H.changes shelf.new ≡ H.changes shelf.old }
    ensures kind { IfErr result IsOpening }
    ensures source_opened { OnOk result (S.opened source.new ≡ Some work.now.source) }
    ensures shelf_opened { OnOk result (H.opened shelf.new ≡ Some work.now.out) }
    ensures source_at { IfErr result (λ e. SourceAt e work.now.source (S.opened source.old)
        (S.opened source.new)) }
    ensures source_perhaps { IsPerhapsOpened work.now.source (S.opened source.old)
        (S.opened source.new) }
    ensures shelf_perhaps { IsPerhapsOpened work.now.out (H.opened shelf.old)
        (H.opened shelf.new) }
    ensures source_cause { Caused (IsFailureOf Device.Source) (S.fault_count source.old)
        (S.fault_count source.new) result }
    ensures shelf_cause { Caused (IsFailureOf Device.Shelf) (H.fault_count shelf.old)
        (H.fault_count shelf.new) result }
{
    open_source(source, work.source.as_str())?;
    open_shelf(shelf, work.out.as_str())?;
    let listed = list_shelf(alloc, shelf)?;
    let publisher = Publisher::new(alloc, &listed, work.most_removed)?;
    Ok(publisher)
}

/// Writes the line of an end of the session, and gives the status.
fn close<O: Sink>(end: Stop, out: &mut O) -> Status
    ensures closes { EndsWith (status_at end) (line_at end) result (O.held out.old)
        (O.held out.new) }
    ensures count { (before : ℕ) → Counted (end ≡ ends.Out) before (O.fault_count out.old)
        → Counted (result ≡ Status.OutFault) before (O.fault_count out.new) }
{
    match end {
        Stop::Lines => say(out, b"lines fault\n", Status::LinesFault),
        Stop::NumbersSpent => say(out, b"numbers spent\n", Status::NumbersSpent),
        Stop::TooMuch => say(out, b"too much\n", Status::TooMuch),
        Stop::TooManyLines => say(out, b"too many lines\n", Status::TooManyLines),
        Stop::Out => Status::OutFault,
        Stop::Memory => Status::Memory,
    }
}

/// Works on lines over a site, as `watch::play` says, and gives the status; behind what was written stands the line of an
/// end that came early.
fn play_site<R: Runner, S: Source, H: Shelf, K: Keeper, N: Lines, O: Sink, L: Ledger>(
    alloc: Global,
    site: &mut Site<R, S, H, K>,
    lines: &mut N,
    out: &mut O,
    steps: &mut Steps<L>,
) -> Status
    requires source_open { IsSome (S.opened site.old.source) }
    requires shelf_open { IsSome (H.opened site.old.shelf) }
    requires store_open { MayKeep K.Keeper site.old.carried }
    requires knows { Knows site.old.publisher (H.cell site.old.shelf) }
    ensures { PlaysAll R.meaning (IsReady R.meaning site.old) (held_by site.old) result
        (scene R.Runner S.Source H.Shelf N.Lines O.Sink site.old.works.runner (record {
          source = site.old.source;
          shelf = site.old.shelf;
          lines = lines.old;
          out = out.old;
        })
        steps.old)
        (scene R.Runner S.Source H.Shelf N.Lines O.Sink site.new.works.runner (record {
          source = site.new.source;
          shelf = site.new.shelf;
          lines = lines.new;
          out = out.new;
        })
        steps.new)
        (store_of K.Keeper site.old.carried.keeper) (store_of K.Keeper site.new.carried.keeper) }
{
    match play(alloc, site, lines, out, steps) {
        Ok(()) => Status::after(ended_by(site.has_faults)),
        Err(end) => close(end, out),
    }
}

/// Works on lines over devices that are open. Rows are kept where these are the ones that the keeper holds.
fn play_all<R: Runner, S: Source, H: Shelf, K: Keeper, N: Lines, O: Sink, L: Ledger>(
    alloc: Global,
    works: Works<R>,
    publisher: Publisher,
    rows: Option<Vec<StoredRow>>,
    devices: KeptDevices<S, H, K, N, O>,
    steps: &mut Steps<L>,
) -> HandedBack<R, S, H, K, N, O>
    requires source_open { IsSome (S.opened devices.devices.source) }
    requires shelf_open { IsSome (H.opened devices.devices.shelf) }
    requires store_open { IfSome (option_map vec_items rows)
        (λ _. IsSome (K.opened devices.keeper)) }
    requires knows { Knows publisher (H.cell devices.devices.shelf) }
    requires rising { is_rising (option_map vec_items rows) ≡ true }
    ensures { PlaysAll R.meaning (IsBegun R.meaning works) (record {
      core = works.engine.core;
      has_taken = false;
      publisher = publisher;
      rows = option_map vec_items rows;
      has_faults = false;
    })
        result.status
        (scene R.Runner S.Source H.Shelf N.Lines O.Sink works.runner devices.devices steps.old)
        (scene R.Runner S.Source H.Shelf N.Lines O.Sink result.works.runner result.devices
        steps.new)
        (store_of K.Keeper devices.keeper) (store_of K.Keeper result.keeper) }
{
    let KeptDevices { devices, keeper } = devices;
    let Devices {
        source,
        shelf,
        lines,
        out,
    } = devices;
    let mut lines = lines;
    let mut out = out;
    let mut site = Site {
        works,
        has_taken: false,
        source,
        shelf,
        publisher,
        carried: Carried {
            keeper,
            rows,
            texts: KeptTexts::new(alloc),
        },
        has_faults: false,
    };
    let status = play_site(alloc, &mut site, &mut lines, &mut out, steps);
    leave(status, site, lines, out)
}

/// Hands back what a site was made of, and the other devices.
fn leave<R: Runner, S: Source, H: Shelf, K: Keeper, N: Lines, O: Sink>(
    status: Status,
    site: Site<R, S, H, K>,
    lines: N,
    out: O,
) -> HandedBack<R, S, H, K, N, O>
    ensures status { result.status ≡ status }
    ensures works { result.works ≡ site.works }
    ensures devices { result.devices ≡ record {
      source = site.source;
      shelf = site.shelf;
      lines = lines;
      out = out;
    } }
    ensures keeper { result.keeper ≡ site.carried.keeper }
{
    let Site {
        works,
        has_taken: _has_taken,
        source,
        shelf,
        publisher: _publisher,
        carried,
        has_faults: _has_faults,
    } = site;
    let devices = Devices {
        source,
        shelf,
        lines,
        out,
    };
    let Carried {
        keeper,
        rows: _rows,
        texts: _texts,
    } = carried;
    beside(hand_back(status, works, devices), keeper)
}

/// A watcher that keeps no rows.
fn watch_unkept<R: Runner, S: Source, H: Shelf, K: Keeper, N: Lines, O: Sink, L: Ledger>(
    alloc: Global,
    work: &Work,
    works: Works<R>,
    devices: Devices<S, H, N, O>,
    keeper: K,
    steps: &mut Steps<L>,
) -> HandedBack<R, S, H, K, N, O>
    requires source_closed { S.opened devices.source ≡ None }
    requires shelf_closed { H.opened devices.shelf ≡ None }
    ensures call { WatchCall R.meaning work.now result.status
        (scene R.Runner S.Source H.Shelf N.Lines O.Sink works.runner devices steps.old)
        (scene R.Runner S.Source H.Shelf N.Lines O.Sink result.works.runner result.devices
        steps.new)
        (store_of K.Keeper keeper) }
    ensures store { store_of K.Keeper result.keeper ≡ store_of K.Keeper keeper }
{
    let mut works = works;
    let mut devices = devices;
    let publisher = match open(alloc, work, &mut devices.source, &mut devices.shelf) {
        Ok(publisher) => publisher,
        Err(end) => {
            let status = close_build(alloc, &end, &mut devices.out);
            return beside(hand_back(status, works, devices), keeper);
        }
    };
    let Ok(()) = start(alloc, &mut works, limits(work), work.directories.as_slice()) else {
        return beside(hand_back(Status::Memory, works, devices), keeper);
    };
    let devices = KeptDevices { devices, keeper };
    play_all(alloc, works, publisher, None, devices, steps)
}

/// Knows the names on the shelf, and makes the engine one that goes on from what was kept, where that fits the work.
fn go_on<R: Runner>(
    alloc: Global,
    work: &Work,
    works: &mut Works<R>,
    listed: &[Text],
    kept: Kept,
) -> Result<Publisher, AllocError>
    ensures knows { IfOk result (λ publisher. (cell : List ℕ → Cell) → Lists listed.now cell
        → Knows publisher cell) }
    ensures names { IfOk result (λ publisher. HasNames publisher listed.now) }
    ensures most { IfOk result (λ publisher. publisher.most ≡ work.now.most_removed) }
    ensures at { OnOk result (IsIn work.now.directories (limits_of work.now) works.new.engine.core
        (begun_for work.now (stored kept))) }
    ensures begun { OnOk result (IsSoundStart R.meaning work.now (stored kept)
        → IsBegun R.meaning works.new) }
    ensures runs { R.runs_of works.new.runner ≡ R.runs_of works.old.runner }
{
    let publisher = Publisher::new(alloc, listed, work.most_removed)?;
    begin(
        alloc,
        works,
        limits(work),
        work.directories.as_slice(),
        Some(kept),
    )?;
    Ok(publisher)
}

/// A watcher that goes on from the rows of an earlier run, where these fit its work, and keeps its own behind each build.
fn watch_kept<R: Runner, S: Source, H: Shelf, K: Keeper, N: Lines, O: Sink, L: Ledger>(
    alloc: Global,
    request: &KeptWork<'_>,
    works: Works<R>,
    devices: KeptDevices<S, H, K, N, O>,
    steps: &mut Steps<L>,
) -> HandedBack<R, S, H, K, N, O>
    requires source_closed { S.opened devices.devices.source ≡ None }
    requires shelf_closed { H.opened devices.devices.shelf ≡ None }
    requires store_closed { K.opened devices.keeper ≡ None }
    ensures { KeptWatchCall R.meaning request.now.work.now request.now.file.now result.status
        (scene R.Runner S.Source H.Shelf N.Lines O.Sink works.runner devices.devices steps.old)
        (scene R.Runner S.Source H.Shelf N.Lines O.Sink result.works.runner result.devices
        steps.new)
        (store_of K.Keeper devices.keeper) (store_of K.Keeper result.keeper) }
{
    let mut works = works;
    let mut devices = devices;
    let found = match open_kept(alloc, request, &mut devices) {
        Ok(found) => found,
        Err(end) => {
            let status = close_kept(alloc, &end, &mut devices.devices.out);
            return hand_back_kept(status, works, devices);
        }
    };
    let Found { listed, rows, kept } = found;
    let Ok(publisher) = go_on(alloc, request.work, &mut works, &listed, kept) else {
        return hand_back_kept(Status::Memory, works, devices);
    };
    play_all(alloc, works, publisher, Some(rows), devices, steps)
}

/// Works on lines, one after the other, until they end or one is `quit`, as `watch::play` says. The status tells whether
/// the last report had an object with a fault, or why the session ended before its lines did; behind what was written
/// stands the line of such an end. Rows are kept where the words name a file of them.
pub fn watch<R: Runner, S: Source, H: Shelf, K: Keeper, N: Lines, O: Sink, L: Ledger>(
    alloc: Global,
    work: &Work,
    works: Works<R>,
    devices: Devices<S, H, N, O>,
    keeper: K,
    steps: &mut Steps<L>,
) -> HandedBack<R, S, H, K, N, O>
    requires source_closed { S.opened devices.source ≡ None }
    requires shelf_closed { H.opened devices.shelf ≡ None }
    requires store_closed { K.opened keeper ≡ None }
    ensures { CallOf R.meaning (Some (Watch work.now)) result.status
        (scene R.Runner S.Source H.Shelf N.Lines O.Sink works.runner devices steps.old)
        (scene R.Runner S.Source H.Shelf N.Lines O.Sink result.works.runner result.devices
        steps.new)
        (store_of K.Keeper keeper) (store_of K.Keeper result.keeper) }
{
    let Some(file) = &work.state else {
        return watch_unkept(alloc, work, works, devices, keeper, steps);
    };
    let request = KeptWork {
        work,
        file: file.as_str(),
    };
    watch_kept(
        alloc,
        &request,
        works,
        KeptDevices { devices, keeper },
        steps,
    )
}
