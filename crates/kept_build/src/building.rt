ghost use Rattle.std.specs.Prelude.{◌≡◌, IfErr, IfOk, IfSome, IsSome, List, OnErr, OnOk, map, option_map, true, ℕ};
ghost use Rattle.engine_session.specs.Compiler.{Compiled};
ghost use Rattle.engine_session.specs.Standing.{Counts, IsFaithful, IsIn};
ghost use Rattle.keepers.specs.Keeping as keeping;
ghost use Rattle.keepers.specs.Keeping.{unchanged};
ghost use Rattle.kept_build.specs.Builds.{Ends, Stops};
ghost use Rattle.kept_build.specs.Ends.{IsFailure, IsKeeperFailure, IsRoundEnd, IsSaving};
ghost use Rattle.kept_build.specs.Kept.{kept_behind};
ghost use Rattle.kept_build.specs.Rounds.{Follows, rows_at, rows_in};
ghost use Rattle.kept_build.specs.Stores.{Keeps, store_of};
ghost use Rattle.kept_state.specs.Stored.{stored};
ghost use Rattle.outside.specs.Causes.{Caused};
ghost use Rattle.pan_ast.specs.declared.work.Limits.{Limits};
ghost use Rattle.publication.specs.Bounds.{answer_over};
ghost use Rattle.publication.specs.Listings.{Lists};
ghost use Rattle.publication.specs.Wants.{proper, wants_of};
ghost use Rattle.rebuild.specs.Engines.{turns_left_of};
ghost use Rattle.record_rows.specs.Rows.{rows_of};
ghost use Rattle.site_build.specs.Rounds.{given_by, session_at};
ghost use Rattle.site_build.specs.Scenes.{outs, scene};
ghost use Rattle.site_build.specs.declared.ends.Device.{Device};
ghost use Rattle.stored_rows.specs.Rows.{are_rising, row_name};

use crate::ends::End;
use crate::handed::KeptDevices;
use crate::opening::Found;
use base::{Steps, Text};
use command_words::Work;
use engine_session::{Built, Works, build};
use keepers::Keeper;
use kept_works::{begin, rows};
use outside::{Lines, Shelf, Sink, Source, StoreError};
use publication::Publication;
use row_changes::{Saved, save};
use runner::Runner;
use session::{Ended, ended_by};
use site_build::{End as BuildEnd, Reached, end_with_line, limits, publish, settle, tell};
use std::alloc::Global;
use std::sync::ledger::Ledger;
use stored_rows::StoredRow;

/// What a build publishes over: how many names of the shelf may go, the names on it, and the rows last kept.
#[derive(Drop)]
struct Over {
    most: Option<u64>,
    listed: Vec<Text>,
    rows: Vec<StoredRow>,
}

/// Keeps what a settled engine has come to in place of the rows last kept; nothing behind a publication that was
/// refused.
fn keep<R: Runner, K: Keeper>(
    alloc: Global,
    publication: &Publication,
    works: &Works<R>,
    last: Vec<StoredRow>,
    keeper: &mut K,
) -> Result<(), End>
    requires open { IsSome (K.opened keeper.old) }
    requires rising { are_rising (map row_name last.items) ≡ true }
    ensures ok { OnOk result ((dirs : List (List ℕ)) (limits : Limits) (e : Compiled R.Rest)
        → IsIn dirs limits works.now.engine.core e → Keeps last.items (option_map rows_of
        (kept_behind dirs limits publication.now e)) (K.cell keeper.old) (K.cell keeper.new)) }
    ensures err { OnErr result
        (keeping.Follows unchanged (K.cell keeper.old) (K.cell keeper.new)) }
    ensures opened { K.opened keeper.new ≡ K.opened keeper.old }
    ensures kind { IfErr result IsSaving }
    ensures cause { Caused IsKeeperFailure (K.fault_count keeper.old) (K.fault_count keeper.new)
        result }
{
    match publication {
        Publication::TooManyRemovals(_) => Ok(()),
        Publication::Done(_) => {
            let wanted = rows(alloc, works)?;
            let Saved { rows: _, result } = save(alloc, keeper, last, wanted);
            match result {
                Ok(()) => Ok(()),
                Err(StoreError::Failed) => Err(End::Saving),
                Err(StoreError::Memory) => Err(End::Build(BuildEnd::Memory)),
            }
        }
    }
}

/// Publishes profiles, keeps the rows, and then writes the report.
fn publish_built<R: Runner, S: Source, H: Shelf, K: Keeper, N: Lines, O: Sink>(
    alloc: Global,
    built: &Built,
    works: &Works<R>,
    over: Over,
    devices: &mut KeptDevices<S, H, K, N, O>,
) -> Result<Ended, End>
    requires shelf_open { IsSome (H.opened devices.old.devices.shelf) }
    requires store_open { IsSome (K.opened devices.old.keeper) }
    requires proper { proper (wants_of built.now.profiles.items) ≡ true }
    requires listed { Lists over.listed.items (H.cell devices.old.devices.shelf) }
    requires rising { are_rising (map row_name over.rows.items) ≡ true }
    ensures follows { Follows (given_by over.most over.listed.items built.now) over.listed.items
        over.rows.items (rows_in (answer_over over.most over.listed.items
        (wants_of built.now.profiles.items)) works.now.engine.core) result
        (outs H.Shelf O.Sink devices.old.devices.shelf devices.old.devices.out)
        (outs H.Shelf O.Sink devices.new.devices.shelf devices.new.devices.out)
        (K.cell devices.old.keeper) (K.cell devices.new.keeper) }
    ensures kind { IfErr result IsRoundEnd }
    ensures source { devices.new.devices.source ≡ devices.old.devices.source }
    ensures lines { devices.new.devices.lines ≡ devices.old.devices.lines }
    ensures shelf_opened { H.opened devices.new.devices.shelf ≡ H.opened devices.old.devices.shelf }
    ensures store_opened { K.opened devices.new.keeper ≡ K.opened devices.old.keeper }
    ensures shelf_cause { Caused (IsFailure Device.Shelf)
        (H.fault_count devices.old.devices.shelf) (H.fault_count devices.new.devices.shelf) result }
    ensures out_cause { Caused (IsFailure Device.Out) (O.fault_count devices.old.devices.out)
        (O.fault_count devices.new.devices.out) result }
    ensures store_cause { Caused IsKeeperFailure (K.fault_count devices.old.keeper)
        (K.fault_count devices.new.keeper) result }
{
    let Over { most, listed, rows } = over;
    let shelf = &mut devices.devices.shelf;
    let publication = publish(alloc, shelf, &listed, &built.profiles, most)?;
    keep(alloc, &publication, works, rows, &mut devices.keeper)?;
    let how = ended_by(built.has_faults);
    let out = &mut devices.devices.out;
    Ok(tell(alloc, &publication, &built.report, how, out)?)
}

/// Publishes, keeps and reports what is settled, or writes why it is not.
fn finish<R: Runner, S: Source, H: Shelf, K: Keeper, N: Lines, O: Sink>(
    alloc: Global,
    reached: Reached,
    works: &Works<R>,
    over: Over,
    devices: &mut KeptDevices<S, H, K, N, O>,
) -> Result<Ended, End>
    requires shelf_open { IsSome (H.opened devices.old.devices.shelf) }
    requires store_open { IsSome (K.opened devices.old.keeper) }
    requires settled { reached ≡ Reached.All → turns_left_of works.now.engine.core ≡ 0 }
    requires listed { Lists over.listed.items (H.cell devices.old.devices.shelf) }
    requires rising { are_rising (map row_name over.rows.items) ≡ true }
    ensures follows { (reached ≡ Reached.All → IsFaithful R.meaning works.now) → Follows
        (session_at over.most over.listed.items R.meaning reached works.now.engine.core)
        over.listed.items over.rows.items
        (rows_at over.most over.listed.items R.meaning reached works.now.engine.core) result
        (outs H.Shelf O.Sink devices.old.devices.shelf devices.old.devices.out)
        (outs H.Shelf O.Sink devices.new.devices.shelf devices.new.devices.out)
        (K.cell devices.old.keeper) (K.cell devices.new.keeper) }
    ensures kind { IfErr result IsRoundEnd }
    ensures source { devices.new.devices.source ≡ devices.old.devices.source }
    ensures lines { devices.new.devices.lines ≡ devices.old.devices.lines }
    ensures shelf_opened { H.opened devices.new.devices.shelf ≡ H.opened devices.old.devices.shelf }
    ensures store_opened { K.opened devices.new.keeper ≡ K.opened devices.old.keeper }
    ensures shelf_cause { Caused (IsFailure Device.Shelf)
        (H.fault_count devices.old.devices.shelf) (H.fault_count devices.new.devices.shelf) result }
    ensures out_cause { Caused (IsFailure Device.Out) (O.fault_count devices.old.devices.out)
        (O.fault_count devices.new.devices.out) result }
    ensures store_cause { Caused IsKeeperFailure (K.fault_count devices.old.keeper)
        (K.fault_count devices.new.keeper) result }
{
    let out = &mut devices.devices.out;
    match reached {
        Reached::All => {
            let built = build(alloc, works)?;
            publish_built(alloc, &built, works, over, devices)
        }
        Reached::NumbersSpent => Ok(end_with_line(out, b"numbers spent\n", Ended::NumbersSpent)?),
        Reached::TooMuch => Ok(end_with_line(out, b"too much\n", Ended::TooMuch)?),
    }
}

/// Builds what the source has next, over what was found.
pub(crate) fn build_found<R: Runner, S: Source, H: Shelf, K: Keeper, N: Lines, O: Sink, L: Ledger>(
    alloc: Global,
    work: &Work,
    works: &mut Works<R>,
    devices: &mut KeptDevices<S, H, K, N, O>,
    found: Found,
    steps: &mut Steps<L>,
) -> Result<Ended, End>
    requires source_open { IsSome (S.opened devices.old.devices.source) }
    requires shelf_open { IsSome (H.opened devices.old.devices.shelf) }
    requires store_open { IsSome (K.opened devices.old.keeper) }
    requires listed { Lists found.listed.items (H.cell devices.old.devices.shelf) }
    requires rising { are_rising (map row_name found.rows.items) ≡ true }
    ensures ok { IfOk result (λ how. Ends R.meaning work.now found.listed.items found.rows.items
        (stored found.kept) how
        (scene R.Runner S.Source H.Shelf N.Lines O.Sink works.old.runner devices.old.devices
        steps.old)
        (scene R.Runner S.Source H.Shelf N.Lines O.Sink works.new.runner devices.new.devices
        steps.new)
        (store_of K.Keeper devices.old.keeper) (store_of K.Keeper devices.new.keeper)) }
    ensures part { IfErr result (λ e. Stops R.meaning work.now found.listed.items found.rows.items
        (stored found.kept) e
        (scene R.Runner S.Source H.Shelf N.Lines O.Sink works.old.runner devices.old.devices
        steps.old)
        (scene R.Runner S.Source H.Shelf N.Lines O.Sink works.new.runner devices.new.devices
        steps.new)
        (store_of K.Keeper devices.old.keeper) (store_of K.Keeper devices.new.keeper)) }
    ensures source_opened { S.opened devices.new.devices.source
        ≡ S.opened devices.old.devices.source }
    ensures shelf_opened { H.opened devices.new.devices.shelf ≡ H.opened devices.old.devices.shelf }
    ensures store_opened { K.opened devices.new.keeper ≡ K.opened devices.old.keeper }
{
    let Found { listed, rows, kept } = found;
    begin(
        alloc,
        works,
        limits(work),
        work.directories.as_slice(),
        Some(kept),
    )?;
    let reached = settle(alloc, works, &mut devices.devices.source, steps)?;
    let over = Over {
        most: work.most_removed,
        listed,
        rows,
    };
    finish(alloc, reached, works, over, devices)
}
