ghost use Rattle.std.specs.Prelude.{◌≡◌, ◌⊎◌, IfErr, IfOk, None};
ghost use Rattle.kept_build.specs.Builds.{Breaks, Finishes, Unbegun};
ghost use Rattle.kept_build.specs.Stores.{store_of};
ghost use Rattle.site_build.specs.Scenes.{scene};

use crate::building::build_found;
use crate::ends::End;
use crate::handed::{KeptDevices, KeptWork};
use crate::opening::open;
use base::Steps;
use engine_session::Works;
use keepers::Keeper;
use outside::{Lines, Shelf, Sink, Source};
use runner::Runner;
use session::Ended;
use std::alloc::Global;
use std::sync::ledger::Ledger;

/// A build with a keeper: opens SOURCE, OUT and the file of the rows, goes on from what the rows give where they have
/// the limits and directories of the work, compiles the source's next picture, publishes the profiles, keeps the rows
/// that differ and writes the report.
///
/// Where what the rows give is sound, what is written, what stands on the shelf, the runs and how it ends are those of
/// the session that goes on from it, and what is kept is sound; so a list of such builds begins with none. The first
/// call of a device that fails, rows that give nothing, and want of memory, end it early; then nothing is written behind
/// what was.
pub fn build_kept<R: Runner, S: Source, H: Shelf, K: Keeper, N: Lines, O: Sink, L: Ledger>(
    alloc: Global,
    request: &KeptWork<'_>,
    works: &mut Works<R>,
    devices: &mut KeptDevices<S, H, K, N, O>,
    steps: &mut Steps<L>,
) -> Result<Ended, End>
    requires source_closed { S.opened devices.old.devices.source ≡ None }
    requires shelf_closed { H.opened devices.old.devices.shelf ≡ None }
    requires store_closed { K.opened devices.old.keeper ≡ None }
    ensures ok { IfOk result (λ how. Finishes R.meaning request.now.work.now
        request.now.file.now how
        (scene R.Runner S.Source H.Shelf N.Lines O.Sink works.old.runner devices.old.devices
        steps.old)
        (scene R.Runner S.Source H.Shelf N.Lines O.Sink works.new.runner devices.new.devices
        steps.new)
        (store_of K.Keeper devices.old.keeper) (store_of K.Keeper devices.new.keeper)) }
    ensures part { IfErr result (λ e. Unbegun request.now.work.now request.now.file.now e
        (scene R.Runner S.Source H.Shelf N.Lines O.Sink works.old.runner devices.old.devices
        steps.old)
        (scene R.Runner S.Source H.Shelf N.Lines O.Sink works.new.runner devices.new.devices
        steps.new)
        (store_of K.Keeper devices.old.keeper) (store_of K.Keeper devices.new.keeper)
        ⊎ Breaks R.meaning request.now.work.now request.now.file.now e
        (scene R.Runner S.Source H.Shelf N.Lines O.Sink works.old.runner devices.old.devices
        steps.old)
        (scene R.Runner S.Source H.Shelf N.Lines O.Sink works.new.runner devices.new.devices
        steps.new)
        (store_of K.Keeper devices.old.keeper) (store_of K.Keeper devices.new.keeper)) }
{
    let found = open(alloc, request, devices)?;
    build_found(alloc, request.work, works, devices, found, steps)
}
