ghost use Rattle.std.specs.Prelude.{◌≡◌, None};
ghost use Rattle.kept_build.specs.Stores.{store_of};
ghost use Rattle.pan_top.specs.KeptBuilds.{KeptCall};
ghost use Rattle.site_build.specs.Scenes.{scene};

use crate::closing::close_kept;
use base::Steps;
use call_status::Status;
use engine_session::Works;
use keepers::Keeper;
use kept_build::{KeptDevices, KeptWork, build_kept};
use outside::{Lines, Shelf, Sink, Source};
use runner::Runner;
use std::alloc::Global;
use std::sync::ledger::Ledger;

/// A build with a keeper, as `kept_build::build_kept` says; an end that comes early writes its line.
pub fn build_with_rows<R: Runner, S: Source, H: Shelf, K: Keeper, N: Lines, O: Sink, L: Ledger>(
    alloc: Global,
    request: &KeptWork<'_>,
    works: &mut Works<R>,
    devices: &mut KeptDevices<S, H, K, N, O>,
    steps: &mut Steps<L>,
) -> Status
    requires source_closed { S.opened devices.old.devices.source ≡ None }
    requires shelf_closed { H.opened devices.old.devices.shelf ≡ None }
    requires store_closed { K.opened devices.old.keeper ≡ None }
    ensures { KeptCall R.meaning request.now.work.now request.now.file.now result
        (scene R.Runner S.Source H.Shelf N.Lines O.Sink works.old.runner devices.old.devices
        steps.old)
        (scene R.Runner S.Source H.Shelf N.Lines O.Sink works.new.runner devices.new.devices
        steps.new)
        (store_of K.Keeper devices.old.keeper) (store_of K.Keeper devices.new.keeper) }
{
    match build_kept(alloc, request, works, devices, steps) {
        Ok(ended) => Status::after(ended),
        Err(end) => close_kept(alloc, &end, &mut devices.devices.out),
    }
}
