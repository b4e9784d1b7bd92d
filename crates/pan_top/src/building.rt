ghost use Rattle.std.specs.Prelude.{◌≡◌, None};
ghost use Rattle.site_build.specs.Scenes.{scene};
ghost use Rattle.pan_top.specs.Builds.{BuildCall};

use crate::closing::close_build;
use base::Steps;
use call_status::Status;
use command_words::Work;
use engine_session::Works;
use outside::{Lines, Shelf, Sink, Source};
use runner::Runner;
use site_build::{Devices, build_site};
use std::alloc::Global;
use std::sync::ledger::Ledger;

/// A build, as `site_build::build_site` says; an end that comes early writes its line.
pub fn build<R: Runner, S: Source, H: Shelf, N: Lines, O: Sink, L: Ledger>(
    alloc: Global,
    work: &Work,
    works: &mut Works<R>,
    devices: &mut Devices<S, H, N, O>,
    steps: &mut Steps<L>,
) -> Status
    requires source_closed { S.opened devices.old.source ≡ None }
    requires shelf_closed { H.opened devices.old.shelf ≡ None }
    ensures { BuildCall R.meaning work.now result
        (scene R.Runner S.Source H.Shelf N.Lines O.Sink works.old.runner devices.old steps.old)
        (scene R.Runner S.Source H.Shelf N.Lines O.Sink works.new.runner devices.new steps.new) }
{
    match build_site(alloc, work, works, devices, steps) {
        Ok(ended) => Status::after(ended),
        Err(end) => close_build(alloc, &end, &mut devices.out),
    }
}
