ghost use Rattle.std.specs.Prelude.{◌≡◌, IfOk, IfErr, None};
ghost use Rattle.site_build.specs.Scenes.{scene};
ghost use Rattle.site_build.specs.Session.{Finishes, Breaks};

use crate::building::build_over;
use crate::devices::{list_shelf, open_shelf, open_source};
use crate::ends::End;
use crate::handed::Devices;
use base::Steps;
use command_words::Work;
use engine_session::Works;
use outside::{Lines, Shelf, Sink, Source};
use runner::Runner;
use session::Ended;
use std::alloc::Global;
use std::sync::ledger::Ledger;

/// A build: opens SOURCE and OUT, compiles the source's next picture, publishes the profiles and writes the report.
///
/// Objects are built and checked by the runner, each where the engine wants it. What is written, what stands on the shelf
/// and how it ends are those of the session of the work, the names on the shelf and the picture, by what the runner means. The first call of a
/// device that fails, and want of memory, end it early; then nothing is written behind what was. `steps` rises by the
/// session's steps: one for each file that is taken, for each item that is compared, and the work of each run.
pub fn build_site<R: Runner, S: Source, H: Shelf, N: Lines, O: Sink, L: Ledger>(
    alloc: Global,
    work: &Work,
    works: &mut Works<R>,
    devices: &mut Devices<S, H, N, O>,
    steps: &mut Steps<L>,
) -> Result<Ended, End>
    requires source_closed { S.opened devices.old.source ≡ None }
    requires shelf_closed { H.opened devices.old.shelf ≡ None }
    ensures ok { IfOk result (λ ended. Finishes R.meaning work.now ended
        (scene R.Runner S.Source H.Shelf N.Lines O.Sink works.old.runner devices.old steps.old)
        (scene R.Runner S.Source H.Shelf N.Lines O.Sink works.new.runner devices.new steps.new)) }
    ensures part { IfErr result (λ e. Breaks R.meaning work.now e
        (scene R.Runner S.Source H.Shelf N.Lines O.Sink works.old.runner devices.old steps.old)
        (scene R.Runner S.Source H.Shelf N.Lines O.Sink works.new.runner devices.new steps.new)) }
{
    open_source(&mut devices.source, work.source.as_str())?;
    open_shelf(&mut devices.shelf, work.out.as_str())?;
    let listed = list_shelf(alloc, &mut devices.shelf)?;
    build_over(alloc, work, works, devices, &listed, steps)
}
