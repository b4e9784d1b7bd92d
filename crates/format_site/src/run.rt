ghost use Rattle.std.specs.Prelude.{◌≡◌, IfErr, IfOk, None};
ghost use Rattle.engine_session.specs.Standing.{Counts};
ghost use Rattle.format_site.specs.Formats.{Breaks, Finishes};
ghost use Rattle.site_build.specs.Scenes.{seen};

use crate::formatting::format_next;
use command_words::Pair;
use outside::{Lines, Shelf, Sink, Source};
use session::Ended;
use site_build::{Devices, End, open_shelf, open_source};
use std::alloc::Global;

/// Formats a site: opens SOURCE and OUT, lays out each template of the source's next picture, puts the texts under the
/// templates' names where the shelf's bytes differ, and writes a line for each template that has no layout and one with
/// the numbers of templates.
///
/// The picture is read whole before the first put, so SOURCE and OUT may be one folder. No name is removed, and none is
/// put that is no template's. A picture past the limits of a scan is told in a line, and nothing is put. The first call
/// of a device that fails, and want of memory, end it early; then nothing is written behind what was.
pub fn format_site<S: Source, H: Shelf, N: Lines, O: Sink>(
    alloc: Global,
    pair: &Pair,
    devices: &mut Devices<S, H, N, O>,
) -> Result<Ended, End>
    requires source_closed { S.opened devices.old.source ≡ None }
    requires shelf_closed { H.opened devices.old.shelf ≡ None }
    ensures ok { IfOk result (λ how. (spent : Counts) → Finishes pair.now how
        (seen S.Source H.Shelf N.Lines O.Sink devices.old spent)
        (seen S.Source H.Shelf N.Lines O.Sink devices.new spent)) }
    ensures part { IfErr result (λ e. (spent : Counts) → Breaks pair.now e
        (seen S.Source H.Shelf N.Lines O.Sink devices.old spent)
        (seen S.Source H.Shelf N.Lines O.Sink devices.new spent)) }
{
    open_source(&mut devices.source, pair.source.as_str())?;
    open_shelf(&mut devices.shelf, pair.out.as_str())?;
    format_next(alloc, devices)
}
