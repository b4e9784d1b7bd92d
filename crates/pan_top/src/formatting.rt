ghost use Rattle.std.specs.Prelude.{◌≡◌, None};
ghost use Rattle.site_build.specs.Scenes.{seen};
ghost use Rattle.engine_session.specs.Standing.{Counts};
ghost use Rattle.pan_top.specs.Formats.{FormatCall};

use crate::closing::close_build;
use call_status::Status;
use command_words::Pair;
use format_site::format_site;
use outside::{Lines, Shelf, Sink, Source};
use site_build::Devices;
use std::alloc::Global;

/// The layout of a source's templates, as `format_site::format_site` says; an end that comes early writes its line.
pub fn format_templates<S: Source, H: Shelf, N: Lines, O: Sink>(
    alloc: Global,
    pair: &Pair,
    devices: &mut Devices<S, H, N, O>,
) -> Status
    requires source_closed { S.opened devices.old.source ≡ None }
    requires shelf_closed { H.opened devices.old.shelf ≡ None }
    ensures { (spent : Counts) → FormatCall pair.now result
        (seen S.Source H.Shelf N.Lines O.Sink devices.old spent)
        (seen S.Source H.Shelf N.Lines O.Sink devices.new spent) }
{
    match format_site(alloc, pair, devices) {
        Ok(ended) => Status::after(ended),
        Err(end) => close_build(alloc, &end, &mut devices.out),
    }
}
