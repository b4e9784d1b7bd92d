ghost use Rattle.std.specs.Prelude.{◌≡◌, IfErr, IfSome, IsSome, OnOk, true};
ghost use Rattle.format_site.specs.Following.{Follows, given_by};
ghost use Rattle.format_site.specs.Formats.{formatting_for, formatting_of};
ghost use Rattle.outside.specs.Causes.{Caused};
ghost use Rattle.publication.specs.Puts.{are_apart};
ghost use Rattle.site_build.specs.Ends.{IsFailureOf, IsRoundEnd};
ghost use Rattle.site_build.specs.Scenes.{outs};
ghost use Rattle.site_build.specs.Session.{IsPassed, TakesEarly};
ghost use Rattle.site_build.specs.declared.ends.Device.{Device};

use crate::devices::{end_with, put_files, scan_next};
use format_files::{Layouts, lay_out};
use load_path::Picture;
use outside::{Lines, Shelf, Sink, Source};
use session::{Ended, ended_by};
use site_build::{Devices, End};
use std::alloc::Global;

/// Puts the layouts, and then writes the report.
fn put_and_report<H: Shelf, O: Sink>(
    alloc: Global,
    made: &Layouts,
    shelf: &mut H,
    out: &mut O,
) -> Result<Ended, End>
    requires open { IsSome (H.opened shelf.old) }
    requires apart { are_apart made.now.wants.items ≡ true }
    ensures follows { Follows (given_by made.now) result
        (outs H.Shelf O.Sink shelf.old out.old) (outs H.Shelf O.Sink shelf.new out.new) }
    ensures kind { IfErr result IsRoundEnd }
    ensures opened { H.opened shelf.new ≡ H.opened shelf.old }
    ensures shelf_cause { Caused (IsFailureOf Device.Shelf) (H.fault_count shelf.old)
        (H.fault_count shelf.new) result }
    ensures out_cause { Caused (IsFailureOf Device.Out) (O.fault_count out.old)
        (O.fault_count out.new) result }
{
    put_files(alloc, shelf, &made.wants)?;
    end_with(out, &made.report, ended_by(made.faults > 0))
}

/// Lays out a picture, puts what has a layout and writes the report; or writes that the picture is past the limits.
fn format_picture<H: Shelf, O: Sink>(
    alloc: Global,
    picture: Option<Picture>,
    shelf: &mut H,
    out: &mut O,
) -> Result<Ended, End>
    requires open { IsSome (H.opened shelf.old) }
    ensures follows { Follows (formatting_of picture) result
        (outs H.Shelf O.Sink shelf.old out.old) (outs H.Shelf O.Sink shelf.new out.new) }
    ensures kind { IfErr result IsRoundEnd }
    ensures opened { H.opened shelf.new ≡ H.opened shelf.old }
    ensures shelf_cause { Caused (IsFailureOf Device.Shelf) (H.fault_count shelf.old)
        (H.fault_count shelf.new) result }
    ensures out_cause { Caused (IsFailureOf Device.Out) (O.fault_count out.old)
        (O.fault_count out.new) result }
{
    let Some(picture) = picture else {
        return end_with(out, b"too much\n", Ended::TooMuch);
    };
    let made = lay_out(alloc, &picture)?;
    put_and_report(alloc, &made, shelf, out)
}

/// Formats what the source has next.
pub(crate) fn format_next<S: Source, H: Shelf, N: Lines, O: Sink>(
    alloc: Global,
    devices: &mut Devices<S, H, N, O>,
) -> Result<Ended, End>
    requires source_open { IsSome (S.opened devices.old.source) }
    requires shelf_open { IsSome (H.opened devices.old.shelf) }
    ensures follows { IfSome (S.coming devices.old.source) (λ ps. Follows (formatting_for ps) result
        (outs H.Shelf O.Sink devices.old.shelf devices.old.out)
        (outs H.Shelf O.Sink devices.new.shelf devices.new.out)) }
    ensures taken { OnOk result
        (IsPassed (S.coming devices.old.source) (S.coming devices.new.source)) }
    ensures pictures { IfErr result
        (λ e. TakesEarly e (S.coming devices.old.source) (S.coming devices.new.source)) }
    ensures source_opened { S.opened devices.new.source ≡ S.opened devices.old.source }
    ensures shelf_opened { H.opened devices.new.shelf ≡ H.opened devices.old.shelf }
    ensures lines { devices.new.lines ≡ devices.old.lines }
    ensures source_cause { Caused (IsFailureOf Device.Source)
        (S.fault_count devices.old.source) (S.fault_count devices.new.source) result }
    ensures shelf_cause { Caused (IsFailureOf Device.Shelf) (H.fault_count devices.old.shelf)
        (H.fault_count devices.new.shelf) result }
    ensures out_cause { Caused (IsFailureOf Device.Out) (O.fault_count devices.old.out)
        (O.fault_count devices.new.out) result }
{
    let picture = scan_next(alloc, &mut devices.source)?;
    format_picture(alloc, picture, &mut devices.shelf, &mut devices.out)
}
