ghost use Rattle.std.specs.Prelude.{◌≡◌, IfErr, IfOk, OnErr, OnOk, true, IsSome};
ghost use Rattle.format_site.specs.Formats.{BeginsPuts, MakesPuts, Places, Stopped};
ghost use Rattle.outside.specs.Causes.{Caused};
ghost use Rattle.outside.specs.Contents.{Appends, AppendsPart};
ghost use Rattle.publication.specs.Changing.{Tells};
ghost use Rattle.publication.specs.Puts.{are_apart};
ghost use Rattle.scans.specs.Outcomes.{IsPassed, IsPerhapsPassed, IsScan};
ghost use Rattle.site_build.specs.Ends.{IsEndOf, IsFailureOf, OfName, OfSink, OfSource};
ghost use Rattle.site_build.specs.declared.ends.Device.{Device};

use load_path::Picture;
use outside::{Shelf, Sink, Source};
use publication::{PutError, Want, put_until_failure};
use scans::{ScanError, scan};
use session::Ended;
use site_build::{End, write};
use std::alloc::Global;

/// The source's next picture, or None where it is past the limits of a scan.
pub(crate) fn scan_next<S: Source>(alloc: Global, source: &mut S) -> Result<Option<Picture>, End>
    requires open { IsSome (S.opened source.old) }
    ensures ok { IfOk result (λ picture. IsScan (S.coming source.old) picture) }
    ensures taken { OnOk result (IsPassed (S.coming source.old) (S.coming source.new)) }
    ensures err { OnErr result (IsPerhapsPassed (S.coming source.old) (S.coming source.new)) }
    ensures opened { S.opened source.new ≡ S.opened source.old }
    ensures kind { IfErr result (IsEndOf OfSource) }
    ensures cause { Caused (IsFailureOf Device.Source) (S.fault_count source.old)
        (S.fault_count source.new) result }
{
    match scan(alloc, source) {
        Ok(picture) => Ok(Some(picture)),
        Err(ScanError::TooMuch) => Ok(None),
        Err(ScanError::Fault) => Err(End::Source),
        Err(ScanError::Memory) => Err(End::Memory),
    }
}

/// Puts files on the shelf. The first call that fails ends it, by the name of its file.
pub(crate) fn put_files<H: Shelf>(alloc: Global, shelf: &mut H, wants: &[Want]) -> Result<(), End>
    requires open { IsSome (H.opened shelf.old) }
    requires apart { are_apart wants.now ≡ true }
    ensures ok { OnOk result (Places wants.now (H.cell shelf.old) (H.cell shelf.new)) }
    ensures err { IfErr result
        (λ e. Stopped e wants.now (H.cell shelf.old) (H.cell shelf.new)) }
    ensures made { OnOk result (Tells (H.cell shelf.old) → MakesPuts wants.now
        (H.cell shelf.old) (H.cell shelf.new) (H.changes shelf.old) (H.changes shelf.new)) }
    ensures begun { OnErr result (Tells (H.cell shelf.old) → BeginsPuts wants.now
        (H.cell shelf.old) (H.cell shelf.new) (H.changes shelf.old) (H.changes shelf.new)) }
    ensures opened { H.opened shelf.new ≡ H.opened shelf.old }
    ensures kind { IfErr result (IsEndOf OfName) }
    ensures cause { Caused (IsFailureOf Device.Shelf) (H.fault_count shelf.old)
        (H.fault_count shelf.new) result }
{
    match put_until_failure(alloc, shelf, wants) {
        Ok(()) => Ok(()),
        Err(PutError::Failed(name)) => Err(End::Publishing(name)),
        Err(PutError::Memory) => Err(End::Memory),
    }
}

/// Writes a text, and ends so.
pub(crate) fn end_with<O: Sink>(out: &mut O, text: &[u8], ended: Ended) -> Result<Ended, End>
    ensures ended { IfOk result (λ how. how ≡ ended) }
    ensures ok { OnOk result (Appends (O.held out.old) text.now (O.held out.new)) }
    ensures err { OnErr result (AppendsPart (O.held out.old) text.now (O.held out.new)) }
    ensures kind { IfErr result (IsEndOf OfSink) }
    ensures cause { Caused (IsFailureOf Device.Out) (O.fault_count out.old) (O.fault_count out.new)
        result }
{
    write(out, text)?;
    Ok(ended)
}
