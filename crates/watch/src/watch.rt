ghost use Rattle.std.specs.Prelude.{◌≡◌, IfOk, OnOk, OnErr, IfErr, true, false, IsSome};
ghost use Rattle.outside.specs.Causes.{Caused};
ghost use Rattle.outside.specs.Contents.{Appends, AppendsPart};
ghost use Rattle.outside.specs.Lines.{NextLine};
ghost use Rattle.publication.specs.Published.{Knows};
ghost use Rattle.watch.specs.Played.{IsEndOf, reel};
ghost use Rattle.watch.specs.Sites.{Finishes, IsReady, LeavesUnkept, MayKeep, Stops, begun, spot_of};

use crate::ends::End;
use crate::noting::note;
use crate::site::Site;
use crate::step::{Step, work_on};
use base::Steps;
use keepers::Keeper;
use outside::{Lines, Shelf, Sink, Source, StoreError};
use runner::Runner;
use std::alloc::{AllocError, Global};
use std::sync::ledger::Ledger;

/// The most lines of a session.
pub const MAX_LINES: u32 = 1_000_000;

fn next_line<N: Lines>(lines: &mut N, into: &mut Vec<u8>) -> Result<bool, End>
    ensures ok { IfOk result (λ more. NextLine more into.new.items (N.left lines.old)
        (N.left lines.new)) }
    ensures err { OnErr result (N.left lines.new ≡ N.left lines.old) }
    ensures kind { IfErr result (IsEndOf End.Lines) }
    ensures cause { Caused (λ e. e ≡ End.Lines) (N.fault_count lines.old) (N.fault_count lines.new)
        result }
{
    match lines.next(into) {
        Ok(more) => Ok(more),
        Err(StoreError::Failed) => Err(End::Lines),
        Err(StoreError::Memory) => Err(End::Memory),
    }
}

fn write<O: Sink>(out: &mut O, text: &[u8]) -> Result<(), End>
    ensures ok { OnOk result (Appends (O.held out.old) text.now (O.held out.new)) }
    ensures err { OnErr result (AppendsPart (O.held out.old) text.now (O.held out.new)) }
    ensures kind { IfErr result (IsEndOf End.Out) }
    ensures cause { Caused (λ e. e ≡ End.Out) (O.fault_count out.old) (O.fault_count out.new)
        result }
{
    match out.write(text) {
        Ok(()) => Ok(()),
        Err(StoreError::Failed) => Err(End::Out),
        Err(StoreError::Memory) => Err(End::Memory),
    }
}

/// Works on the lines, one after the other, until they end or one is `quit`. The text of a line is written before the
/// next line is asked for. What the site says of the last report is then of these lines alone.
///
/// Where rows are kept, each build has what it came to kept behind its publication. A keeper that fails ends nothing: the
/// rows kept last are still kept, and the next build tries again.
pub fn play<R: Runner, S: Source, H: Shelf, K: Keeper, N: Lines, O: Sink, L: Ledger>(
    alloc: Global,
    site: &mut Site<R, S, H, K>,
    lines: &mut N,
    out: &mut O,
    steps: &mut Steps<L>,
) -> Result<(), End>
    requires source_open { IsSome (S.opened site.old.source) }
    requires shelf_open { IsSome (H.opened site.old.shelf) }
    requires store_open { MayKeep K.Keeper site.old.carried }
    requires knows { Knows site.old.publisher (H.cell site.old.shelf) }
    ensures ok { IsReady R.meaning site.old → OnOk result (Finishes R.meaning
        (reel (N.left lines.old) (N.left lines.new) (O.held out.old) (O.held out.new))
        (begun (spot_of R.Runner S.Source H.Shelf K.Keeper site.old steps.old))
        (spot_of R.Runner S.Source H.Shelf K.Keeper site.new steps.new)) }
    ensures err { IsReady R.meaning site.old → IfErr result (λ end. Stops R.meaning end
        (reel (N.left lines.old) (N.left lines.new) (O.held out.old) (O.held out.new))
        (begun (spot_of R.Runner S.Source H.Shelf K.Keeper site.old steps.old))
        (spot_of R.Runner S.Source H.Shelf K.Keeper site.new steps.new)) }
    ensures source_opened { S.opened site.new.source ≡ S.opened site.old.source }
    ensures shelf_opened { H.opened site.new.shelf ≡ H.opened site.old.shelf }
    ensures unkept { LeavesUnkept site.old.carried site.new.carried }
    ensures store_opened { K.opened site.new.carried.keeper ≡ K.opened site.old.carried.keeper }
    ensures lines_cause { Caused (λ e. e ≡ End.Lines) (N.fault_count lines.old)
        (N.fault_count lines.new) result }
    ensures out_cause { Caused (λ e. e ≡ End.Out) (O.fault_count out.old) (O.fault_count out.new)
        result }
{
    let mut line = Vec::new(alloc);
    let mut text = Vec::new(alloc);
    site.has_faults = false;
    for _i in 0..MAX_LINES {
        match next_line(lines, &mut line) {
            Ok(true) => {}
            Ok(false) => return Ok(()),
            Err(end) => return Err(end),
        }
        text.clear();
        match work_on(alloc, &line, site, &mut text, steps) {
            Ok(Step::GoesOn) => {}
            Ok(Step::Quits) => return Ok(()),
            Ok(Step::SpendsNumbers) => return Err(End::NumbersSpent),
            Ok(Step::IsTooMuch) => return Err(End::TooMuch),
            Err(AllocError) => return Err(End::Memory),
        }
        match write(out, &text) {
            Ok(()) => {}
            Err(end) => return Err(end),
        }
        note(alloc, &line, site, out);
    }
    Err(End::TooManyLines)
}
