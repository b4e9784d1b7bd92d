ghost use Rattle.std.specs.Prelude.{◌≡◌, IfOk, OnOk, OnErr, [], IsSome};
ghost use Rattle.publication.specs.Published.{Knows};
ghost use Rattle.session.specs.Orders as orders;
ghost use Rattle.session.specs.Orders.{order_of};
ghost use Rattle.watch.specs.Sites.{Goes, IsBehind, IsCut, IsLater, IsReady, MayKeep, spot_of};

use crate::answering::{bad_line, deps_line, impact_line, show_line, unused_line, why_line};
use crate::building::build_line;
use crate::reading::{Order, read_order};
use crate::site::Site;
use crate::texts::{push_files, push_turns};
use base::Steps;
use blamed_works::blame;
use engine_session::{Took, make_turns, take_next};
use keepers::Keeper;
use outside::{Shelf, Source};
use path_tree::Path;
use runner::Runner;
use std::alloc::{AllocError, Global};
use std::sync::ledger::Ledger;

/// How a line leaves a session.
#[derive(Clone, Copy, PartialEq, Eq)]
pub enum Step {
    GoesOn,
    Quits,
    SpendsNumbers,
    IsTooMuch,
}

/// `scan`
fn scan_line<R: Runner, S: Source, H: Shelf, K: Keeper, L: Ledger>(
    alloc: Global,
    site: &mut Site<R, S, H, K>,
    text: &mut Vec<u8>,
    steps: &mut Steps<L>,
) -> Result<Step, AllocError>
    requires source_open { IsSome (S.opened site.old.source) }
    requires text { text.old.items ≡ [] }
    ensures went { IsReady R.meaning site.old → IfOk result (λ step. Goes R.meaning orders.Scan
        step text.new.items
        (spot_of R.Runner S.Source H.Shelf K.Keeper site.old steps.old)
        (spot_of R.Runner S.Source H.Shelf K.Keeper site.new steps.new)) }
    ensures cut { IsReady R.meaning site.old → OnErr result (IsCut R.meaning orders.Scan
        (spot_of R.Runner S.Source H.Shelf K.Keeper site.old steps.old)
        (spot_of R.Runner S.Source H.Shelf K.Keeper site.new steps.new)) }
    ensures ready { IsReady R.meaning site.old → OnOk result (IsReady R.meaning site.new) }
    ensures shelf { site.new.shelf ≡ site.old.shelf }
    ensures publisher { site.new.publisher ≡ site.old.publisher }
    ensures carried { site.new.carried ≡ site.old.carried }
    ensures later { IsLater S.Source H.Shelf K.Keeper site.old site.new }
{
    match take_next(alloc, &mut site.works, &mut site.source, steps)? {
        Took::Failed => {
            text.extend_from_slice(b"source fault\n")?;
            Ok(Step::GoesOn)
        }
        Took::Taken => {
            site.has_taken = true;
            let objects = site.works.engine.objects(alloc)?;
            push_files(
                text,
                site.works.runner.picture().files().len(),
                objects.len(),
            )?;
            Ok(Step::GoesOn)
        }
        Took::SpendsNumbers => Ok(Step::SpendsNumbers),
        Took::IsTooMuch => Ok(Step::IsTooMuch),
    }
}

/// `turn N`
fn turn_line<R: Runner, S: Source, H: Shelf, K: Keeper, L: Ledger>(
    alloc: Global,
    site: &mut Site<R, S, H, K>,
    number: u64,
    text: &mut Vec<u8>,
    steps: &mut Steps<L>,
) -> Result<Step, AllocError>
    requires text { text.old.items ≡ [] }
    ensures went { IsReady R.meaning site.old → IfOk result (λ step. Goes R.meaning
        (orders.Turns number) step text.new.items
        (spot_of R.Runner S.Source H.Shelf K.Keeper site.old steps.old)
        (spot_of R.Runner S.Source H.Shelf K.Keeper site.new steps.new)) }
    ensures cut { IsReady R.meaning site.old → OnErr result (IsCut R.meaning (orders.Turns number)
        (spot_of R.Runner S.Source H.Shelf K.Keeper site.old steps.old)
        (spot_of R.Runner S.Source H.Shelf K.Keeper site.new steps.new)) }
    ensures ready { IsReady R.meaning site.old → OnOk result (IsReady R.meaning site.new) }
    ensures shelf { site.new.shelf ≡ site.old.shelf }
    ensures publisher { site.new.publisher ≡ site.old.publisher }
    ensures carried { site.new.carried ≡ site.old.carried }
    ensures source { site.new.source ≡ site.old.source }
{
    if !site.has_taken {
        push_turns(text, 0, 0)?;
        return Ok(Step::GoesOn);
    }
    let count = number.min(site.works.engine.turns_left());
    if !make_turns(alloc, &mut site.works, count, steps)? {
        return Ok(Step::SpendsNumbers);
    }
    push_turns(text, count, site.works.engine.turns_left())?;
    Ok(Step::GoesOn)
}

/// `blame NAME PATH`
fn blame_line<R: Runner, S: Source, H: Shelf, K: Keeper, L: Ledger>(
    alloc: Global,
    site: &mut Site<R, S, H, K>,
    name: &str,
    path: &Path,
    text: &mut Vec<u8>,
    steps: &mut Steps<L>,
) -> Result<Step, AllocError>
    requires text { text.old.items ≡ [] }
    ensures went { IsReady R.meaning site.old → IfOk result (λ step. Goes R.meaning
        (orders.Blame name.now path.now.terms) step text.new.items
        (spot_of R.Runner S.Source H.Shelf K.Keeper site.old steps.old)
        (spot_of R.Runner S.Source H.Shelf K.Keeper site.new steps.new)) }
    ensures cut { IsReady R.meaning site.old → OnErr result (IsCut R.meaning
        (orders.Blame name.now path.now.terms)
        (spot_of R.Runner S.Source H.Shelf K.Keeper site.old steps.old)
        (spot_of R.Runner S.Source H.Shelf K.Keeper site.new steps.new)) }
    ensures ready { IsReady R.meaning site.old → OnOk result (IsReady R.meaning site.new) }
    ensures shelf { site.new.shelf ≡ site.old.shelf }
    ensures publisher { site.new.publisher ≡ site.old.publisher }
    ensures carried { site.new.carried ≡ site.old.carried }
    ensures source { site.new.source ≡ site.old.source }
{
    if !site.has_taken {
        text.extend_from_slice(b"no object\n")?;
        return Ok(Step::GoesOn);
    }
    blame(
        alloc,
        text,
        &mut site.works,
        name,
        path.terms.as_slice(),
        steps,
    )?;
    Ok(Step::GoesOn)
}

/// Works on a line.
pub fn work_on<R: Runner, S: Source, H: Shelf, K: Keeper, L: Ledger>(
    alloc: Global,
    line: &[u8],
    site: &mut Site<R, S, H, K>,
    text: &mut Vec<u8>,
    steps: &mut Steps<L>,
) -> Result<Step, AllocError>
    requires source_open { IsSome (S.opened site.old.source) }
    requires shelf_open { IsSome (H.opened site.old.shelf) }
    requires store_open { MayKeep K.Keeper site.old.carried }
    requires text { text.old.items ≡ [] }
    requires knows { Knows site.old.publisher (H.cell site.old.shelf) }
    ensures went { IsReady R.meaning site.old → IfOk result (λ step. Goes R.meaning
        (order_of line.now) step text.new.items
        (spot_of R.Runner S.Source H.Shelf K.Keeper site.old steps.old)
        (spot_of R.Runner S.Source H.Shelf K.Keeper site.new steps.new)) }
    ensures cut { IsReady R.meaning site.old → OnErr result (IsCut R.meaning (order_of line.now)
        (spot_of R.Runner S.Source H.Shelf K.Keeper site.old steps.old)
        (spot_of R.Runner S.Source H.Shelf K.Keeper site.new steps.new)) }
    ensures ready { IsReady R.meaning site.old → OnOk result (IsReady R.meaning site.new) }
    ensures behind { IsBehind S.Source H.Shelf K.Keeper result site.old site.new }
{
    match read_order(alloc, line)? {
        Order::Scan => return scan_line(alloc, site, text, steps),
        Order::Turns(number) => return turn_line(alloc, site, number, text, steps),
        Order::Build => return build_line(alloc, site, text, steps),
        Order::Blame(name, path) => return blame_line(alloc, site, name, &path, text, steps),
        Order::Quit => return Ok(Step::Quits),
        Order::Show(name) => show_line(alloc, site, name, text)?,
        Order::Why(name) => why_line(site, name, text)?,
        Order::Deps(name) => deps_line(alloc, site, name, text)?,
        Order::Impact(file) => impact_line(alloc, site, file, text)?,
        Order::Unused => unused_line(alloc, site, text)?,
        Order::BadLine => bad_line(text)?,
    }
    Ok(Step::GoesOn)
}
