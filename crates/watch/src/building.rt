ghost use Rattle.std.specs.Prelude.{◌≡◌, ◌≤◌, ◌++◌, IfOk, OnOk, OnErr, [], option_map, true, vec_items, IsSome};
ghost use Rattle.engine_session.specs.KeptTexts.{AreFaithful, AreTexts};
ghost use Rattle.engine_session.specs.Standing.{compiled_in, machine_in};
ghost use Rattle.kept_works.specs.Kept.{rows_by};
ghost use Rattle.publication.specs.Published.{Knows};
ghost use Rattle.rebuild.specs.Engines.{situation_of, turns_left_of};
ghost use Rattle.session.specs.Orders as orders;
ghost use Rattle.session.specs.Sessions.{saved_text};
ghost use Rattle.session.specs.Texts.{publication_text};
ghost use Rattle.watch.specs.Read.{as_saved};
ghost use Rattle.watch.specs.Sites.{Goes, IsCut, IsLater, IsReady, LeavesUnkept, MayKeep, held_of, shelved, spot_of};
ghost use Rattle.watch.specs.Steps.{Announces, Publishes, StopsAnnouncing, StopsPublishing};

use crate::keeping::{Saving, keep};
use crate::site::{Carried, Site};
use crate::step::Step;
use crate::texts::{push_publication, push_saving};
use base::Steps;
use engine_session::{Built, KeptTexts, Took, Works, build_again, make_all_turns, take_next};
use keepers::Keeper;
use outside::{Shelf, Source};
use publication::{Publication, Publisher};
use runner::Runner;
use std::alloc::{AllocError, Global};
use std::sync::ledger::Ledger;

/// What a build gives, and how its publication ended.
#[derive(Drop)]
struct Announced {
    built: Built,
    publication: Publication,
}

/// What a settled engine gives is published.
fn announce<R: Runner, H: Shelf>(
    alloc: Global,
    works: &Works<R>,
    texts: &mut KeptTexts,
    shelf: &mut H,
    publisher: &mut Publisher,
) -> Result<Announced, AllocError>
    requires open { IsSome (H.opened shelf.old) }
    requires settled { turns_left_of works.now.engine.core ≡ 0 }
    requires knows { Knows publisher.old (H.cell shelf.old) }
    ensures done { AreFaithful R.meaning works.now texts.old → IfOk result (λ a. Announces
        (machine_in R.meaning works.now.engine.core) (compiled_in works.now.engine.core) a.built
        a.publication (shelved H.Shelf shelf.old) (shelved H.Shelf shelf.new) publisher.old
        publisher.new) }
    ensures knows { OnOk result (Knows publisher.new (H.cell shelf.new)) }
    ensures left { AreFaithful R.meaning works.now texts.old → OnErr result (StopsAnnouncing
        (machine_in R.meaning works.now.engine.core) (compiled_in works.now.engine.core)
        publisher.old (shelved H.Shelf shelf.old) (shelved H.Shelf shelf.new)) }
    ensures texts { AreFaithful R.meaning works.now texts.old
        → OnOk result (AreTexts (situation_of works.now.engine.core) texts.new) }
    ensures later { H.fault_count shelf.old ≤ H.fault_count shelf.new }
    ensures opened { H.opened shelf.new ≡ H.opened shelf.old }
{
    let built = build_again(alloc, works, texts)?;
    let publication = publisher.publish(alloc, shelf, &built.profiles)?;
    Ok(Announced { built, publication })
}

/// What is reported of a build.
fn report(
    alloc: Global,
    announced: &Announced,
    saving: Saving,
    text: &mut Vec<u8>,
) -> Result<(), AllocError>
    ensures { OnOk result (text.new.items ≡ text.old.items
        ++ (publication_text announced.now.publication ++ (saved_text (as_saved saving)
        ++ announced.now.built.report.items))) }
{
    push_publication(alloc, text, &announced.publication)?;
    push_saving(text, saving)?;
    text.extend_from_slice(&announced.built.report)
}

/// What a settled engine gives is published, its rows are kept, and then both are reported. Gives whether an object
/// has a fault.
fn publish_built<R: Runner, H: Shelf, K: Keeper>(
    alloc: Global,
    works: &Works<R>,
    shelf: &mut H,
    publisher: &mut Publisher,
    carried: &mut Carried<K>,
    text: &mut Vec<u8>,
) -> Result<bool, AllocError>
    requires open { IsSome (H.opened shelf.old) }
    requires text { text.old.items ≡ [] }
    requires settled { turns_left_of works.now.engine.core ≡ 0 }
    requires knows { Knows publisher.old (H.cell shelf.old) }
    requires store_open { MayKeep K.Keeper carried.old }
    ensures done { AreFaithful R.meaning works.now carried.old.texts → IfOk result (λ has_faults. Publishes
        (machine_in R.meaning works.now.engine.core)
        (rows_by works.now.engine.core.dirs works.now.engine.core.limits
        (compiled_in works.now.engine.core))
        (compiled_in works.now.engine.core) has_faults text.new.items
        (held_of H.Shelf K.Keeper shelf.old carried.old.keeper carried.old.rows)
        (held_of H.Shelf K.Keeper shelf.new carried.new.keeper carried.new.rows) publisher.old
        publisher.new) }
    ensures knows { OnOk result (Knows publisher.new (H.cell shelf.new)) }
    ensures left { AreFaithful R.meaning works.now carried.old.texts → OnErr result (StopsPublishing
        (machine_in R.meaning works.now.engine.core)
        (rows_by works.now.engine.core.dirs works.now.engine.core.limits
        (compiled_in works.now.engine.core))
        (compiled_in works.now.engine.core) publisher.old
        (held_of H.Shelf K.Keeper shelf.old carried.old.keeper carried.old.rows)
        (held_of H.Shelf K.Keeper shelf.new carried.new.keeper carried.new.rows)) }
    ensures texts { AreFaithful R.meaning works.now carried.old.texts
        → OnOk result (AreTexts (situation_of works.now.engine.core) carried.new.texts) }
    ensures unkept { LeavesUnkept carried.old carried.new }
    ensures later { H.fault_count shelf.old ≤ H.fault_count shelf.new }
    ensures opened { H.opened shelf.new ≡ H.opened shelf.old }
    ensures store_later { K.fault_count carried.old.keeper ≤ K.fault_count carried.new.keeper }
    ensures store_opened { K.opened carried.new.keeper ≡ K.opened carried.old.keeper }
{
    let announced = announce(alloc, works, &mut carried.texts, shelf, publisher)?;
    let saving = keep(alloc, works, carried)?;
    report(alloc, &announced, saving, text)?;
    Ok(announced.built.has_faults)
}

/// `build`
pub(crate) fn build_line<R: Runner, S: Source, H: Shelf, K: Keeper, L: Ledger>(
    alloc: Global,
    site: &mut Site<R, S, H, K>,
    text: &mut Vec<u8>,
    steps: &mut Steps<L>,
) -> Result<Step, AllocError>
    requires source_open { IsSome (S.opened site.old.source) }
    requires shelf_open { IsSome (H.opened site.old.shelf) }
    requires store_open { MayKeep K.Keeper site.old.carried }
    requires text { text.old.items ≡ [] }
    requires knows { Knows site.old.publisher (H.cell site.old.shelf) }
    ensures went { IsReady R.meaning site.old → IfOk result (λ step. Goes R.meaning orders.Build
        step text.new.items
        (spot_of R.Runner S.Source H.Shelf K.Keeper site.old steps.old)
        (spot_of R.Runner S.Source H.Shelf K.Keeper site.new steps.new)) }
    ensures cut { IsReady R.meaning site.old → OnErr result (IsCut R.meaning orders.Build
        (spot_of R.Runner S.Source H.Shelf K.Keeper site.old steps.old)
        (spot_of R.Runner S.Source H.Shelf K.Keeper site.new steps.new)) }
    ensures ready { IsReady R.meaning site.old → OnOk result (IsReady R.meaning site.new) }
    ensures knows { OnOk result (Knows site.new.publisher (H.cell site.new.shelf)) }
    ensures unkept { LeavesUnkept site.old.carried site.new.carried }
    ensures later { IsLater S.Source H.Shelf K.Keeper site.old site.new }
{
    match take_next(alloc, &mut site.works, &mut site.source, steps)? {
        Took::Failed => {
            text.extend_from_slice(b"source fault\n")?;
            return Ok(Step::GoesOn);
        }
        Took::Taken => {}
        Took::SpendsNumbers => return Ok(Step::SpendsNumbers),
        Took::IsTooMuch => return Ok(Step::IsTooMuch),
    }
    site.has_taken = true;
    if !make_all_turns(alloc, &mut site.works, steps)? {
        return Ok(Step::SpendsNumbers);
    }
    let has_faults = publish_built(
        alloc,
        &site.works,
        &mut site.shelf,
        &mut site.publisher,
        &mut site.carried,
        text,
    )?;
    site.has_faults = has_faults;
    site.works.engine.forget_runs();
    Ok(Step::GoesOn)
}
