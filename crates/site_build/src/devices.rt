ghost use Rattle.std.specs.Prelude.{◌≡◌, ℕ, List, IfOk, IfErr, OnOk, OnErr, Some, true, [], bytes_eq, IsSome, None};
ghost use Rattle.std.specs.List.{list_any};
ghost use Rattle.std.specs.List.Sorted.{IsSorted, IsStrictlySortedBy};
ghost use Rattle.std.specs.Cmp.Lexicographic.{slice_cmp};
ghost use Rattle.std.specs.Ordering.{nat_cmp};
ghost use Rattle.outside.specs.Causes.{Caused};
ghost use Rattle.outside.specs.Cells.{AreSame};
ghost use Rattle.outside.specs.Contents.{Appends, AppendsPart};
ghost use Rattle.publication.specs.Bounds.{answer_over, granted, shelf_of};
ghost use Rattle.publication.specs.Changing.{MadeOver, BegunOver, Tells};
ghost use Rattle.publication.specs.Listings.{Lists};
ghost use Rattle.publication.specs.Stands.{Stands};
ghost use Rattle.publication.specs.Wants.{proper, wants_of};
ghost use Rattle.site_build.specs.Ends.{IsEndOf, IsFailureOf, Stopped, OfSource, OfShelf, OfName, OfSink};
ghost use Rattle.site_build.specs.declared.ends.Device.{Device};

use crate::ends::End;
use base::Text;
use outside::{Shelf, Sink, Source, StoreError};
use publication::{Profile, Publication, PublishError, listed, publish_until_failure};
use std::alloc::Global;

/// Opens the source, which is closed, at a folder.
pub fn open_source<S: Source>(source: &mut S, root: &str) -> Result<(), End>
    requires closed { S.opened source.old ≡ None }
    ensures opened { OnOk result (S.opened source.new ≡ Some root.now) }
    ensures refused { OnErr result (S.opened source.new ≡ S.opened source.old) }
    ensures coming { S.coming source.new ≡ S.coming source.old }
    ensures kind { IfErr result (IsEndOf OfSource) }
    ensures cause { Caused (IsFailureOf Device.Source) (S.fault_count source.old)
        (S.fault_count source.new) result }
{
    match source.open_root(root) {
        Ok(()) => Ok(()),
        Err(StoreError::Failed) => Err(End::Source),
        Err(StoreError::Memory) => Err(End::Memory),
    }
}

/// Opens the shelf, which is closed, at a folder.
pub fn open_shelf<H: Shelf>(shelf: &mut H, root: &str) -> Result<(), End>
    requires closed { H.opened shelf.old ≡ None }
    ensures opened { OnOk result (H.opened shelf.new ≡ Some root.now) }
    ensures refused { OnErr result (H.opened shelf.new ≡ H.opened shelf.old) }
    ensures same { AreSame (H.cell shelf.old) (H.cell shelf.new) }
    ensures changes { H.changes shelf.new ≡ H.changes shelf.old }
    ensures kind { IfErr result (IsEndOf OfShelf) }
    ensures cause { Caused (IsFailureOf Device.Shelf) (H.fault_count shelf.old)
        (H.fault_count shelf.new) result }
{
    match shelf.open_root(root) {
        Ok(()) => Ok(()),
        Err(StoreError::Failed) => Err(End::Shelf),
        Err(StoreError::Memory) => Err(End::Memory),
    }
}

/// Takes out what stands twice in a list in byte order.
fn keep_once(names: &mut Vec<Text>)
    requires sorted { IsSorted (slice_cmp nat_cmp) names.old.items }
    ensures sorted { IsStrictlySortedBy (slice_cmp nat_cmp) names.new.items }
    ensures same { (n : List ℕ) → list_any (λ m. bytes_eq m n) names.new.items
        ≡ list_any (λ m. bytes_eq m n) names.old.items }
{
    names.dedup();
}

/// All names of the shelf, each once, in byte order.
pub fn list_shelf<H: Shelf>(alloc: Global, shelf: &mut H) -> Result<Vec<Text>, End>
    requires open { IsSome (H.opened shelf.old) }
    ensures ok { IfOk result (λ names. Lists names.items (H.cell shelf.old)) }
    ensures sorted { IfOk result (λ names. IsStrictlySortedBy (slice_cmp nat_cmp) names.items) }
    ensures changes { H.changes shelf.new ≡ H.changes shelf.old }
    ensures same { AreSame (H.cell shelf.old) (H.cell shelf.new) }
    ensures opened { H.opened shelf.new ≡ H.opened shelf.old }
    ensures kind { IfErr result (IsEndOf OfShelf) }
    ensures cause { Caused (IsFailureOf Device.Shelf) (H.fault_count shelf.old)
        (H.fault_count shelf.new) result }
{
    match listed(alloc, shelf) {
        Ok(mut names) => {
            keep_once(&mut names);
            Ok(names)
        }
        Err(StoreError::Failed) => Err(End::Shelf),
        Err(StoreError::Memory) => Err(End::Memory),
    }
}

/// Publishes profiles on a shelf on which these names are, where no more of them are to go than `most`. The first call
/// that fails ends it.
pub fn publish<H: Shelf>(
    alloc: Global,
    shelf: &mut H,
    listed: &[Text],
    profiles: &[Profile],
    most: Option<u64>,
) -> Result<Publication, End>
    requires open { IsSome (H.opened shelf.old) }
    requires proper { proper (wants_of profiles.now) ≡ true }
    requires listed { Lists listed.now (H.cell shelf.old) }
    ensures answer { IfOk result
        (λ p. p ≡ answer_over most listed.now (wants_of profiles.now)) }
    ensures ok { OnOk result (Stands (shelf_of (granted most listed.now (wants_of profiles.now)))
        (H.cell shelf.old) (H.cell shelf.new)) }
    ensures err { IfErr result (λ e. Stopped e (shelf_of (granted most listed.now
        (wants_of profiles.now))) (H.cell shelf.old) (H.cell shelf.new)) }
    ensures made { OnOk result (Tells (H.cell shelf.old) → MadeOver (granted most listed.now
        (wants_of profiles.now)) listed.now (H.cell shelf.old) (H.cell shelf.new)
        (H.changes shelf.old) (H.changes shelf.new)) }
    ensures begun { OnErr result (Tells (H.cell shelf.old) → BegunOver (granted most listed.now
        (wants_of profiles.now)) listed.now (H.cell shelf.old) (H.cell shelf.new)
        (H.changes shelf.old) (H.changes shelf.new)) }
    ensures opened { H.opened shelf.new ≡ H.opened shelf.old }
    ensures kind { IfErr result (IsEndOf OfName) }
    ensures cause { Caused (IsFailureOf Device.Shelf) (H.fault_count shelf.old)
        (H.fault_count shelf.new) result }
{
    match publish_until_failure(alloc, shelf, listed, profiles, most) {
        Ok(publication) => Ok(publication),
        Err(PublishError::Failed(object)) => Err(End::Publishing(object)),
        Err(PublishError::Memory) => Err(End::Memory),
    }
}

/// Writes a text.
pub fn write<O: Sink>(out: &mut O, text: &[u8]) -> Result<(), End>
    ensures ok { OnOk result (Appends (O.held out.old) text.now (O.held out.new)) }
    ensures err { OnErr result (AppendsPart (O.held out.old) text.now (O.held out.new)) }
    ensures kind { IfErr result (IsEndOf OfSink) }
    ensures cause { Caused (IsFailureOf Device.Out) (O.fault_count out.old) (O.fault_count out.new)
        result }
{
    match out.write(text) {
        Ok(()) => Ok(()),
        Err(StoreError::Failed) => Err(End::Out),
        Err(StoreError::Memory) => Err(End::Memory),
    }
}
