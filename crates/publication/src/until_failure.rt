ghost use Rattle.std.specs.Prelude.{◌≡◌, ◌∷◌, [], ℕ, List, flat_map, if◌then◌else◌, IfOk, OnOk, OnErr, IfErr, IfSome, IsSome, Option, Some, None, true, false, bytes_eq};
ghost use Rattle.std.specs.HashSet.{contains};
ghost use Rattle.std.specs.List.{list_any};
ghost use Rattle.std.specs.List.Sorted.{IsSorted};
ghost use Rattle.std.specs.Cmp.Lexicographic.{slice_cmp};
ghost use Rattle.std.specs.Ordering.{nat_cmp};
ghost use Rattle.outside.specs.Causes.{Caused, HasCause};
ghost use Rattle.outside.specs.Cells.{Sets, AllBut, AreSame};
ghost use Rattle.outside.specs.declared.shelf.Change.TheVariants.{Put};
ghost use Rattle.publication.specs.Bounds.{answer_over, granted, removals_over, shelf_of};
ghost use Rattle.publication.specs.Changing.{holds, removal, putting, planned, done, Made, Begun, Makes, Begins, MadeOver, BegunOver, Tells};
ghost use Rattle.publication.specs.Halves.{swept, cleared, placed, brought, LeftAs};
ghost use Rattle.publication.specs.Leavings.{Left, IsEndAt, IsFailure};
ghost use Rattle.publication.specs.Listings.{IsAbsentUnless, Lists, NoOther};
ghost use Rattle.publication.specs.OwnNames.{is_own};
ghost use Rattle.publication.specs.Published.{Names};
ghost use Rattle.publication.specs.Stands.{Stands, untouched};
ghost use Rattle.publication.specs.Troubles.{published};
ghost use Rattle.publication.specs.Wants.{goes, proper, wants_of};
ghost use Rattle.publication.specs.declared.until_failure.PublishError.TheVariants.{Memory};
ghost use Rattle.publication.specs.declared.want.Want.{Want};

use crate::answer::{Publication, is_within};
use crate::own_name::{is_own, object_of};
use crate::profile::Profile;
use crate::puts::put_one;
use crate::want::{Want, wants};
use base::{Seq, Text};
use outside::{Shelf, StoreError};
use std::alloc::{AllocError, AllocFailed, Global};
use std::collections::HashSet;

/// Why a publication ended that ends at its first failed call.
#[derive(Drop)]
pub enum PublishError {
    /// A call on a file of this object failed.
    Failed(Text),
    /// Memory was wanting.
    Memory,
}

impl From<AllocError> for PublishError {
    ghost from_gives = { λ _ e. e ≡ Memory };

    fn from(_e: AllocError) -> PublishError {
        PublishError::Memory
    }
}

impl<T: Drop> From<AllocFailed<T>> for PublishError {
    ghost from_gives = { λ _ e. e ≡ Memory };

    fn from(_e: AllocFailed<T>) -> PublishError {
        PublishError::Memory
    }
}

/// How a call on the shelf that a file of this object is for ends the publication.
fn ended(error: StoreError, object: Text) -> PublishError
    ensures memory { error ≡ StoreError.Memory → result ≡ PublishError.Memory }
    ensures failed { error ≡ StoreError.Failed → result ≡ PublishError.Failed object }
{
    match error {
        StoreError::Memory => PublishError::Memory,
        StoreError::Failed => PublishError::Failed(object),
    }
}

/// The name holds the bytes. Where it is known to be absent it is not read.
fn bring<H: Shelf>(
    alloc: Global,
    shelf: &mut H,
    name: &str,
    bytes: &[u8],
    held: &mut Vec<u8>,
    may_stand: bool,
) -> Result<(), PublishError>
    requires open { IsSome (H.opened shelf.old) }
    requires own { is_own name.now ≡ true }
    requires absent { IsAbsentUnless may_stand (H.cell shelf.old name.now) }
    ensures ok { OnOk result (Sets (H.cell shelf.old) name.now (Some bytes.now)
        (H.cell shelf.new)) }
    ensures err { OnErr result (AllBut (H.cell shelf.old) name.now (H.cell shelf.new)) }
    ensures done { OnOk result (IfSome (H.cell shelf.old name.now) (λ content. H.changes shelf.new
        ≡ done (H.changes shelf.old) (if holds bytes.now (Some content) then []
        else Put name.now ∷ []))) }
    ensures undone { OnErr result (H.changes shelf.new ≡ H.changes shelf.old) }
    ensures untouched { OnErr result (holds bytes.now (H.cell shelf.old name.now) ≡ true
        → AreSame (H.cell shelf.old) (H.cell shelf.new)) }
    ensures opened { H.opened shelf.new ≡ H.opened shelf.old }
    ensures at { IfErr result (IsEndAt name.now) }
    ensures cause { Caused IsFailure (H.fault_count shelf.old) (H.fault_count shelf.new) result }
{
    // (ahead of the calls, so that one that fails has its object where memory is wanting then)
    let object = object_of(alloc, name)?;
    match put_one(shelf, name, bytes, held, may_stand) {
        Ok(()) => Ok(()),
        Err(error) => Err(ended(error, object)),
    }
}

/// The names that profiles want.
fn wanted_names(alloc: Global, wants: &[Want]) -> Result<HashSet<Text>, AllocError>
    ensures { IfOk result (λ names. Names names wants.now) }
{
    let mut names = HashSet::with_capacity(alloc, wants.len())?;
    for want in wants {
        names.insert(want.name.share()?)?;
    }
    Ok(names)
}

/// The set of these names.
fn set_of(alloc: Global, names: &[Text]) -> Result<HashSet<Text>, AllocError>
    ensures { IfOk result (λ set. (n : List ℕ) → contains bytes_eq set n
        ≡ list_any (λ m. bytes_eq m n) names.now) }
{
    let mut set = HashSet::with_capacity(alloc, names.len())?;
    for name in names {
        set.insert(name.share()?)?;
    }
    Ok(set)
}

/// An own name that no profile wants goes.
fn sweep<H: Shelf>(
    alloc: Global,
    shelf: &mut H,
    name: &Text,
    names: &HashSet<Text>,
) -> Result<(), PublishError>
    requires open { IsSome (H.opened shelf.old) }
    ensures ok { OnOk result ((wants : List Want) → Names names.now wants → (n : List ℕ)
        → H.cell shelf.new n ≡ swept name.now wants n (H.cell shelf.old n)) }
    ensures err { OnErr result (AllBut (H.cell shelf.old) name.now (H.cell shelf.new)) }
    ensures own { OnErr result (is_own name.now ≡ true) }
    ensures going { OnErr result ((wants : List Want) → Names names.now wants
        → goes wants name.now ≡ true) }
    ensures done { OnOk result ((wants : List Want) → Names names.now wants
        → H.changes shelf.new ≡ done (H.changes shelf.old) (removal wants name.now)) }
    ensures undone { OnErr result (H.changes shelf.new ≡ H.changes shelf.old) }
    ensures opened { H.opened shelf.new ≡ H.opened shelf.old }
    ensures at { IfErr result (IsEndAt name.now) }
    ensures cause { Caused IsFailure (H.fault_count shelf.old) (H.fault_count shelf.new) result }
{
    if !is_own(name.as_str()) {
        return Ok(());
    }
    if names.contains(name) {
        return Ok(());
    }
    let object = object_of(alloc, name.as_str())?;
    match shelf.remove(name.as_str()) {
        Ok(()) => Ok(()),
        Err(error) => Err(ended(error, object)),
    }
}

/// The own names that no profile wants go, in the order of the list.
fn clear<H: Shelf>(
    alloc: Global,
    shelf: &mut H,
    listed: &[Text],
    names: &HashSet<Text>,
    wants: &[Want],
) -> Result<(), PublishError>
    requires open { IsSome (H.opened shelf.old) }
    requires names { Names names.now wants.now }
    ensures ok { OnOk result ((n : List ℕ) → H.cell shelf.new n
        ≡ cleared listed.now wants.now n (H.cell shelf.old n)) }
    ensures err { IfErr result (λ e. LeftAs e (cleared listed.now wants.now) (H.cell shelf.old)
        (H.cell shelf.new)) }
    ensures made { OnOk result (Made wants.now (flat_map (removal wants.now) listed.now)
        (H.cell shelf.old) (H.cell shelf.new) (H.changes shelf.old) (H.changes shelf.new)) }
    ensures begun { OnErr result (Begun wants.now (flat_map (removal wants.now) listed.now)
        (H.cell shelf.old) (H.cell shelf.new) (H.changes shelf.old) (H.changes shelf.new)) }
    ensures opened { H.opened shelf.new ≡ H.opened shelf.old }
    ensures cause { Caused IsFailure (H.fault_count shelf.old) (H.fault_count shelf.new) result }
{
    for name in listed {
        sweep(alloc, shelf, name, names)?;
    }
    Ok(())
}

/// Each wanted name gets its bytes, in the order of the list. One that is none of those that may be there is not read.
fn place<H: Shelf>(
    alloc: Global,
    shelf: &mut H,
    there: &HashSet<Text>,
    wants: &[Want],
) -> Result<(), PublishError>
    requires open { IsSome (H.opened shelf.old) }
    requires proper { proper wants.now ≡ true }
    requires absent { NoOther there.now (H.cell shelf.old) }
    ensures ok { OnOk result ((n : List ℕ) → H.cell shelf.new n
        ≡ placed wants.now n (H.cell shelf.old n)) }
    ensures err { IfErr result (λ e. LeftAs e (placed wants.now) (H.cell shelf.old)
        (H.cell shelf.new)) }
    ensures made { OnOk result (Tells (H.cell shelf.old)
        → Made wants.now (flat_map (putting (H.cell shelf.old)) wants.now) (H.cell shelf.old)
        (H.cell shelf.new) (H.changes shelf.old) (H.changes shelf.new)) }
    ensures begun { OnErr result (Tells (H.cell shelf.old)
        → Begun wants.now (flat_map (putting (H.cell shelf.old)) wants.now) (H.cell shelf.old)
        (H.cell shelf.new) (H.changes shelf.old) (H.changes shelf.new)) }
    ensures opened { H.opened shelf.new ≡ H.opened shelf.old }
    ensures cause { Caused IsFailure (H.fault_count shelf.old) (H.fault_count shelf.new) result }
{
    let mut held = Vec::new(alloc);
    for want in wants {
        let may_stand = there.contains(&want.name);
        bring(
            alloc,
            shelf,
            want.name.as_str(),
            want.bytes.as_slice(),
            &mut held,
            may_stand,
        )?;
    }
    Ok(())
}

/// All names of the shelf, in byte order.
pub fn listed<H: Shelf>(alloc: Global, shelf: &mut H) -> Result<Vec<Text>, StoreError>
    requires open { IsSome (H.opened shelf.old) }
    ensures ok { IfOk result (λ names. Lists names.items (H.cell shelf.old)) }
    ensures sorted { IfOk result (λ names. IsSorted (slice_cmp nat_cmp) names.items) }
    ensures changes { H.changes shelf.new ≡ H.changes shelf.old }
    ensures same { AreSame (H.cell shelf.old) (H.cell shelf.new) }
    ensures opened { H.opened shelf.new ≡ H.opened shelf.old }
    ensures cause { HasCause (H.fault_count shelf.old) (H.fault_count shelf.new) result }
{
    let mut names = Vec::new(alloc);
    match shelf.names(&mut names) {
        Ok(()) => {}
        Err(error) => return Err(error),
    }
    names.sort()?;
    Ok(names)
}

/// Brings wanted names to a shelf on which these names are.
fn bring_all<H: Shelf>(
    alloc: Global,
    shelf: &mut H,
    listed: &[Text],
    names: &HashSet<Text>,
    wants: &[Want],
) -> Result<(), PublishError>
    requires open { IsSome (H.opened shelf.old) }
    requires proper { proper wants.now ≡ true }
    requires listed { Lists listed.now (H.cell shelf.old) }
    requires names { Names names.now wants.now }
    ensures ok { OnOk result ((n : List ℕ) → H.cell shelf.new n
        ≡ brought wants.now n (H.cell shelf.old n)) }
    ensures err { IfErr result (λ e. LeftAs e (brought wants.now) (H.cell shelf.old)
        (H.cell shelf.new)) }
    ensures made { OnOk result (Tells (H.cell shelf.old)
        → Made wants.now (planned listed.now wants.now (H.cell shelf.old)) (H.cell shelf.old)
        (H.cell shelf.new) (H.changes shelf.old) (H.changes shelf.new)) }
    ensures begun { OnErr result (Tells (H.cell shelf.old)
        → Begun wants.now (planned listed.now wants.now (H.cell shelf.old)) (H.cell shelf.old)
        (H.cell shelf.new) (H.changes shelf.old) (H.changes shelf.new)) }
    ensures opened { H.opened shelf.new ≡ H.opened shelf.old }
    ensures cause { Caused IsFailure (H.fault_count shelf.old) (H.fault_count shelf.new) result }
{
    // (ahead of the calls, so that nothing is changed where memory is wanting for it)
    let there = set_of(alloc, listed)?;
    clear(alloc, shelf, listed, names, wants)?;
    place(alloc, shelf, &there, wants)
}

/// Publishes wants on a shelf on which these names are.
fn publish_wants<H: Shelf>(
    alloc: Global,
    shelf: &mut H,
    listed: &[Text],
    names: &HashSet<Text>,
    wants: &[Want],
) -> Result<(), PublishError>
    requires open { IsSome (H.opened shelf.old) }
    requires proper { proper wants.now ≡ true }
    requires listed { Lists listed.now (H.cell shelf.old) }
    requires names { Names names.now wants.now }
    ensures ok { OnOk result (Stands (published wants.now [] untouched) (H.cell shelf.old)
        (H.cell shelf.new)) }
    ensures err { IfErr result (λ e. Left e (published wants.now [] untouched)
        (H.cell shelf.old) (H.cell shelf.new)) }
    ensures made { OnOk result (Tells (H.cell shelf.old) → Makes wants.now listed.now
        (H.cell shelf.old) (H.cell shelf.new) (H.changes shelf.old) (H.changes shelf.new)) }
    ensures begun { OnErr result (Tells (H.cell shelf.old) → Begins wants.now listed.now
        (H.cell shelf.old) (H.cell shelf.new) (H.changes shelf.old) (H.changes shelf.new)) }
    ensures opened { H.opened shelf.new ≡ H.opened shelf.old }
    ensures cause { Caused IsFailure (H.fault_count shelf.old) (H.fault_count shelf.new) result }
{
    bring_all(alloc, shelf, listed, names, wants)
}

/// Whether it is an own name that no profile wants.
fn is_unwanted(name: &Text, names: &HashSet<Text>, wants: &[Want]) -> bool
    requires { Names names.now wants.now }
    ensures { result ≡ goes wants.now name.now }
{
    is_own(name.as_str()) && !names.contains(name)
}

/// How many of these names are own ones that no profile wants.
fn count_removals(listed: &[Text], names: &HashSet<Text>, wants: &[Want]) -> usize
    requires { Names names.now wants.now }
    ensures { result ≡ removals_over wants.now listed.now }
{
    let mut removals = 0;
    for name in listed {
        if is_unwanted(name, names, wants) {
            removals += 1;
        }
    }
    removals
}

/// Publishes wants on a shelf on which these names are, where no more of them are to go than it may remove.
fn publish_within<H: Shelf>(
    alloc: Global,
    shelf: &mut H,
    listed: &[Text],
    wants: &[Want],
    most: Option<u64>,
) -> Result<Publication, PublishError>
    requires open { IsSome (H.opened shelf.old) }
    requires proper { proper wants.now ≡ true }
    requires listed { Lists listed.now (H.cell shelf.old) }
    ensures answer { IfOk result (λ p. p ≡ answer_over most listed.now wants.now) }
    ensures ok { OnOk result (Stands (shelf_of (granted most listed.now wants.now))
        (H.cell shelf.old) (H.cell shelf.new)) }
    ensures err { IfErr result (λ e. Left e (shelf_of (granted most listed.now wants.now))
        (H.cell shelf.old) (H.cell shelf.new)) }
    ensures made { OnOk result (Tells (H.cell shelf.old) → MadeOver
        (granted most listed.now wants.now) listed.now (H.cell shelf.old) (H.cell shelf.new)
        (H.changes shelf.old) (H.changes shelf.new)) }
    ensures begun { OnErr result (Tells (H.cell shelf.old) → BegunOver
        (granted most listed.now wants.now) listed.now (H.cell shelf.old) (H.cell shelf.new)
        (H.changes shelf.old) (H.changes shelf.new)) }
    ensures opened { H.opened shelf.new ≡ H.opened shelf.old }
    ensures cause { Caused IsFailure (H.fault_count shelf.old) (H.fault_count shelf.new) result }
{
    let names = wanted_names(alloc, wants)?;
    let removals = count_removals(listed, &names, wants);
    if !is_within(most, removals) {
        return Ok(Publication::TooManyRemovals(removals));
    }
    publish_wants(alloc, shelf, listed, &names, wants)?;
    Ok(Publication::Done(Seq::new(alloc)))
}

/// Publishes profiles on a shelf on which these names are: first each own name that no profile wants is removed, in
/// the order of the list, and then each file of theirs is put: one that is among the names is read before, and put only
/// where its bytes differ; one that is not is put without being read. The first call that fails ends it. Where more of
/// the names were to go than `most`, no call is made, and it gives how many.
pub fn publish_until_failure<H: Shelf>(
    alloc: Global,
    shelf: &mut H,
    listed: &[Text],
    profiles: &[Profile],
    most: Option<u64>,
) -> Result<Publication, PublishError>
    requires open { IsSome (H.opened shelf.old) }
    requires proper { proper (wants_of profiles.now) ≡ true }
    requires listed { Lists listed.now (H.cell shelf.old) }
    ensures answer { IfOk result
        (λ p. p ≡ answer_over most listed.now (wants_of profiles.now)) }
    ensures ok { OnOk result (Stands (shelf_of (granted most listed.now (wants_of profiles.now)))
        (H.cell shelf.old) (H.cell shelf.new)) }
    ensures err { IfErr result (λ e. Left e (shelf_of (granted most listed.now
        (wants_of profiles.now))) (H.cell shelf.old) (H.cell shelf.new)) }
    ensures made { OnOk result (Tells (H.cell shelf.old) → MadeOver (granted most listed.now
        (wants_of profiles.now)) listed.now (H.cell shelf.old) (H.cell shelf.new)
        (H.changes shelf.old) (H.changes shelf.new)) }
    ensures begun { OnErr result (Tells (H.cell shelf.old) → BegunOver (granted most listed.now
        (wants_of profiles.now)) listed.now (H.cell shelf.old) (H.cell shelf.new)
        (H.changes shelf.old) (H.changes shelf.new)) }
    ensures opened { H.opened shelf.new ≡ H.opened shelf.old }
    ensures cause { Caused IsFailure (H.fault_count shelf.old) (H.fault_count shelf.new) result }
{
    let wants = wants(alloc, profiles)?;
    publish_within(alloc, shelf, listed, &wants, most)
}
