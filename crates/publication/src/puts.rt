ghost use Rattle.std.specs.Prelude.{◌≡◌, ◌∷◌, [], ℕ, List, flat_map, if◌then◌else◌, OnOk, OnErr, IfErr, IfSome, IsSome, Option, Some, true, bytes_eq};
ghost use Rattle.outside.specs.Causes.{Caused, HasCause};
ghost use Rattle.outside.specs.Cells.{Sets, AllBut, AreSame};
ghost use Rattle.outside.specs.declared.shelf.Change.TheVariants.{Put};
ghost use Rattle.publication.specs.Changing.{holds, putting, done, Made, Begun, Tells};
ghost use Rattle.publication.specs.Halves.{placed};
ghost use Rattle.publication.specs.Listings.{IsAbsentUnless};
ghost use Rattle.publication.specs.Puts.{are_apart, PutsLeft, IsPutAt, IsPutOf, IsPutFailure};
ghost use Rattle.publication.specs.declared.puts.PutError.TheVariants.{Memory};

use crate::reading::holds;
use crate::want::Want;
use base::Text;
use outside::{Shelf, StoreError};
use std::alloc::{AllocError, AllocFailed, Global};

/// Why puts ended before all were made.
#[derive(Drop)]
pub enum PutError {
    /// A call on the file of this name failed.
    Failed(Text),
    /// Memory was wanting.
    Memory,
}

impl From<AllocError> for PutError {
    ghost from_gives = { λ _ e. e ≡ Memory };

    fn from(_e: AllocError) -> PutError {
        PutError::Memory
    }
}

impl<T: Drop> From<AllocFailed<T>> for PutError {
    ghost from_gives = { λ _ e. e ≡ Memory };

    fn from(_e: AllocFailed<T>) -> PutError {
        PutError::Memory
    }
}

/// The name gets the bytes, where it does not hold them. One that is known to be absent is not read.
pub(crate) fn put_one<H: Shelf>(
    shelf: &mut H,
    name: &str,
    bytes: &[u8],
    held: &mut Vec<u8>,
    may_stand: bool,
) -> Result<(), StoreError>
    requires open { IsSome (H.opened shelf.old) }
    requires absent { IsAbsentUnless may_stand (H.cell shelf.old name.now) }
    ensures ok { OnOk result (Sets (H.cell shelf.old) name.now (Some bytes.now)
        (H.cell shelf.new)) }
    ensures err { OnErr result (AllBut (H.cell shelf.old) name.now (H.cell shelf.new)) }
    ensures done { OnOk result (IfSome (H.cell shelf.old name.now) (λ content. H.changes shelf.new
        ≡ done (H.changes shelf.old) (if holds bytes.now (Some content) then []
        else Put name.now ∷ []))) }
    ensures undone { OnErr result (H.changes shelf.new ≡ H.changes shelf.old) }
    ensures untouched { OnErr result (holds bytes.now (H.cell shelf.old name.now) ≡ true
        → AreSame (H.cell shelf.old) (H.cell shelf.new)) }
    ensures opened { H.opened shelf.new ≡ H.opened shelf.old }
    ensures cause { HasCause (H.fault_count shelf.old) (H.fault_count shelf.new) result }
{
    match holds(shelf, name, bytes, held, may_stand) {
        Ok(true) => return Ok(()),
        Ok(false) => {}
        Err(error) => return Err(error),
    }
    match shelf.put(name, bytes) {
        Ok(()) => Ok(()),
        Err(error) => Err(error),
    }
}

/// A wanted file gets its bytes, where it does not hold them.
fn put_want<H: Shelf>(shelf: &mut H, want: &Want, held: &mut Vec<u8>) -> Result<(), PutError>
    requires open { IsSome (H.opened shelf.old) }
    ensures ok { OnOk result (Sets (H.cell shelf.old) want.now.name (Some want.now.bytes)
        (H.cell shelf.new)) }
    ensures err { OnErr result (AllBut (H.cell shelf.old) want.now.name (H.cell shelf.new)) }
    ensures done { OnOk result (IfSome (H.cell shelf.old want.now.name) (λ content.
        H.changes shelf.new ≡ done (H.changes shelf.old)
        (if holds want.now.bytes (Some content) then [] else Put want.now.name ∷ []))) }
    ensures undone { OnErr result (H.changes shelf.new ≡ H.changes shelf.old) }
    ensures untouched { OnErr result (holds want.now.bytes (H.cell shelf.old want.now.name) ≡ true
        → AreSame (H.cell shelf.old) (H.cell shelf.new)) }
    ensures opened { H.opened shelf.new ≡ H.opened shelf.old }
    ensures at { IfErr result (IsPutAt want.now.name) }
    ensures cause { Caused IsPutFailure (H.fault_count shelf.old) (H.fault_count shelf.new)
        result }
{
    // (ahead of the calls, so that one that fails has its name where memory is wanting then)
    let name = want.name.share()?;
    match put_one(shelf, want.name.as_str(), want.bytes.as_slice(), held, true) {
        Ok(()) => Ok(()),
        Err(StoreError::Memory) => Err(PutError::Memory),
        Err(StoreError::Failed) => Err(PutError::Failed(name)),
    }
}

/// Each wanted file is read, and put where its bytes differ, in the order of the list; no name is removed. The first call
/// that fails ends it.
pub fn put_until_failure<H: Shelf>(
    alloc: Global,
    shelf: &mut H,
    wants: &[Want],
) -> Result<(), PutError>
    requires open { IsSome (H.opened shelf.old) }
    requires apart { are_apart wants.now ≡ true }
    ensures ok { OnOk result ((n : List ℕ) → H.cell shelf.new n
        ≡ placed wants.now n (H.cell shelf.old n)) }
    ensures err { IfErr result (λ e. PutsLeft e wants.now (H.cell shelf.old)
        (H.cell shelf.new)) }
    ensures made { OnOk result (Tells (H.cell shelf.old)
        → Made wants.now (flat_map (putting (H.cell shelf.old)) wants.now) (H.cell shelf.old)
        (H.cell shelf.new) (H.changes shelf.old) (H.changes shelf.new)) }
    ensures begun { OnErr result (Tells (H.cell shelf.old)
        → Begun wants.now (flat_map (putting (H.cell shelf.old)) wants.now) (H.cell shelf.old)
        (H.cell shelf.new) (H.changes shelf.old) (H.changes shelf.new)) }
    ensures opened { H.opened shelf.new ≡ H.opened shelf.old }
    ensures among { IfErr result (IsPutOf wants.now) }
    ensures cause { Caused IsPutFailure (H.fault_count shelf.old) (H.fault_count shelf.new)
        result }
{
    let mut held = Vec::new(alloc);
    for want in wants {
        put_want(shelf, want, &mut held)?;
    }
    Ok(())
}
