ghost use Rattle.std.specs.Prelude.{◌≡◌, ℕ, List, IfOk, IfSome, IsSome, Some, true};
ghost use Rattle.outside.specs.Causes.{HasCause};
ghost use Rattle.outside.specs.Cells.{AreSame};
ghost use Rattle.publication.specs.Changing.{holds};
ghost use Rattle.publication.specs.Listings.{IsAbsentUnless};

use outside::{Shelf, StoreError};

/// Whether the name holds the bytes. A longer file is known without reading it whole.
fn is_read_as<H: Shelf>(
    shelf: &mut H,
    name: &str,
    bytes: &[u8],
    held: &mut Vec<u8>,
) -> Result<bool, StoreError>
    requires open { IsSome (H.opened shelf.old) }
    ensures ok { IfOk result (λ same. same ≡ true → IfSome (H.cell shelf.old name.now)
        (λ content. content ≡ Some bytes.now)) }
    ensures exact { IfOk result (λ same. IfSome (H.cell shelf.old name.now)
        (λ content. same ≡ holds bytes.now (Some content))) }
    ensures same { AreSame (H.cell shelf.old) (H.cell shelf.new) }
    ensures changes { H.changes shelf.new ≡ H.changes shelf.old }
    ensures opened { H.opened shelf.new ≡ H.opened shelf.old }
    ensures cause { HasCause (H.fault_count shelf.old) (H.fault_count shelf.new) result }
{
    match shelf.read(name, bytes.len() + 1, held) {
        Ok(true) => Ok(held.as_slice() == bytes),
        Ok(false) => Ok(false),
        Err(error) => Err(error),
    }
}

/// The same; a name that is known to be absent is not read.
pub(crate) fn holds<H: Shelf>(
    shelf: &mut H,
    name: &str,
    bytes: &[u8],
    held: &mut Vec<u8>,
    may_stand: bool,
) -> Result<bool, StoreError>
    requires open { IsSome (H.opened shelf.old) }
    requires absent { IsAbsentUnless may_stand (H.cell shelf.old name.now) }
    ensures ok { IfOk result (λ same. same ≡ true → IfSome (H.cell shelf.old name.now)
        (λ content. content ≡ Some bytes.now)) }
    ensures exact { IfOk result (λ same. IfSome (H.cell shelf.old name.now)
        (λ content. same ≡ holds bytes.now (Some content))) }
    ensures same { AreSame (H.cell shelf.old) (H.cell shelf.new) }
    ensures changes { H.changes shelf.new ≡ H.changes shelf.old }
    ensures opened { H.opened shelf.new ≡ H.opened shelf.old }
    ensures cause { HasCause (H.fault_count shelf.old) (H.fault_count shelf.new) result }
{
    if !may_stand {
        return Ok(false);
    }
    is_read_as(shelf, name, bytes, held)
}
