ghost use Rattle.std.specs.Prelude.{◌≡◌, ℕ, List, OnOk, OnErr, Option, Some, None, IsSome};
ghost use Rattle.outside.specs.Causes.{HasCause};
ghost use Rattle.outside.specs.Cells.{Cell};
ghost use Rattle.keepers.specs.Keeping.{Follows, Lists, unchanged, replaced};

use base::Text;
use outside::StoreError;
use stored_rows::StoredRow;

/// Rows, by their names.
///
/// `opened` is the file that the keeper was opened with. It is opened once, and asked nothing before. `cell` is what the keeper tells of
/// each row name. What it tells after a call, it told before it.
pub trait Keeper {
    ghost opened: { Self → Option (List ℕ) };

    ghost cell: { Self → List ℕ → Cell };

    ghost fault_count: { Self → ℕ };

    /// How many calls failed so far. It never falls.
    fn faults(&self) -> u64
        ensures { result ≡ fault_count self.now };

    /// Makes the keeper ready. It changes no row. A refused call leaves it closed, so it may be tried again.
    fn open_store(&mut self, file: &str) -> Result<(), StoreError>
        requires closed { opened self.old ≡ None }
        ensures opened { OnOk result (opened self.new ≡ Some file.now) }
        ensures refused { OnErr result (opened self.new ≡ opened self.old) }
        ensures same { Follows unchanged (cell self.old) (cell self.new) }
        ensures cause { HasCause (fault_count self.old) (fault_count self.new) result };

    /// Gives all rows in byte order of their names, and nothing else. After a refusal `into` is
    /// unspecified.
    fn load(&mut self, into: &mut Vec<StoredRow>) -> Result<(), StoreError>
        requires open { IsSome (opened self.old) }
        ensures ok { OnOk result (Lists (cell self.new) into.new.items) }
        ensures opened { opened self.new ≡ opened self.old }
        ensures same { Follows unchanged (cell self.old) (cell self.new) }
        ensures cause { HasCause (fault_count self.old) (fault_count self.new) result };

    /// Takes the names of `gone` out and then sets `rows`, one after the other: all of it, or, in a
    /// refused call, nothing.
    fn replace(&mut self, gone: &[Text], rows: &[StoredRow]) -> Result<(), StoreError>
        requires open { IsSome (opened self.old) }
        ensures ok { OnOk result (Follows (replaced gone.now rows.now) (cell self.old)
            (cell self.new)) }
        ensures refused { OnErr result (Follows unchanged (cell self.old) (cell self.new)) }
        ensures opened { opened self.new ≡ opened self.old }
        ensures cause { HasCause (fault_count self.old) (fault_count self.new) result };
}
