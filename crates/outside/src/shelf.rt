ghost use Rattle.std.specs.Prelude.{◌≡◌, ◌≤◌, ℕ, List, OnOk, OnErr, IfOk, IfSome, IsSome, Option, Some, None, length};
ghost use Rattle.outside.specs.Causes.{HasCause};
ghost use Rattle.outside.specs.Cells.{Cell, Sets, AllBut, IsReadOf, AreSame, Names, TellsAsMuch};
ghost use Rattle.outside.specs.Changes.{Does};
ghost use Rattle.outside.specs.declared.shelf.Change.{Change};
ghost use Rattle.outside.specs.declared.shelf.Change.TheVariants as change;

use crate::error::StoreError;
use base::Text;

/// What was done to a shelf.
#[derive(Drop)]
pub enum Change {
    /// The name got bytes.
    Put(Text),
    /// The name was taken away, or was absent already.
    Removed(Text),
}

/// Names with bytes. A shelf is opened once, and no name is asked of it, put or removed before.
///
/// `opened` is the root that the shelf was opened with, None as long as it is closed. `cell` is what the shelf tells of each name, and
/// `changes` are the names that were put and removed so far, in order, where it tells them.
pub trait Shelf {
    ghost opened: { Self → Option (List ℕ) };

    ghost cell: { Self → List ℕ → Cell };

    ghost changes: { Self → Option (List Change) };

    ghost fault_count: { Self → ℕ };

    /// How many calls failed so far. It never falls.
    fn faults(&self) -> u64
        ensures { result ≡ fault_count self.now };

    /// Opens the shelf at a root, and makes it ready. A refused call leaves it closed, so it may be tried again.
    fn open_root(&mut self, root: &str) -> Result<(), StoreError>
        requires closed { opened self.old ≡ None }
        ensures opened { OnOk result (opened self.new ≡ Some root.now) }
        ensures refused { OnErr result (opened self.new ≡ opened self.old) }
        ensures same { AreSame (cell self.old) (cell self.new) }
        ensures changes { changes self.new ≡ changes self.old }
        ensures cause { HasCause (fault_count self.old) (fault_count self.new) result };

    /// Gives all names that are there, and no other. After a refusal `into` is unspecified.
    fn names(&mut self, into: &mut Vec<Text>) -> Result<(), StoreError>
        requires open { IsSome (opened self.old) }
        ensures ok { OnOk result (Names (cell self.old) into.new.items) }
        ensures opened { opened self.new ≡ opened self.old }
        ensures same { AreSame (cell self.old) (cell self.new) }
        ensures changes { changes self.new ≡ changes self.old }
        ensures cause { HasCause (fault_count self.old) (fault_count self.new) result };

    /// Reads the first `most` bytes of a name, or gives false where it is absent. At Ok `into` holds those
    /// bytes alone, and nothing where the name is absent. After a refusal `into` is unspecified.
    fn read(&mut self, name: &str, most: usize, into: &mut Vec<u8>) -> Result<bool, StoreError>
        requires open { IsSome (opened self.old) }
        ensures ok { IfOk result (λ there. IfSome (cell self.old name.now)
            (IsReadOf most there into.new.items)) }
        ensures within { OnOk result (length into.new.items ≤ most) }
        ensures opened { opened self.new ≡ opened self.old }
        ensures same { AreSame (cell self.old) (cell self.new) }
        ensures changes { changes self.new ≡ changes self.old }
        ensures cause { HasCause (fault_count self.old) (fault_count self.new) result };

    /// Gives the name these bytes. A refused call leaves this name unspecified, and all others as they were.
    fn put(&mut self, name: &str, bytes: &[u8]) -> Result<(), StoreError>
        requires open { IsSome (opened self.old) }
        ensures ok { OnOk result (Sets (cell self.old) name.now (Some bytes.now) (cell self.new)) }
        ensures refused { OnErr result (AllBut (cell self.old) name.now (cell self.new)) }
        ensures tells { TellsAsMuch (cell self.old) (cell self.new) }
        ensures done { OnOk result (Does (changes self.old) (change.Put name.now)
            (changes self.new)) }
        ensures undone { OnErr result (changes self.new ≡ changes self.old) }
        ensures opened { opened self.new ≡ opened self.old }
        ensures cause { HasCause (fault_count self.old) (fault_count self.new) result };

    /// Takes the name away. One that is absent already is fine. A refused call leaves this name unspecified,
    /// and all others as they were.
    fn remove(&mut self, name: &str) -> Result<(), StoreError>
        requires open { IsSome (opened self.old) }
        ensures ok { OnOk result (Sets (cell self.old) name.now None (cell self.new)) }
        ensures refused { OnErr result (AllBut (cell self.old) name.now (cell self.new)) }
        ensures tells { TellsAsMuch (cell self.old) (cell self.new) }
        ensures done { OnOk result (Does (changes self.old) (change.Removed name.now)
            (changes self.new)) }
        ensures undone { OnErr result (changes self.new ≡ changes self.old) }
        ensures opened { opened self.new ≡ opened self.old }
        ensures cause { HasCause (fault_count self.old) (fault_count self.new) result };
}
