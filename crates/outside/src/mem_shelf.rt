ghost use Rattle.std.specs.Prelude.{◌≡◌, ◌≤◌, ◌↔◌, [], OnOk, OnErr, IfOk, IfSome, IsErrOf, IsSome, Some, None, true, length};
ghost use Rattle.outside.specs.Calls.{is_to_fail, after_call, no_calls};
ghost use Rattle.outside.specs.Causes.{HasCause};
ghost use Rattle.outside.specs.Cells.{Sets, AllBut, IsReadOf, AreSame, Names, TellsAsMuch};
ghost use Rattle.outside.specs.Changes.{Does};
ghost use Rattle.outside.specs.Kept.{cell_of};
ghost use Rattle.outside.specs.declared.shelf.Change.TheVariants as change;

use crate::calls::Calls;
use crate::error::StoreError;
use crate::shelf::{Change, Shelf};
use crate::sure_shelf::{Held, SureShelf};
use base::Text;
use std::alloc::Global;

/// A shelf in memory, with a list of the calls that are to fail.
#[derive(Drop)]
pub struct MemShelf {
    shelf: SureShelf,
    calls: Calls,
}

impl MemShelf {
    /// A shelf that holds these, still to be opened; of several with one name the first counts. `failing` are
    /// the numbers of the calls that are to fail, the first being 0.
    pub fn new(alloc: Global, held: Vec<Held>, failing: Vec<u64>) -> MemShelf
        ensures root { result.shelf.root ≡ None }
        ensures held { result.shelf.held ≡ held.items }
        ensures changes { result.shelf.changes ≡ [] }
        ensures calls { result.calls ≡ no_calls failing.items }
    {
        MemShelf {
            shelf: SureShelf::new(alloc, held),
            calls: Calls::new(failing),
        }
    }

    /// What the shelf holds.
    pub fn held(&self) -> &[Held]
        ensures { result.now ≡ self.now.shelf.held }
    {
        self.shelf.held()
    }

    /// What was done to the shelf, in order.
    pub fn changes(&self) -> &[Change]
        ensures { result.now ≡ self.now.shelf.changes }
    {
        self.shelf.changes()
    }
}

impl Shelf for MemShelf {
    ghost use Rattle.std.specs.Prelude.{Some};
    ghost use Rattle.outside.specs.Kept.{cell_of};

    ghost opened = { λ s. s.shelf.root };

    ghost cell = { λ s. cell_of s.shelf.held };

    ghost changes = { λ s. Some s.shelf.changes };

    ghost fault_count = { λ s. s.calls.faults };

    fn faults(&self) -> u64 {
        self.calls.faults()
    }

    fn open_root(&mut self, root: &str) -> Result<(), StoreError>
        requires closed { self.old.shelf.root ≡ None }
        ensures opened { OnOk result (self.new.shelf.root ≡ Some root.now) }
        ensures refused { OnErr result (self.new.shelf.root ≡ self.old.shelf.root) }
        ensures same { AreSame (cell_of self.old.shelf.held) (cell_of self.new.shelf.held) }
        ensures changes { Some self.new.shelf.changes ≡ Some self.old.shelf.changes }
        ensures cause { HasCause self.old.calls.faults self.new.calls.faults result }
        ensures counted { self.new.calls ≡ after_call self.old.calls }
        ensures listed { IsErrOf result StoreError.Failed ↔ (is_to_fail self.old.calls ≡ true) }
    {
        if self.calls.fails() {
            return Err(StoreError::Failed);
        }
        self.shelf.open_root(root)
    }

    fn names(&mut self, into: &mut Vec<Text>) -> Result<(), StoreError>
        requires open { IsSome self.old.shelf.root }
        ensures ok { OnOk result (Names (cell_of self.old.shelf.held) into.new.items) }
        ensures opened { self.new.shelf.root ≡ self.old.shelf.root }
        ensures same { AreSame (cell_of self.old.shelf.held) (cell_of self.new.shelf.held) }
        ensures changes { Some self.new.shelf.changes ≡ Some self.old.shelf.changes }
        ensures cause { HasCause self.old.calls.faults self.new.calls.faults result }
        ensures counted { self.new.calls ≡ after_call self.old.calls }
        ensures listed { IsErrOf result StoreError.Failed ↔ (is_to_fail self.old.calls ≡ true) }
    {
        if self.calls.fails() {
            return Err(StoreError::Failed);
        }
        self.shelf.names(into)
    }

    fn read(&mut self, name: &str, most: usize, into: &mut Vec<u8>) -> Result<bool, StoreError>
        requires open { IsSome self.old.shelf.root }
        ensures ok { IfOk result (λ there. IfSome (cell_of self.old.shelf.held name.now)
            (IsReadOf most there into.new.items)) }
        ensures within { OnOk result (length into.new.items ≤ most) }
        ensures opened { self.new.shelf.root ≡ self.old.shelf.root }
        ensures same { AreSame (cell_of self.old.shelf.held) (cell_of self.new.shelf.held) }
        ensures changes { Some self.new.shelf.changes ≡ Some self.old.shelf.changes }
        ensures cause { HasCause self.old.calls.faults self.new.calls.faults result }
        ensures counted { self.new.calls ≡ after_call self.old.calls }
        ensures listed { IsErrOf result StoreError.Failed ↔ (is_to_fail self.old.calls ≡ true) }
    {
        if self.calls.fails() {
            return Err(StoreError::Failed);
        }
        self.shelf.read(name, most, into)
    }

    fn put(&mut self, name: &str, bytes: &[u8]) -> Result<(), StoreError>
        requires open { IsSome self.old.shelf.root }
        ensures ok { OnOk result (Sets (cell_of self.old.shelf.held) name.now (Some bytes.now)
            (cell_of self.new.shelf.held)) }
        ensures refused { OnErr result (AllBut (cell_of self.old.shelf.held) name.now
            (cell_of self.new.shelf.held)) }
        ensures tells { TellsAsMuch (cell_of self.old.shelf.held) (cell_of self.new.shelf.held) }
        ensures done { OnOk result (Does (Some self.old.shelf.changes) (change.Put name.now)
            (Some self.new.shelf.changes)) }
        ensures undone { OnErr result (Some self.new.shelf.changes ≡ Some self.old.shelf.changes) }
        ensures opened { self.new.shelf.root ≡ self.old.shelf.root }
        ensures cause { HasCause self.old.calls.faults self.new.calls.faults result }
        ensures counted { self.new.calls ≡ after_call self.old.calls }
        ensures listed { IsErrOf result StoreError.Failed ↔ (is_to_fail self.old.calls ≡ true) }
    {
        if self.calls.fails() {
            return Err(StoreError::Failed);
        }
        self.shelf.put(name, bytes)
    }

    fn remove(&mut self, name: &str) -> Result<(), StoreError>
        requires open { IsSome self.old.shelf.root }
        ensures ok { OnOk result (Sets (cell_of self.old.shelf.held) name.now (None)
            (cell_of self.new.shelf.held)) }
        ensures refused { OnErr result (AllBut (cell_of self.old.shelf.held) name.now
            (cell_of self.new.shelf.held)) }
        ensures tells { TellsAsMuch (cell_of self.old.shelf.held) (cell_of self.new.shelf.held) }
        ensures done { OnOk result (Does (Some self.old.shelf.changes) (change.Removed name.now)
            (Some self.new.shelf.changes)) }
        ensures undone { OnErr result (Some self.new.shelf.changes ≡ Some self.old.shelf.changes) }
        ensures opened { self.new.shelf.root ≡ self.old.shelf.root }
        ensures cause { HasCause self.old.calls.faults self.new.calls.faults result }
        ensures counted { self.new.calls ≡ after_call self.old.calls }
        ensures listed { IsErrOf result StoreError.Failed ↔ (is_to_fail self.old.calls ≡ true) }
    {
        if self.calls.fails() {
            return Err(StoreError::Failed);
        }
        self.shelf.remove(name)
    }
}
