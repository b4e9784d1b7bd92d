ghost use Rattle.std.specs.Prelude.{◌≡◌, ◌↔◌, OnOk, OnErr, IsErrOf, IsSome, Some, None, map, true};
ghost use Rattle.outside.specs.Causes.{HasCause};
ghost use Rattle.keepers.specs.Keeping.{Follows, Lists, unchanged, replaced};
ghost use Rattle.stored_rows.specs.Rows.{row_name, are_rising};
ghost use Rattle.outside.specs.Calls.{is_to_fail, after_call, no_calls};
ghost use Rattle.keepers.specs.Kept.{cell_of};

use crate::keeper::Keeper;
use crate::sure_keeper::SureKeeper;
use base::Text;
use outside::{Calls, StoreError};
use std::alloc::Global;
use stored_rows::StoredRow;

/// A keeper in memory, with a list of the calls that are to fail.
#[derive(Drop)]
pub struct MemKeeper {
    keeper: SureKeeper,
    calls: Calls,
}

impl MemKeeper {
    /// A keeper that holds these rows, still to be opened. Their names stand in byte order, none twice.
    /// `failing` are the numbers of the calls that are to fail, the first being 0.
    pub fn new(alloc: Global, rows: Vec<StoredRow>, failing: Vec<u64>) -> MemKeeper
        requires rising { are_rising (map row_name rows.items) ≡ true }
        ensures opened { result.keeper.opened ≡ None }
        ensures rows { result.keeper.rows ≡ rows.items }
        ensures calls { result.calls ≡ no_calls failing.items }
    {
        MemKeeper {
            keeper: SureKeeper::new(alloc, rows),
            calls: Calls::new(failing),
        }
    }

    /// Its rows, in byte order of their names.
    pub fn rows(&self) -> &[StoredRow]
        ensures { result.now ≡ self.now.keeper.rows }
    {
        self.keeper.rows()
    }
}

impl Keeper for MemKeeper {
    ghost use Rattle.keepers.specs.Kept.{cell_of};

    ghost opened = { λ k. k.keeper.opened };

    ghost cell = { λ k. cell_of k.keeper.rows };

    ghost fault_count = { λ k. k.calls.faults };

    fn faults(&self) -> u64 {
        self.calls.faults()
    }

    #[tactic(auto, using(crate::proofs::Rising::stays))]
    fn open_store(&mut self, file: &str) -> Result<(), StoreError>
        requires closed { self.old.keeper.opened ≡ None }
        ensures opened { OnOk result (self.new.keeper.opened ≡ Some file.now) }
        ensures refused { OnErr result (self.new.keeper.opened ≡ self.old.keeper.opened) }
        ensures same { Follows unchanged (cell_of self.old.keeper.rows) (cell_of
            self.new.keeper.rows) }
        ensures cause { HasCause self.old.calls.faults self.new.calls.faults result }
        ensures counted { self.new.calls ≡ after_call self.old.calls }
        ensures listed { IsErrOf result StoreError.Failed ↔ (is_to_fail self.old.calls ≡ true) }
    {
        if self.calls.fails() {
            return Err(StoreError::Failed);
        }
        self.keeper.open_store(file)
    }

    #[tactic(auto, using(crate::proofs::Rising::stays))]
    fn load(&mut self, into: &mut Vec<StoredRow>) -> Result<(), StoreError>
        requires open { IsSome self.old.keeper.opened }
        ensures ok { OnOk result (Lists (cell_of self.new.keeper.rows) into.new.items) }
        ensures opened { self.new.keeper.opened ≡ self.old.keeper.opened }
        ensures same { Follows unchanged (cell_of self.old.keeper.rows) (cell_of
            self.new.keeper.rows) }
        ensures cause { HasCause self.old.calls.faults self.new.calls.faults result }
        ensures counted { self.new.calls ≡ after_call self.old.calls }
        ensures listed { IsErrOf result StoreError.Failed ↔ (is_to_fail self.old.calls ≡ true) }
    {
        if self.calls.fails() {
            return Err(StoreError::Failed);
        }
        self.keeper.load(into)
    }

    #[tactic(auto, using(crate::proofs::Rising::stays))]
    fn replace(&mut self, gone: &[Text], rows: &[StoredRow]) -> Result<(), StoreError>
        requires open { IsSome self.old.keeper.opened }
        ensures ok { OnOk result (Follows (replaced gone.now rows.now) (cell_of
            self.old.keeper.rows) (cell_of self.new.keeper.rows)) }
        ensures refused { OnErr result (Follows unchanged (cell_of self.old.keeper.rows) (cell_of
            self.new.keeper.rows)) }
        ensures opened { self.new.keeper.opened ≡ self.old.keeper.opened }
        ensures cause { HasCause self.old.calls.faults self.new.calls.faults result }
        ensures counted { self.new.calls ≡ after_call self.old.calls }
        ensures listed { IsErrOf result StoreError.Failed ↔ (is_to_fail self.old.calls ≡ true) }
    {
        if self.calls.fails() {
            return Err(StoreError::Failed);
        }
        self.keeper.replace(gone, rows)
    }
}
