ghost use Rattle.std.specs.Prelude.{◌≡◌, None, map, true};
ghost use Rattle.stored_rows.specs.Rows.{row_name, are_rising};

use crate::keeper::Keeper;
use crate::sorted;
use base::Text;
use outside::StoreError;
use std::alloc::Global;
use std::marker::Model;
use stored_rows::StoredRow;

/// A keeper in memory. No call fails.
#[derive(Drop)]
pub struct SureKeeper {
    alloc: Global,
    opened: Option<Text>,
    rows: Vec<StoredRow>,
}

impl Model for SureKeeper {
    ghost use Rattle.std.specs.Prelude.{◌≡◌, map, true};
    ghost use Rattle.stored_rows.specs.Rows.{row_name, are_rising};
    ghost use Rattle.keepers.specs.Kept.{Stock};

    ghost Value = { Stock };

    ghost view = { λ k. record { opened = k.opened; rows = k.rows.items } };

    ghost invariant = { λ k. are_rising (map row_name k.rows.items) ≡ true };
}

impl SureKeeper {
    /// A keeper that holds these rows, still to be opened. Their names stand in byte order, none twice.
    pub fn new(alloc: Global, rows: Vec<StoredRow>) -> SureKeeper
        requires rising { are_rising (map row_name rows.items) ≡ true }
        ensures opened { result.opened ≡ None }
        ensures rows { result.rows ≡ rows.items }
    {
        SureKeeper {
            alloc,
            opened: None,
            rows,
        }
    }

    /// Its rows, in byte order of their names.
    pub fn rows(&self) -> &[StoredRow]
        ensures rows { result.now ≡ self.now.rows }
        ensures rising { are_rising (map row_name self.now.rows) ≡ true }
    {
        &self.rows
    }
}

impl Keeper for SureKeeper {
    ghost use Rattle.keepers.specs.Kept.{cell_of};

    ghost opened = { λ k. k.opened };

    ghost cell = { λ k. cell_of k.rows };

    ghost fault_count = { λ _. 0 };

    fn faults(&self) -> u64 {
        0
    }

    #[tactic(auto, using(crate::proofs::Rising::stays))]
    fn open_store(&mut self, file: &str) -> Result<(), StoreError> {
        self.opened = Some(Text::new(self.alloc, file)?);
        Ok(())
    }

    #[tactic(auto, using(crate::proofs::Rising::stays, crate::proofs::Rising::lists))]
    fn load(&mut self, into: &mut Vec<StoredRow>) -> Result<(), StoreError> {
        into.clear();
        sorted::add_copies(&self.rows, into)?;
        Ok(())
    }

    #[tactic(auto, using(crate::proofs::Rising::stays, crate::proofs::Rising::replaces))]
    fn replace(&mut self, gone: &[Text], rows: &[StoredRow]) -> Result<(), StoreError> {
        let mut next = Vec::new(self.alloc);
        sorted::add_copies(&self.rows, &mut next)?;
        let rest = sorted::without_all(self.alloc, next, gone)?;
        self.rows = sorted::with_all(self.alloc, rest, rows)?;
        Ok(())
    }
}
