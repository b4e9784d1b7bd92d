ghost use Rattle.std.specs.Prelude.{◌≡◌, ◌⊎◌, IfOk, IfErr, OnOk, Err, None, Some};
ghost use Rattle.outside.specs.Causes.{HasCause, Counted};
ghost use Rattle.kept_state.specs.Stored.{stored};
ghost use Rattle.record_rows.specs.Rows.{Give};
ghost use Rattle.keepers.specs.Keeping.{Follows, Lists, unchanged};
ghost use Rattle.state_file.specs.Refused.{GiveNothing, IsBad};

use keepers::Keeper;
use kept_state::Kept;
use outside::StoreError;
use record_rows::{RowsError, decode};
use std::alloc::Global;
use stored_rows::StoredRow;

/// What a state file holds.
#[derive(Drop)]
pub struct Loaded {
    /// The rows, in byte order of names.
    pub rows: Vec<StoredRow>,
    /// What they give.
    pub kept: Kept,
}

/// Why a state file was not read.
#[derive(Clone, Copy, PartialEq, Eq)]
pub enum LoadError {
    /// A call on the keeper failed.
    Failed,
    /// The rows are none that a state has.
    BadRows,
    /// Memory was wanting.
    Memory,
}

/// Opens a file, and lists its rows.
#[tactic(auto, using(crate::proofs::Steps::follows_on))]
fn rows_of<K: Keeper>(
    alloc: Global,
    keeper: &mut K,
    file: &str,
) -> Result<Vec<StoredRow>, StoreError>
    requires closed { K.opened keeper.old ≡ None }
    ensures rows { IfOk result (λ rows. Lists (K.cell keeper.new) rows.items) }
    ensures opened { OnOk result (K.opened keeper.new ≡ Some file.now) }
    ensures perhaps { (K.opened keeper.new ≡ K.opened keeper.old)
        ⊎ (K.opened keeper.new ≡ Some file.now) }
    ensures same { Follows unchanged (K.cell keeper.old) (K.cell keeper.new) }
    ensures cause { HasCause (K.fault_count keeper.old) (K.fault_count keeper.new) result }
{
    keeper.open_store(file)?;
    let mut rows = Vec::new(alloc);
    keeper.load(&mut rows)?;
    Ok(rows)
}

/// What rows give, beside them.
fn read(alloc: Global, rows: Vec<StoredRow>) -> Result<Loaded, LoadError>
    ensures rows { IfOk result (λ l. l.rows.items ≡ rows.items) }
    ensures gives { IfOk result (λ l. Give l.rows.items (stored l.kept)) }
    ensures bad { IfErr result (λ e. e ≡ LoadError.BadRows → GiveNothing rows.items) }
    ensures called { IfErr result (λ e. e ≡ LoadError.Failed → ⊥) }
{
    match decode(alloc, &rows) {
        Ok(kept) => Ok(Loaded { rows, kept }),
        Err(RowsError::BadRows) => Err(LoadError::BadRows),
        Err(RowsError::Memory) => Err(LoadError::Memory),
    }
}

/// Opens the file of a keeper, and reads what an engine kept in it. A file without rows keeps nothing.
///
/// No row is changed. `BadRows` is an answer about the rows that the keeper lists: no state has them.
pub fn load<K: Keeper>(alloc: Global, keeper: &mut K, file: &str) -> Result<Loaded, LoadError>
    requires closed { K.opened keeper.old ≡ None }
    // The rows are all that the keeper tells.
    ensures rows { IfOk result (λ l. Lists (K.cell keeper.new) l.rows.items) }
    ensures gives { IfOk result (λ l. Give l.rows.items (stored l.kept)) }
    ensures bad { IfErr result (λ e. IsBad e (K.cell keeper.new)) }
    ensures opened { OnOk result (K.opened keeper.new ≡ Some file.now) }
    // Bad rows are those of FILE.
    ensures read { IfErr result (λ e. e ≡ LoadError.BadRows → K.opened keeper.new ≡ Some file.now) }
    ensures perhaps { (K.opened keeper.new ≡ K.opened keeper.old)
        ⊎ (K.opened keeper.new ≡ Some file.now) }
    ensures same { Follows unchanged (K.cell keeper.old) (K.cell keeper.new) }
    ensures cause { Counted (result ≡ Err LoadError.Failed) (K.fault_count keeper.old)
        (K.fault_count keeper.new) }
{
    match rows_of(alloc, keeper, file) {
        Ok(rows) => read(alloc, rows),
        Err(StoreError::Failed) => Err(LoadError::Failed),
        Err(StoreError::Memory) => Err(LoadError::Memory),
    }
}
