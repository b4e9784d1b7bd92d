ghost use Rattle.std.specs.Prelude.{◌≡◌, IfErr, IsSome, OnOk, OnErr, map, true};
ghost use Rattle.outside.specs.Causes.{HasCause};
ghost use Rattle.outside.specs.declared.error.StoreError.TheVariants.{Failed};
ghost use Rattle.stored_rows.specs.Rows.{row_name, are_rising};
ghost use Rattle.keepers.specs.Keeping.{Follows, Lists, unchanged, replaced};
ghost use Rattle.row_changes.specs.Differing.{gone_from, set_from};

use crate::difference::Changes;
use keepers::Keeper;
use outside::StoreError;
use std::alloc::Global;
use stored_rows::StoredRow;

/// How it went to have rows kept, and which rows are kept now.
#[derive(Drop)]
pub struct Saved {
    /// The rows that are kept now: the wanted ones, or after a refusal those last kept.
    pub rows: Vec<StoredRow>,
    /// Whether the wanted rows are kept, and why not.
    pub result: Result<(), StoreError>,
}

/// Has the wanted rows kept in place of those last kept, by one call of the keeper that tells it
/// what differs, or by none where nothing does. Both lists stand in byte order of names, of which
/// none stands twice.
///
/// A refused call changes no row, so that the rows last kept are still kept and the next call can
/// try again. `Failed` is a refusal of the keeper itself, which rows that are the same do not meet.
pub fn save<K: Keeper>(
    alloc: Global,
    keeper: &mut K,
    last: Vec<StoredRow>,
    wanted: Vec<StoredRow>,
) -> Saved
    requires open { IsSome (K.opened keeper.old) }
    requires last_rises { are_rising (map row_name last.items) ≡ true }
    requires wanted_rises { are_rising (map row_name wanted.items) ≡ true }
    ensures ok { OnOk result.result (result.rows.items ≡ wanted.items) }
    ensures refused { OnErr result.result (result.rows.items ≡ last.items) }
    ensures kept { Lists (K.cell keeper.old) last.items → Lists (K.cell keeper.new)
        result.rows.items }
    ensures told { OnOk result.result (Follows (replaced (gone_from last.items wanted.items)
        (set_from last.items wanted.items)) (K.cell keeper.old) (K.cell keeper.new)) }
    ensures untouched { OnErr result.result (Follows unchanged (K.cell keeper.old) (K.cell
        keeper.new)) }
    ensures same { last.items ≡ wanted.items → keeper.new ≡ keeper.old }
    ensures differ { IfErr result.result (λ e. e ≡ Failed → last.items ≡ wanted.items → ⊥) }
    ensures opened { K.opened keeper.new ≡ K.opened keeper.old }
    ensures cause { HasCause (K.fault_count keeper.old) (K.fault_count keeper.new) result.result }
{
    match tell_changes(alloc, keeper, &last, &wanted) {
        Ok(()) => Saved {
            rows: wanted,
            result: Ok(()),
        },
        Err(error) => Saved {
            rows: last,
            result: Err(error),
        },
    }
}

/// Tells the keeper what differs, and nothing where nothing does.
fn tell_changes<K: Keeper>(
    alloc: Global,
    keeper: &mut K,
    last: &[StoredRow],
    wanted: &[StoredRow],
) -> Result<(), StoreError>
    requires open { IsSome (K.opened keeper.old) }
    requires last_rises { are_rising (map row_name last.now) ≡ true }
    requires wanted_rises { are_rising (map row_name wanted.now) ≡ true }
    ensures told { OnOk result (Follows (replaced (gone_from last.now wanted.now)
        (set_from last.now wanted.now)) (K.cell keeper.old) (K.cell keeper.new)) }
    ensures untouched { OnErr result (Follows unchanged (K.cell keeper.old) (K.cell keeper.new)) }
    ensures same { last.now ≡ wanted.now → keeper.new ≡ keeper.old }
    ensures differ { IfErr result (λ e. e ≡ Failed → last.now ≡ wanted.now → ⊥) }
    ensures opened { K.opened keeper.new ≡ K.opened keeper.old }
    ensures cause { HasCause (K.fault_count keeper.old) (K.fault_count keeper.new) result }
{
    let changes = Changes::between(alloc, last, wanted)?;
    if changes.is_empty() {
        return Ok(());
    }
    keeper.replace(&changes.gone, &changes.set)
}
