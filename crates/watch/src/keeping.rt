ghost use Rattle.std.specs.Prelude.{◌≡◌, ◌≤◌, ℕ, IfOk, IsSome, List, OnErr, Some, map, option_map, true, vec_items};
ghost use Rattle.engine_session.specs.Compiler.{Compiled};
ghost use Rattle.engine_session.specs.Standing.{IsIn};
ghost use Rattle.kept_works.specs.Kept.{rows_by};
ghost use Rattle.pan_ast.specs.declared.work.Limits.{Limits};
ghost use Rattle.session.specs.Sessions.{NotSaved};
ghost use Rattle.stored_rows.specs.Rows.{are_rising, row_name};
ghost use Rattle.watch.specs.Read.{as_saved};
ghost use Rattle.watch.specs.Shelves.{KeepsOver, SavesAs};
ghost use Rattle.watch.specs.Sites.{LeavesUnkept, MayKeep, stocked};
ghost use Rattle.watch.specs.Steps.{IsUnsaved};

use crate::site::Carried;
use engine_session::Works;
use keepers::Keeper;
use kept_works::rows;
use outside::StoreError;
use row_changes::save;
use runner::Runner;
use std::alloc::{AllocError, Global};
use std::mem;
use stored_rows::StoredRow;

/// What became of the rows of a build.
#[derive(Clone, Copy, PartialEq, Eq)]
pub(crate) enum Saving {
    NotSaved,
    IsSaved,
    SaveFailed,
}

/// Keeps what a settled engine has come to in place of the rows kept last. Where the keeper fails, these are still
/// kept.
fn save_rows<R: Runner, K: Keeper>(
    alloc: Global,
    works: &Works<R>,
    keeper: &mut K,
    last: &mut Vec<StoredRow>,
) -> Result<Saving, AllocError>
    requires open { IsSome (K.opened keeper.old) }
    requires rising { are_rising (map row_name last.old.items) ≡ true }
    ensures saved { (dirs : List (List ℕ)) (limits : Limits) (e : Compiled R.Rest)
        → IsIn dirs limits works.now.engine.core e → IfOk result (λ k. SavesAs (as_saved k)
        last.old.items (rows_by dirs limits e) (stocked K.Keeper keeper.old (Some last.old))
        (stocked K.Keeper keeper.new (Some last.new))) }
    ensures unsaved { OnErr result (IsUnsaved NotSaved
        (stocked K.Keeper keeper.old (Some last.old))
        (stocked K.Keeper keeper.new (Some last.new))) }
    ensures rising { are_rising (map row_name last.new.items) ≡ true }
    ensures opened { K.opened keeper.new ≡ K.opened keeper.old }
    ensures later { K.fault_count keeper.old ≤ K.fault_count keeper.new }
{
    let wanted = rows(alloc, works)?;
    let kept_last = mem::replace(last, Vec::new(alloc));
    let saved = save(alloc, keeper, kept_last, wanted);
    *last = saved.rows;
    match saved.result {
        Ok(()) => Ok(Saving::IsSaved),
        Err(StoreError::Failed) => Ok(Saving::SaveFailed),
        Err(StoreError::Memory) => Err(AllocError),
    }
}

/// Keeps what a settled engine has come to, where rows are kept.
pub(crate) fn keep<R: Runner, K: Keeper>(
    alloc: Global,
    works: &Works<R>,
    carried: &mut Carried<K>,
) -> Result<Saving, AllocError>
    requires open { MayKeep K.Keeper carried.old }
    ensures saved { (dirs : List (List ℕ)) (limits : Limits) (e : Compiled R.Rest)
        → IsIn dirs limits works.now.engine.core e → IfOk result (λ k. KeepsOver
        (option_map vec_items carried.old.rows) (rows_by dirs limits e) (as_saved k)
        (stocked K.Keeper carried.old.keeper carried.old.rows)
        (stocked K.Keeper carried.new.keeper carried.new.rows)) }
    ensures unsaved { OnErr result (IsUnsaved NotSaved
        (stocked K.Keeper carried.old.keeper carried.old.rows)
        (stocked K.Keeper carried.new.keeper carried.new.rows)) }
    ensures texts { carried.new.texts ≡ carried.old.texts }
    ensures unkept { LeavesUnkept carried.old carried.new }
    ensures opened { K.opened carried.new.keeper ≡ K.opened carried.old.keeper }
    ensures later { K.fault_count carried.old.keeper ≤ K.fault_count carried.new.keeper }
{
    match &mut carried.rows {
        None => Ok(Saving::NotSaved),
        Some(last) => save_rows(alloc, works, &mut carried.keeper, last),
    }
}
