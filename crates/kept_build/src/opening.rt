ghost use Rattle.std.specs.Prelude.{◌≡◌, IfErr, IfOk, OnOk, Some, None};
ghost use Rattle.engine_session.specs.Standing.{Counts};
ghost use Rattle.keepers.specs.Keeping.{Follows, unchanged};
ghost use Rattle.kept_build.specs.Builds.{Opens, Unbegun};
ghost use Rattle.kept_build.specs.Ends.{IsKeeperFailure, IsLoading, StoreAt};
ghost use Rattle.kept_build.specs.Stores.{HoldsBadRows, Loads, store_of};
ghost use Rattle.kept_build.specs.declared.ends.End.TheVariants.{BadRows};
ghost use Rattle.kept_state.specs.Stored.{stored};
ghost use Rattle.outside.specs.Causes.{Caused};
ghost use Rattle.publication.specs.Listings.{Lists};
ghost use Rattle.site_build.specs.Scenes.{seen};

use crate::ends::End;
use crate::handed::{KeptDevices, KeptWork};
use base::Text;
use keepers::Keeper;
use kept_state::Kept;
use outside::{Lines, Shelf, Sink, Source};
use site_build::{End as BuildEnd, list_shelf, open_shelf, open_source};
use state_file::{LoadError, Loaded, load};
use std::alloc::Global;
use stored_rows::StoredRow;

/// What stands on the shelf and in the keeper before a call begins its work.
#[derive(Drop)]
pub struct Found {
    /// The names on the shelf, in byte order.
    pub listed: Vec<Text>,
    /// The rows that the keeper holds, in byte order of names.
    pub rows: Vec<StoredRow>,
    /// What they give.
    pub kept: Kept,
}

/// Opens the keeper at a file, and reads what an engine kept.
fn load_rows<K: Keeper>(alloc: Global, keeper: &mut K, file: &str) -> Result<Loaded, End>
    requires closed { K.opened keeper.old ≡ None }
    ensures rows { IfOk result (λ l. Loads l.rows.items (stored l.kept) (K.cell keeper.new)) }
    ensures bad { IfErr result (λ e. e ≡ BadRows → HoldsBadRows (K.cell keeper.new)) }
    ensures opened { OnOk result (K.opened keeper.new ≡ Some file.now) }
    ensures at { IfErr result (λ e. StoreAt e file.now (K.opened keeper.old)
        (K.opened keeper.new)) }
    ensures same { Follows unchanged (K.cell keeper.old) (K.cell keeper.new) }
    ensures kind { IfErr result IsLoading }
    ensures cause { Caused IsKeeperFailure (K.fault_count keeper.old) (K.fault_count keeper.new)
        result }
{
    match load(alloc, keeper, file) {
        Ok(loaded) => Ok(loaded),
        Err(LoadError::Failed) => Err(End::Keeper),
        Err(LoadError::BadRows) => Err(End::BadRows),
        Err(LoadError::Memory) => Err(End::Build(BuildEnd::Memory)),
    }
}

/// Opens SOURCE, OUT and the file of the rows, in this order, and reads what stands there. Nothing is changed, taken or run.
pub fn open<S: Source, H: Shelf, K: Keeper, N: Lines, O: Sink>(
    alloc: Global,
    request: &KeptWork<'_>,
    devices: &mut KeptDevices<S, H, K, N, O>,
) -> Result<Found, End>
    requires source_closed { S.opened devices.old.devices.source ≡ None }
    requires shelf_closed { H.opened devices.old.devices.shelf ≡ None }
    requires store_closed { K.opened devices.old.keeper ≡ None }
    ensures listed { IfOk result
        (λ found. Lists found.listed.items (H.cell devices.new.devices.shelf)) }
    ensures ok { IfOk result (λ found. (spent : Counts) → Opens request.now.work.now
        request.now.file.now found.listed.items found.rows.items (stored found.kept)
        (seen S.Source H.Shelf N.Lines O.Sink devices.old.devices spent)
        (seen S.Source H.Shelf N.Lines O.Sink devices.new.devices spent)
        (store_of K.Keeper devices.old.keeper) (store_of K.Keeper devices.new.keeper)) }
    ensures part { IfErr result (λ e. (spent : Counts) → Unbegun request.now.work.now
        request.now.file.now e
        (seen S.Source H.Shelf N.Lines O.Sink devices.old.devices spent)
        (seen S.Source H.Shelf N.Lines O.Sink devices.new.devices spent)
        (store_of K.Keeper devices.old.keeper) (store_of K.Keeper devices.new.keeper)) }
{
    open_source(&mut devices.devices.source, request.work.source.as_str())?;
    open_shelf(&mut devices.devices.shelf, request.work.out.as_str())?;
    let listed = list_shelf(alloc, &mut devices.devices.shelf)?;
    let Loaded { rows, kept } = load_rows(alloc, &mut devices.keeper, request.file)?;
    Ok(Found { listed, rows, kept })
}
