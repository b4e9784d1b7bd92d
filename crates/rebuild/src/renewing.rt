//! The rows of a Take.

ghost use Rattle.std.specs.Prelude.{◌≡◌, ◌<◌, ◌≤◌, ◌+◌, true, IfOk, IfErr, OnOk, OnErr, length, map, get_or, slice_set};
ghost use Rattle.object_names.specs.Objects.{are_rising};
ghost use Rattle.load_path.specs.Pictures.{is_rising};
ghost use Rattle.engine_turns.specs.Places.{names};
ghost use Rattle.engine_turns.specs.Ready.{IsReady};
ghost use Rattle.rebuild.specs.Taking.{new_row, counter_after};
ghost use Rattle.rebuild.specs.declared.taking.TakeError.TheVariants.{Memory};
ghost use Rattle.rebuild.specs.Refused.{IsSpent, IsRefused};
ghost use Rattle.rebuild.specs.Renewing.{reopened, taken_rows, IsRenewed, IsTaken, IsPictureTaken};
ghost use Rattle.read_index.specs.Readers.{asks};
ghost use Rattle.rebuild.specs.Engines.{situation_of};
ghost use Rattle.rebuild.specs.Reaching.{AreIndexed};
ghost use Rattle.base.specs.declared.limits.TheConstants.{MAX_OBJECTS};

use crate::answers::turns_left;
use crate::found_objects::{FoundObjects, objects_again};
use crate::keeping::kept_entries;
use crate::reaching::{add_missing, add_moved, bring_up, clear_all, is_touched_first, touch};
use crate::taking::{TakeError, number_files};
use base::Steps;
use base::limits::MAX_OBJECTS;
use engine_turns::{Cause, Core, Row, enter_all, row_near};
use foreign_values::Chain;
use load_path::{Picture, PictureFile};
use path_numbers::PathTable;
use path_tree::Name;
use read_index::Index;
use std::alloc::Global;
use std::sync::ledger::Ledger;

/// A fresh row for each object.
pub(crate) fn fresh_rows<T: Drop>(alloc: Global, objects: &[Name]) -> Result<Vec<Row<T>>, TakeError>
    ensures rows { IfOk result (λ rows. rows.items ≡ map new_row objects.now) }
    ensures refused { IfErr result (λ e. e ≡ Memory) }
{
    let mut rows = Vec::new(alloc);
    for object in objects {
        let name = object.share()?;
        rows.push(Row {
            name,
            last: None,
            paths: PathTable::new(),
            build: None,
            check: None,
            open_build: true,
            open_check: true,
            held: None,
            run: false,
            cause: Cause::NotRun,
            touched: true,
        })?;
    }
    Ok(rows)
}

/// Both parts of an object become unsettled, and it has no paths.
fn reopen<T: Drop>(row: &mut Row<T>, settled: bool)
    ensures { row.new ≡ reopened settled row.old }
{
    row.touched = is_touched_first(row, settled);
    row.open_build = true;
    row.open_check = true;
    row.held = None;
    row.paths = PathTable::new();
}

/// A fresh row takes what was kept of its object, and leaves itself in its place.
fn renew<T: Drop>(fresh: &mut Row<T>, old: &mut Row<T>, settled: bool)
    ensures fresh { fresh.new ≡ reopened settled old.old }
    ensures old { old.new ≡ fresh.old }
{
    std::mem::swap(fresh, old);
    reopen(fresh, settled);
}

/// The fresh row at this place takes what was kept of its object.
fn renew_at<T: Drop>(fresh: &mut Vec<Row<T>>, at: usize, old: &mut Vec<Row<T>>, settled: bool)
    requires within { at < length fresh.old.items }
    requires rising { are_rising (names old.old.items) ≡ true }
    ensures { IsRenewed settled at fresh.old.items old.old.items fresh.new.items old.new.items }
{
    if let Some(place) = row_near(old, at, &fresh[at].name) {
        renew(&mut fresh[at], &mut old[place], settled);
    }
}

/// Fresh rows take what was kept of their objects. `settled` says that all was settled before.
pub(crate) fn renew_all<T: Drop>(
    fresh: &mut Vec<Row<T>>,
    old: &mut Vec<Row<T>>,
    objects: &[Name],
    settled: bool,
)
    requires objects { are_rising objects.now ≡ true }
    requires rising { are_rising (names old.old.items) ≡ true }
    requires fresh { fresh.old.items ≡ map new_row objects.now }
    ensures { fresh.new.items ≡ taken_rows settled old.old.items objects.now }
{
    let count = objects.len();
    let mut at = 0;
    while at < count {
        renew_at(fresh, at, old, settled);
        at += 1;
    }
}

/// The data after a picture with these files and objects was taken. All memory is taken before the data changes.
fn take_files<T: Drop, L: Ledger>(
    alloc: Global,
    core: &mut Core<T>,
    index: &mut Index,
    files: &[PictureFile],
    objects: &[Name],
    steps: &mut Steps<L>,
) -> Result<(), TakeError>
    requires ready { IsReady core.old }
    requires few { length core.old.rows.items ≤ MAX_OBJECTS }
    requires rising { is_rising files.now ≡ true }
    requires objects { are_rising objects.now ≡ true }
    ensures taken { OnOk result (IsTaken (asks index.old) files.now objects.now core.old core.new) }
    ensures indexed { AreIndexed (asks index.old) (situation_of core.old)
        → AreIndexed (asks index.new) (situation_of core.new) }
    ensures before { OnErr result (core.new ≡ core.old) }
    ensures steps { OnOk result (steps.new ≡ steps.old + length files.now) }
    ensures refused { IfErr result (λ e. IsSpent e
        (counter_after core.old.files.items core.old.counter files.now)) }
    ensures refused_steps { OnErr result (steps.new ≤ steps.old + length files.now) }
{
    let mut rows = fresh_rows(alloc, objects)?;
    let mut counter = core.counter;
    let numbered = number_files(alloc, &core.files, files, &mut counter, steps)?;
    let entries = kept_entries(alloc, &core.rows, objects)?;
    let settled = turns_left(core) == 0;
    let mut moved = Vec::new(alloc);
    add_missing(alloc, &mut moved, &core.rows, &rows)?;
    let gone = moved.len();
    add_moved(alloc, &mut moved, core, &rows, &numbered, settled)?;
    bring_up(alloc, index, &core.rows, settled)?;
    let reached = index.reached(alloc, &moved)?;
    clear_all(index, &moved[..gone]);
    renew_all(&mut rows, &mut core.rows, objects, settled);
    touch(&mut rows, &reached);
    enter_all(&mut rows, entries);
    core.counter = counter;
    core.files = numbered;
    core.rows = rows;
    core.chain = Chain::new(alloc);
    core.first_build = 0;
    core.first_check = 0;
    Ok(())
}

/// The data after a picture was taken.
pub(crate) fn take_picture<T: Drop, L: Ledger>(
    alloc: Global,
    core: &mut Core<T>,
    index: &mut Index,
    last: &mut Option<FoundObjects>,
    picture: &Picture,
    steps: &mut Steps<L>,
) -> Result<(), TakeError>
    requires ready { IsReady core.old }
    requires few { length core.old.rows.items ≤ MAX_OBJECTS }
    ensures taken { OnOk result (IsPictureTaken (asks index.old) picture.now core.old core.new) }
    ensures indexed { AreIndexed (asks index.old) (situation_of core.old)
        → AreIndexed (asks index.new) (situation_of core.new) }
    ensures before { OnErr result (core.new ≡ core.old) }
    ensures steps { OnOk result (steps.new ≡ steps.old + length picture.now) }
    ensures refused { IfErr result (λ e. IsRefused core.old.files.items core.old.counter picture.now
        core.old.dirs e) }
    ensures refused_steps { OnErr result (steps.new ≤ steps.old + length picture.now) }
{
    let found = objects_again(alloc, last, picture, core.dirs.as_slice())?;
    if found.len() > MAX_OBJECTS {
        return Err(TakeError::TooManyObjects);
    }
    take_files(alloc, core, index, picture.files(), &found, steps)
}
