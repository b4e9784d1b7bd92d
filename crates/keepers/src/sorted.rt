ghost use Rattle.std.specs.Prelude.{◌≡◌, ◌++◌, ◌∷◌, IfOk, OnOk};
ghost use Rattle.keepers.specs.Keeping.{all_gone, all_set};
ghost use Rattle.keepers.specs.Sorted.{without, with_row, Becomes};

use base::Text;
use std::alloc::{AllocError, Global};
use std::cmp::Ordering;
use stored_rows::StoredRow;

/// Copies the rows behind those that are there.
pub(crate) fn add_copies(rows: &[StoredRow], into: &mut Vec<StoredRow>) -> Result<(), AllocError>
    ensures { OnOk result (into.new.items ≡ into.old.items ++ rows.now) }
{
    for row in rows {
        into.push(row.share()?)?;
    }
    Ok(())
}

/// The rows with other names.
fn without(alloc: Global, rows: &[StoredRow], name: &str) -> Result<Vec<StoredRow>, AllocError>
    ensures { IfOk result (λ rest. rest.items ≡ without name.now rows.now) }
{
    let mut rest = Vec::new(alloc);
    for row in rows {
        if row.name.as_str() != name {
            rest.push(row.share()?)?;
        }
    }
    Ok(rest)
}

/// The rows so far, this one behind them, and the rest behind it.
fn placed(
    next: Vec<StoredRow>,
    new: &StoredRow,
    rest: &[StoredRow],
) -> Result<Vec<StoredRow>, AllocError>
    ensures { IfOk result (λ all. all.items ≡ next.items ++ new.now ∷ rest.now) }
{
    let mut all = next;
    all.push(new.share()?)?;
    add_copies(rest, &mut all)?;
    Ok(all)
}

/// The rows with this one at its place, instead of the one with its name.
fn with_row(
    alloc: Global,
    rows: &[StoredRow],
    new: &StoredRow,
) -> Result<Vec<StoredRow>, AllocError>
    ensures { IfOk result (λ next. next.items ≡ with_row new.now rows.now) }
{
    let mut next = Vec::new(alloc);
    for i in 0..rows.len() {
        match rows[i].name.as_str().cmp(new.name.as_str()) {
            Ordering::Less => next.push(rows[i].share()?)?,
            Ordering::Equal => return placed(next, new, &rows[i + 1..]),
            Ordering::Greater => return placed(next, new, &rows[i..]),
        }
    }
    placed(next, new, &[])
}

/// Takes the names out, one after the other.
pub(crate) fn without_all(
    alloc: Global,
    rows: Vec<StoredRow>,
    names: &[Text],
) -> Result<Vec<StoredRow>, AllocError>
    ensures { IfOk result (λ rest. Becomes (all_gone names.now) rows.items rest.items) }
{
    let mut rest = rows;
    for name in names {
        rest = without(alloc, &rest, name.as_str())?;
    }
    Ok(rest)
}

/// Sets the rows, one after the other.
pub(crate) fn with_all(
    alloc: Global,
    rows: Vec<StoredRow>,
    set: &[StoredRow],
) -> Result<Vec<StoredRow>, AllocError>
    ensures { IfOk result (λ next. Becomes (all_set set.now) rows.items next.items) }
{
    let mut next = rows;
    for row in set {
        next = with_row(alloc, &next, row)?;
    }
    Ok(next)
}
