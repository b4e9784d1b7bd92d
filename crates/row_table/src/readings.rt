ghost use Rattle.std.specs.Prelude.{◌≡◌, [], map, true, false, Some, None, IfOk, OnOk, IsTrue};
ghost use Rattle.sqlite_value.specs.Order.{column};
ghost use Rattle.sqlite_value.specs.declared.value.Value.TheVariants.{Int};
ghost use Rattle.sqlite.specs.Held.{state};
ghost use Rattle.sqlite.specs.State.{HasCleanDisk, Survives};
ghost use Rattle.row_table.specs.Rows.{comes_above, ids_rise, ends, spelled};

use base::{Bytes, Text};
use sqlite::{Error, Row};
use std::cmp::Ordering;
use stored_rows::StoredRow;

fn is_above(last: Option<i64>, id: i64) -> bool
    ensures { result ≡ comes_above last (Int id) }
{
    match last {
        Some(before) => before.cmp(&id) == Ordering::Less,
        None => true,
    }
}

/// Whether each row begins with an integer, and the integers rise.
pub(crate) fn ids_rise(rows: &[Row]) -> bool
    ensures { result ≡ true → ids_rise None rows.now ≡ true }
{
    let mut last = None;
    for row in rows {
        let Ok(id) = row.get::<i64>(0) else {
            return false;
        };
        if !is_above(last, id) {
            return false;
        }
        last = Some(id);
    }
    true
}

fn kept_row(row: &Row) -> Result<StoredRow, Error>
    ensures { IfOk result (λ kept. spelled kept ≡ ends row.now) }
{
    let name: String = row.get(0)?;
    let bytes: Vec<u8> = row.get(1)?;
    Ok(StoredRow {
        name: Text::from_string(name)?,
        bytes: Bytes::from_vec(bytes)?,
    })
}

/// Reads the rows of an answer.
pub(crate) fn kept_rows(rows: &[Row], into: &mut Vec<StoredRow>) -> Result<(), Error>
    ensures { OnOk result (map spelled into.new.items ≡ map ends rows.now) }
{
    into.clear();
    for row in rows {
        into.push(kept_row(row)?)?;
    }
    Ok(())
}
