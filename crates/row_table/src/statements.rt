ghost use Rattle.std.specs.Prelude.{◌≡◌, None, OnOk, OnErr, IsTrue, false};
ghost use Rattle.sqlite.specs.Held.{state};
ghost use Rattle.sqlite.specs.State.{HasCleanDisk, Survives};
ghost use Rattle.keepers.specs.Keeping.{gone, set, all_gone, all_set, replaced, unchanged};
ghost use Rattle.row_table.specs.Rows.{held};
ghost use Rattle.row_table.specs.Steps.{IsStep, Makes, IsOurs, Holds, StaysAs, IsBare, IsNew, IsMade};
ghost use Rattle.row_table.specs.Table.{no_schema};
ghost use Rattle.row_table.specs.Cells.{Turns};

use base::Text;
use sqlite::{Alter, Connection, Error, Transaction, params};
use stored_rows::StoredRow;

/// Takes the name out.
fn take_row<S: Alter>(tx: &mut Transaction<'_, S>, name: &str) -> Result<usize, Error>
    ensures same_reference { tx.new.conn.ghost_name ≡ tx.old.conn.ghost_name }
    ensures step { IsStep (state S.Store tx.old.conn.now) (state S.Store tx.new.conn.now) }
    ensures done { OnOk result (Makes (gone name.now) (state S.Store tx.old.conn.now)
        (state S.Store tx.new.conn.now)) }
{
    tx.execute("DELETE FROM rows WHERE name = ?1", params![name])
}

/// Gives a name that is absent its bytes.
fn add_row<S: Alter>(tx: &mut Transaction<'_, S>, name: &str, bytes: &[u8]) -> Result<usize, Error>
    ensures same_reference { tx.new.conn.ghost_name ≡ tx.old.conn.ghost_name }
    ensures step { IsStep (state S.Store tx.old.conn.now) (state S.Store tx.new.conn.now) }
    ensures done { held ((state S.Store tx.old.conn.now).now.trees 0) name.now ≡ None
        → OnOk result (Makes (set name.now bytes.now) (state S.Store tx.old.conn.now)
        (state S.Store tx.new.conn.now)) }
{
    tx.execute(
        "INSERT INTO rows (name, bytes) VALUES (?1, ?2)",
        params![name, bytes],
    )
}

/// Gives a name its bytes.
fn set_row<S: Alter>(tx: &mut Transaction<'_, S>, name: &str, bytes: &[u8]) -> Result<(), Error>
    ensures same_reference { tx.new.conn.ghost_name ≡ tx.old.conn.ghost_name }
    ensures step { IsStep (state S.Store tx.old.conn.now) (state S.Store tx.new.conn.now) }
    ensures done { OnOk result (Makes (set name.now bytes.now) (state S.Store tx.old.conn.now)
        (state S.Store tx.new.conn.now)) }
{
    take_row(tx, name)?;
    add_row(tx, name, bytes)?;
    Ok(())
}

/// Takes the names out, one after the other.
fn take_rows<S: Alter>(tx: &mut Transaction<'_, S>, names: &[Text]) -> Result<(), Error>
    ensures same_reference { tx.new.conn.ghost_name ≡ tx.old.conn.ghost_name }
    ensures step { IsStep (state S.Store tx.old.conn.now) (state S.Store tx.new.conn.now) }
    ensures done { OnOk result (Makes (all_gone names.now) (state S.Store tx.old.conn.now)
        (state S.Store tx.new.conn.now)) }
{
    for name in names {
        take_row(tx, name.as_str())?;
    }
    Ok(())
}

/// Sets the rows, one after the other.
fn set_rows<S: Alter>(tx: &mut Transaction<'_, S>, rows: &[StoredRow]) -> Result<(), Error>
    ensures same_reference { tx.new.conn.ghost_name ≡ tx.old.conn.ghost_name }
    ensures step { IsStep (state S.Store tx.old.conn.now) (state S.Store tx.new.conn.now) }
    ensures done { OnOk result (Makes (all_set rows.now) (state S.Store tx.old.conn.now)
        (state S.Store tx.new.conn.now)) }
{
    for row in rows {
        set_row(tx, row.name.as_str(), row.bytes.as_slice())?;
    }
    Ok(())
}

/// First takes the names out, then sets the rows.
fn change_rows<S: Alter>(
    tx: &mut Transaction<'_, S>,
    names: &[Text],
    rows: &[StoredRow],
) -> Result<(), Error>
    ensures same_reference { tx.new.conn.ghost_name ≡ tx.old.conn.ghost_name }
    ensures step { IsStep (state S.Store tx.old.conn.now) (state S.Store tx.new.conn.now) }
    ensures done { OnOk result (Makes (replaced names.now rows.now) (state S.Store tx.old.conn.now)
        (state S.Store tx.new.conn.now)) }
{
    take_rows(tx, names)?;
    set_rows(tx, rows)?;
    Ok(())
}

/// The same as one transaction.
pub(crate) fn replace_rows<S: Alter>(
    conn: &mut Connection<S>,
    names: &[Text],
    rows: &[StoredRow],
) -> Result<(), Error>
    requires closed { conn.old.in_transaction ≡ false }
    requires ours { IsOurs (state S.Store conn.old) }
    ensures closed { conn.new.in_transaction ≡ false }
    ensures done { HasCleanDisk (state S.Store conn.new) → OnOk result (Holds (replaced names.now
        rows.now) (state S.Store conn.old) (state S.Store conn.new).now.trees) }
    ensures undone { OnErr result (StaysAs (state S.Store conn.old) (state S.Store conn.new)) }
    ensures turned { OnOk result (Turns (replaced names.now rows.now) (state S.Store conn.old)
        (state S.Store conn.new)) }
    ensures survives { Survives (state S.Store conn.old) (state S.Store conn.new) (Holds (replaced
        names.now rows.now) (state S.Store conn.old)) }
{
    let mut tx = conn.transaction();
    change_rows(&mut tx, names, rows)?;
    tx.commit()?;
    Ok(())
}

/// Makes the table.
fn add_table<S: Alter>(tx: &mut Transaction<'_, S>) -> Result<usize, Error>
    ensures same_reference { tx.new.conn.ghost_name ≡ tx.old.conn.ghost_name }
    ensures step { IsStep (state S.Store tx.old.conn.now) (state S.Store tx.new.conn.now) }
    ensures done { OnOk result (HasCleanDisk (state S.Store tx.new.conn.now)
        → IsBare (state S.Store tx.old.conn.now) → IsNew (state S.Store tx.new.conn.now)) }
{
    tx.execute(
        "CREATE TABLE rows (name TEXT PRIMARY KEY NOT NULL, bytes BLOB NOT NULL) STRICT",
        &[],
    )
}

/// Makes the table as one transaction.
pub(crate) fn make_table<S: Alter>(conn: &mut Connection<S>) -> Result<(), Error>
    requires closed { conn.old.in_transaction ≡ false }
    requires bare { (state S.Store conn.old).now.schema ≡ no_schema }
    requires settled { IsTrue (state S.Store conn.old).is_open → (state S.Store conn.old).now
        ≡ (state S.Store conn.old).committed }
    ensures closed { conn.new.in_transaction ≡ false }
    ensures done { HasCleanDisk (state S.Store conn.new) → OnOk result (IsMade (state S.Store
        conn.new).now) }
    ensures undone { OnErr result (StaysAs (state S.Store conn.old) (state S.Store conn.new)) }
    ensures turned { OnOk result (Turns unchanged (state S.Store conn.old) (state S.Store
        conn.new)) }
    ensures survives { Survives (state S.Store conn.old) (state S.Store conn.new) (Holds unchanged
        (state S.Store conn.old)) }
{
    let mut tx = conn.transaction();
    add_table(&mut tx)?;
    tx.commit()?;
    Ok(())
}
