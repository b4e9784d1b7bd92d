ghost use Rattle.std.specs.Prelude.{◌≡◌, true, IfOk, OnErr};
ghost use Rattle.sqlite.specs.Held.{state};
ghost use Rattle.sqlite.specs.State.{HasCleanDisk, Survives};
ghost use Rattle.keepers.specs.Keeping.{Lists, unchanged, replaced};
ghost use Rattle.row_table.specs.Steps.{Holds};
ghost use Rattle.row_table.specs.Cells.{cells, Turns, TurnsIf};

use crate::ours::{is_empty, is_ours};
use crate::{queries, readings, statements};
use base::Text;
use sqlite::{Alter, Connection, Error};
use stored_rows::{StoredRow, are_rising};

/// Makes the table where there is nothing. False where there is something else.
#[tactic(auto, using(crate::proofs::Turning::turns_itself, crate::proofs::Turning::turns_stays))]
pub fn make_ready<S: Alter>(conn: &mut Connection<S>) -> Result<bool, Error>
    ensures same { Turns unchanged (state S.Store conn.old) (state S.Store conn.new) }
    ensures survives { Survives (state S.Store conn.old) (state S.Store conn.new) (Holds unchanged
        (state S.Store conn.old)) }
{
    if !conn.is_autocommit() {
        return Ok(false);
    }
    if is_ours(conn.schema()) {
        return Ok(true);
    }
    if !is_empty(conn.schema()) {
        return Ok(false);
    }
    statements::make_table(conn)?;
    Ok(true)
}

/// Reads all rows. False where the table is not the keeper's, or its names do not rise.
#[tactic(auto, using(crate::proofs::Turning::turns_itself, crate::proofs::Turning::lists_read))]
pub fn read_rows<S: Alter>(
    conn: &mut Connection<S>,
    into: &mut Vec<StoredRow>,
) -> Result<bool, Error>
    ensures listed { IfOk result (λ yes. yes ≡ true → Lists (cells (state S.Store conn.new))
        into.new.items) }
    ensures same { Turns unchanged (state S.Store conn.old) (state S.Store conn.new) }
    ensures survives { Survives (state S.Store conn.old) (state S.Store conn.new) (λ _. ⊥) }
{
    if !conn.is_autocommit() || !is_ours(conn.schema()) {
        return Ok(false);
    }
    let rows = queries::all_rows(conn)?;
    readings::kept_rows(&rows, into)?;
    Ok(are_rising(into))
}

/// Makes the changes. False where the table is not the keeper's, or a rowid in it comes twice.
#[tactic(auto, using(crate::proofs::Turning::turns_itself, crate::proofs::Turning::turns_stays, crate::proofs::Turning::turns_then))]
pub fn write_rows<S: Alter>(
    conn: &mut Connection<S>,
    gone: &[Text],
    rows: &[StoredRow],
) -> Result<bool, Error>
    ensures done { IfOk result (λ yes. yes ≡ true → HasCleanDisk (state S.Store conn.new)
        → Holds (replaced gone.now rows.now) (state S.Store conn.old) (state S.Store
        conn.new).now.trees) }
    ensures turned { IfOk result (λ yes. TurnsIf yes (replaced gone.now rows.now) (state S.Store
        conn.old) (state S.Store conn.new)) }
    ensures kept { OnErr result (Turns unchanged (state S.Store conn.old) (state S.Store
        conn.new)) }
    ensures survives { Survives (state S.Store conn.old) (state S.Store conn.new) (Holds (replaced
        gone.now rows.now) (state S.Store conn.old)) }
{
    if !conn.is_autocommit() || !is_ours(conn.schema()) {
        return Ok(false);
    }
    let ids = queries::id_rows(conn)?;
    if !readings::ids_rise(&ids) {
        return Ok(false);
    }
    statements::replace_rows(conn, gone, rows)?;
    Ok(true)
}
