ghost use Rattle.std.specs.Prelude.{◌≡◌, false, true, None, IfOk, IsTrue};
ghost use Rattle.keepers.specs.Keeping.{unchanged};
ghost use Rattle.row_table.specs.Cells.{Turns};
ghost use Rattle.sqlite.specs.Held.{state};
ghost use Rattle.sqlite.specs.State.{HasCleanDisk, Survives};
ghost use Rattle.row_table.specs.Table.{row_schema};
ghost use Rattle.row_table.specs.Rows.{AreNumbered, ids_rise};
ghost use Rattle.row_table.specs.Steps.{IsReading, Spells};

use sqlite::{Alter, Connection, Error, Row};

/// The rowids of the table, in order.
pub(crate) fn id_rows<S: Alter>(conn: &mut Connection<S>) -> Result<Vec<Row>, Error>
    requires ours { (state S.Store conn.old).now.schema ≡ row_schema }
    ensures shown { HasCleanDisk (state S.Store conn.new) → IfOk result (λ rows. ids_rise None
        rows.items ≡ true → AreNumbered ((state S.Store conn.old).now.trees 0)) }
    ensures reading { HasCleanDisk (state S.Store conn.new) → IsReading (state S.Store conn.old)
        (state S.Store conn.new) result }
    ensures turns { (IsTrue (state S.Store conn.old).is_open → (state S.Store conn.old).now
        ≡ (state S.Store conn.old).committed) → Turns unchanged (state S.Store conn.old)
        (state S.Store conn.new) }
    ensures closed { conn.old.in_transaction ≡ false → conn.new.in_transaction ≡ false }
    ensures survives { Survives (state S.Store conn.old) (state S.Store conn.new) (λ _. ⊥) }
{
    conn.query_all("SELECT rowid FROM rows ORDER BY rowid", &[])
}

/// All rows, in byte order of their names.
pub(crate) fn all_rows<S: Alter>(conn: &mut Connection<S>) -> Result<Vec<Row>, Error>
    requires ours { (state S.Store conn.old).now.schema ≡ row_schema }
    ensures shown { HasCleanDisk (state S.Store conn.new) → IfOk result (λ rows. Spells (state
        S.Store conn.old) rows.items) }
    ensures reading { HasCleanDisk (state S.Store conn.new) → IsReading (state S.Store conn.old)
        (state S.Store conn.new) result }
    ensures turns { (IsTrue (state S.Store conn.old).is_open → (state S.Store conn.old).now
        ≡ (state S.Store conn.old).committed) → Turns unchanged (state S.Store conn.old)
        (state S.Store conn.new) }
    ensures closed { conn.old.in_transaction ≡ false → conn.new.in_transaction ≡ false }
    ensures survives { Survives (state S.Store conn.old) (state S.Store conn.new) (λ _. ⊥) }
{
    conn.query_all("SELECT name, bytes FROM rows ORDER BY name", &[])
}
