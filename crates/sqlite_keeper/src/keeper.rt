ghost use Rattle.std.specs.Prelude.{◌≡◌, Ok, Err, true, OnOk, OnErr, IsSome, Some, None};
ghost use Rattle.sqlite.specs.Held.{state};
ghost use Rattle.sqlite.specs.State.{Survives};
ghost use Rattle.outside.specs.Causes.{HasCause};
ghost use Rattle.keepers.specs.Keeping.{Follows, Lists, unchanged, replaced};
ghost use Rattle.row_table.specs.Cells.{cells};
ghost use Rattle.row_table.specs.Steps.{Holds};
ghost use Rattle.sqlite_keeper.specs.Refusals.{IsRefusal, store_error_of, refusal_of};
ghost use Rattle.sqlite_keeper.specs.declared.refusal.Refusal.TheVariants.{NotOpened};

use crate::refusal::Refusal;
use base::Text;
use keepers::Keeper;
use outside::{Faults, StoreError};
use row_table::{make_ready, read_rows, write_rows};
use sqlite::{Alter, Connection, Error, ErrorCode};
use std::alloc::Global;
use stored_rows::StoredRow;

/// A keeper over a connection, whose database has its table and nothing else.
///
/// Its rows are those that the last commit left, as long as the connection is open and its disk
/// returned what was written. A connection with another schema, or within a transaction, is a fault. Why the last call
/// failed is kept.
pub struct SqliteKeeper<S: Alter + Drop> {
    alloc: Global,
    connection: Connection<S>,
    opened: Option<Text>,
    faults: Faults,
    last: Refusal,
}

// By one call at each exit of who holds one: a derived Drop would let go of each part there.
impl<S: Alter + Drop> Drop for SqliteKeeper<S> {
    fn drop(self) {
        let SqliteKeeper {
            alloc: _alloc,
            connection: _connection,
            opened: _opened,
            faults: _faults,
            last: _last,
        } = self;
    }
}

/// What an error of the database is to the caller: want of memory, or else a fault.
pub fn store_error(error: &Error) -> StoreError
    ensures { result ≡ store_error_of error.now }
{
    match error {
        Error::SqliteFailure(ErrorCode::OutOfMemory) => StoreError::Memory,
        _ => StoreError::Failed,
    }
}

/// A call that failed: it is counted, and why it did is kept.
fn refuse(faults: &mut Faults, last: &mut Refusal, why: Refusal) -> Result<(), StoreError>
    ensures cause { HasCause faults.old.count faults.new.count result }
    ensures told { last.new ≡ why }
    ensures failed { result ≡ Err StoreError.Failed }
{
    faults.add();
    *last = why;
    Err(StoreError::Failed)
}

/// What a call on the rows is to the caller, who counts its faults: one that did not do what it is for
/// is a fault, and why it was is kept.
fn judge(
    faults: &mut Faults,
    last: &mut Refusal,
    done: Result<bool, Error>,
) -> Result<(), StoreError>
    ensures cause { HasCause faults.old.count faults.new.count result }
    ensures ok { OnOk result (done ≡ Ok true) }
    ensures err { OnErr result (IsRefusal done) }
    ensures told { result ≡ Err StoreError.Failed → last.new ≡ refusal_of done }
{
    match done {
        Ok(true) => Ok(()),
        Ok(false) => refuse(faults, last, Refusal::OtherTables),
        Err(error) => match store_error(&error) {
            StoreError::Failed => refuse(faults, last, Refusal::Database(error)),
            StoreError::Memory => Err(StoreError::Memory),
        },
    }
}

impl<S: Alter + Drop> SqliteKeeper<S> {
    /// A keeper over this connection, still to be opened.
    pub fn adopt(alloc: Global, connection: Connection<S>) -> SqliteKeeper<S>
        ensures opened { result.opened ≡ None }
        ensures connection { result.connection ≡ connection }
        ensures faults { result.faults.count ≡ 0 }
        ensures last { result.last ≡ NotOpened }
    {
        SqliteKeeper {
            alloc,
            connection,
            opened: None,
            faults: Faults::new(),
            last: Refusal::NotOpened,
        }
    }

    /// Why the last call that failed did; that no rows were opened, where none has failed.
    pub fn refusal(&self) -> Refusal
        ensures { result ≡ self.now.last }
    {
        self.last
    }

    /// Gives the connection back.
    pub fn into_connection(self) -> Connection<S>
        ensures { result ≡ self.connection }
    {
        let SqliteKeeper {
            alloc: _,
            connection,
            opened: _,
            faults: _,
            last: _,
        } = self;
        connection
    }
}

impl<S: Alter + Drop> Keeper for SqliteKeeper<S> {
    ghost use Rattle.sqlite.specs.Held.{state};
    ghost use Rattle.row_table.specs.Cells.{cells};

    ghost opened = { λ k. k.opened };

    ghost cell = { λ k. cells (state S.Store k.connection) };

    ghost fault_count = { λ k. k.faults.count };

    fn faults(&self) -> u64 {
        self.faults.count()
    }

    #[tactic(auto, using(crate::proofs::Following::follows_itself, crate::proofs::Following::follows))]
    fn open_store(&mut self, file: &str) -> Result<(), StoreError>
        requires closed { self.old.opened ≡ None }
        ensures opened { OnOk result (self.new.opened ≡ Some file.now) }
        ensures refused { OnErr result (self.new.opened ≡ self.old.opened) }
        ensures same { Follows unchanged (cells (state S.Store self.old.connection))
            (cells (state S.Store self.new.connection)) }
        ensures cause { HasCause self.old.faults.count self.new.faults.count result }
        // What a crash may leave, it could leave before, or it has the same rows.
        ensures survives { Survives (state S.Store self.old.connection) (state S.Store self.new.connection)
            (Holds unchanged (state S.Store self.old.connection)) }
    {
        let file = Text::new(self.alloc, file)?;
        judge(
            &mut self.faults,
            &mut self.last,
            make_ready(&mut self.connection),
        )?;
        self.opened = Some(file);
        Ok(())
    }

    #[tactic(auto, using(crate::proofs::Following::follows_itself, crate::proofs::Following::follows))]
    fn load(&mut self, into: &mut Vec<StoredRow>) -> Result<(), StoreError>
        requires open { IsSome self.old.opened }
        ensures ok { OnOk result (Lists (cells (state S.Store self.new.connection)) into.new.items) }
        ensures opened { self.new.opened ≡ self.old.opened }
        ensures same { Follows unchanged (cells (state S.Store self.old.connection))
            (cells (state S.Store self.new.connection)) }
        ensures cause { HasCause self.old.faults.count self.new.faults.count result }
        // What a crash may leave, it could leave before.
        ensures survives { Survives (state S.Store self.old.connection)
            (state S.Store self.new.connection) (λ _. ⊥) }
    {
        judge(
            &mut self.faults,
            &mut self.last,
            read_rows(&mut self.connection, into),
        )
    }

    #[tactic(auto, using(crate::proofs::Following::follows_itself, crate::proofs::Following::follows_done, crate::proofs::Following::follows_refused))]
    fn replace(&mut self, gone: &[Text], rows: &[StoredRow]) -> Result<(), StoreError>
        requires open { IsSome self.old.opened }
        ensures ok { OnOk result (Follows (replaced gone.now rows.now)
            (cells (state S.Store self.old.connection)) (cells (state S.Store self.new.connection))) }
        ensures refused { OnErr result (Follows unchanged (cells (state S.Store self.old.connection))
            (cells (state S.Store self.new.connection))) }
        ensures opened { self.new.opened ≡ self.old.opened }
        ensures cause { HasCause self.old.faults.count self.new.faults.count result }
        // What a crash may leave, it could leave before, or all of the change is made.
        ensures survives { Survives (state S.Store self.old.connection) (state S.Store self.new.connection)
            (Holds (replaced gone.now rows.now) (state S.Store self.old.connection)) }
    {
        judge(
            &mut self.faults,
            &mut self.last,
            write_rows(&mut self.connection, gone, rows),
        )
    }
}
