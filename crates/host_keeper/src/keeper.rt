ghost use Rattle.std.specs.Prelude.{◌≡◌, IfOk, IsSome, None, OnOk, Some, option_copied};
ghost use Rattle.keepers.specs.Keeping.{Lists};

use crate::troubles::Troubles;
use base::Text;
use keepers::Keeper;
use outside::{StoreError, Trouble};
use sqlite::{Alter, Connection, File, FileStore};
use sqlite_keeper::{Refusal, SqliteKeeper, store_error};
use std::alloc::Global;
use stored_rows::StoredRow;

/// A keeper over a file of the host, which is made where it is missing.
///
/// It tells the file that it was opened with, and nothing of its rows. What stands beside the file
/// belongs to it, until `close` copies it back: the log of the changes. Its last failure is kept in
/// words.
pub struct HostKeeper {
    rt: HostRuntime,
    opened: Option<OpenFile>,
    troubles: Troubles,
}

// The types here are let go by one call at each exit of who holds one: a derived Drop would let go of each part there.
impl Drop for HostKeeper {
    fn drop(self) {
        let HostKeeper {
            rt: _rt,
            opened: _opened,
            troubles: _troubles,
        } = self;
    }
}

/// A file that is open, by its name, and the keeper over it.
struct OpenFile {
    name: Text,
    keeper: SqliteKeeper<FileStore<File>>,
    ghost ready: { IsSome keeper.opened },
}

impl Drop for OpenFile {
    fn drop(self) {
        let OpenFile {
            name: _name,
            keeper: _keeper,
        } = self;
    }
}

impl OpenFile {
    fn into_keeper(self) -> SqliteKeeper<FileStore<File>> {
        let OpenFile {
            name: _name,
            keeper,
        } = self;
        keeper
    }
}

/// A keeper over this connection, made ready.
fn ready_over<S: Alter + Drop>(
    alloc: Global,
    connection: Connection<S>,
    file: &str,
) -> Result<SqliteKeeper<S>, (StoreError, Refusal)>
    ensures { IfOk result (λ keeper. IsSome keeper.opened) }
{
    let mut keeper = SqliteKeeper::adopt(alloc, connection);
    match keeper.open_store(file) {
        Ok(()) => Ok(keeper),
        Err(error) => Err((error, keeper.refusal())),
    }
}

/// Puts a value where none or another one was.
fn put<T: Drop>(place: &mut Option<T>, value: T)
    ensures { place.new ≡ Some value }
{
    *place = Some(value);
}

/// Loads the rows; and why that failed, where it did.
fn load_from<S: Alter + Drop>(
    keeper: &mut SqliteKeeper<S>,
    into: &mut Vec<StoredRow>,
) -> (Result<(), StoreError>, Refusal)
    requires { IsSome keeper.old.opened }
    ensures opened { IsSome keeper.new.opened }
    ensures ok { OnOk result.0 (Lists (λ _. None) into.new.items) }
{
    let done = keeper.load(into);
    (done, keeper.refusal())
}

/// Replaces rows; and why that failed, where it did.
fn replace_in<S: Alter + Drop>(
    keeper: &mut SqliteKeeper<S>,
    gone: &[Text],
    rows: &[StoredRow],
) -> (Result<(), StoreError>, Refusal)
    requires { IsSome keeper.old.opened }
    ensures { IsSome keeper.new.opened }
{
    let done = keeper.replace(gone, rows);
    (done, keeper.refusal())
}

/// Opens the file, and makes the keeper over it ready.
fn open(rt: &HostRuntime, name: Text) -> Result<OpenFile, (StoreError, Refusal)>
    ensures { IfOk result (λ file. file.name ≡ name) }
{
    match Connection::open(rt, name.as_str()) {
        Ok(connection) => {
            let keeper = ready_over(rt.alloc(), connection, name.as_str())?;
            Ok(OpenFile { name, keeper })
        }
        Err(error) => Err((store_error(&error), Refusal::Database(error))),
    }
}

impl HostKeeper {
    /// A keeper that is still to be opened.
    pub fn new(rt: HostRuntime) -> HostKeeper
        ensures opened { result.opened ≡ None }
        ensures faults { result.troubles.faults.count ≡ 0 }
    {
        HostKeeper {
            rt,
            opened: None,
            troubles: Troubles::new(),
        }
    }

    /// The last failure in words; None where there was none, or memory for the words was wanting.
    pub fn trouble(&self) -> Option<&Trouble>
        ensures { option_copied result ≡ self.now.troubles.last }
    {
        self.troubles.last()
    }

    /// Copies the log back into the file and closes both. Where that fails the log has what the file
    /// lacks, and the next opening reads it.
    pub fn close(self) -> Result<(), StoreError> {
        let HostKeeper {
            rt: _,
            opened,
            troubles: _,
        } = self;
        let Some(file) = opened else {
            return Ok(());
        };
        match file.into_keeper().into_connection().close() {
            Ok(()) => Ok(()),
            Err(error) => Err(store_error(&error)),
        }
    }
}

impl Keeper for HostKeeper {
    ghost use Rattle.std.specs.Prelude.{None, option_map};
    ghost use Rattle.host_keeper.specs.declared.keeper.OpenFile.{OpenFile};

    ghost opened = { λ k. option_map (λ (file : OpenFile). file.name) k.opened };

    ghost cell = { λ _ _. None };

    ghost fault_count = { λ k. k.troubles.faults.count };

    fn faults(&self) -> u64 {
        self.troubles.count()
    }

    fn open_store(&mut self, file: &str) -> Result<(), StoreError> {
        let name = Text::new(self.rt.alloc(), file)?;
        match open(&self.rt, name) {
            Ok(file) => {
                put(&mut self.opened, file);
                Ok(())
            }
            Err((error, why)) => {
                let alloc = self.rt.alloc();
                self.troubles.judge(alloc, file, Err(error), why)
            }
        }
    }

    fn load(&mut self, into: &mut Vec<StoredRow>) -> Result<(), StoreError> {
        let Some(mut file) = self.opened.take() else {
            unreachable!();
        };
        let (done, why) = load_from(&mut file.keeper, into);
        let alloc = self.rt.alloc();
        let judged = self.troubles.judge(alloc, file.name.as_str(), done, why);
        put(&mut self.opened, file);
        judged
    }

    fn replace(&mut self, gone: &[Text], rows: &[StoredRow]) -> Result<(), StoreError> {
        let Some(mut file) = self.opened.take() else {
            unreachable!();
        };
        let (done, why) = replace_in(&mut file.keeper, gone, rows);
        let alloc = self.rt.alloc();
        let judged = self.troubles.judge(alloc, file.name.as_str(), done, why);
        put(&mut self.opened, file);
        judged
    }
}
