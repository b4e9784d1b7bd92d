ghost use Rattle.std.specs.Prelude.{◌≡◌, ◌≤◌, ◌+◌, IfOk, IfSome, None, option_copied};
ghost use Rattle.outside.specs.Causes.{Rose};

use crate::error::StoreError;
use crate::faults::Faults;
use base::Text;
use std::alloc::{AllocError, Global};
use std::io;

/// What a failed call on the host was about, and why it failed.
#[derive(Drop)]
pub struct Trouble {
    /// The path of the file or folder.
    pub path: Text,
    /// What the system said, as `Permission denied (os error 13)`.
    pub reason: Text,
}

/// The faults of a device of the host, counted, and the last of them in words.
#[derive(Drop)]
pub(crate) struct Troubles {
    faults: Faults,
    last: Option<Trouble>,
}

fn told(alloc: Global, path: &str, error: &io::Error) -> Result<Trouble, AllocError>
    ensures { IfOk result (λ trouble. trouble.path ≡ path.now) }
{
    Ok(Trouble {
        path: Text::new(alloc, path)?,
        reason: Text::from_string(format!(in alloc; "{error}")?)?,
    })
}

impl Troubles {
    pub(crate) fn new() -> Troubles
        ensures count { result.faults.count ≡ 0 }
        ensures last { result.last ≡ None }
    {
        Troubles {
            faults: Faults::new(),
            last: None,
        }
    }

    pub(crate) fn count(&self) -> u64
        ensures { result ≡ self.now.faults.count }
    {
        self.faults.count()
    }

    /// The last fault in words; None where there was none, or memory for the words was wanting.
    pub(crate) fn last(&self) -> Option<&Trouble>
        ensures { option_copied result ≡ self.now.last }
    {
        self.last.as_ref()
    }

    /// What a failed call of the system about a path is to the caller: want of memory, or else a fault, which is
    /// counted and kept in words.
    pub(crate) fn judge(&mut self, alloc: Global, path: &str, error: &io::Error) -> StoreError
        ensures later { self.old.faults.count ≤ self.new.faults.count }
        ensures once { self.new.faults.count ≤ self.old.faults.count + 1 }
        ensures failed { result ≡ StoreError.Failed → Rose self.old.faults.count
            self.new.faults.count }
        ensures wanting { result ≡ StoreError.Memory → self.new.faults.count
            ≡ self.old.faults.count }
        ensures told { result ≡ StoreError.Failed → IfSome self.new.last (λ trouble. trouble.path
            ≡ path.now) }
    {
        let judged = self.faults.judge(error);
        if judged == StoreError::Failed {
            self.last = told(alloc, path, error).ok();
        }
        judged
    }
}
