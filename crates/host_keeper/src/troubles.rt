ghost use Rattle.std.specs.Prelude.{◌≡◌, IfOk, IfSome, Err, None, option_copied};
ghost use Rattle.outside.specs.Causes.{HasCause};

use base::Text;
use outside::{Faults, StoreError, Trouble};
use sqlite_keeper::Refusal;
use std::alloc::{AllocError, Global};

/// The faults of a keeper of the host, counted, and the last of them in words.
#[derive(Drop)]
pub(crate) struct Troubles {
    faults: Faults,
    last: Option<Trouble>,
}

fn told(alloc: Global, path: &str, why: Refusal) -> Result<Trouble, AllocError>
    ensures { IfOk result (λ trouble. trouble.path ≡ path.now) }
{
    Ok(Trouble {
        path: Text::new(alloc, path)?,
        reason: Text::from_string(format!(in alloc; "{why}")?)?,
    })
}

impl Troubles {
    pub(crate) fn new() -> Troubles
        ensures count { result.faults.count ≡ 0 }
        ensures last { result.last ≡ None }
    {
        Troubles {
            faults: Faults::new(),
            last: None,
        }
    }

    pub(crate) fn count(&self) -> u64
        ensures { result ≡ self.now.faults.count }
    {
        self.faults.count()
    }

    /// The last fault in words; None where there was none, or memory for the words was wanting.
    pub(crate) fn last(&self) -> Option<&Trouble>
        ensures { option_copied result ≡ self.now.last }
    {
        self.last.as_ref()
    }

    /// What a call on the rows of a file came to: where it failed that is counted, and kept in words.
    pub(crate) fn judge(
        &mut self,
        alloc: Global,
        path: &str,
        done: Result<(), StoreError>,
        why: Refusal,
    ) -> Result<(), StoreError>
        ensures cause { HasCause self.old.faults.count self.new.faults.count result }
        ensures same { result ≡ done }
        ensures told { result ≡ Err StoreError.Failed → IfSome self.new.last (λ trouble. trouble.path
            ≡ path.now) }
    {
        if done == Err(StoreError::Failed) {
            self.faults.add();
            self.last = told(alloc, path, why).ok();
        }
        done
    }
}
