ghost use Rattle.std.specs.Prelude.{◌≡◌, ◌≤◌, ◌+◌};
ghost use Rattle.outside.specs.Calls.{one_more};
ghost use Rattle.outside.specs.Causes.{Rose};

use crate::error::StoreError;
use std::io;
use std::io::ErrorKind;

/// The faults of an object, counted up to the last value of the type.
#[derive(Drop)]
pub struct Faults {
    count: u64,
}

impl Faults {
    /// No fault yet.
    pub fn new() -> Faults
        ensures { result.count ≡ 0 }
    {
        Faults { count: 0 }
    }

    /// How many there were.
    pub fn count(&self) -> u64
        ensures { result ≡ self.now.count }
    {
        self.count
    }

    /// Counts one more.
    pub fn add(&mut self)
        ensures counted { self.new.count ≡ one_more self.old.count }
        ensures rose { Rose self.old.count self.new.count }
        ensures later { self.old.count ≤ self.new.count }
        ensures once { self.new.count ≤ self.old.count + 1 }
    {
        self.count = self.count.saturating_add(1);
    }

    /// What a failed call of the system is to the caller: want of memory, or else a fault, which is
    /// counted.
    pub(crate) fn judge(&mut self, error: &io::Error) -> StoreError
        ensures later { self.old.count ≤ self.new.count }
        ensures once { self.new.count ≤ self.old.count + 1 }
        ensures failed { result ≡ StoreError.Failed → Rose self.old.count self.new.count }
        ensures wanting { result ≡ StoreError.Memory → self.new.count ≡ self.old.count }
    {
        if error.kind() == ErrorKind::OutOfMemory {
            return StoreError::Memory;
        }
        self.add();
        StoreError::Failed
    }
}
