ghost use Rattle.std.specs.Prelude.{◌≡◌, []};

use crate::error::StoreError;
use crate::sink::Sink;
use std::alloc::Global;
use std::marker::Model;

/// Bytes in memory. No call fails.
#[derive(Drop)]
pub struct SureSink {
    written: Vec<u8>,
}

impl Model for SureSink {
    ghost use Rattle.std.specs.Prelude.{ℕ, List};

    ghost Value = { List ℕ };

    ghost view = { λ s. s.written.items };
}

impl SureSink {
    /// A sink that holds nothing.
    pub fn new(alloc: Global) -> SureSink
        ensures { result ≡ [] }
    {
        SureSink {
            written: Vec::new(alloc),
        }
    }

    /// All bytes written so far.
    pub fn written(&self) -> &[u8]
        ensures { result.now ≡ self.now }
    {
        &self.written
    }
}

impl Sink for SureSink {
    ghost use Rattle.std.specs.Prelude.{Some};

    ghost held = { λ s. Some s };

    ghost fault_count = { λ _. 0 };

    fn faults(&self) -> u64 {
        0
    }

    fn write(&mut self, bytes: &[u8]) -> Result<(), StoreError> {
        self.written.extend_from_slice(bytes)?;
        Ok(())
    }

    // There is no reader.
    fn note(&self, _bytes: &[u8]) {}
}
