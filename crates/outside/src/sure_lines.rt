ghost use Rattle.std.specs.Prelude.{◌≡◌};

use crate::error::StoreError;
use crate::lines::Lines;
use base::Bytes;
use std::marker::Model;

/// Lines in memory. No call fails.
#[derive(Drop)]
pub struct SureLines {
    lines: Vec<Bytes>,
    position: usize,
}

impl Model for SureLines {
    ghost use Rattle.std.specs.Prelude.{ℕ, List, drop};

    ghost Value = { List (List ℕ) };

    ghost view = { λ s. drop s.position s.lines.items };
}

impl SureLines {
    /// These lines.
    pub fn new(lines: Vec<Bytes>) -> SureLines
        ensures { result ≡ lines.items }
    {
        SureLines { lines, position: 0 }
    }
}

impl Lines for SureLines {
    ghost use Rattle.std.specs.Prelude.{Some};

    ghost left = { λ s. Some s };

    ghost fault_count = { λ _. 0 };

    fn faults(&self) -> u64 {
        0
    }

    fn next(&mut self, into: &mut Vec<u8>) -> Result<bool, StoreError> {
        into.clear();
        if self.position >= self.lines.len() {
            return Ok(false);
        }
        into.extend_from_slice(self.lines[self.position].as_slice())?;
        self.position += 1;
        Ok(true)
    }
}
