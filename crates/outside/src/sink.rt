ghost use Rattle.std.specs.Prelude.{◌≡◌, ℕ, List, OnOk, OnErr, Option};
ghost use Rattle.outside.specs.Causes.{HasCause};
ghost use Rattle.outside.specs.Contents.{Appends, AppendsPart};

use crate::error::StoreError;

/// A list of bytes that are written, and notes for a reader beside it.
///
/// `held` are the bytes, where the sink tells them. Notes are none of them, and no clause speaks of a note.
pub trait Sink {
    ghost held: { Self → Option (List ℕ) };

    ghost fault_count: { Self → ℕ };

    /// How many calls failed so far. It never falls.
    fn faults(&self) -> u64
        ensures { result ≡ fault_count self.now };

    /// Appends all the bytes. After a refusal a first part of them is appended.
    fn write(&mut self, bytes: &[u8]) -> Result<(), StoreError>
        ensures ok { OnOk result (Appends (held self.old) bytes.now (held self.new)) }
        ensures refused { OnErr result (AppendsPart (held self.old) bytes.now (held self.new)) }
        ensures cause { HasCause (fault_count self.old) (fault_count self.new) result };

    /// Tells a reader something beside what is written, where there is one to be told.
    fn note(&self, bytes: &[u8]);
}
