ghost use Rattle.std.specs.Prelude.{◌≡◌, OnOk, OnErr, None};
ghost use Rattle.std.specs.Io.KnownBytes.{Appends as WriterAppends};
ghost use Rattle.outside.specs.Causes.{HasCause};
ghost use Rattle.outside.specs.Contents.{Appends, AppendsPart};

use crate::error::StoreError;
use crate::faults::Faults;
use crate::sink::Sink;
use std::io::Write;

/// A writer of the host, as standard output, and one for notes, as standard error. It tells nothing of
/// what it holds.
#[derive(Drop)]
pub struct HostSink<W: Write + Drop, N: Write + Copy + Drop> {
    writer: W,
    notes: N,
    faults: Faults,
}

impl<W: Write + Drop, N: Write + Copy + Drop> HostSink<W, N> {
    /// A sink over a writer, with another one for notes.
    pub fn new(writer: W, notes: N) -> HostSink<W, N>
        ensures { result.faults.count ≡ 0 }
    {
        HostSink {
            writer,
            notes,
            faults: Faults::new(),
        }
    }
}

impl<W: Write + Drop, N: Write + Copy + Drop> Sink for HostSink<W, N> {
    ghost use Rattle.std.specs.Prelude.{None};

    ghost held = { λ _. None };

    ghost fault_count = { λ s. s.faults.count };

    fn faults(&self) -> u64 {
        self.faults.count()
    }

    // The writer may tell what it holds, as one in memory does.
    fn write(&mut self, bytes: &[u8]) -> Result<(), StoreError>
        ensures ok { OnOk result (Appends None bytes.now None) }
        ensures refused { OnErr result (AppendsPart None bytes.now None) }
        ensures cause { HasCause self.old.faults.count self.new.faults.count result }
        ensures written { OnOk result (WriterAppends (W.contents self.old.writer)
            (W.contents self.new.writer) bytes.now) }
    {
        match self.writer.write_all(bytes) {
            Ok(()) => Ok(()),
            Err(error) => Err(self.faults.judge(&error)),
        }
    }

    fn note(&self, bytes: &[u8]) {
        let mut notes = self.notes;
        // A note that could not be written is no trouble of the session.
        let _ = notes.write_all(bytes);
    }
}
