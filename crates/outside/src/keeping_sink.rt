ghost use Rattle.std.specs.Prelude.{◌≡◌, ℕ, List, [], ◌++◌, OnOk, OnErr};
ghost use Rattle.outside.specs.Causes.{HasCause};
ghost use Rattle.outside.specs.Contents.{Appends, AppendsPart};
ghost use Rattle.outside.specs.FaultLines.{Keeps};

use crate::error::StoreError;
use crate::fault_lines::FaultLines;
use crate::sink::Sink;
use base::Bytes;
use std::alloc::Global;

/// A sink that passes all on to another one, and keeps the first `MAX_FAULT_LINES` lines that begin with `fault `.
#[derive(Drop)]
pub struct KeepingSink<S: Sink + Drop> {
    sink: S,
    kept: FaultLines,
}

impl<S: Sink + Drop> KeepingSink<S> {
    /// A sink in front of another one, of which nothing was written yet.
    pub fn new(alloc: Global, sink: S) -> KeepingSink<S>
        ensures sink { result.sink ≡ sink }
        ensures kept { Keeps [] result.kept }
    {
        KeepingSink {
            sink,
            kept: FaultLines::new(alloc),
        }
    }

    /// The lines that are kept, each without its line feed.
    pub fn fault_lines(&self) -> &[Bytes]
        ensures { result.now ≡ self.now.kept.lines }
    {
        self.kept.lines()
    }
}

impl<S: Sink + Drop> Sink for KeepingSink<S> {
    ghost held = { λ s. S.held s.sink };

    ghost fault_count = { λ s. S.fault_count s.sink };

    fn faults(&self) -> u64 {
        self.sink.faults()
    }

    // What is kept after a refusal is unspecified.
    #[tactic(auto, using(crate::proofs::LineEnds::nothing_written))]
    fn write(&mut self, bytes: &[u8]) -> Result<(), StoreError>
        ensures ok { OnOk result (Appends (S.held self.old.sink) bytes.now
            (S.held self.new.sink)) }
        ensures refused { OnErr result (AppendsPart (S.held self.old.sink) bytes.now
            (S.held self.new.sink)) }
        ensures cause { HasCause (S.fault_count self.old.sink) (S.fault_count self.new.sink)
            result }
        ensures kept { OnOk result ((text : List ℕ) → Keeps text self.old.kept
            → Keeps (text ++ bytes.now) self.new.kept) }
    {
        self.kept.take(bytes)?;
        self.sink.write(bytes)
    }

    fn note(&self, bytes: &[u8]) {
        self.sink.note(bytes);
    }
}
