ghost use Rattle.std.specs.Prelude.{◌≡◌, [], OnOk, OnErr, IsErrOf, ◌↔◌, Some, true};
ghost use Rattle.outside.specs.Calls.{is_to_fail, after_call, no_calls};
ghost use Rattle.outside.specs.Causes.{HasCause};
ghost use Rattle.outside.specs.Contents.{Appends, AppendsPart};

use crate::calls::Calls;
use crate::error::StoreError;
use crate::sink::Sink;
use crate::sure_sink::SureSink;
use std::alloc::Global;

/// Bytes in memory, with a list of the calls that are to fail.
#[derive(Drop)]
pub struct MemSink {
    sink: SureSink,
    calls: Calls,
}

impl MemSink {
    /// A sink that holds nothing. `failing` are the numbers of the writes that are to fail, the first
    /// being 0.
    pub fn new(alloc: Global, failing: Vec<u64>) -> MemSink
        ensures held { result.sink ≡ [] }
        ensures calls { result.calls ≡ no_calls failing.items }
    {
        MemSink {
            sink: SureSink::new(alloc),
            calls: Calls::new(failing),
        }
    }

    /// All bytes written so far.
    pub fn written(&self) -> &[u8]
        ensures { result.now ≡ self.now.sink }
    {
        self.sink.written()
    }
}

impl Sink for MemSink {
    ghost use Rattle.std.specs.Prelude.{Some};

    ghost held = { λ s. Some s.sink };

    ghost fault_count = { λ s. s.calls.faults };

    fn faults(&self) -> u64 {
        self.calls.faults()
    }

    fn write(&mut self, bytes: &[u8]) -> Result<(), StoreError>
        ensures ok { OnOk result (Appends (Some self.old.sink) bytes.now (Some self.new.sink)) }
        ensures refused { OnErr result (AppendsPart (Some self.old.sink) bytes.now
            (Some self.new.sink)) }
        ensures cause { HasCause self.old.calls.faults self.new.calls.faults result }
        ensures counted { self.new.calls ≡ after_call self.old.calls }
        ensures listed { IsErrOf result StoreError.Failed ↔ (is_to_fail self.old.calls ≡ true) }
    {
        if self.calls.fails() {
            return Err(StoreError::Failed);
        }
        self.sink.write(bytes)
    }

    // There is no reader.
    fn note(&self, _bytes: &[u8]) {}
}
