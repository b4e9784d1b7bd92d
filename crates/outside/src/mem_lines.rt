ghost use Rattle.std.specs.Prelude.{◌≡◌, ◌↔◌, IfOk, OnErr, IsErrOf, Some, true};
ghost use Rattle.outside.specs.Calls.{is_to_fail, after_call, no_calls};
ghost use Rattle.outside.specs.Causes.{HasCause};
ghost use Rattle.outside.specs.Lines.{NextLine};

use crate::calls::Calls;
use crate::error::StoreError;
use crate::lines::Lines;
use crate::sure_lines::SureLines;
use base::Bytes;

/// Lines in memory, with a list of the calls that are to fail.
#[derive(Drop)]
pub struct MemLines {
    lines: SureLines,
    calls: Calls,
}

impl MemLines {
    /// These lines. `failing` are the numbers of the calls that are to fail, the first being 0.
    pub fn new(lines: Vec<Bytes>, failing: Vec<u64>) -> MemLines
        ensures lines { result.lines ≡ lines.items }
        ensures calls { result.calls ≡ no_calls failing.items }
    {
        MemLines {
            lines: SureLines::new(lines),
            calls: Calls::new(failing),
        }
    }
}

impl Lines for MemLines {
    ghost use Rattle.std.specs.Prelude.{Some};

    ghost left = { λ s. Some s.lines };

    ghost fault_count = { λ s. s.calls.faults };

    fn faults(&self) -> u64 {
        self.calls.faults()
    }

    fn next(&mut self, into: &mut Vec<u8>) -> Result<bool, StoreError>
        ensures ok { IfOk result (λ more. NextLine more into.new.items (Some self.old.lines)
            (Some self.new.lines)) }
        ensures refused { OnErr result (Some self.new.lines ≡ Some self.old.lines) }
        ensures cause { HasCause self.old.calls.faults self.new.calls.faults result }
        ensures counted { self.new.calls ≡ after_call self.old.calls }
        ensures listed { IsErrOf result StoreError.Failed ↔ (is_to_fail self.old.calls ≡ true) }
    {
        if self.calls.fails() {
            return Err(StoreError::Failed);
        }
        self.lines.next(into)
    }
}
