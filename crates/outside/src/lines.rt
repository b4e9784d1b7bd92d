ghost use Rattle.std.specs.Prelude.{◌≡◌, ℕ, List, IfOk, OnErr, Option};
ghost use Rattle.outside.specs.Causes.{HasCause};
ghost use Rattle.outside.specs.Lines.{NextLine};

use crate::error::StoreError;

/// Lines to read, one after the other.
///
/// `left` are the lines still to come, each without its line feed, where they are told.
pub trait Lines {
    ghost left: { Self → Option (List (List ℕ)) };

    ghost fault_count: { Self → ℕ };

    /// How many calls failed so far. It never falls.
    fn faults(&self) -> u64
        ensures { result ≡ fault_count self.now };

    /// Takes the next line, or gives false at the end. At Ok `into` holds the line alone, without its line
    /// feed, and nothing at the end. A refused call takes no line, and leaves `into` unspecified.
    fn next(&mut self, into: &mut Vec<u8>) -> Result<bool, StoreError>
        ensures ok { IfOk result (λ more. NextLine more into.new.items (left self.old)
            (left self.new)) }
        ensures refused { OnErr result (left self.new ≡ left self.old) }
        ensures cause { HasCause (fault_count self.old) (fault_count self.new) result };
}
