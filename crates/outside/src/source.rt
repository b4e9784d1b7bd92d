ghost use Rattle.std.specs.Prelude.{◌≡◌, ◌≤◌, ◌<◌, ℕ, List, OnOk, OnErr, IfOk, IfSome, IsSome, Option, Some, None, length, option_map, true};
ghost use Rattle.outside.specs.Causes.{HasCause};
ghost use Rattle.outside.specs.Pictures.{next_picture, later_pictures, NameOf, Finds, are_distinct};
ghost use Rattle.outside.specs.declared.source.MemFile.{MemFile};
ghost use Rattle.base.specs.declared.limits.TheConstants.{MAX_FILE_BYTES};

use crate::error::StoreError;
use base::{Bytes, Text};

/// A file of a source: its name, and its bytes, or None where it is gone when it is read.
#[derive(Drop)]
pub struct MemFile {
    pub name: Text,
    pub content: Option<Bytes>,
}

/// What a read of a file found.
#[derive(Clone, Copy, PartialEq, Eq)]
pub enum Got {
    /// At most `MAX_FILE_BYTES` bytes.
    Bytes,
    /// The file is no longer there.
    Gone,
    /// Over `MAX_FILE_BYTES` bytes, of which none is given.
    TooLong,
}

/// Files to read, one picture of them after the other. A source is opened once, and no picture is asked of it before.
///
/// `opened` is the root that the source was opened with, None as long as it is closed. `coming` are the pictures still to come, and
/// `scanned` the one that was taken last, where the source tells them. `count` is the number of files of the
/// picture taken last.
pub trait Source {
    ghost opened: { Self → Option (List ℕ) };

    ghost coming: { Self → Option (List (List MemFile)) };

    ghost scanned: { Self → Option (List MemFile) };

    ghost count: { Self → ℕ };

    ghost fault_count: { Self → ℕ };

    /// How many calls failed so far. It never falls.
    fn faults(&self) -> u64
        ensures { result ≡ fault_count self.now };

    /// Opens the source at a root, and makes it ready to scan. A refused call leaves it closed, so it may be tried
    /// again.
    fn open_root(&mut self, root: &str) -> Result<(), StoreError>
        requires closed { opened self.old ≡ None }
        ensures opened { OnOk result (opened self.new ≡ Some root.now) }
        ensures refused { OnErr result (opened self.new ≡ opened self.old) }
        ensures coming { coming self.new ≡ coming self.old }
        ensures scanned { scanned self.new ≡ scanned self.old }
        ensures count { count self.new ≡ count self.old }
        ensures cause { HasCause (fault_count self.old) (fault_count self.new) result };

    /// Takes the next picture, an empty one where none is left, and gives the number of its files. No name
    /// stands twice in it. A refused call takes none.
    fn begin_scan(&mut self) -> Result<usize, StoreError>
        requires open { IsSome (opened self.old) }
        ensures count { IfOk result (λ n. n ≡ count self.new) }
        ensures taken { OnOk result (scanned self.new ≡ option_map next_picture (coming self.old)) }
        ensures later { OnOk result (coming self.new
            ≡ option_map later_pictures (coming self.old)) }
        ensures told { OnOk result (IfSome (scanned self.new) (λ files. length files
            ≡ count self.new)) }
        ensures distinct { OnOk result (IfSome (scanned self.new) (λ files. are_distinct files
            ≡ true)) }
        ensures refused { OnErr result (coming self.new ≡ coming self.old) }
        ensures opened { opened self.new ≡ opened self.old }
        ensures cause { HasCause (fault_count self.old) (fault_count self.new) result };

    /// The name of file `i` of the picture taken last.
    fn name(&self, i: usize) -> &Text
        requires { i < count self.now }
        ensures { IfSome (scanned self.now) (λ files. NameOf files i result.now) };

    /// Reads file `i` of the picture taken last. At Ok `into` holds its bytes alone, and nothing where it
    /// is gone or too long. After a refusal `into` is unspecified.
    fn read(&mut self, i: usize, into: &mut Vec<u8>) -> Result<Got, StoreError>
        requires open { IsSome (opened self.old) }
        requires counted { i < count self.old }
        ensures ok { IfOk result (λ got. IfSome (scanned self.old)
            (λ files. Finds files i got into.new.items)) }
        ensures within { OnOk result (length into.new.items ≤ MAX_FILE_BYTES) }
        ensures opened { opened self.new ≡ opened self.old }
        ensures coming { coming self.new ≡ coming self.old }
        ensures scanned { scanned self.new ≡ scanned self.old }
        ensures count { count self.new ≡ count self.old }
        ensures cause { HasCause (fault_count self.old) (fault_count self.new) result };
}
