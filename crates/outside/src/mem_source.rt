ghost use Rattle.std.specs.Prelude.{◌≡◌, ◌≤◌, ◌<◌, ◌↔◌, [], OnOk, OnErr, IfOk, IfSome, IsErrOf, IsSome, Some, None, true, length, option_map};
ghost use Rattle.outside.specs.Calls.{is_to_fail, after_call, no_calls};
ghost use Rattle.outside.specs.Causes.{HasCause};
ghost use Rattle.outside.specs.Pictures.{next_picture, later_pictures, Finds, are_distinct, are_pictures};
ghost use Rattle.base.specs.declared.limits.TheConstants.{MAX_FILE_BYTES};

use crate::calls::Calls;
use crate::error::StoreError;
use crate::source::{Got, MemFile, Source};
use crate::sure_source::SureSource;
use base::{Seq, Text};
use std::alloc::Global;

/// Pictures in memory, with a list of the calls that are to fail.
#[derive(Drop)]
pub struct MemSource {
    source: SureSource,
    calls: Calls,
}

impl MemSource {
    /// A source with these pictures to come, still to be opened. No name stands twice in a picture. `failing`
    /// are the numbers of the calls that are to fail, the first being 0; calls of `name` and `faults` aren't
    /// counted.
    pub fn new(alloc: Global, pictures: Vec<Seq<MemFile>>, failing: Vec<u64>) -> MemSource
        requires { are_pictures pictures.items ≡ true }
        ensures root { result.source.root ≡ None }
        ensures coming { result.source.coming ≡ pictures.items }
        ensures scanned { result.source.scanned ≡ [] }
        ensures calls { result.calls ≡ no_calls failing.items }
    {
        MemSource {
            source: SureSource::new(alloc, pictures),
            calls: Calls::new(failing),
        }
    }
}

impl Source for MemSource {
    ghost use Rattle.std.specs.Prelude.{Some, length};

    ghost opened = { λ s. s.source.root };

    ghost coming = { λ s. Some s.source.coming };

    ghost scanned = { λ s. Some s.source.scanned };

    ghost count = { λ s. length s.source.scanned };

    ghost fault_count = { λ s. s.calls.faults };

    fn faults(&self) -> u64 {
        self.calls.faults()
    }

    fn open_root(&mut self, root: &str) -> Result<(), StoreError>
        requires closed { self.old.source.root ≡ None }
        ensures opened { OnOk result (self.new.source.root ≡ Some root.now) }
        ensures refused { OnErr result (self.new.source.root ≡ self.old.source.root) }
        ensures coming { Some self.new.source.coming ≡ Some self.old.source.coming }
        ensures scanned { Some self.new.source.scanned ≡ Some self.old.source.scanned }
        ensures count { length self.new.source.scanned ≡ length self.old.source.scanned }
        ensures cause { HasCause self.old.calls.faults self.new.calls.faults result }
        ensures counted { self.new.calls ≡ after_call self.old.calls }
        ensures listed { IsErrOf result StoreError.Failed ↔ (is_to_fail self.old.calls ≡ true) }
    {
        if self.calls.fails() {
            return Err(StoreError::Failed);
        }
        self.source.open_root(root)
    }

    fn begin_scan(&mut self) -> Result<usize, StoreError>
        requires open { IsSome self.old.source.root }
        ensures count { IfOk result (λ n. n ≡ length self.new.source.scanned) }
        ensures taken { OnOk result (Some self.new.source.scanned
            ≡ option_map next_picture (Some self.old.source.coming)) }
        ensures later { OnOk result (Some self.new.source.coming
            ≡ option_map later_pictures (Some self.old.source.coming)) }
        ensures told { OnOk result (IfSome (Some self.new.source.scanned) (λ files. length files
            ≡ length self.new.source.scanned)) }
        ensures distinct { OnOk result (IfSome (Some self.new.source.scanned)
            (λ files. are_distinct files ≡ true)) }
        ensures refused { OnErr result (Some self.new.source.coming ≡ Some self.old.source.coming) }
        ensures opened { self.new.source.root ≡ self.old.source.root }
        ensures cause { HasCause self.old.calls.faults self.new.calls.faults result }
        ensures counted { self.new.calls ≡ after_call self.old.calls }
        ensures listed { IsErrOf result StoreError.Failed ↔ (is_to_fail self.old.calls ≡ true) }
    {
        if self.calls.fails() {
            return Err(StoreError::Failed);
        }
        self.source.begin_scan()
    }

    fn name(&self, i: usize) -> &Text {
        self.source.name(i)
    }

    fn read(&mut self, i: usize, into: &mut Vec<u8>) -> Result<Got, StoreError>
        requires open { IsSome self.old.source.root }
        requires counted { i < length self.old.source.scanned }
        ensures ok { IfOk result (λ got. IfSome (Some self.old.source.scanned)
            (λ files. Finds files i got into.new.items)) }
        ensures within { OnOk result (length into.new.items ≤ MAX_FILE_BYTES) }
        ensures opened { self.new.source.root ≡ self.old.source.root }
        ensures coming { Some self.new.source.coming ≡ Some self.old.source.coming }
        ensures scanned { Some self.new.source.scanned ≡ Some self.old.source.scanned }
        ensures count { length self.new.source.scanned ≡ length self.old.source.scanned }
        ensures cause { HasCause self.old.calls.faults self.new.calls.faults result }
        ensures counted { self.new.calls ≡ after_call self.old.calls }
        ensures listed { IsErrOf result StoreError.Failed ↔ (is_to_fail self.old.calls ≡ true) }
    {
        if self.calls.fails() {
            return Err(StoreError::Failed);
        }
        self.source.read(i, into)
    }
}
