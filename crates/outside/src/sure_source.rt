ghost use Rattle.std.specs.Prelude.{◌≡◌, ◌<◌, [], length, slice_get, Some, None, IfOk, true, option_map};
ghost use Rattle.outside.specs.Pictures.{next_picture, later_pictures, are_distinct, are_pictures};
ghost use Rattle.outside.specs.declared.source.MemFile.{MemFile};

use crate::error::StoreError;
use crate::source::{Got, MemFile, Source};
use base::limits::MAX_FILE_BYTES;
use base::{Seq, Text};
use std::alloc::Global;
use std::marker::Model;

/// Pictures in memory. No call fails.
#[derive(Drop)]
pub struct SureSource {
    alloc: Global,
    root: Option<Text>,
    coming: Vec<Seq<MemFile>>,
    scanned: Seq<MemFile>,
}

impl Model for SureSource {
    ghost use Rattle.std.specs.Prelude.{◌≡◌, true};
    ghost use Rattle.outside.specs.Pictures.{are_distinct, are_pictures};
    ghost use Rattle.outside.specs.Reels.{Reel};

    ghost Value = { Reel };

    ghost view = { λ s. record { root = s.root; coming = s.coming.items; scanned = s.scanned } };

    ghost invariant = { λ s. (are_pictures s.coming.items ≡ true) × (are_distinct s.scanned ≡ true) };
}

impl SureSource {
    /// A source with these pictures to come, still to be opened. No name stands twice in a picture, as
    /// `are_distinct` tells.
    pub fn new(alloc: Global, pictures: Vec<Seq<MemFile>>) -> SureSource
        requires { are_pictures pictures.items ≡ true }
        ensures root { result.root ≡ None }
        ensures coming { result.coming ≡ pictures.items }
        ensures scanned { result.scanned ≡ [] }
    {
        SureSource {
            alloc,
            root: None,
            coming: pictures,
            scanned: Seq::new(alloc),
        }
    }

    fn advance(&mut self)
        ensures scanned { self.new.scanned ≡ next_picture self.old.coming }
        ensures coming { self.new.coming ≡ later_pictures self.old.coming }
        ensures root { self.new.root ≡ self.old.root }
    {
        self.scanned = if self.coming.is_empty() {
            Seq::new(self.alloc)
        } else {
            self.coming.remove(0)
        };
    }

    fn file(&self, i: usize) -> &MemFile
        requires { i < length self.now.scanned }
        ensures { slice_get self.now.scanned i ≡ Some result.now }
    {
        &self.scanned.as_slice()[i]
    }
}

impl Source for SureSource {
    ghost use Rattle.std.specs.Prelude.{Some, length};

    ghost opened = { λ s. s.root };

    ghost coming = { λ s. Some s.coming };

    ghost scanned = { λ s. Some s.scanned };

    ghost count = { λ s. length s.scanned };

    ghost fault_count = { λ _. 0 };

    fn faults(&self) -> u64 {
        0
    }

    fn open_root(&mut self, root: &str) -> Result<(), StoreError> {
        self.root = Some(Text::new(self.alloc, root)?);
        Ok(())
    }

    fn begin_scan(&mut self) -> Result<usize, StoreError> {
        self.advance();
        Ok(self.scanned.as_slice().len())
    }

    fn name(&self, i: usize) -> &Text {
        &self.file(i).name
    }

    fn read(&mut self, i: usize, into: &mut Vec<u8>) -> Result<Got, StoreError> {
        into.clear();
        match &self.file(i).content {
            None => Ok(Got::Gone),
            Some(bytes) if bytes.as_slice().len() > MAX_FILE_BYTES => Ok(Got::TooLong),
            Some(bytes) => {
                into.extend_from_slice(bytes.as_slice())?;
                Ok(Got::Bytes)
            }
        }
    }
}
