ghost use Rattle.std.specs.Prelude.{◌≡◌, ◌≤◌, ◌<◌, IfOk, OnOk, Some, None, length, slice_get};
ghost use Rattle.base.specs.declared.limits.TheConstants.{MAX_FILE_BYTES};

use crate::error::StoreError;
use crate::folder;
use crate::folder::root_of;
use crate::source::{Got, Source};
use crate::troubles::{Trouble, Troubles};
use base::Text;
use std::alloc::AllocError;
use std::io::ErrorKind;
use std::rt::Files;
use std::{fs, io};

/// A folder of the host. It tells its root, and nothing of its pictures.
///
/// A picture's files are the regular files of the folder and of all folders below it, in byte order of
/// their paths from it. No link is followed but one at the root. Its last failure is kept in words.
#[derive(Drop)]
pub struct HostSource<R: Files + AllocGlobal + Clone + Drop> {
    rt: R,
    root: Option<Text>,
    names: Vec<Text>,
    troubles: Troubles,
}

impl<R: Files + AllocGlobal + Clone + Drop> HostSource<R> {
    /// A source that is still to be opened.
    pub fn new(rt: R) -> HostSource<R>
        ensures root { result.root ≡ None }
        ensures faults { result.troubles.faults.count ≡ 0 }
    {
        let names = Vec::new(rt.alloc());
        HostSource {
            rt,
            root: None,
            names,
            troubles: Troubles::new(),
        }
    }

    /// The last failure in words; None where there was none, or memory for the words was wanting.
    pub fn trouble(&self) -> Option<&Trouble> {
        self.troubles.last()
    }

    fn find_root(&self, root: &str) -> io::Result<Text>
        ensures { IfOk result (λ found. found ≡ root.now) }
    {
        if !fs::metadata(&self.rt, root)?.is_dir() {
            return Err(io::Error::from(ErrorKind::NotADirectory));
        }
        Ok(Text::new(self.rt.alloc(), root)?)
    }

    fn path(&self, name: &str) -> Result<String, AllocError> {
        folder::path_below(self.rt.alloc(), root_of(&self.root), name)
    }
}

impl<R: Files + AllocGlobal + Clone + Drop> Source for HostSource<R> {
    ghost use Rattle.std.specs.Prelude.{None, length};

    ghost opened = { λ s. s.root };

    ghost coming = { λ _. None };

    ghost scanned = { λ _. None };

    ghost count = { λ s. length s.names.items };

    ghost fault_count = { λ s. s.troubles.faults.count };

    fn faults(&self) -> u64 {
        self.troubles.count()
    }

    fn open_root(&mut self, root: &str) -> Result<(), StoreError> {
        match self.find_root(root) {
            Ok(root) => {
                self.root = Some(root);
                Ok(())
            }
            Err(error) => Err(self.troubles.judge(self.rt.alloc(), root, &error)),
        }
    }

    fn begin_scan(&mut self) -> Result<usize, StoreError> {
        let mut place = String::new(self.rt.alloc());
        match folder::files_below(&self.rt, root_of(&self.root), &mut place) {
            Ok(names) => {
                self.names = names;
                Ok(self.names.len())
            }
            Err(error) => Err(self.troubles.judge(self.rt.alloc(), place.as_str(), &error)),
        }
    }

    fn name(&self, i: usize) -> &Text
        requires { i < length self.now.names.items }
        ensures { slice_get self.now.names.items i ≡ Some result.now }
    {
        &self.names[i]
    }

    fn read(&mut self, i: usize, into: &mut Vec<u8>) -> Result<Got, StoreError> {
        let path = self.path(self.names[i].as_str())?;
        match folder::read_short_file(&self.rt, path.as_str(), into) {
            Ok(got) => Ok(got),
            Err(error) => Err(self.troubles.judge(self.rt.alloc(), path.as_str(), &error)),
        }
    }
}
