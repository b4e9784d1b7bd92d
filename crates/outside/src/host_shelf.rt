ghost use Rattle.std.specs.Prelude.{◌≡◌, IfOk, None};

use crate::error::StoreError;
use crate::folder;
use crate::folder::root_of;
use crate::shelf::Shelf;
use crate::troubles::{Trouble, Troubles};
use base::Text;
use std::alloc::AllocError;
use std::rt::Files;
use std::{fs, io};

/// A folder of the host. It tells its root, and nothing of what it holds or of what was done to it. Its last failure is
/// kept in words.
///
/// A name is the path of a regular file from the folder. What is neither a folder nor a regular file is
/// not listed, nor what lies behind a link.
#[derive(Drop)]
pub struct HostShelf<R: Files + AllocGlobal + Clone + Drop> {
    rt: R,
    /// The folder from which files are read, which the shelf may not be or hold.
    source: Option<Text>,
    root: Option<Text>,
    troubles: Troubles,
}

impl<R: Files + AllocGlobal + Clone + Drop> HostShelf<R> {
    /// A shelf that is still to be opened. It is refused at the folder `source`, and at one that holds it: else files of
    /// the source that look like the shelf's would be removed.
    pub fn new(rt: R, source: Option<Text>) -> HostShelf<R>
        ensures source { result.source ≡ source }
        ensures root { result.root ≡ None }
        ensures faults { result.troubles.faults.count ≡ 0 }
    {
        HostShelf {
            rt,
            source,
            root: None,
            troubles: Troubles::new(),
        }
    }

    fn path(&self, name: &str) -> Result<String, AllocError> {
        folder::path_below(self.rt.alloc(), root_of(&self.root), name)
    }

    /// The last failure in words; None where there was none, or memory for the words was wanting.
    pub fn trouble(&self) -> Option<&Trouble> {
        self.troubles.last()
    }

    /// Makes the folder where it is missing. One whose path only leads to a folder once parts of it are made, as
    /// `new/../source`, is judged again then.
    fn make_root(&self, root: &str) -> io::Result<Text>
        ensures { IfOk result (λ made. made ≡ root.now) }
    {
        folder::keep_apart(&self.rt, root, &self.source)?;
        fs::create_dir_all(&self.rt, root)?;
        folder::keep_apart(&self.rt, root, &self.source)?;
        Ok(Text::new(self.rt.alloc(), root)?)
    }
}

impl<R: Files + AllocGlobal + Clone + Drop> Shelf for HostShelf<R> {
    ghost use Rattle.std.specs.Prelude.{None};

    ghost opened = { λ s. s.root };

    ghost cell = { λ _ _. None };

    ghost changes = { λ _. None };

    ghost fault_count = { λ s. s.troubles.faults.count };

    fn faults(&self) -> u64 {
        self.troubles.count()
    }

    fn open_root(&mut self, root: &str) -> Result<(), StoreError> {
        match self.make_root(root) {
            Ok(root) => {
                self.root = Some(root);
                Ok(())
            }
            Err(error) => Err(self.troubles.judge(self.rt.alloc(), root, &error)),
        }
    }

    fn names(&mut self, into: &mut Vec<Text>) -> Result<(), StoreError> {
        let mut place = String::new(self.rt.alloc());
        match folder::files_below(&self.rt, root_of(&self.root), &mut place) {
            Ok(names) => {
                *into = names;
                Ok(())
            }
            Err(error) => Err(self.troubles.judge(self.rt.alloc(), place.as_str(), &error)),
        }
    }

    fn read(&mut self, name: &str, most: usize, into: &mut Vec<u8>) -> Result<bool, StoreError> {
        let path = self.path(name)?;
        match folder::read_file(&self.rt, path.as_str(), most as u64, into) {
            Ok(there) => {
                into.truncate(most);
                Ok(there)
            }
            Err(error) => Err(self.troubles.judge(self.rt.alloc(), path.as_str(), &error)),
        }
    }

    #[tactic(auto, using(crate::proofs::Silent::silent_if))]
    fn put(&mut self, name: &str, bytes: &[u8]) -> Result<(), StoreError> {
        let path = self.path(name)?;
        match folder::put_file(&self.rt, path.as_str(), bytes) {
            Ok(()) => Ok(()),
            Err(error) => Err(self.troubles.judge(self.rt.alloc(), path.as_str(), &error)),
        }
    }

    #[tactic(auto, using(crate::proofs::Silent::silent_if))]
    fn remove(&mut self, name: &str) -> Result<(), StoreError> {
        let path = self.path(name)?;
        match folder::remove_file(&self.rt, path.as_str()) {
            Ok(()) => Ok(()),
            Err(error) => Err(self.troubles.judge(self.rt.alloc(), path.as_str(), &error)),
        }
    }
}
