ghost use Rattle.std.specs.Prelude.{◌≡◌, ◌++◌, ◌∷◌, [], None, IfOk, option_copied};
ghost use Rattle.outside.specs.Kept.{kept, without};

use crate::error::StoreError;
use crate::shelf::{Change, Shelf};
use base::{Bytes, Text};
use std::alloc::{AllocError, Global};
use std::marker::Model;

/// A name of a shelf in memory, with its bytes.
#[derive(Drop)]
pub struct Held {
    pub name: Text,
    pub bytes: Bytes,
}

/// A shelf in memory. No call fails.
#[derive(Drop)]
pub struct SureShelf {
    alloc: Global,
    root: Option<Text>,
    held: Vec<Held>,
    changes: Vec<Change>,
}

impl Model for SureShelf {
    ghost use Rattle.outside.specs.Stocks.{Stock};

    ghost Value = { Stock };

    ghost view = { λ s. record { root = s.root; held = s.held.items; changes = s.changes.items } };
}

fn find<'a>(held: &'a [Held], name: &str) -> Option<&'a [u8]>
    ensures { option_copied result ≡ kept held.now name.now }
{
    for each in held {
        if each.name.as_str() == name {
            return Some(each.bytes.as_slice());
        }
    }
    None
}

/// The entries with other names.
fn take_out(alloc: Global, held: &[Held], name: &str) -> Result<Vec<Held>, AllocError>
    ensures { IfOk result (λ rest. rest.items ≡ without name.now held.now) }
{
    let mut rest = Vec::new(alloc);
    for each in held {
        if each.name.as_str() != name {
            let name = each.name.share()?;
            let bytes = Bytes::from_slice(alloc, each.bytes.as_slice())?;
            rest.push(Held { name, bytes })?;
        }
    }
    Ok(rest)
}

/// The entries with other names, and behind them one with this name.
fn put_in(alloc: Global, held: &[Held], name: &Text, bytes: &[u8]) -> Result<Vec<Held>, AllocError>
    ensures { IfOk result (λ all. all.items ≡ without name.now held.now
        ++ record { name = name.now; bytes = bytes.now } ∷ []) }
{
    let mut all = take_out(alloc, held, name.as_str())?;
    let name = name.share()?;
    let bytes = Bytes::from_slice(alloc, bytes)?;
    all.push(Held { name, bytes })?;
    Ok(all)
}

impl SureShelf {
    /// A shelf that holds these, still to be opened. Of several with one name the first counts.
    pub fn new(alloc: Global, held: Vec<Held>) -> SureShelf
        ensures root { result.root ≡ None }
        ensures held { result.held ≡ held.items }
        ensures changes { result.changes ≡ [] }
    {
        SureShelf {
            alloc,
            root: None,
            held,
            changes: Vec::new(alloc),
        }
    }

    /// What the shelf holds.
    pub fn held(&self) -> &[Held]
        ensures { result.now ≡ self.now.held }
    {
        &self.held
    }

    /// What was done to the shelf, in order.
    pub fn changes(&self) -> &[Change]
        ensures { result.now ≡ self.now.changes }
    {
        &self.changes
    }
}

impl Shelf for SureShelf {
    ghost use Rattle.std.specs.Prelude.{Some};
    ghost use Rattle.outside.specs.Kept.{cell_of};

    ghost opened = { λ s. s.root };

    ghost cell = { λ s. cell_of s.held };

    ghost changes = { λ s. Some s.changes };

    ghost fault_count = { λ _. 0 };

    fn faults(&self) -> u64 {
        0
    }

    fn open_root(&mut self, root: &str) -> Result<(), StoreError> {
        self.root = Some(Text::new(self.alloc, root)?);
        Ok(())
    }

    #[tactic(auto, using(crate::proofs::Keeping::names_kept))]
    fn names(&mut self, into: &mut Vec<Text>) -> Result<(), StoreError> {
        into.clear();
        for each in &self.held {
            into.push(each.name.share()?)?;
        }
        Ok(())
    }

    fn read(&mut self, name: &str, most: usize, into: &mut Vec<u8>) -> Result<bool, StoreError> {
        into.clear();
        match find(&self.held, name) {
            Some(bytes) => {
                into.extend_from_slice(&bytes[..bytes.len().min(most)])?;
                Ok(true)
            }
            None => Ok(false),
        }
    }

    #[tactic(auto, using(crate::proofs::Keeping::cell_put))]
    fn put(&mut self, name: &str, bytes: &[u8]) -> Result<(), StoreError> {
        let name = Text::new(self.alloc, name)?;
        let held = put_in(self.alloc, &self.held, &name, bytes)?;
        self.changes.push(Change::Put(name))?;
        self.held = held;
        Ok(())
    }

    #[tactic(auto, using(crate::proofs::Keeping::cell_without))]
    fn remove(&mut self, name: &str) -> Result<(), StoreError> {
        let rest = take_out(self.alloc, &self.held, name)?;
        let change = Change::Removed(Text::new(self.alloc, name)?);
        self.changes.push(change)?;
        self.held = rest;
        Ok(())
    }
}
