ghost use Rattle.std.specs.Prelude.{◌≡◌, length, true};
ghost use Rattle.read_index.specs.Nodes.{are_low};
ghost use Rattle.read_index.specs.Owners.{AreReaders};

use crate::nodes::{Edge, Node, number_in, number_of, reader_key};
use crate::noting::{clear_mark, note_items, set_mark};
use crate::reaching::{add_all, first_readers, names_of};
use indexmap::IndexSet;
use path_tree::Name;
use questions::Key;
use read_sets::Trace;
use std::alloc::{AllocError, Global};

/// From files and objects to those that read them.
#[derive(Drop)]
pub struct Index {
    keys: IndexSet<Key>,
    nodes: Vec<Node>,
    /// The mark of the next reader.
    next: u64,
    ghost same: { length keys.keys ≡ length nodes.items },
    ghost low: { are_low next nodes.items ≡ true },
    ghost readers: { AreReaders keys.keys nodes.items },
}

impl Index {
    ghost use Rattle.std.specs.Prelude.{List, Bool, ℕ, false, cond, ◌||◌, IfOk, OnOk, OnErr};
    ghost use Rattle.read_index.specs.Reached.{AreReaching};
    ghost use Rattle.questions.specs.Keys.{key_eq};
    ghost use Rattle.read_index.specs.Subjects.{reads_key, reader_key};
    ghost use Rattle.read_index.specs.Readers.{asks};

    /// An index without readers.
    pub fn new(alloc: Global) -> Index
        ensures { (r k : Key) → asks result r k ≡ false }
    {
        Index {
            keys: IndexSet::new(alloc),
            nodes: Vec::new(alloc),
            next: 0,
        }
    }

    /// A reader has read the keys of both traces, and no others.
    pub fn set(
        &mut self,
        alloc: Global,
        reader: &Name,
        build: &Trace,
        check: &Trace,
    ) -> Result<(), AllocError>
        ensures reads { OnOk result ((r k : Key) → asks self.new r k
            ≡ cond (key_eq r (reader_key reader.now))
            (reads_key k build.now || reads_key k check.now) (asks self.old r k)) }
        ensures before { OnErr result ((r k : Key) → asks self.new r k ≡ asks self.old r k) }
    {
        let mark = self.next;
        if mark == u64::MAX {
            return Err(AllocError);
        }
        self.next += 1;
        let key = reader_key(alloc, reader)?;
        let at = number_of(alloc, &mut self.keys, &mut self.nodes, key)?;
        let edge = Edge { reader: at, mark };
        note_items(alloc, &mut self.keys, &mut self.nodes, build.items(), edge)?;
        note_items(alloc, &mut self.keys, &mut self.nodes, check.items(), edge)?;
        set_mark(&mut self.nodes, at, mark);
        Ok(())
    }

    /// A reader reads nothing any more. Its key has no terms.
    pub fn clear(&mut self, reader: &Key)
        ensures { (r k : Key) → asks self.new r k
            ≡ cond (key_eq r reader.now) false (asks self.old r k) }
    {
        match number_in(&self.keys, reader) {
            None => {}
            Some(at) => clear_mark(&mut self.nodes, at),
        }
    }

    /// The readers that a change of these files and objects can reach: those that read one of them, or an object that is
    /// such a reader. The keys have no terms.
    pub fn reached(&self, alloc: Global, moved: &[Key]) -> Result<Vec<Name>, AllocError>
        ensures { IfOk result (λ names. AreReaching (asks self.now) moved.now names.items) }
    {
        let mut found = first_readers(alloc, &self.keys, &self.nodes, moved)?;
        add_all(&self.nodes, &mut found)?;
        names_of(alloc, &self.keys, &found)
    }
}
