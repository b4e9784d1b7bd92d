ghost use Rattle.std.specs.Prelude.{◌≡◌, ◌<◌, ◌++◌, ◌∷◌, [], OnOk, OnErr, Some, true, false, length, map, slice_get};
ghost use Rattle.questions.specs.Contents.{is_among};
ghost use Rattle.read_sets.specs.Items.{key_of, keys_in, are_once};
ghost use Rattle.read_sets.specs.Places.{object_places};

use questions::Key;
use std::alloc::{AllocError, Global};
use std::marker::Model;

/// A key with the number that it had when it was asked for.
#[derive(Drop)]
pub struct Item {
    pub key: Key,
    pub number: u64,
}

/// The keys that a run asked for, in order, each once, with their numbers. Contracts see the list. The
/// places of the items that ask for objects are kept beside them.
#[derive(Drop)]
pub struct Trace {
    items: Vec<Item>,
    places: Vec<usize>,
}

impl Model for Trace {
    ghost use Rattle.std.specs.Prelude.{◌≡◌, List, true};
    ghost use Rattle.read_sets.specs.declared.trace.Item.{Item};
    ghost use Rattle.read_sets.specs.Items.{keys_in, are_once};
    ghost use Rattle.read_sets.specs.Places.{object_places};

    ghost Value = { List Item };

    ghost view = { λ t. t.items.items };

    ghost invariant = { λ t. (are_once (keys_in t.items.items) ≡ true)
        × (t.places.items ≡ object_places 0 t.items.items) };
}

#[tactic(auto, using(crate::proofs::Once::among_more))]
fn has(items: &[Item], key: &Key) -> bool
    ensures { result ≡ is_among key.now (keys_in items.now) }
{
    for item in items {
        if item.key.is_same(key) {
            return true;
        }
    }
    false
}

impl Trace {
    /// A trace without items.
    pub fn new(alloc: Global) -> Trace
        ensures { result ≡ [] }
    {
        Trace {
            items: Vec::new(alloc),
            places: Vec::new(alloc),
        }
    }

    /// Whether a key stands in the trace. It looks at each item.
    pub fn has(&self, key: &Key) -> bool
        ensures { result ≡ is_among key.now (keys_in self.now) }
    {
        has(&self.items, key)
    }

    /// Adds an item with a new key at the end.
    #[tactic(auto, using(crate::proofs::Once::once_push, crate::proofs::Places::places_file, crate::proofs::Places::places_object))]
    pub fn push(&mut self, item: Item) -> Result<(), AllocError>
        requires new { is_among item.key (keys_in self.old) ≡ false }
        ensures ok { OnOk result (self.new ≡ self.old ++ item ∷ []) }
        ensures before { OnErr result (self.new ≡ self.old) }
    {
        let place = self.items.len();
        let Some(_) = item.key.object() else {
            self.items.push(item)?;
            return Ok(());
        };
        self.places.reserve(1)?;
        self.items.push(item)?;
        self.places.push(place).unwrap();
        Ok(())
    }

    /// The items, in the order asked.
    pub fn items(&self) -> &[Item]
        ensures items { result.now ≡ self.now }
        ensures once { are_once (keys_in self.now) ≡ true }
    {
        &self.items
    }

    /// The places of the items that ask for objects, in order.
    pub(crate) fn places(&self) -> &[usize]
        ensures { result.now ≡ object_places 0 self.now }
    {
        &self.places
    }

    /// The key of the item at a place, of a trace that is done with.
    pub fn into_key(self, at: usize) -> Key
        requires { at < length self }
        ensures { slice_get (map key_of self) at ≡ Some result }
    {
        let Trace {
            mut items,
            places: _places,
        } = self;
        items.swap_remove(at).key
    }
}
