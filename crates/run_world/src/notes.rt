ghost use Rattle.std.specs.Prelude.{◌≡◌, [], IfOk, OnOk, OnErr};
ghost use Rattle.questions.specs.declared.key.Key.TheVariants.{File, Under};
ghost use Rattle.run_world.specs.Noted.{with_item};

use assign_rules::share_terms;
use base::Text;
use path_tree::{Name, Term};
use questions::Key;
use read_sets::{Item, Trace};
use std::alloc::{AllocError, Global};
use std::collections::HashSet;
use std::marker::Model;

/// The keys that a run asked, in order, each once, with their numbers; and the set of them, so that
/// a key that was asked before is found at once. Contracts see the keys with their numbers.
#[derive(Drop)]
pub struct Notes {
    trace: Trace,
    keys: HashSet<Key>,
}

impl Model for Notes {
    ghost use Rattle.std.specs.Prelude.{List};
    ghost use Rattle.read_sets.specs.declared.trace.Item.{Item};
    ghost use Rattle.run_world.specs.Noted.{HasKeys};

    ghost Value = { List Item };

    ghost view = { λ n. n.trace };

    ghost invariant = { λ n. HasKeys n.keys n.trace };
}

impl Notes {
    /// Nothing was asked.
    pub fn new(alloc: Global) -> Notes
        ensures { result ≡ [] }
    {
        Notes {
            trace: Trace::new(alloc),
            keys: HashSet::new(alloc),
        }
    }

    /// Notes a file that was asked, where it is new.
    pub(crate) fn note_file(
        &mut self,
        alloc: Global,
        name: &Text,
        number: u64,
    ) -> Result<(), AllocError>
        ensures ok { OnOk result (self.new ≡ with_item (File name.now) number self.old) }
        ensures err { OnErr result (self.new ≡ self.old) }
    {
        let key = Key::File(name.share()?);
        self.note(alloc, key, number)
    }

    /// Notes the terms of an object that were asked, where they are new.
    pub(crate) fn note_object(
        &mut self,
        alloc: Global,
        object: &Name,
        terms: &[Term],
        number: u64,
    ) -> Result<(), AllocError>
        ensures ok { OnOk result (self.new
            ≡ with_item (Under object.now terms.now) number self.old) }
        ensures err { OnErr result (self.new ≡ self.old) }
    {
        let key = Key::Under {
            object: object.share()?,
            terms: share_terms(alloc, terms)?,
        };
        self.note(alloc, key, number)
    }

    // Notes a key that was asked, where it is new.
    #[tactic(auto, using(crate::proofs::Keys::noted))]
    fn note(&mut self, alloc: Global, key: Key, number: u64) -> Result<(), AllocError>
        ensures ok { OnOk result (self.new ≡ with_item key number self.old) }
        ensures err { OnErr result (self.new ≡ self.old) }
    {
        if self.keys.contains(&key) {
            return Ok(());
        }
        let kept = shared(alloc, &key)?;
        self.keys.reserve(1)?;
        self.trace.push(Item { key, number })?;
        self.keys.insert(kept).unwrap();
        Ok(())
    }

    /// The keys with their numbers.
    pub fn into_trace(self) -> Trace
        ensures { result ≡ self }
    {
        let Notes { trace, keys: _keys } = self;
        trace
    }
}

// The same key, with its texts shared.
fn shared(alloc: Global, key: &Key) -> Result<Key, AllocError>
    ensures { IfOk result (λ k. k ≡ key.now) }
{
    match key {
        Key::File(name) => Ok(Key::File(name.share()?)),
        Key::Under { object, terms } => Ok(Key::Under {
            object: object.share()?,
            terms: share_terms(alloc, terms.as_slice())?,
        }),
    }
}
