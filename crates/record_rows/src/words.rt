ghost use Rattle.std.specs.Prelude.{◌≡◌, ◌↔◌, IfOk, IfSome, OnOk, IsErrOf, true, false};
ghost use Rattle.path_tree.specs.Grammar.{is_key, is_name};

use base::Text;
use path_tree::{Key, KeyError, Name, NameError};
use std::alloc::{AllocError, Global};

/// The fewest places of a table.
const LEAST_PLACES: usize = 256;
/// The most places of a table.
const MOST_PLACES: usize = 16384;
/// The most bytes of a value that is looked for among those before.
const SHORT_BYTES: usize = 32;
/// What the mixing of bytes begins with, and what it multiplies by: those of FNV-1a.
const MIX_START: u64 = 0xcbf2_9ce4_8422_2325;

const MIX_FACTOR: u64 = 0x0100_0000_01b3;

/// A text, or what has the text as its value.
trait Word {
    ghost use Rattle.std.specs.Prelude.{ℕ, List};

    ghost text_of: { Self → List ℕ };

    fn text(&self) -> &str
        ensures { result.now ≡ text_of self.now };

    /// The same word, its text shared.
    fn again(&self) -> Result<Self, AllocError>
        ensures { IfOk result (λ same. same ≡ self.now) };
}

impl Word for Text {
    ghost text_of = { λ t. t };

    fn text(&self) -> &str {
        self.as_str()
    }

    fn again(&self) -> Result<Text, AllocError> {
        self.share()
    }
}

impl Word for Name {
    ghost text_of = { λ n. n };

    fn text(&self) -> &str {
        self.as_str()
    }

    fn again(&self) -> Result<Name, AllocError> {
        self.share()
    }
}

impl Word for Key {
    ghost text_of = { λ k. k };

    fn text(&self) -> &str {
        self.as_str()
    }

    fn again(&self) -> Result<Key, AllocError> {
        self.clone()
    }
}

/// Mixes the bytes of a text into a number.
fn mixed(text: &str) -> u64 {
    let mut number = MIX_START;
    for byte in text.as_bytes() {
        number = (number ^ u64::from(*byte)).wrapping_mul(MIX_FACTOR);
    }
    number ^ (number >> 32)
}

/// Where a text stands among so many places; nowhere where there are none.
fn place_of(text: &str, places: usize) -> Option<usize> {
    let place = mixed(text).checked_rem(places as u64)?;
    usize::try_from(place).ok()
}

/// Words of one kind. Each place holds the word that was kept there last.
#[derive(Drop)]
struct Table<T: Word + Drop> {
    places: Vec<Option<T>>,
}

impl<T: Word + Drop> Table<T> {
    fn new(alloc: Global, size: usize) -> Result<Table<T>, AllocError> {
        let mut places = Vec::with_capacity(alloc, size)?;
        for _ in 0..size {
            places.push(None)?;
        }
        Ok(Table { places })
    }

    /// The word with a text, if it is kept.
    fn find(&self, text: &str) -> Option<&T>
        ensures { IfSome result (λ word. T.text_of word.now ≡ text.now) }
    {
        let place = place_of(text, self.places.len())?;
        let word = self.places.get(place)?.as_ref()?;
        if word.text() == text {
            Some(word)
        } else {
            None
        }
    }

    /// Keeps a word, instead of the one at its place.
    fn keep(&mut self, word: &T) -> Result<(), AllocError> {
        let Some(place) = place_of(word.text(), self.places.len()) else {
            return Ok(());
        };
        if let Some(kept) = self.places.get_mut(place) {
            *kept = Some(word.again()?);
        }
        Ok(())
    }
}

/// The names, keys and short values that were read last. One that is read again shares the memory of the one before.
#[derive(Drop)]
pub(crate) struct Words {
    pub(crate) alloc: Global,
    files: Table<Text>,
    values: Table<Text>,
    names: Table<Name>,
    keys: Table<Key>,
}

impl Words {
    /// No words, and room for those of so many rows.
    pub(crate) fn new(alloc: Global, rows: usize) -> Result<Words, AllocError> {
        let places = rows.max(LEAST_PLACES).min(MOST_PLACES);
        Ok(Words {
            alloc,
            files: Table::new(alloc, places)?,
            values: Table::new(alloc, places)?,
            names: Table::new(alloc, places)?,
            keys: Table::new(alloc, places)?,
        })
    }

    /// The name of a file.
    pub(crate) fn file(&mut self, text: &str) -> Result<Text, AllocError>
        ensures { IfOk result (λ t. t ≡ text.now) }
    {
        if let Some(known) = self.files.find(text) {
            return known.again();
        }
        let new = Text::new(self.alloc, text)?;
        self.files.keep(&new)?;
        Ok(new)
    }

    /// A text that is a value.
    pub(crate) fn value(&mut self, text: &str) -> Result<Text, AllocError>
        ensures { IfOk result (λ t. t ≡ text.now) }
    {
        if text.len() > SHORT_BYTES {
            return Text::new(self.alloc, text);
        }
        if let Some(known) = self.values.find(text) {
            return known.again();
        }
        let new = Text::new(self.alloc, text)?;
        self.values.keep(&new)?;
        Ok(new)
    }

    /// The template name of a text. `BadName` exactly where the text is no template name.
    pub(crate) fn name(&mut self, text: &str) -> Result<Name, NameError>
        ensures value { IfOk result (λ n. n ≡ text.now) }
        ensures ok { OnOk result (is_name text.now ≡ true) }
        ensures bad { IsErrOf result NameError.BadName ↔ (is_name text.now ≡ false) }
    {
        if let Some(known) = self.names.find(text) {
            let _text = known.as_str();
            return Ok(known.again()?);
        }
        let new = Name::parse(self.alloc, text)?;
        self.names.keep(&new)?;
        Ok(new)
    }

    /// The key of a text. `BadKey` exactly where the text is no key.
    pub(crate) fn key(&mut self, text: &str) -> Result<Key, KeyError>
        ensures value { IfOk result (λ k. k ≡ text.now) }
        ensures ok { OnOk result (is_key text.now ≡ true) }
        ensures bad { IsErrOf result KeyError.BadKey ↔ (is_key text.now ≡ false) }
    {
        if let Some(known) = self.keys.find(text) {
            let _text = known.as_str();
            return Ok(known.again()?);
        }
        let new = Key::parse(self.alloc, text)?;
        self.keys.keep(&new)?;
        Ok(new)
    }
}
