ghost use Rattle.std.specs.Cmp.Lexicographic.{pointwise};
ghost use Rattle.std.specs.Prelude.{◌≡◌, ◌==◌, ◌≤◌, ◌+◌, ◌↔◌, true, false, IfOk, OnOk, IsErrOf, length};
ghost use Rattle.std.specs.List.{list_all};
ghost use Rattle.std.specs.Str.{IsUtf8};
ghost use Rattle.base.specs.declared.limits.TheConstants.{MAX_PATH_BYTES};
ghost use Rattle.path_tree.specs.Grammar.{is_key, is_key_byte};
ghost use Rattle.path_tree.specs.Reading.{StandsAt};
ghost use Rattle.path_tree.specs.declared.key.KeyError.TheVariants.{Memory};

use base::Text;
use base::ascii::is_letter;
use base::limits::MAX_KEY_BYTES;
use std::alloc::{AllocError, AllocFailed, Global};
use std::marker::Model;

/// A key of a dict (Pan Book, "Paths"): 1 to `MAX_KEY_BYTES` bytes, an ASCII letter or `_`, then
/// letters, digits or any of `_ . + -`. Contracts see the list of its bytes. Copies share one text
/// in memory.
#[derive(Clone, PartialEq, Eq, PartialOrd, Ord)]
pub struct Key {
    text: Text,
}

// By one call at each exit of who holds one: a derived Drop would let go of each part there.
impl Drop for Key {
    fn drop(self) {
        let Key { text: _text } = self;
    }
}

impl Model for Key {
    ghost use Rattle.std.specs.Prelude.{◌≡◌, ℕ, List, true};
    ghost use Rattle.path_tree.specs.Grammar.{is_key};

    ghost Value = { List ℕ };

    ghost view = { λ k. k.text };

    ghost inverse = { λ k. record { text = k } };

    ghost invariant = { λ k. is_key k.text ≡ true };
}

/// Why a text is no key.
#[derive(Clone, Copy, PartialEq, Eq)]
pub enum KeyError {
    /// It does not follow the grammar of keys.
    BadKey,
    /// There was no memory for the key.
    Memory,
}

impl From<AllocError> for KeyError {
    ghost from_gives = { λ _ e. e ≡ Memory };

    fn from(_e: AllocError) -> KeyError {
        KeyError::Memory
    }
}

impl<T: Drop> From<AllocFailed<T>> for KeyError {
    ghost from_gives = { λ _ e. e ≡ Memory };

    fn from(_e: AllocFailed<T>) -> KeyError {
        KeyError::Memory
    }
}

pub(crate) fn is_key_byte(c: u8) -> bool
    ensures { result ≡ is_key_byte c }
{
    // Most bytes of keys are small letters.
    if matches!(c, b'a'..=b'z') {
        return true;
    }
    matches!(c, b'0'..=b'9' | b'A'..=b'Z' | b'_' | b'-' | b'.' | b'+')
}

pub(crate) fn are_key_bytes(bytes: &[u8]) -> bool
    ensures { result ≡ list_all is_key_byte bytes.now }
{
    bytes.iter().all(|c| is_key_byte(*c))
}

/// Whether the bytes are those of a key.
pub fn is_key(bytes: &[u8]) -> bool
    ensures { result ≡ is_key bytes.now }
{
    let [first, rest @ ..] = bytes else {
        return false;
    };
    (is_letter(*first) || *first == b'_') && are_key_bytes(rest) && bytes.len() <= MAX_KEY_BYTES
}

impl Key {
    /// The key of a text. `BadKey` exactly where the text is no key.
    pub fn parse(alloc: Global, text: &str) -> Result<Key, KeyError>
        ensures value { IfOk result (λ k. k ≡ text.now) }
        ensures ok { OnOk result (is_key text.now ≡ true) }
        ensures bad { IsErrOf result KeyError.BadKey ↔ (is_key text.now ≡ false) }
    {
        if !is_key(text.as_bytes()) {
            return Err(KeyError::BadKey);
        }
        let text = Text::new(alloc, text)?;
        Ok(Key { text })
    }

    /// The same of a text in memory, which the key shares.
    pub fn of_text(text: &Text) -> Result<Key, KeyError>
        ensures value { IfOk result (λ k. k ≡ text.now) }
        ensures ok { OnOk result (is_key text.now ≡ true) }
        ensures bad { IsErrOf result KeyError.BadKey ↔ (is_key text.now ≡ false) }
    {
        if !is_key(text.as_str().as_bytes()) {
            return Err(KeyError::BadKey);
        }
        let text = text.share()?;
        Ok(Key { text })
    }

    /// The key of bytes that are those of a key, and stand in a text from `start` on. It shares the
    /// text's memory.
    pub(crate) fn in_text(whole: &Text, start: usize, bytes: &[u8]) -> Result<Key, AllocError>
        requires key { is_key bytes.now ≡ true }
        requires part { StandsAt start bytes.now whole.now }
        requires short { start + length bytes.now ≤ MAX_PATH_BYTES }
        ensures { IfOk result (λ k. k ≡ bytes.now) }
    {
        let text = whole.slice(start, start + bytes.len())?;
        Ok(Key { text })
    }

    /// Its text.
    pub fn as_str(&self) -> &str
        ensures text { result.now ≡ self.now }
        ensures key { is_key self.now ≡ true }
        ensures utf8 { IsUtf8 self.now }
    {
        self.text.as_str()
    }

    /// Whether it is this text.
    pub(crate) fn spells(&self, text: &str) -> bool
        ensures { result ≡ pointwise ◌==◌ self.now text.now }
    {
        self.text.spells(text)
    }

    /// The same text as one that can be shared.
    pub fn text_handle(&self) -> &Text
        ensures { result.now ≡ self.now }
    {
        &self.text
    }

    /// The same key, with its text shared.
    pub fn share(&self) -> Result<Key, AllocError>
        ensures { IfOk result (λ k. k ≡ self.now) }
    {
        let text = self.text.share()?;
        Ok(Key { text })
    }
}
