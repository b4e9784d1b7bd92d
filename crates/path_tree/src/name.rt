ghost use Rattle.std.specs.Prelude.{◌≡◌, ◌==◌, ◌↔◌, ◌∷◌, [], true, false, IfOk, OnOk, IsErrOf};
ghost use Rattle.std.specs.List.{list_all, slice_split};
ghost use Rattle.std.specs.Str.{IsUtf8};
ghost use Rattle.base.specs.Characters.{slash};
ghost use Rattle.path_tree.specs.Grammar.{is_dots, is_name, is_segment};
ghost use Rattle.path_tree.specs.Reading.{StandsAt};
ghost use Rattle.path_tree.specs.declared.name.NameError.TheVariants.{Memory};

use crate::bytes::first_of;
use crate::key::are_key_bytes;
use base::Text;
use base::limits::MAX_NAME_BYTES;
use std::alloc::{AllocError, AllocFailed, Global};
use std::marker::Model;

/// A template name (Pan Book, "Templates"): 1 to `MAX_NAME_BYTES` bytes, segments joined by `/`,
/// each of one or more of `A-Z a-z 0-9 _ . + -` and none equal to `.` or `..`. Contracts see the
/// list of its bytes. Copies share one text in memory.
#[derive(Clone, PartialEq, Eq, PartialOrd, Ord)]
pub struct Name {
    text: Text,
}

// By one call at each exit of who holds one: a derived Drop would let go of each part there.
impl Drop for Name {
    fn drop(self) {
        let Name { text: _text } = self;
    }
}

impl Model for Name {
    ghost use Rattle.std.specs.Prelude.{◌≡◌, ℕ, List, true};
    ghost use Rattle.path_tree.specs.Grammar.{is_name};

    ghost Value = { List ℕ };

    ghost view = { λ k. k.text };

    ghost inverse = { λ k. record { text = k } };

    ghost invariant = { λ k. is_name k.text ≡ true };
}

/// Why a text is no template name.
#[derive(Clone, Copy, PartialEq, Eq)]
pub enum NameError {
    /// It does not follow the grammar of template names.
    BadName,
    /// There was no memory for the name.
    Memory,
}

impl From<AllocError> for NameError {
    ghost from_gives = { λ _ e. e ≡ Memory };

    fn from(_e: AllocError) -> NameError {
        NameError::Memory
    }
}

impl<T: Drop> From<AllocFailed<T>> for NameError {
    ghost from_gives = { λ _ e. e ≡ Memory };

    fn from(_e: AllocFailed<T>) -> NameError {
        NameError::Memory
    }
}

fn is_dots(bytes: &[u8]) -> bool
    ensures { result ≡ is_dots bytes.now }
{
    match bytes {
        [first] => *first == b'.',
        [first, second] => *first == b'.' && *second == b'.',
        _ => false,
    }
}

fn is_segment(bytes: &[u8]) -> bool
    ensures { result ≡ is_segment bytes.now }
{
    0 < bytes.len() && are_key_bytes(bytes) && !is_dots(bytes)
}

fn are_segments(bytes: &[u8]) -> bool
    ensures { result ≡ list_all is_segment (slice_split (λ c. c == slash) bytes.now) }
{
    match first_of(b'/', b'/', bytes) {
        None => is_segment(bytes),
        Some(at) => is_segment(&bytes[..at]) && are_segments(&bytes[at + 1..]),
    }
}

/// Whether the bytes are those of a template name.
pub fn is_name(bytes: &[u8]) -> bool
    ensures { result ≡ is_name bytes.now }
{
    bytes.len() <= MAX_NAME_BYTES && are_segments(bytes)
}

impl Name {
    /// The template name of a text. `BadName` exactly where the text is no template name.
    pub fn parse(alloc: Global, text: &str) -> Result<Name, NameError>
        ensures value { IfOk result (λ k. k ≡ text.now) }
        ensures ok { OnOk result (is_name text.now ≡ true) }
        ensures bad { IsErrOf result NameError.BadName ↔ (is_name text.now ≡ false) }
    {
        if !is_name(text.as_bytes()) {
            return Err(NameError::BadName);
        }
        let text = Text::new(alloc, text)?;
        Ok(Name { text })
    }

    /// The name of bytes that are those of a template name, and that a text begins with. It shares
    /// the text's memory.
    pub(crate) fn at_start(whole: &Text, bytes: &[u8]) -> Result<Name, AllocError>
        requires name { is_name bytes.now ≡ true }
        requires part { StandsAt 0 bytes.now whole.now }
        ensures { IfOk result (λ k. k ≡ bytes.now) }
    {
        let text = whole.slice(0, bytes.len())?;
        Ok(Name { text })
    }

    /// Its text.
    pub fn as_str(&self) -> &str
        ensures text { result.now ≡ self.now }
        ensures name { is_name self.now ≡ true }
        ensures utf8 { IsUtf8 self.now }
    {
        self.text.as_str()
    }

    /// The same text as one that can be shared.
    pub fn text_handle(&self) -> &Text
        ensures { result.now ≡ self.now }
    {
        &self.text
    }

    /// The same name, with its text shared.
    pub fn share(&self) -> Result<Name, AllocError>
        ensures { IfOk result (λ k. k ≡ self.now) }
    {
        let text = self.text.share()?;
        Ok(Name { text })
    }
}
