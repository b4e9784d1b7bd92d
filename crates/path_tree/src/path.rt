ghost use Rattle.std.specs.Prelude.{◌≡◌, ◌≢◌, ◌∷◌, ◌++◌, [], ◌↔◌, ◌<◌, ◌≤◌, ◌+◌, ◌==◌, ◌&&◌, IfOk, IfErr, IfSome, OnOk, if◌then◌else◌, false, true, IsErrOf, MatchResult, MatchOption, Ok, Err, Some, None, is_some, option_map, option_copied, slice_index, length, string_bytes};
ghost use Rattle.std.specs.List.{list_all};
ghost use Rattle.base.specs.Ascii.{is_digit};
ghost use Rattle.base.specs.Characters.{colon, open_brace};
ghost use Rattle.base.specs.Answers.{Gives};
ghost use Rattle.base.specs.declared.limits.TheConstants.{MAX_PATH_BYTES};
ghost use Rattle.path_tree.specs.Grammar.{is_index, is_name, number_of};
ghost use Rattle.path_tree.specs.Paths.{first_of, in_braces, key_term, braced_term, term_of, terms_at, terms_below, absolute_at, path_of, path_text, path_with, pieces, relative, relative_or_external, external, terms_text, term_text};
ghost use Rattle.path_tree.specs.Refusals.{path_refusal};
ghost use Rattle.path_tree.specs.Reading.{StandsAt, optional_pieces, piece_length};
ghost use Rattle.path_tree.specs.declared.path.PathError.TheVariants.{Memory};
ghost use Rattle.path_tree.specs.declared.path.PutError.TheVariants as put_error;
ghost use Rattle.path_tree.specs.declared.path.Anchor.TheVariants as anchor;

use crate::bytes::first_of;
use crate::escaping::escape_bytes;
use crate::key::{Key, KeyError, is_key};
use crate::name::{Name, is_name};
use base::ascii::is_digit;
use base::limits::MAX_PATH_BYTES;
use base::{Seq, Text};
use std::alloc::{AllocError, AllocFailed, Global};

/// A step of a path: into a dict by a key, or into a list by an index from 0.
#[derive(Clone, Drop, PartialEq, Eq)]
pub enum Term {
    /// A key of a dict.
    Key(Key),
    /// An index of a list.
    Index(u32),
}

/// Where a path begins: at the root, where its statement says, or at the root of another object.
#[derive(Clone, Drop, PartialEq, Eq)]
pub enum Anchor {
    /// At the root.
    Absolute,
    /// Where its statement says.
    Relative,
    /// At the root of this object.
    External(Name),
}

/// A path into a tree (Pan Book, "Paths").
#[derive(Drop)]
pub struct Path {
    /// Where it begins.
    pub anchor: Anchor,
    /// Its steps, the first from there.
    pub terms: Seq<Term>,
}

/// Why a text is no path.
#[derive(Clone, Copy, PartialEq, Eq)]
pub enum PathError {
    /// It is empty.
    Empty,
    /// It has over `MAX_PATH_BYTES` bytes.
    TooLong,
    /// The first term that is none begins at this byte. 0 for a bad object name, and the byte after
    /// the colon where no absolute path follows it.
    BadTerm(usize),
    /// There was no memory for the path.
    Memory,
}

/// Why a tree takes no value at a path.
#[derive(Clone, Copy, PartialEq, Eq)]
pub enum PutError {
    /// After this many terms the path leads through a text, a long or a boolean.
    ThroughProperty(usize),
    /// A key leads into a list.
    KeyInList,
    /// An index leads into a dict.
    IndexInDict,
    /// The size would pass `MAX_TREE_SIZE`.
    TooLarge,
    /// The height would pass `MAX_TREE_HEIGHT`.
    TooHigh,
    /// There was no memory for the change.
    Memory,
}

impl From<AllocError> for PathError {
    ghost from_gives = { λ _ e. e ≡ Memory };

    fn from(_e: AllocError) -> PathError {
        PathError::Memory
    }
}

impl<T: Drop> From<AllocFailed<T>> for PathError {
    ghost from_gives = { λ _ e. e ≡ Memory };

    fn from(_e: AllocFailed<T>) -> PathError {
        PathError::Memory
    }
}

impl From<AllocError> for PutError {
    ghost from_gives = { λ _ e. e ≡ put_error.Memory };

    fn from(_e: AllocError) -> PutError {
        PutError::Memory
    }
}

impl<T: Drop> From<AllocFailed<T>> for PutError {
    ghost from_gives = { λ _ e. e ≡ put_error.Memory };

    fn from(_e: AllocFailed<T>) -> PutError {
        PutError::Memory
    }
}

impl Path {
    /// The path of a text. A path is absolute (`/`, or `/` before each term), relative (terms
    /// joined by `/`), or external: a template name, `:` and an absolute path. It is external
    /// exactly where it does not begin with `/` and a `:` comes before any `{`. A term is a key, an
    /// index (decimal digits without a leading zero, at most 999,999) or a text in braces, without
    /// braces inside, which stands for the text's escaped key. The path shares the text's memory.
    pub fn parse(alloc: Global, text: &Text) -> Result<Path, PathError>
        ensures { Gives (λ p. p) path_refusal result (path_of text.now) }
    {
        let bytes = text.as_str().as_bytes();
        let [first, ..] = bytes else {
            return Err(PathError::Empty);
        };
        if bytes.len() > MAX_PATH_BYTES {
            return Err(PathError::TooLong);
        }
        if *first == b'/' {
            absolute(alloc, text, Anchor::Absolute, 0, bytes)
        } else {
            relative_or_external(alloc, text, bytes)
        }
    }

    /// The path in canonical form: keys and indices joined by `/`, behind `/` where it is absolute,
    /// and behind the name and `:/` where it is external.
    pub fn text(&self, alloc: Global) -> Result<String, AllocError>
        ensures { IfOk result (λ t. string_bytes t ≡ path_text self.now) }
    {
        let mut text = String::new(alloc);
        match &self.anchor {
            Anchor::Absolute => text.push('/')?,
            Anchor::Relative => {}
            Anchor::External(name) => {
                text.push_str(name.as_str())?;
                text.push_str(":/")?;
            }
        }
        push_terms(alloc, &mut text, self.terms.as_slice())?;
        Ok(text)
    }
}

fn relative_or_external(alloc: Global, whole: &Text, text: &[u8]) -> Result<Path, PathError>
    requires part { StandsAt 0 text.now whole.now }
    requires short { length text.now ≤ MAX_PATH_BYTES }
    ensures { Gives (λ x. x) path_refusal result
        (relative_or_external text.now (first_of colon open_brace text.now)) }
{
    match first_of(b':', b'{', text) {
        Some(at) if text[at] == b':' => external(alloc, whole, text, at),
        _ => relative(alloc, whole, text),
    }
}

fn relative(alloc: Global, whole: &Text, text: &[u8]) -> Result<Path, PathError>
    requires part { StandsAt 0 text.now whole.now }
    requires short { length text.now ≤ MAX_PATH_BYTES }
    ensures { Gives (λ x. x) path_refusal result (relative text.now) }
{
    let terms = terms(alloc, whole, 0, text)?;
    Ok(Path {
        anchor: Anchor::Relative,
        terms,
    })
}

fn external(alloc: Global, whole: &Text, text: &[u8], colon: usize) -> Result<Path, PathError>
    requires part { StandsAt 0 text.now whole.now }
    requires colon { colon < length text.now }
    requires short { length text.now ≤ MAX_PATH_BYTES }
    ensures { Gives (λ x. x) path_refusal result (external text.now colon) }
{
    let Some(name) = name_of(whole, &text[..colon])? else {
        return Err(PathError::BadTerm(0));
    };
    absolute(
        alloc,
        whole,
        Anchor::External(name),
        colon + 1,
        &text[colon + 1..],
    )
}

// An absolute path, which begins at this byte of its text.
fn absolute(
    alloc: Global,
    whole: &Text,
    anchor: Anchor,
    position: usize,
    text: &[u8],
) -> Result<Path, PathError>
    requires part { StandsAt position text.now whole.now }
    requires short { position + length text.now ≤ MAX_PATH_BYTES }
    ensures { Gives (λ x. x) path_refusal result (absolute_at anchor position text.now) }
{
    let [b'/', rest @ ..] = text else {
        return Err(PathError::BadTerm(position));
    };
    let terms = terms_below(alloc, whole, position + 1, rest)?;
    Ok(Path { anchor, terms })
}

fn terms_below(
    alloc: Global,
    whole: &Text,
    position: usize,
    text: &[u8],
) -> Result<Seq<Term>, PathError>
    requires part { StandsAt position text.now whole.now }
    requires short { position + length text.now ≤ MAX_PATH_BYTES }
    ensures { Gives (λ x. x) path_refusal result (terms_below position text.now) }
{
    if text.is_empty() {
        Ok(Seq::new(alloc))
    } else {
        terms(alloc, whole, position, text)
    }
}

// The terms of a text that begins at this byte of the path's text.
fn terms(alloc: Global, whole: &Text, position: usize, text: &[u8]) -> Result<Seq<Term>, PathError>
    requires part { StandsAt position text.now whole.now }
    requires short { position + length text.now ≤ MAX_PATH_BYTES }
    ensures { Gives (λ x. x) path_refusal result (terms_at position (pieces text.now)) }
{
    let mut terms = Vec::new(alloc);
    let mut position = position;
    let mut rest = Some(text);
    while let Some(text) = rest {
        let (piece, more) = first_piece(text);
        let Some(term) = term_of(alloc, whole, position, piece)? else {
            return Err(PathError::BadTerm(position));
        };
        terms.push(term)?;
        position += piece.len() + 1;
        rest = more;
    }
    Ok(Seq::from_vec(terms))
}

// The bytes before the first slash outside of braces, and those behind it.
fn first_piece(text: &[u8]) -> (&[u8], Option<&[u8]>)
    ensures pieces { pieces text.now ≡ result.0.now ∷ optional_pieces (option_copied result.1) }
    ensures first { StandsAt 0 result.0.now text.now }
    ensures more { IfSome (option_copied result.1)
        (λ more. StandsAt (length result.0.now + 1) more text.now) }
{
    let end = piece_end(text);
    if end < text.len() {
        (&text[..end], Some(&text[end + 1..]))
    } else {
        (text, None)
    }
}

fn piece_end(text: &[u8]) -> usize
    ensures { result ≡ piece_length false text.now }
{
    let mut inside = false;
    for (i, byte) in text.iter().enumerate() {
        match *byte {
            b'/' if !inside => return i,
            b'{' => inside = true,
            b'}' => inside = false,
            _ => {}
        }
    }
    text.len()
}

fn term_of(
    alloc: Global,
    whole: &Text,
    position: usize,
    piece: &[u8],
) -> Result<Option<Term>, AllocError>
    requires part { StandsAt position piece.now whole.now }
    requires short { position + length piece.now ≤ MAX_PATH_BYTES }
    ensures { IfOk result (λ t. t ≡ term_of piece.now) }
{
    if is_key(piece) {
        Ok(Some(Term::Key(Key::in_text(whole, position, piece)?)))
    } else if is_index(piece) {
        Ok(Some(Term::Index(number_of(piece))))
    } else {
        braced_term(alloc, piece)
    }
}

fn braced_term(alloc: Global, piece: &[u8]) -> Result<Option<Term>, AllocError>
    ensures { IfOk result (λ t. t ≡ braced_term (in_braces piece.now)) }
{
    let Some(text) = in_braces(piece) else {
        return Ok(None);
    };
    key_term(alloc, escape_bytes(alloc, text)?)
}

fn in_braces(piece: &[u8]) -> Option<&[u8]>
    ensures { option_copied result ≡ in_braces piece.now }
{
    let [b'{', rest @ ..] = piece else {
        return None;
    };
    let end = first_of(b'{', b'}', rest)?;
    if rest[end] == b'}' && end + 1 == rest.len() {
        Some(&rest[..end])
    } else {
        None
    }
}

fn key_term(alloc: Global, text: String) -> Result<Option<Term>, AllocError>
    ensures { IfOk result (λ t. t ≡ key_term (string_bytes text)) }
{
    match Key::parse(alloc, text.as_str()) {
        Ok(key) => Ok(Some(Term::Key(key))),
        Err(KeyError::BadKey) => Ok(None),
        Err(KeyError::Memory) => Err(AllocError),
    }
}

fn name_of(whole: &Text, bytes: &[u8]) -> Result<Option<Name>, AllocError>
    requires { StandsAt 0 bytes.now whole.now }
    ensures { IfOk result (λ n. n ≡ (if is_name bytes.now then Some bytes.now else None)) }
{
    if !is_name(bytes) {
        return Ok(None);
    }
    let name = Name::at_start(whole, bytes)?;
    Ok(Some(name))
}

fn is_index(piece: &[u8]) -> bool
    ensures { result ≡ is_index piece.now }
{
    match piece {
        [] => false,
        [only] => is_digit(*only),
        [first, second, rest @ ..] => {
            b'1' <= *first
                && *first <= b'9'
                && is_digit(*second)
                && are_digits(rest)
                && rest.len() < 5
        }
    }
}

fn are_digits(bytes: &[u8]) -> bool
    ensures { result ≡ list_all is_digit bytes.now }
{
    bytes.iter().all(|c| is_digit(*c))
}

#[tactic(auto, using(crate::proofs::Numbers::number_lemmas))]
fn number_of(digits: &[u8]) -> u32
    requires { is_index digits.now ≡ true }
    ensures { result ≡ number_of digits.now }
{
    let mut number = 0;
    for digit in digits {
        number = 10 * number + (*digit - b'0') as u32;
    }
    number
}

fn push_terms(alloc: Global, text: &mut String, terms: &[Term]) -> Result<(), AllocError>
    ensures { OnOk result (string_bytes text.new ≡ string_bytes text.old ++ terms_text terms.now) }
{
    let [first, rest @ ..] = terms else {
        return Ok(());
    };
    push_term(alloc, text, first)?;
    for term in rest {
        text.push('/')?;
        push_term(alloc, text, term)?;
    }
    Ok(())
}

fn push_term(alloc: Global, text: &mut String, term: &Term) -> Result<(), AllocError>
    ensures { OnOk result (string_bytes text.new ≡ string_bytes text.old ++ term_text term.now) }
{
    match term {
        Term::Key(key) => text.push_str(key.as_str()),
        Term::Index(index) => {
            let digits = format!(in alloc; "{index}")?;
            text.push_str(digits.as_str())
        }
    }
}
