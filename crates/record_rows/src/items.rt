ghost use Rattle.std.specs.Prelude.{◌≡◌, ◌∷◌, Some, None, cond};
ghost use Rattle.record_rows.specs.Forms.{some_at};
ghost use Rattle.record_rows.specs.Fields.{a_term, index, terms, key, whole_key, key_in, is_item, item_in, is_trace, trace_in};
ghost use Rattle.record_rows.specs.Trees.{dict_key};
ghost use Rattle.record_rows.specs.Results.{Reads};

use crate::error::RowsError;
use crate::format::Format;
use crate::noted::Noted;
use crate::reading::{read_file_text, read_name, read_str, read_u32, read_u64};
use crate::words::Words;
use base::Seq;
use kept_state::limits::{MAX_INDEX, MAX_ITEMS, MAX_TERMS};
use path_tree::{Key as DictKey, KeyError, Term};
use questions::Key;
use read_sets::{Item, Trace};
use std::alloc::Global;

/// An item has no fewer bytes: a tag, a count, a name and a number.
const LEAST_ITEM_BYTES: usize = 14;

/// A key of a dict.
pub(crate) fn read_dict_key<'a>(
    words: &mut Words,
    bytes: &'a [u8],
) -> Result<(DictKey, &'a [u8]), RowsError>
    ensures { Reads (λ x. (x.0, x.1.now)) result (dict_key.read bytes.now) }
{
    let (text, rest) = read_str(bytes)?;
    match words.key(text) {
        Ok(key) => Ok((key, rest)),
        Err(KeyError::BadKey) => Err(RowsError::BadRows),
        Err(KeyError::Memory) => Err(RowsError::Memory),
    }
}

fn read_index(bytes: &[u8]) -> Result<(u32, &[u8]), RowsError>
    ensures { Reads (λ x. (x.0, x.1.now)) result (index.read bytes.now) }
{
    let (number, rest) = read_u32(bytes)?;
    if number > MAX_INDEX {
        return Err(RowsError::BadRows);
    }
    Ok((number, rest))
}

fn read_key_term<'a>(words: &mut Words, bytes: &'a [u8]) -> Result<(Term, &'a [u8]), RowsError>
    ensures { Reads (λ x. (x.0, x.1.now)) result (a_term.read (0 ∷ bytes.now)) }
{
    let (key, rest) = read_dict_key(words, bytes)?;
    Ok((Term::Key(key), rest))
}

fn read_index_term(bytes: &[u8]) -> Result<(Term, &[u8]), RowsError>
    ensures { Reads (λ x. (x.0, x.1.now)) result (a_term.read (1 ∷ bytes.now)) }
{
    let (index, rest) = read_index(bytes)?;
    Ok((Term::Index(index), rest))
}

fn read_term<'a>(words: &mut Words, bytes: &'a [u8]) -> Result<(Term, &'a [u8]), RowsError>
    ensures { Reads (λ x. (x.0, x.1.now)) result (a_term.read bytes.now) }
{
    match bytes {
        [] => Err(RowsError::BadRows),
        [0, rest @ ..] => read_key_term(words, rest),
        [1, rest @ ..] => read_index_term(rest),
        [_, ..] => Err(RowsError::BadRows),
    }
}

fn some_terms<'a>(
    words: &mut Words,
    count: u32,
    bytes: &'a [u8],
) -> Result<(Vec<Term>, &'a [u8]), RowsError>
    ensures { Reads (λ x. (x.0.items, x.1.now)) result (some_at a_term.read count bytes.now) }
{
    let mut terms = Vec::new(words.alloc);
    let mut rest = bytes;
    for _ in 0..count {
        let (term, after) = read_term(words, rest)?;
        terms.push(term)?;
        rest = after;
    }
    Ok((terms, rest))
}

fn read_terms<'a>(words: &mut Words, bytes: &'a [u8]) -> Result<(Seq<Term>, &'a [u8]), RowsError>
    ensures { Reads (λ x. (x.0, x.1.now)) result (terms.read bytes.now) }
{
    let (count, rest) = read_u32(bytes)?;
    let (terms, rest) = some_terms(words, count, rest)?;
    if terms.len() > MAX_TERMS {
        return Err(RowsError::BadRows);
    }
    Ok((Seq::from_vec(terms), rest))
}

/// The file that is asked for.
fn read_file_key<'a>(words: &mut Words, bytes: &'a [u8]) -> Result<(Key, &'a [u8]), RowsError>
    ensures { Reads (λ x. (x.0, x.1.now)) result (key.read (0 ∷ bytes.now)) }
{
    let (name, rest) = read_file_text(words, bytes)?;
    Ok((Key::File(name), rest))
}

/// The object that is asked for, and below which path.
fn read_under_key<'a>(words: &mut Words, bytes: &'a [u8]) -> Result<(Key, &'a [u8]), RowsError>
    ensures { Reads (λ x. (x.0, x.1.now)) result (key.read (1 ∷ bytes.now)) }
{
    let (object, rest) = read_name(words, bytes)?;
    let (terms, rest) = read_terms(words, rest)?;
    Ok((Key::Under { object, terms }, rest))
}

fn read_own_key<'a>(words: &mut Words, bytes: &'a [u8]) -> Result<(Key, &'a [u8]), RowsError>
    ensures { Reads (λ x. (x.0, x.1.now)) result (key.read bytes.now) }
{
    match bytes {
        [] => Err(RowsError::BadRows),
        [0, rest @ ..] => read_file_key(words, rest),
        [1, rest @ ..] => read_under_key(words, rest),
        [_, ..] => Err(RowsError::BadRows),
    }
}

/// The object that is asked for, as a whole.
fn read_object_key<'a>(words: &mut Words, bytes: &'a [u8]) -> Result<(Key, &'a [u8]), RowsError>
    ensures { Reads (λ x. (x.0, x.1.now)) result (whole_key.read (1 ∷ bytes.now)) }
{
    let (object, rest) = read_name(words, bytes)?;
    let terms = Seq::new(words.alloc);
    Ok((Key::Under { object, terms }, rest))
}

fn read_whole_key<'a>(words: &mut Words, bytes: &'a [u8]) -> Result<(Key, &'a [u8]), RowsError>
    ensures { Reads (λ x. (x.0, x.1.now)) result (whole_key.read bytes.now) }
{
    match bytes {
        [] => Err(RowsError::BadRows),
        [0, rest @ ..] => read_file_key(words, rest),
        [1, rest @ ..] => read_object_key(words, rest),
        [_, ..] => Err(RowsError::BadRows),
    }
}

fn read_key<'a>(
    words: &mut Words,
    format: Format,
    bytes: &'a [u8],
) -> Result<(Key, &'a [u8]), RowsError>
    ensures { Reads (λ x. (x.0, x.1.now)) result ((key_in format).read bytes.now) }
{
    match format {
        Format::First => read_whole_key(words, bytes),
        Format::Second | Format::Third => read_own_key(words, bytes),
    }
}

pub(crate) fn is_item(counter: u64, item: &Item) -> bool
    ensures { result ≡ is_item counter item.now }
{
    if item.number >= counter {
        return false;
    }
    match &item.key {
        Key::File(_) => item.number != 2,
        Key::Under { .. } => true,
    }
}

fn read_item<'a>(
    words: &mut Words,
    format: Format,
    counter: u64,
    bytes: &'a [u8],
) -> Result<(Item, &'a [u8]), RowsError>
    ensures { Reads (λ x. (x.0, x.1.now)) result ((item_in format counter).read bytes.now) }
{
    let (key, rest) = read_key(words, format, bytes)?;
    let (number, rest) = read_u64(rest)?;
    let item = Item { key, number };
    if !is_item(counter, &item) {
        return Err(RowsError::BadRows);
    }
    Ok((item, rest))
}

fn some_items<'a>(
    words: &mut Words,
    format: Format,
    counter: u64,
    count: u32,
    bytes: &'a [u8],
) -> Result<(Vec<Item>, &'a [u8]), RowsError>
    ensures { Reads (λ x. (x.0.items, x.1.now)) result
        (some_at (item_in format counter).read count bytes.now) }
{
    let room = (count as usize).min(bytes.len() / LEAST_ITEM_BYTES);
    let mut items = Vec::with_capacity(words.alloc, room)?;
    let mut rest = bytes;
    for _ in 0..count {
        let (item, after) = read_item(words, format, counter, rest)?;
        items.push(item)?;
        rest = after;
    }
    Ok((items, rest))
}

/// The trace of these items, each of which has a key of its own.
fn traced(alloc: Global, items: Vec<Item>) -> Result<Trace, RowsError>
    ensures { Reads (λ t. t) result (cond (is_trace items.items) (Some items.items) None) }
{
    if items.len() > MAX_ITEMS {
        return Err(RowsError::BadRows);
    }
    let mut noted = Noted::with_room(alloc, items.len())?;
    for item in items {
        if !noted.add(alloc, item)? {
            return Err(RowsError::BadRows);
        }
    }
    Ok(noted.into_trace())
}

/// What a run asked.
pub(crate) fn read_trace<'a>(
    words: &mut Words,
    format: Format,
    counter: u64,
    bytes: &'a [u8],
) -> Result<(Trace, &'a [u8]), RowsError>
    ensures { Reads (λ x. (x.0, x.1.now)) result ((trace_in format counter).read bytes.now) }
{
    let (count, rest) = read_u32(bytes)?;
    let (items, rest) = some_items(words, format, counter, count, rest)?;
    Ok((traced(words.alloc, items)?, rest))
}
