ghost use Rattle.std.specs.Prelude.{◌≡◌};
ghost use Rattle.path_tree.specs.Children.{child_fields};
ghost use Rattle.path_tree.specs.Lists.{list_of};
ghost use Rattle.path_tree.specs.Plain as plain;
ghost use Rattle.record_rows.specs.Forms.{some_at};
ghost use Rattle.record_rows.specs.Trees.{tree, tree_at, tree_by, list_at, dict_at, long_at, text_at, stands_behind, ok_of};
ghost use Rattle.record_rows.specs.Results.{Reads};
ghost use Rattle.record_rows.specs.Reading.{added_dict, dicts_at};

use crate::error::RowsError;
use crate::items::read_dict_key;
use crate::reading::{read_byte, read_str, read_u32, read_u64};
use crate::words::Words;
use base::limits::MAX_TREE_HEIGHT;
use path_tree::{Key, PutError, Refused, Term, Tree};
use std::alloc::Global;

fn read_long(bytes: &[u8]) -> Result<(Tree, &[u8]), RowsError>
    ensures { Reads (λ x. (x.0, x.1.now)) result (long_at bytes.now) }
{
    let (number, rest) = read_u64(bytes)?;
    Ok((Tree::long(number.cast_signed()), rest))
}

fn read_short_text<'a>(words: &mut Words, bytes: &'a [u8]) -> Result<(Tree, &'a [u8]), RowsError>
    ensures { Reads (λ x. (x.0, x.1.now)) result (text_at bytes.now) }
{
    let (text, rest) = read_str(bytes)?;
    let text = words.value(text)?;
    match Tree::shared_text(&text) {
        Ok(tree) => Ok((tree, rest)),
        Err(Refused::TooLarge) => Err(RowsError::BadRows),
        Err(_) => Err(RowsError::Memory),
    }
}

/// The list of these trees, where they make one.
fn list_of(alloc: Global, items: Vec<Tree>) -> Result<Tree, RowsError>
    ensures { Reads (λ t. t) result (ok_of (list_of items.items)) }
{
    match Tree::list(alloc, items) {
        Ok(tree) => Ok(tree),
        Err(Refused::Memory) => Err(RowsError::Memory),
        Err(_) => Err(RowsError::BadRows),
    }
}

/// Whether a key stands behind the last of a dict.
fn stands_behind(key: &str, dict: &Tree) -> bool
    ensures { result ≡ stands_behind key.now (child_fields dict.now) }
{
    let count = dict.len();
    if count == 0 {
        return true;
    }
    match dict.key_at(count - 1) {
        None => true,
        Some(last) => last < key,
    }
}

/// Adds a field at the end of a dict, where it may stand there.
fn add_field(alloc: Global, dict: &mut Tree, key: Key, value: Tree) -> Result<(), RowsError>
    requires { dict.old ≡ plain.dict (child_fields dict.old) }
    ensures { Reads (λ _. dict.new) result (added_dict key value (child_fields dict.old)) }
{
    if value.is_null() || !stands_behind(key.as_str(), dict) {
        return Err(RowsError::BadRows);
    }
    let _kind = dict.kind();
    match dict.put(alloc, &[Term::Key(key)], value) {
        Ok(()) => Ok(()),
        Err(PutError::Memory) => Err(RowsError::Memory),
        Err(_) => Err(RowsError::BadRows),
    }
}

#[cycle(read)]
fn some_trees<'a>(
    words: &mut Words,
    below: u64,
    count: u32,
    bytes: &'a [u8],
) -> Result<(Vec<Tree>, &'a [u8]), RowsError>
    ensures { Reads (λ x. (x.0.items, x.1.now)) result (some_at (tree_at below) count bytes.now) }
{
    let mut trees = Vec::new(words.alloc);
    let mut rest = bytes;
    for _ in 0..count {
        let (tree, after) = read_within(words, below, rest)?;
        trees.push(tree)?;
        rest = after;
    }
    Ok((trees, rest))
}

#[cycle(read)]
fn read_list<'a>(
    words: &mut Words,
    below: u64,
    bytes: &'a [u8],
) -> Result<(Tree, &'a [u8]), RowsError>
    ensures { Reads (λ x. (x.0, x.1.now)) result (list_at (tree_at below) bytes.now) }
{
    let (count, rest) = read_u32(bytes)?;
    let (trees, rest) = some_trees(words, below, count, rest)?;
    Ok((list_of(words.alloc, trees)?, rest))
}

#[cycle(read)]
fn some_fields<'a>(
    words: &mut Words,
    below: u64,
    count: u32,
    bytes: &'a [u8],
) -> Result<(Tree, &'a [u8]), RowsError>
    ensures { Reads (λ x. (x.0, x.1.now)) result
        (dicts_at (tree_at below) count plain.no_fields bytes.now) }
{
    let room = (count as usize).min(bytes.len() / 6);
    let mut dict = Tree::dict_with_room(words.alloc, room)?;
    let mut rest = bytes;
    for _ in 0..count {
        let (key, after) = read_dict_key(words, rest)?;
        let (value, after) = read_within(words, below, after)?;
        add_field(words.alloc, &mut dict, key, value)?;
        rest = after;
    }
    Ok((dict, rest))
}

#[cycle(read)]
fn read_dict<'a>(
    words: &mut Words,
    below: u64,
    bytes: &'a [u8],
) -> Result<(Tree, &'a [u8]), RowsError>
    ensures { Reads (λ x. (x.0, x.1.now)) result (dict_at (tree_at below) bytes.now) }
{
    let (count, rest) = read_u32(bytes)?;
    some_fields(words, below, count, rest)
}

#[cycle(read)]
fn read_kind<'a>(
    words: &mut Words,
    below: u64,
    kind: u8,
    bytes: &'a [u8],
) -> Result<(Tree, &'a [u8]), RowsError>
    ensures { Reads (λ x. (x.0, x.1.now)) result (tree_by (tree_at below) kind bytes.now) }
{
    match kind {
        0 => Ok((Tree::undef(), bytes)),
        1 => Ok((Tree::boolean(false), bytes)),
        2 => Ok((Tree::boolean(true), bytes)),
        3 => read_long(bytes),
        4 => read_short_text(words, bytes),
        5 => read_list(words, below, bytes),
        6 => read_dict(words, below, bytes),
        _ => Err(RowsError::BadRows),
    }
}

#[cycle(read)]
fn read_within<'a>(
    words: &mut Words,
    height: u64,
    bytes: &'a [u8],
) -> Result<(Tree, &'a [u8]), RowsError>
    ensures { Reads (λ x. (x.0, x.1.now)) result (tree_at height bytes.now) }
{
    if height == 0 {
        return Err(RowsError::BadRows);
    }
    let (kind, rest) = read_byte(bytes)?;
    read_kind(words, height - 1, kind, rest)
}

/// A tree.
pub(crate) fn read_tree<'a>(
    words: &mut Words,
    bytes: &'a [u8],
) -> Result<(Tree, &'a [u8]), RowsError>
    ensures { Reads (λ x. (x.0, x.1.now)) result (tree.read bytes.now) }
{
    read_within(words, MAX_TREE_HEIGHT, bytes)
}
