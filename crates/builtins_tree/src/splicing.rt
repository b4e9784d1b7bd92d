ghost use Rattle.std.specs.Prelude.{◌≡◌, ◌≤◌, ◌+◌, ◌∷◌, [], IfOk, IfSome, encode_utf8_all, length, string_bytes};
ghost use Rattle.call_values.specs.Children.{children};
ghost use Rattle.builtins_tree.specs.Splices.{part_in, replaced, splice_of, spliced_list, spliced_text};
ghost use Rattle.std.specs.Str.{chars};
ghost use Rattle.base.specs.Answers.{Gives};
ghost use Rattle.path_tree.specs.Plain as plain;
ghost use Rattle.path_tree.specs.Refusals.{refusal};

use call_values::{
    Arguments, by_count, char_count, child_count, from_char, position_in, push_children,
    string_value, up_to_char,
};
use path_tree::{Kind, Refused, Tree};
use std::alloc::{AllocError, Global};

/// A list or a text with a part of it replaced by another, or by nothing.
pub(crate) fn splice(alloc: Global, args: &[Tree]) -> Result<Tree, Refused>
    ensures { Gives (λ t. t) refusal result (splice_of args.now) }
{
    match by_count(args) {
        Arguments::Three(x, start, count) => {
            let (Some(start), Some(count)) = (start.as_long(), count.as_long()) else {
                return Err(Refused::BadArgument);
            };
            cut(alloc, x, start, count)
        }
        Arguments::Four(x, start, count, y) => {
            let (Some(start), Some(count)) = (start.as_long(), count.as_long()) else {
                return Err(Refused::BadArgument);
            };
            changed(alloc, x, start, count, y)
        }
        _ => Err(Refused::BadArgument),
    }
}

fn cut(alloc: Global, x: &Tree, start: i64, count: i64) -> Result<Tree, Refused>
    ensures { Gives (λ t. t) refusal result
        (splice_of (x.now ∷ plain.long start ∷ plain.long count ∷ [])) }
{
    if let Some(text) = x.as_text() {
        return cut_text(alloc, text, start, count);
    }
    match x.kind() {
        Kind::List => {
            let empty = Tree::empty_list(alloc)?;
            splice_list(alloc, x, start, count, &empty)
        }
        _ => Err(Refused::BadArgument),
    }
}

#[tactic(auto, using(crate::proofs::Spliced::no_chars))]
fn cut_text(alloc: Global, text: &str, start: i64, count: i64) -> Result<Tree, Refused>
    ensures { Gives (λ t. t) refusal result (spliced_text (chars text.now) start count []) }
{
    splice_text(alloc, text, start, count, "")
}

fn changed(alloc: Global, x: &Tree, start: i64, count: i64, y: &Tree) -> Result<Tree, Refused>
    ensures { Gives (λ t. t) refusal result
        (splice_of (x.now ∷ plain.long start ∷ plain.long count ∷ y.now ∷ [])) }
{
    if let (Some(text), Some(other)) = (x.as_text(), y.as_text()) {
        return splice_text(alloc, text, start, count, other);
    }
    match (x.kind(), y.kind()) {
        (Kind::List, Kind::List) => splice_list(alloc, x, start, count, y),
        _ => Err(Refused::BadArgument),
    }
}

fn splice_list(
    alloc: Global,
    list: &Tree,
    start: i64,
    count: i64,
    other: &Tree,
) -> Result<Tree, Refused>
    ensures { Gives (λ t. t) refusal result
        (spliced_list (children list.now) start count (children other.now)) }
{
    let Some(part) = part_in(child_count(list), start, count) else {
        return Err(Refused::BadIndex);
    };
    let items = spliced(alloc, list, part, other)?;
    Tree::list(alloc, items)
}

fn splice_text(
    alloc: Global,
    text: &str,
    start: i64,
    count: i64,
    other: &str,
) -> Result<Tree, Refused>
    ensures { Gives (λ t. t) refusal result
        (spliced_text (chars text.now) start count (chars other.now)) }
{
    let Some(part) = part_in(char_count(text), start, count) else {
        return Err(Refused::BadIndex);
    };
    let spliced = spliced_text(alloc, text, part, other)?;
    string_value(spliced)
}

/// The end of a part that ends within so many items.
fn end_of(start: usize, len: usize, all: usize) -> usize
    requires { start + len ≤ all }
    ensures { result ≡ start + len }
{
    start + len
}

/// A text with another in the place of a part.
#[tactic(auto, using(crate::proofs::Spliced::replaced_text))]
fn spliced_text(
    alloc: Global,
    text: &str,
    part: (usize, usize),
    other: &str,
) -> Result<String, AllocError>
    requires { part.0 + part.1 ≤ length (chars text.now) }
    ensures { IfOk result (λ t. string_bytes t
        ≡ encode_utf8_all (replaced part (chars other.now) (chars text.now))) }
{
    let (start, removed) = part;
    let all = char_count(text);
    let end = end_of(start, removed, all);
    let mut spliced = String::with_capacity(alloc, text.len())?;
    spliced.push_str(up_to_char(text, start))?;
    spliced.push_str(other)?;
    spliced.push_str(from_char(text, end))?;
    Ok(spliced)
}

/// A part that begins at one place and has so many of so many items.
fn part_in(len: usize, start: i64, count: i64) -> Option<(usize, usize)>
    ensures value { result ≡ part_in len start count }
    ensures within { IfSome result (λ part. part.0 + part.1 ≤ len) }
{
    let start = position_in(len, start)?;
    let count = position_in(len - start, count)?;
    Some((start, count))
}

/// A list with the items of another in the place of a part.
fn spliced(
    alloc: Global,
    list: &Tree,
    part: (usize, usize),
    other: &Tree,
) -> Result<Vec<Tree>, AllocError>
    requires { part.0 + part.1 ≤ length (children list.now) }
    ensures { IfOk result (λ v. v.items ≡ replaced part (children other.now) (children list.now)) }
{
    let (start, removed) = part;
    let end = child_count(list);
    let mut made = Vec::new(alloc);
    push_children(&mut made, list, 0, start)?;
    push_children(&mut made, other, 0, child_count(other))?;
    push_children(&mut made, list, start + removed, end)?;
    Ok(made)
}
