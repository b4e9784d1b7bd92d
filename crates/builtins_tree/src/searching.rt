ghost use Rattle.std.specs.Prelude.{◌≡◌, ◌<◌, ◌≤◌, ◌^◌, ◌∷◌, [], IfSome, drop, length, nat_eq};
ghost use Rattle.std.specs.List.{starts_with};
ghost use Rattle.std.specs.Str.{chars};
ghost use Rattle.base.specs.Answers.{Gives};
ghost use Rattle.builtins_tree.specs.Searches.{found_item, found_key, found_text, index_from, index_in_list, index_in_text, index_of, place_or_less};
ghost use Rattle.call_values.specs.Children.{children};
ghost use Rattle.path_tree.specs.Children.{child_fields};
ghost use Rattle.path_tree.specs.Find.{kind_of};
ghost use Rattle.path_tree.specs.declared.kind.Kind.TheVariants as kind;
ghost use Rattle.path_tree.specs.Refusals.{refusal};

use crate::kinds::is_property;
use crate::reading::number;
use call_values::{
    Arguments, by_count, char_count, child_count, from_char, position_in, text_value,
};
use path_tree::{Kind, Refused, Tree};
use std::alloc::Global;

/// The first place of a text in a text, or of a property in a list, from a position on, or -1; the
/// least key of a property in a dict, or the empty text.
pub(crate) fn index(alloc: Global, args: &[Tree]) -> Result<Tree, Refused>
    ensures { Gives (λ t. t) refusal result (index_of args.now) }
{
    match by_count(args) {
        Arguments::Two(wanted, whole) => index_in(alloc, wanted, whole),
        Arguments::Three(wanted, whole, start) => match start.as_long() {
            Some(start) => index_from(wanted, whole, start),
            None => Err(Refused::BadArgument),
        },
        _ => Err(Refused::BadArgument),
    }
}

fn index_in(alloc: Global, wanted: &Tree, whole: &Tree) -> Result<Tree, Refused>
    ensures { Gives (λ t. t) refusal result (index_of (wanted.now ∷ whole.now ∷ [])) }
{
    match whole.kind() {
        Kind::Dict => index_in_dict(alloc, wanted, whole),
        _ => index_from(wanted, whole, 0),
    }
}

#[tactic(auto, using(crate::proofs::Finds::dict_row))]
fn index_in_dict(alloc: Global, wanted: &Tree, dict: &Tree) -> Result<Tree, Refused>
    requires { kind_of dict.now ≡ kind.Dict }
    ensures { Gives (λ t. t) refusal result (index_of (wanted.now ∷ dict.now ∷ [])) }
{
    if !is_property(wanted.kind()) {
        return Err(Refused::BadArgument);
    }
    text_value(alloc, found_key(wanted, dict))
}

/// The least key of a value in a dict, or the empty text.
#[tactic(auto, using(crate::proofs::Finds::key_found, crate::proofs::Finds::key_passed, crate::proofs::Finds::keys_end, crate::proofs::Finds::keys_start))]
fn found_key<'a>(wanted: &Tree, dict: &'a Tree) -> &'a str
    ensures { result.now ≡ found_key wanted.now (child_fields dict.now) }
{
    let Kind::Dict = dict.kind() else {
        return "";
    };
    for i in 0..dict.len() {
        let Some(key) = dict.key_at(i) else {
            unreachable!();
        };
        let Some(value) = dict.child_at(i) else {
            unreachable!();
        };
        if wanted.same(value) {
            return key;
        }
    }
    ""
}

#[tactic(auto, using(crate::proofs::Finds::chars_small, crate::proofs::Finds::children_small))]
fn index_from(wanted: &Tree, whole: &Tree, start: i64) -> Result<Tree, Refused>
    ensures { Gives (λ t. t) refusal result (index_from wanted.now whole.now start) }
{
    if let (Some(wanted), Some(text)) = (wanted.as_text(), whole.as_text()) {
        return index_in_text(wanted, text, start);
    }
    match (is_property(wanted.kind()), whole.kind()) {
        (true, Kind::List) => index_in_list(wanted, whole, start),
        _ => Err(Refused::BadArgument),
    }
}

fn index_in_text(wanted: &str, text: &str, start: i64) -> Result<Tree, Refused>
    requires { length (chars text.now) < 2 ^ 63 }
    ensures { Gives (λ t. t) refusal result (index_in_text wanted.now (chars text.now) start) }
{
    match position_in(char_count(text), start) {
        Some(start) => Ok(place_or_less(found_text(wanted, text, start))),
        None => Err(Refused::BadIndex),
    }
}

fn index_in_list(wanted: &Tree, list: &Tree, start: i64) -> Result<Tree, Refused>
    requires { length (children list.now) < 2 ^ 63 }
    ensures { Gives (λ t. t) refusal result (index_in_list wanted.now (children list.now) start) }
{
    match position_in(child_count(list), start) {
        Some(start) => Ok(place_or_less(found_item(wanted, list, start))),
        None => Err(Refused::BadIndex),
    }
}

/// A place as a long; -1 where there is none.
fn place_or_less(place: Option<usize>) -> Tree
    requires { IfSome place (λ i. i < 2 ^ 63) }
    ensures { result ≡ place_or_less place }
{
    match place {
        Some(place) => number(place),
        None => Tree::long(-1),
    }
}

/// The first place of a text in a text, from a character on.
fn found_text(wanted: &str, text: &str, start: usize) -> Option<usize>
    requires start { start ≤ length (chars text.now) }
    requires small { length (chars text.now) < 2 ^ 63 }
    ensures value { result ≡ found_text wanted.now start (drop start (chars text.now)) }
    ensures small { IfSome result (λ i. i < 2 ^ 63) }
{
    let end = char_count(text);
    let mut rest = from_char(text, start);
    for place in start..end {
        if begins(rest, wanted) {
            return Some(place);
        }
        rest = from_char(rest, 1);
    }
    if begins(rest, wanted) {
        Some(end)
    } else {
        None
    }
}

fn begins(text: &str, first: &str) -> bool
    ensures { result ≡ starts_with nat_eq text.now first.now }
{
    text.starts_with(first)
}

/// The first place of a value in a list, from an item on.
#[tactic(auto, using(crate::proofs::Finds::item_found, crate::proofs::Finds::item_passed, call_values::proofs::Kids::child_there))]
fn found_item(wanted: &Tree, list: &Tree, start: usize) -> Option<usize>
    requires start { start ≤ length (children list.now) }
    requires small { length (children list.now) < 2 ^ 63 }
    ensures value { result ≡ found_item wanted.now start (drop start (children list.now)) }
    ensures small { IfSome result (λ i. i < 2 ^ 63) }
{
    for i in start..child_count(list) {
        let Some(item) = list.child_at(i) else {
            unreachable!();
        };
        if wanted.same(item) {
            return Some(i);
        }
    }
    None
}
