ghost use Rattle.std.specs.Prelude.{◌≡◌, ◌∷◌, []};
ghost use Rattle.serde_json.specs.View.{view, items_view, members_view};
ghost use Rattle.base.specs.Answers.{Gives};
ghost use Rattle.path_tree.specs.Plain as plain;
ghost use Rattle.path_tree.specs.Refusals.{refusal};
ghost use Rattle.builtins_code.specs.Json.{are_keys, are_longs, items_are_keys, items_are_longs, json_decode_of, members_are_keys, members_are_longs, value_of};

use crate::json_trees::tree_of;
use call_values::{Arguments, by_count};
use path_tree::{Refused, Tree, is_key};
use serde_json::{Category, Map, Value};
use std::alloc::Global;

/// `json_decode(t)`: the tree of what the crate `serde_json` reads in t; null gives undef.
/// `BadArgument` where the arguments are not one text, or it reads nothing, or a number is none of
/// 64 bits with a sign; then `BadIndex` where the name of a member is no key; then `TooLarge`
/// exactly where the tree is over its limits.
pub(crate) fn json_decode(alloc: Global, arguments: &[Tree]) -> Result<Tree, Refused>
    ensures { Gives (λ t. t) refusal result (json_decode_of arguments.now) }
{
    let Arguments::One(value) = by_count(arguments) else {
        return Err(Refused::BadArgument);
    };
    let Some(text) = value.as_text() else {
        return Err(Refused::BadArgument);
    };
    decoded(alloc, text)
}

fn decoded(alloc: Global, text: &str) -> Result<Tree, Refused>
    ensures { Gives (λ t. t) refusal result (json_decode_of (plain.text text.now ∷ [])) }
{
    match Value::from_str(alloc, text) {
        Ok(value) => value_of(alloc, &value),
        Err(error) if error.classify() == Category::Memory => Err(Refused::Memory),
        Err(_) => Err(Refused::BadArgument),
    }
}

fn value_of(alloc: Global, value: &Value) -> Result<Tree, Refused>
    ensures { Gives (λ t. t) refusal result (value_of (view value.now)) }
{
    if !are_longs(value) {
        return Err(Refused::BadArgument);
    }
    if !are_keys(value) {
        return Err(Refused::BadIndex);
    }
    tree_of(alloc, value)
}

// Whether each number is one of 64 bits with a sign.
#[cycle(longs)]
fn are_longs(value: &Value) -> bool
    ensures { result ≡ are_longs (view value.now) }
{
    match value {
        Value::Null => true,
        Value::Bool(_) => true,
        Value::Number(number) => number.is_i64(),
        Value::String(_) => true,
        Value::Array(items) => items_are_longs(items),
        Value::Object(members) => members_are_longs(members),
    }
}

#[cycle(longs)]
fn items_are_longs(items: &Vec<Value>) -> bool
    ensures { result ≡ items_are_longs (items_view items.now.items) }
{
    for item in items {
        if !are_longs(item) {
            return false;
        }
    }
    true
}

#[cycle(longs)]
fn members_are_longs(members: &Map<String, Value>) -> bool
    ensures { result ≡ members_are_longs (members_view members.now.entries) }
{
    for (_, member) in members.iter() {
        if !are_longs(member) {
            return false;
        }
    }
    true
}

// Whether each name of a member is a key.
#[cycle(keys)]
fn are_keys(value: &Value) -> bool
    ensures { result ≡ are_keys (view value.now) }
{
    match value {
        Value::Null => true,
        Value::Bool(_) => true,
        Value::Number(_) => true,
        Value::String(_) => true,
        Value::Array(items) => items_are_keys(items),
        Value::Object(members) => members_are_keys(members),
    }
}

#[cycle(keys)]
fn items_are_keys(items: &Vec<Value>) -> bool
    ensures { result ≡ items_are_keys (items_view items.now.items) }
{
    for item in items {
        if !are_keys(item) {
            return false;
        }
    }
    true
}

#[cycle(keys)]
fn members_are_keys(members: &Map<String, Value>) -> bool
    ensures { result ≡ members_are_keys (members_view members.now.entries) }
{
    for (name, member) in members.iter() {
        if !is_key(name.as_bytes()) || !are_keys(member) {
            return false;
        }
    }
    true
}
