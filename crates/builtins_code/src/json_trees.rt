ghost use Rattle.std.specs.Prelude.{◌≡◌, ◌≢◌, IfErr, IfOk, Err, false, map, true};
ghost use Rattle.serde_json.specs.View.{view, items_view, members_view, number_view};
ghost use Rattle.base.specs.Answers.{Gives};
ghost use Rattle.path_tree.specs.Find.{kind_of};
ghost use Rattle.path_tree.specs.Grammar.{is_key};
ghost use Rattle.path_tree.specs.Lists.{is_null, within_limits};
ghost use Rattle.path_tree.specs.Plain as plain;
ghost use Rattle.path_tree.specs.Refusals.{refusal};
ghost use Rattle.path_tree.specs.declared.kind.Kind.TheVariants as kind;
ghost use Rattle.path_tree.specs.declared.refused.Refused.TheVariants.{Memory};
ghost use Rattle.builtins_code.specs.Fields.{with_field};
ghost use Rattle.builtins_code.specs.Json.{are_keys, items_are_keys, items_trees, members_are_keys, members_trees, tree_of};

use path_tree::{Key, KeyError, PutError, Refused, Term, Tree};
use serde_json::{Map, Value};
use std::alloc::{AllocError, Global};

// The tree of a value, within the limits. A number that is none of 64 bits gives 0.
#[cycle(trees)]
pub(crate) fn tree_of(alloc: Global, value: &Value) -> Result<Tree, Refused>
    requires { are_keys (view value.now) ≡ true }
    ensures { Gives (λ t. t) refusal result (within_limits (tree_of (view value.now))) }
{
    match value {
        Value::Null => Ok(Tree::undef()),
        Value::Bool(value) => Ok(Tree::boolean(*value)),
        Value::Number(number) => Ok(Tree::long(number.as_i64().unwrap_or(0))),
        Value::String(text) => text_of(alloc, text.as_str()),
        Value::Array(items) => list_of(alloc, items),
        Value::Object(members) => dict_of(alloc, members),
    }
}

// One over the limit of a text is refused as want of memory; a part of a tree's text never is.
fn text_of(alloc: Global, text: &str) -> Result<Tree, Refused>
    ensures { Gives (λ t. t) refusal result (within_limits (plain.text text.now)) }
{
    match Tree::text(alloc, text) {
        Ok(tree) => Ok(tree),
        Err(_) => Err(Refused::Memory),
    }
}

#[cycle(trees)]
fn list_of(alloc: Global, items: &Vec<Value>) -> Result<Tree, Refused>
    requires { items_are_keys (items_view items.now.items) ≡ true }
    ensures { Gives (λ t. t) refusal result
        (within_limits (plain.list (items_trees (items_view items.now.items)))) }
{
    let trees = trees_of(alloc, items)?;
    Tree::list(alloc, trees)
}

#[cycle(trees)]
fn trees_of(alloc: Global, items: &Vec<Value>) -> Result<Vec<Tree>, Refused>
    requires { items_are_keys (items_view items.now.items) ≡ true }
    ensures ok { IfOk result (λ made. made.items ≡ map (λ v. tree_of (view v)) items.now.items) }
    ensures err { IfErr result (λ e. e ≢ Memory
        → within_limits (plain.list (items_trees (items_view items.now.items))) ≡ Err e) }
{
    let mut made = Vec::with_capacity(alloc, items.len())?;
    for item in items {
        made.push(tree_of(alloc, item)?)?;
    }
    Ok(made)
}

#[cycle(trees)]
fn dict_of(alloc: Global, members: &Map<String, Value>) -> Result<Tree, Refused>
    requires { members_are_keys (members_view members.now.entries) ≡ true }
    ensures { Gives (λ t. t) refusal result
        (within_limits (plain.dict (members_trees (members_view members.now.entries)))) }
{
    let mut dict = Tree::empty_dict(alloc)?;
    for (name, member) in members.iter() {
        let child = tree_of(alloc, member)?;
        put_field(alloc, &mut dict, name.as_str(), child)?;
    }
    Ok(dict)
}

fn put_field(alloc: Global, dict: &mut Tree, name: &str, child: Tree) -> Result<(), Refused>
    requires dict { kind_of dict.old ≡ kind.Dict }
    requires key { is_key name.now ≡ true }
    requires some { is_null child ≡ false }
    ensures { Gives (λ _. dict.new) refusal result (with_field name.now child dict.old) }
{
    let key = key_of(alloc, name)?;
    match dict.put(alloc, &[Term::Key(key)], child) {
        Ok(()) => Ok(()),
        Err(PutError::Memory) => Err(Refused::Memory),
        Err(_) => Err(Refused::TooLarge),
    }
}

fn key_of(alloc: Global, name: &str) -> Result<Key, AllocError>
    requires { is_key name.now ≡ true }
    ensures { IfOk result (λ k. k ≡ name.now) }
{
    match Key::parse(alloc, name) {
        Ok(key) => Ok(key),
        Err(KeyError::Memory) => Err(AllocError),
        Err(KeyError::BadKey) => unreachable!(),
    }
}
