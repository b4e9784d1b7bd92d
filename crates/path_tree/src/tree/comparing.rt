ghost use Rattle.std.specs.Prelude.{◌≡◌, ◌↔◌, IsTrue};
ghost use Rattle.path_tree.specs.View.{fields_of, items_of, node_seen};

use super::{Entry, Node, Tree};

#[cycle(same)]
pub(super) fn same_node(first: &Node, second: &Node) -> bool
    ensures { IsTrue result ↔ (node_seen first.now ≡ node_seen second.now) }
{
    match first {
        Node::Dict(dict) => match second {
            Node::Dict(other) => same_entries(&dict.entries, &other.entries),
            _ => false,
        },
        Node::List(list) => match second {
            Node::List(other) => same_items(&list.items, &other.items),
            _ => false,
        },
        Node::Text(text) => match second {
            Node::Text(other) => text.as_str() == other.as_str(),
            _ => false,
        },
        Node::Long(value) => match second {
            Node::Long(other) => *value == *other,
            _ => false,
        },
        Node::Boolean(value) => match second {
            Node::Boolean(other) => *value == *other,
            _ => false,
        },
        Node::Undef => matches!(second, Node::Undef),
        Node::Null => matches!(second, Node::Null),
    }
}

#[cycle(same)]
fn same_entries(first: &[Entry], second: &[Entry]) -> bool
    ensures { IsTrue result ↔ (fields_of first.now ≡ fields_of second.now) }
{
    if first.len() != second.len() {
        return false;
    }
    for i in 0..first.len() {
        if !same_entry(&first[i], &second[i]) {
            return false;
        }
    }
    true
}

#[cycle(same)]
fn same_entry(first: &Entry, second: &Entry) -> bool
    ensures { IsTrue result ↔
        ((first.now.key ≡ second.now.key) × (first.now.value ≡ second.now.value)) }
{
    first.key == second.key && first.value.equals(&second.value)
}

#[cycle(same)]
fn same_items(first: &[Tree], second: &[Tree]) -> bool
    ensures { IsTrue result ↔ (items_of first.now ≡ items_of second.now) }
{
    if first.len() != second.len() {
        return false;
    }
    for i in 0..first.len() {
        if !first[i].equals(&second[i]) {
            return false;
        }
    }
    true
}
