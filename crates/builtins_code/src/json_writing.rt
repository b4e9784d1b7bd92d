ghost use Rattle.std.specs.Prelude.{◌≡◌};
ghost use Rattle.std.specs.List.{list_any};
ghost use Rattle.base.specs.Answers.{Gives};
ghost use Rattle.call_values.specs.Children.{children};
ghost use Rattle.path_tree.specs.Refusals.{refusal};
ghost use Rattle.builtins_code.specs.Json.{holds_undef, json_encode_of};

use call_values::{Arguments, by_count, child_count, string_value};
use json_profile::json_text;
use path_tree::{Kind, Refused, Tree};
use std::alloc::Global;

/// `json_encode(v)`: v as compact JSON, keys in byte order. `BadArgument` where the arguments are
/// not one, or an undef or a null is v or in it; `TooLarge` exactly where the text has over
/// `MAX_TEXT_BYTES` bytes.
pub(crate) fn json_encode(alloc: Global, arguments: &[Tree]) -> Result<Tree, Refused>
    ensures { Gives (λ t. t) refusal result (json_encode_of arguments.now) }
{
    let Arguments::One(value) = by_count(arguments) else {
        return Err(Refused::BadArgument);
    };
    if holds_undef(value) {
        return Err(Refused::BadArgument);
    }
    let text = json_text(alloc, value)?;
    string_value(text)
}

/// Whether an undef or a null is the tree, or is in it.
#[cycle(undef)]
fn holds_undef(tree: &Tree) -> bool
    ensures { result ≡ holds_undef tree.now }
{
    match tree.kind() {
        Kind::Undef => true,
        Kind::Null => true,
        Kind::Text => false,
        Kind::Long => false,
        Kind::Bool => false,
        Kind::List => child_holds_undef(tree),
        Kind::Dict => child_holds_undef(tree),
    }
}

#[cycle(undef)]
fn child_holds_undef(tree: &Tree) -> bool
    ensures { result ≡ list_any holds_undef (children tree.now) }
{
    for i in 0..child_count(tree) {
        let Some(child) = tree.child_at(i) else {
            unreachable!();
        };
        if holds_undef(child) {
            return true;
        }
    }
    false
}
