ghost use Rattle.base.specs.Answers.{Gives};
ghost use Rattle.builtins_tree.specs.Calls.{call_of};
ghost use Rattle.path_tree.specs.Refusals.{refusal};

use crate::dicts::dict;
use crate::kinds::{Test, tested};
use crate::lists::{append, list, prepend};
use crate::merging::merge;
use crate::names::Call;
use crate::reading::{clone, key, length};
use crate::searching::index;
use crate::splicing::splice;
use path_tree::{Refused, Tree};
use std::alloc::Global;

/// What a function gives of its arguments, or why it gives nothing: `BadArgument` where their count
/// or a kind is wrong, a value in a container would be null, or a key stands in two dicts; then
/// `BadIndex` for a position outside of a text or a list, or a text that is no key; then `TooLarge`
/// for a text of over `MAX_TEXT_BYTES` bytes, or a tree larger than `MAX_TREE_SIZE` or higher than
/// `MAX_TREE_HEIGHT`.
pub fn call(alloc: Global, call: Call, args: &[Tree]) -> Result<Tree, Refused>
    ensures { Gives (λ t. t) refusal result (call_of call args.now) }
{
    match call {
        Call::List => list(alloc, args),
        Call::Dict => dict(alloc, args),
        Call::Nlist => dict(alloc, args),
        Call::Append => append(alloc, args),
        Call::Prepend => prepend(alloc, args),
        Call::Splice => splice(alloc, args),
        Call::Merge => merge(alloc, args),
        Call::Key => key(alloc, args),
        Call::Length => length(args),
        Call::IsDefined => tested(Test::Defined, args),
        Call::IsBoolean => tested(Test::Boolean, args),
        Call::IsLong => tested(Test::Long, args),
        Call::IsString => tested(Test::Text, args),
        Call::IsNumber => tested(Test::Long, args),
        Call::IsProperty => tested(Test::Property, args),
        Call::IsResource => tested(Test::Resource, args),
        Call::IsList => tested(Test::List, args),
        Call::IsDict => tested(Test::Dict, args),
        Call::IsNlist => tested(Test::Dict, args),
        Call::IsNull => tested(Test::Null, args),
        Call::Clone => clone(args),
        Call::Index => index(alloc, args),
    }
}
