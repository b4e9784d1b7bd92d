ghost use Rattle.std.specs.Prelude.{◌≡◌, ◌<◌, ◌^◌, ◌∷◌, []};
ghost use Rattle.base.specs.Answers.{Gives};
ghost use Rattle.builtins_tree.specs.Reads.{clone_of, key_of, length_of};
ghost use Rattle.call_values.specs.Positions.{number};
ghost use Rattle.path_tree.specs.Find.{kind_of};
ghost use Rattle.path_tree.specs.Plain as plain;
ghost use Rattle.path_tree.specs.declared.kind.Kind.TheVariants as kind;
ghost use Rattle.path_tree.specs.Refusals.{refusal};

use call_values::{Arguments, by_count, char_count, text_value};
use path_tree::{Kind, Refused, Tree};
use std::alloc::Global;

/// The key of a dict at a position in byte order.
pub(crate) fn key(alloc: Global, args: &[Tree]) -> Result<Tree, Refused>
    ensures { Gives (λ t. t) refusal result (key_of args.now) }
{
    let Arguments::Two(dict, position) = by_count(args) else {
        return Err(Refused::BadArgument);
    };
    let (Kind::Dict, Some(position)) = (dict.kind(), position.as_long()) else {
        return Err(Refused::BadArgument);
    };
    key_at(alloc, dict, position)
}

fn key_at(alloc: Global, dict: &Tree, position: i64) -> Result<Tree, Refused>
    requires { kind_of dict.now ≡ kind.Dict }
    ensures { Gives (λ t. t) refusal result (key_of (dict.now ∷ plain.long position ∷ [])) }
{
    let Ok(position) = usize::try_from(position) else {
        return Err(Refused::BadIndex);
    };
    match dict.key_at(position) {
        Some(key) => text_value(alloc, key),
        None => Err(Refused::BadIndex),
    }
}

/// How many characters a text has, or items a list, or fields a dict.
#[tactic(auto, using(crate::proofs::Finds::chars_small, crate::proofs::Finds::count_small))]
pub(crate) fn length(args: &[Tree]) -> Result<Tree, Refused>
    ensures { Gives (λ t. t) refusal result (length_of args.now) }
{
    let Arguments::One(value) = by_count(args) else {
        return Err(Refused::BadArgument);
    };
    if let Some(text) = value.as_text() {
        return Ok(number(char_count(text)));
    }
    match value.kind() {
        Kind::Dict => Ok(number(value.len())),
        Kind::List => Ok(number(value.len())),
        _ => Err(Refused::BadArgument),
    }
}

/// A count as a long.
pub(crate) fn number(count: usize) -> Tree
    requires { count < 2 ^ 63 }
    ensures { result ≡ number count }
{
    Tree::long(count as i64)
}

/// A value as it is.
pub(crate) fn clone(args: &[Tree]) -> Result<Tree, Refused>
    ensures { Gives (λ t. t) refusal result (clone_of args.now) }
{
    let Arguments::One(value) = by_count(args) else {
        return Err(Refused::BadArgument);
    };
    Ok(value.copy()?)
}
