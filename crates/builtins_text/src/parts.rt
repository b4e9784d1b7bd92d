ghost use Rattle.std.specs.Prelude.{◌≡◌, ◌∷◌, [], take, drop, encode_utf8_all};
ghost use Rattle.std.specs.Str.{chars};
ghost use Rattle.builtins_text.specs.Texts.{substr_of};
ghost use Rattle.base.specs.Answers.{Gives};
ghost use Rattle.path_tree.specs.Refusals.{refusal};
ghost use Rattle.path_tree.specs.Plain as plain;

use call_values::{
    Arguments, by_count, char_count, from_char, position_in, text_value, up_to_char,
};
use path_tree::{Refused, Tree};
use std::alloc::Global;

/// The characters of a text from one position on, or so many of them.
pub(crate) fn substr(alloc: Global, args: &[Tree]) -> Result<Tree, Refused>
    ensures { Gives (λ t. t) refusal result (substr_of args.now) }
{
    match by_count(args) {
        Arguments::Two(text, start) => rest_of(alloc, text, start),
        Arguments::Three(text, start, count) => part_of(alloc, text, start, count),
        _ => Err(Refused::BadArgument),
    }
}

fn rest_of(alloc: Global, text: &Tree, start: &Tree) -> Result<Tree, Refused>
    ensures { Gives (λ t. t) refusal result (substr_of (text.now ∷ start.now ∷ [])) }
{
    let (Some(text), Some(start)) = (text.as_text(), start.as_long()) else {
        return Err(Refused::BadArgument);
    };
    let Some(start) = position_in(char_count(text), start) else {
        return Err(Refused::BadIndex);
    };
    text_value(alloc, from_char(text, start))
}

fn part_of(alloc: Global, text: &Tree, start: &Tree, len: &Tree) -> Result<Tree, Refused>
    ensures { Gives (λ t. t) refusal result (substr_of (text.now ∷ start.now ∷ len.now ∷ [])) }
{
    let (Some(text), Some(start), Some(len)) = (text.as_text(), start.as_long(), len.as_long())
    else {
        return Err(Refused::BadArgument);
    };
    part(alloc, text, start, len)
}

fn part(alloc: Global, text: &str, start: i64, len: i64) -> Result<Tree, Refused>
    ensures { Gives (λ t. t) refusal result
        (substr_of (plain.text text.now ∷ plain.long start ∷ plain.long len ∷ [])) }
{
    let all = char_count(text);
    let Some(start) = position_in(all, start) else {
        return Err(Refused::BadIndex);
    };
    let Some(len) = position_in(all - start, len) else {
        return Err(Refused::BadIndex);
    };
    text_value(alloc, chars_between(text, start, len))
}

/// So many characters of a text from one on.
fn chars_between(text: &str, start: usize, len: usize) -> &str
    ensures { result.now ≡ encode_utf8_all (take len (drop start (chars text.now))) }
{
    up_to_char(from_char(text, start), len)
}
