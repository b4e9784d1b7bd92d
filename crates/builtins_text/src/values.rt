ghost use Rattle.std.specs.Prelude.{◌≡◌, ◌∷◌, [], Ok, Err, IfOk, MatchOption, Some, None, string_bytes};
ghost use Rattle.std.specs.Str.{str_to_ascii_lowercase, str_to_ascii_uppercase};
ghost use Rattle.builtins_text.specs.Texts.{escape_of, if_utf8, to_lowercase_of, text_of_value, to_boolean_of, to_string_of, unescape_of, to_uppercase_of};
ghost use Rattle.base.specs.Answers.{Gives};
ghost use Rattle.path_tree.specs.Refusals.{refusal};

use call_values::{Arguments, by_count, string_value, text_value};
use itoa::Buffer;
use path_tree::{Refused, Tree};
use std::alloc::Global;

/// The key that stands for a text.
pub(crate) fn escape(alloc: Global, args: &[Tree]) -> Result<Tree, Refused>
    ensures { Gives (λ t. t) refusal result (escape_of args.now) }
{
    let Arguments::One(value) = by_count(args) else {
        return Err(Refused::BadArgument);
    };
    let Some(text) = value.as_text() else {
        return Err(Refused::BadArgument);
    };
    let key = path_tree::escape(alloc, text)?;
    string_value(key)
}

/// The text that a key stands for. `BadArgument` where its bytes are no UTF-8.
#[tactic(auto, using(crate::proofs::Utf8::fails_utf8))]
pub(crate) fn unescape(alloc: Global, args: &[Tree]) -> Result<Tree, Refused>
    ensures { Gives (λ t. t) refusal result (unescape_of args.now) }
{
    let Arguments::One(value) = by_count(args) else {
        return Err(Refused::BadArgument);
    };
    let Some(key) = value.as_text() else {
        return Err(Refused::BadArgument);
    };
    match path_tree::unescape(alloc, key)? {
        Some(text) => unescaped(text),
        None => Err(Refused::BadArgument),
    }
}

/// A text that was made, which is UTF-8.
fn unescaped(text: String) -> Result<Tree, Refused>
    ensures { Gives (λ t. t) refusal result (if_utf8 (string_bytes text)) }
{
    string_value(text)
}

/// A text as it is, a long in decimal, a boolean by its word.
pub(crate) fn to_string(alloc: Global, args: &[Tree]) -> Result<Tree, Refused>
    ensures { Gives (λ t. t) refusal result (to_string_of args.now) }
{
    let Arguments::One(value) = by_count(args) else {
        return Err(Refused::BadArgument);
    };
    let mut buffer = Buffer::new();
    match text_of_value(value, &mut buffer) {
        Some(text) => text_value(alloc, text),
        None => Err(Refused::BadArgument),
    }
}

/// A text as it is, a long in decimal, a boolean by its word.
pub(crate) fn text_of_value<'a>(value: &'a Tree, buffer: &'a mut Buffer) -> Option<&'a str>
    ensures { MatchOption result (text_of_value value.now ≡ None)
        (λ t. text_of_value value.now ≡ Some t.now) }
{
    if let Some(text) = value.as_text() {
        return Some(text);
    }
    if let Some(number) = value.as_long() {
        return Some(buffer.format(number));
    }
    match value.as_boolean()? {
        true => Some("true"),
        false => Some("false"),
    }
}

/// A boolean as it is, whether a long is not 0, the texts `true` and `false`.
pub(crate) fn to_boolean(args: &[Tree]) -> Result<Tree, Refused>
    ensures { Gives (λ t. t) refusal result (to_boolean_of args.now) }
{
    let Arguments::One(value) = by_count(args) else {
        return Err(Refused::BadArgument);
    };
    if let Some(value) = value.as_boolean() {
        return Ok(Tree::boolean(value));
    }
    if let Some(number) = value.as_long() {
        return Ok(Tree::boolean(number != 0));
    }
    match value.as_text() {
        Some("true") => Ok(Tree::boolean(true)),
        Some("false") => Ok(Tree::boolean(false)),
        _ => Err(Refused::BadArgument),
    }
}

/// A text with its ASCII letters in lower case.
pub(crate) fn to_lowercase(alloc: Global, args: &[Tree]) -> Result<Tree, Refused>
    ensures { Gives (λ t. t) refusal result (to_lowercase_of args.now) }
{
    let Arguments::One(value) = by_count(args) else {
        return Err(Refused::BadArgument);
    };
    let Some(text) = value.as_text() else {
        return Err(Refused::BadArgument);
    };
    let lower = text.to_ascii_lowercase(alloc)?;
    string_value(lower)
}

/// A text with its ASCII letters in upper case.
pub(crate) fn to_uppercase(alloc: Global, args: &[Tree]) -> Result<Tree, Refused>
    ensures { Gives (λ t. t) refusal result (to_uppercase_of args.now) }
{
    let Arguments::One(value) = by_count(args) else {
        return Err(Refused::BadArgument);
    };
    let Some(text) = value.as_text() else {
        return Err(Refused::BadArgument);
    };
    let upper = text.to_ascii_uppercase(alloc)?;
    string_value(upper)
}
