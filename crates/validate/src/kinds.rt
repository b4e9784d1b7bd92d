ghost use Rattle.std.specs.Prelude.{◌≡◌, IfOk, pos};
ghost use Rattle.path_tree.specs.Find.{child_count};
ghost use Rattle.pan_ast.specs.Detail.{is_continuation};
ghost use Rattle.validate.specs.Kinds.{at_least, at_most, char_count, is_among, is_in, is_of, is_rooted, is_within, link_path, rooted};

use base::Text;
use path_tree::{Anchor, Kind, Path, PathError, Tree};
use std::alloc::{AllocError, Global};
use type_defs::{Base, Range};

/// Whether a value of a kind is of a type that the language gives.
pub(crate) fn is_of(base: Base, kind: Kind) -> bool
    ensures { result ≡ is_of base kind }
{
    match base {
        Base::Text => matches!(kind, Kind::Text),
        Base::Long => matches!(kind, Kind::Long),
        Base::Boolean => matches!(kind, Kind::Bool),
        Base::Number => matches!(kind, Kind::Long),
        Base::Property => matches!(kind, Kind::Text | Kind::Long | Kind::Bool),
        Base::Resource => matches!(kind, Kind::Dict | Kind::List),
        Base::Element => true,
        Base::List => matches!(kind, Kind::List),
        Base::Dict => matches!(kind, Kind::Dict),
    }
}

fn at_least(low: Option<i64>, number: i128) -> bool
    ensures { result ≡ at_least low number }
{
    match low {
        Some(low) => i128::from(low) <= number,
        None => true,
    }
}

fn at_most(high: Option<i64>, number: i128) -> bool
    ensures { result ≡ at_most high number }
{
    match high {
        Some(high) => number <= i128::from(high),
        None => true,
    }
}

fn is_within(range: Range, number: i128) -> bool
    ensures { result ≡ is_within range number }
{
    at_least(range.low, number) && at_most(range.high, number)
}

/// Whether a count is in range.
pub(crate) fn is_count(range: Range, count: usize) -> bool
    ensures { result ≡ is_within range (pos count) }
{
    is_within(range, count as i128)
}

fn is_continuation(byte: u8) -> bool
    ensures { result ≡ is_continuation byte }
{
    128 <= byte && byte <= 191
}

/// How many characters a text has.
fn char_count(bytes: &[u8]) -> usize
    ensures { result ≡ char_count bytes.now }
{
    bytes.iter().filter(|byte| !is_continuation(**byte)).count()
}

/// Whether a value is in range: a long by value, a text by characters, a list or a dict by items.
pub(crate) fn is_in(range: Range, value: &Tree) -> bool
    ensures { result ≡ is_in range value.now }
{
    if let Some(number) = value.as_long() {
        return is_within(range, i128::from(number));
    }
    if let Some(text) = value.as_text() {
        return is_count(range, char_count(text.as_bytes()));
    }
    matches!(value.kind(), Kind::List | Kind::Dict) && is_count(range, value.len())
}

/// Whether a text is one of these.
pub(crate) fn is_among(text: &str, texts: &[Text]) -> bool
    ensures { result ≡ is_among text.now texts.now }
{
    for other in texts {
        if text == other.as_str() {
            return true;
        }
    }
    false
}

fn is_rooted(anchor: &Anchor) -> bool
    ensures { result ≡ is_rooted anchor.now }
{
    match anchor {
        Anchor::Absolute | Anchor::External(_) => true,
        Anchor::Relative => false,
    }
}

fn rooted(path: Path) -> Option<Path>
    ensures { result ≡ rooted path }
{
    if is_rooted(&path.anchor) {
        Some(path)
    } else {
        None
    }
}

/// The path that a value is: a text that is an absolute or external path.
pub(crate) fn link_path(alloc: Global, value: &Tree) -> Result<Option<Path>, AllocError>
    ensures { IfOk result (λ p. p ≡ link_path value.now) }
{
    let Some(text) = value.text_handle() else {
        return Ok(None);
    };
    match Path::parse(alloc, text) {
        Ok(path) => Ok(rooted(path)),
        Err(PathError::Memory) => Err(AllocError),
        Err(_) => Ok(None),
    }
}
