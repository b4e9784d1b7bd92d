ghost use Rattle.std.specs.Prelude.{◌≡◌, ◌<◌, ◌≤◌, ◌∷◌, IfSome, MatchOption, drop, false, length, take, true};
ghost use Rattle.builtins_text.specs.Formats.{begins, behind_flag, digit_count, flag_of, form_length, form_of, letter_of, width_of};

use base::ascii::is_digit;
use base::integers::digits_value;

/// The largest width of a form.
pub const MAX_WIDTH: u64 = 1_000;

/// How a form fills its width.
#[derive(Clone, Copy)]
pub enum Flag {
    /// Blanks before.
    Unset,
    /// `-`: blanks behind.
    Left,
    /// `0`: zeros behind the sign of a number.
    Zeros,
}

/// What a form writes of a value.
#[derive(Clone, Copy)]
pub enum Letter {
    /// `s`: the text of a value.
    Text,
    /// `d`: a long in decimal.
    Decimal,
    /// `x`: a long from 0 in lower-case hexadecimal.
    Hexadecimal,
}

/// A form of a format, as `%05d`.
#[derive(Clone, Copy)]
pub struct Form {
    /// How the width is filled.
    pub flag: Flag,
    /// 1 to `MAX_WIDTH` characters; 0 where it is left out.
    pub width: u64,
    /// What is written.
    pub letter: Letter,
}

/// What stands behind a first character.
pub(crate) fn behind_first(text: &str, first: char) -> Option<&str>
    requires { first < 128 }
    ensures { MatchOption result (begins first text.now ≡ false)
        (λ rest. (begins first text.now ≡ true) × (text.now ≡ first ∷ rest.now)) }
{
    text.strip_prefix(first)
}

/// The form that stands first behind a `%`, and the text behind the form.
#[tactic(auto, using(crate::proofs::Reading::form_rest))]
pub(crate) fn form_of(text: &str) -> Option<(Form, &str)>
    ensures form { MatchOption result (form_of text.now ≡ None) (λ x. form_of text.now ≡ Some x.0) }
    ensures rest { IfSome result (λ x. x.1.now ≡ drop (form_length text.now) text.now) }
    ensures shorter { IfSome result (λ x. length x.1.now ≤ length text.now) }
{
    let (flag, rest) = flag_and_rest(text);
    let (digits, rest) = digits_and_rest(rest);
    let width = width_of(digits.as_bytes())?;
    let (letter, rest) = letter_and_rest(rest)?;
    let form = Form {
        flag,
        width,
        letter,
    };
    Some((form, rest))
}

/// The flag that stands first, and the text behind it.
fn flag_and_rest(text: &str) -> (Flag, &str)
    ensures flag { result.0 ≡ flag_of text.now }
    ensures rest { result.1.now ≡ behind_flag text.now }
{
    if let Some(rest) = behind_first(text, '-') {
        return (Flag::Left, rest);
    }
    if let Some(rest) = behind_first(text, '0') {
        return (Flag::Zeros, rest);
    }
    (Flag::Unset, text)
}

/// The digits that stand first, and the text behind them.
#[tactic(auto, using(crate::proofs::Reading::digits_seam))]
fn digits_and_rest(text: &str) -> (&str, &str)
    ensures digits { result.0.now ≡ take (digit_count text.now) text.now }
    ensures rest { result.1.now ≡ drop (digit_count text.now) text.now }
{
    text.split_at(digit_count(text.as_bytes()))
}

/// How many digits stand first.
fn digit_count(bytes: &[u8]) -> usize
    ensures { result ≡ digit_count bytes.now }
{
    for (i, byte) in bytes.iter().enumerate() {
        if !is_digit(*byte) {
            return i;
        }
    }
    bytes.len()
}

/// The width that digits spell; 0 for none.
fn width_of(digits: &[u8]) -> Option<u64>
    ensures { result ≡ width_of digits.now }
{
    let [first, ..] = digits else {
        return Some(0);
    };
    let width = digits_value(10, digits);
    if *first != b'0' && width <= MAX_WIDTH {
        Some(width)
    } else {
        None
    }
}

/// The letter that stands first, and the text behind it.
fn letter_and_rest(text: &str) -> Option<(Letter, &str)>
    ensures letter { MatchOption result (letter_of text.now ≡ None)
        (λ x. letter_of text.now ≡ Some x.0) }
    ensures rest { IfSome result (λ x. x.1.now ≡ drop 1 text.now) }
{
    if let Some(rest) = behind_first(text, 's') {
        return Some((Letter::Text, rest));
    }
    if let Some(rest) = behind_first(text, 'd') {
        return Some((Letter::Decimal, rest));
    }
    if let Some(rest) = behind_first(text, 'x') {
        return Some((Letter::Hexadecimal, rest));
    }
    None
}
