ghost use Rattle.std.specs.Prelude.{◌≡◌, option_map};
ghost use Rattle.std.specs.Char.{is_digit};
ghost use Rattle.std.specs.List.{list_all};
ghost use Rattle.base.specs.Integers.{behind_zero, digits_value, integer_of, numeral_of, saturated};

use crate::ascii::digit_value;

/// The number that digits of a base spell, or 2^64 - 1 where it is larger.
pub fn digits_value(base: u8, digits: &[u8]) -> u64
    ensures { result ≡ saturated (digits_value base digits.now) }
{
    let mut number = 0u64;
    for digit in digits {
        number = number
            .saturating_mul(u64::from(base))
            .saturating_add(u64::from(digit_value(*digit)));
    }
    number
}

/// The number of a text of one or more digits of a base, or 2^64 - 1 where it is larger.
fn numeral_of(base: u8, text: &[u8]) -> Option<u64>
    ensures { result ≡ option_map saturated (numeral_of base text.now) }
{
    if text.is_empty() || !are_digits(base, text) {
        return None;
    }
    Some(digits_value(base, text))
}

/// Whether all bytes are digits of a base.
fn are_digits(base: u8, text: &[u8]) -> bool
    ensures { result ≡ list_all (λ c. is_digit c base) text.now }
{
    text.iter().all(|c| digit_value(*c) < base)
}

/// The number of a text that is an integer of the Pan language (Pan Book, "Pan Language Syntax"):
/// `0x` and hexadecimal digits, `0` and octal digits, or decimal digits. 2^64 - 1 stands for each
/// larger number.
pub fn integer_of(text: &[u8]) -> Option<u64>
    ensures { result ≡ option_map saturated (integer_of text.now) }
{
    let [first, rest @ ..] = text else {
        return None;
    };
    if *first == b'0' {
        behind_zero(rest)
    } else {
        numeral_of(10, text)
    }
}

/// The number of an integer that begins with `0`, of which this is the rest.
fn behind_zero(rest: &[u8]) -> Option<u64>
    ensures { result ≡ option_map saturated (behind_zero rest.now) }
{
    let [first, digits @ ..] = rest else {
        return Some(0);
    };
    if *first == b'x' {
        numeral_of(16, digits)
    } else {
        numeral_of(8, rest)
    }
}
