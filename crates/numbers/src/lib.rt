//! Numbers as the words of the program and the lines of a watcher write them: decimal digits without a leading zero.
#![tactic(auto)]

ghost use Rattle.std.specs.Prelude.{◌≡◌, option_map};
ghost use Rattle.std.specs.List.{list_all};
ghost use Rattle.base.specs.Ascii.{is_digit};
ghost use Rattle.base.specs.Integers.{saturated};
ghost use Rattle.numbers.specs.Numbers.{is_number, number_of};

use base::ascii::is_digit;
use base::integers::digits_value;

fn are_digits(text: &[u8]) -> bool
    ensures { result ≡ list_all is_digit text.now }
{
    text.iter().all(|c| is_digit(*c))
}

fn is_number(text: &[u8]) -> bool
    ensures { result ≡ is_number text.now }
{
    let [first, rest @ ..] = text else {
        return false;
    };
    if *first == b'0' {
        return rest.is_empty();
    }
    are_digits(text)
}

/// The number of a text of decimal digits without a leading zero, or None for any other text. 2^64 - 1 stands for each
/// larger number.
pub fn number_of(text: &[u8]) -> Option<u64>
    ensures { result ≡ option_map saturated (number_of text.now) }
{
    if !is_number(text) {
        return None;
    }
    Some(digits_value(10, text))
}
