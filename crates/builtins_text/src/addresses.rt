ghost use Rattle.std.specs.Prelude.{◌≡◌, ◌<◌, ◌≤◌, ◌-◌, ◌++◌, ◌∷◌, ◌==◌, ◌^◌, [], IfOk, IfSome, MatchOption, OnOk, decimal, map, string_bytes};
ghost use Rattle.std.specs.List.{join_with_byte, list_all, slice_split};
ghost use Rattle.base.specs.Answers.{Gives};
ghost use Rattle.base.specs.Ascii.{is_digit};
ghost use Rattle.base.specs.Characters.{dot};
ghost use Rattle.builtins_text.specs.Addresses.{address_number, address_of, ip4_to_long_of, is_decimal, joined_octets, long_to_ip4_of, mask_of, number_to, octet, octets, one_number, two_numbers};
ghost use Rattle.path_tree.specs.Refusals.{refusal};
ghost use Rattle.path_tree.specs.Plain as plain;

use base::ascii::is_digit;
use base::integers::digits_value;
use call_values::{Arguments, by_count, string_value};
use itoa::Buffer;
use path_tree::{Refused, Tree};
use std::alloc::{AllocError, Global};

/// The number of an address, or of an address and of the mask behind a `/`.
pub(crate) fn ip4_to_long(alloc: Global, args: &[Tree]) -> Result<Tree, Refused>
    ensures { Gives (λ t. t) refusal result (ip4_to_long_of args.now) }
{
    let Arguments::One(value) = by_count(args) else {
        return Err(Refused::BadArgument);
    };
    let Some(text) = value.as_text() else {
        return Err(Refused::BadArgument);
    };
    address_and_mask(alloc, text)
}

fn address_and_mask(alloc: Global, text: &str) -> Result<Tree, Refused>
    ensures { Gives (λ t. t) refusal result (ip4_to_long_of (plain.text text.now ∷ [])) }
{
    let Some((address, mask)) = first_part(text, '/') else {
        return one_number(alloc, address_of(text));
    };
    match first_part(mask, '/') {
        None => two_numbers(alloc, address_of(address), mask_of(mask.as_bytes())),
        Some(_) => Err(Refused::BadArgument),
    }
}

fn one_number(alloc: Global, address: Option<u64>) -> Result<Tree, Refused>
    requires { IfSome address (λ n. n < 2 ^ 32) }
    ensures { Gives (λ t. t) refusal result (one_number address) }
{
    let Some(address) = address else {
        return Err(Refused::BadArgument);
    };
    let numbers = vec![in alloc; Tree::long(address as i64)]?;
    Tree::list(alloc, numbers)
}

fn two_numbers(alloc: Global, address: Option<u64>, mask: Option<u64>) -> Result<Tree, Refused>
    requires address { IfSome address (λ n. n < 2 ^ 32) }
    requires mask { IfSome mask (λ n. n < 2 ^ 32) }
    ensures { Gives (λ t. t) refusal result (two_numbers address mask) }
{
    let (Some(address), Some(mask)) = (address, mask) else {
        return Err(Refused::BadArgument);
    };
    let numbers = vec![in alloc; Tree::long(address as i64), Tree::long(mask as i64)]?;
    Tree::list(alloc, numbers)
}

/// What stands before the first of an ASCII character, and what stands behind it.
fn first_part(text: &str, separator: char) -> Option<(&str, &str)>
    requires { separator < 128 }
    ensures { MatchOption result (slice_split (λ c. c == separator) text.now ≡ text.now ∷ [])
        (λ x. slice_split (λ c. c == separator) text.now
        ≡ x.0.now ∷ slice_split (λ c. c == separator) x.1.now) }
{
    text.split_once(separator)
}

/// The number of an address of four bytes.
fn address_of(text: &str) -> Option<u64>
    ensures value { result ≡ address_of text.now }
    ensures fits { IfSome result (λ n. n < 2 ^ 32) }
{
    let (a, rest) = first_part(text, '.')?;
    let (b, rest) = first_part(rest, '.')?;
    let (c, d) = first_part(rest, '.')?;
    let None = first_part(d, '.') else {
        return None;
    };
    joined_octets(octet(a), octet(b), octet(c), octet(d))
}

fn joined_octets(a: Option<u64>, b: Option<u64>, c: Option<u64>, d: Option<u64>) -> Option<u64>
    requires a { IfSome a (λ n. n ≤ 255) }
    requires b { IfSome b (λ n. n ≤ 255) }
    requires c { IfSome c (λ n. n ≤ 255) }
    requires d { IfSome d (λ n. n ≤ 255) }
    ensures value { result ≡ joined_octets a b c d }
    ensures fits { IfSome result (λ n. n < 2 ^ 32) }
{
    let (Some(a), Some(b), Some(c), Some(d)) = (a, b, c, d) else {
        return None;
    };
    Some(((a * 256 + b) * 256 + c) * 256 + d)
}

/// A byte in decimal.
fn octet(text: &str) -> Option<u64>
    ensures value { result ≡ octet text.now }
    ensures fits { IfSome result (λ n. n ≤ 255) }
{
    number_to(255, text.as_bytes())
}

/// The mask of a length.
fn mask_of(digits: &[u8]) -> Option<u64>
    ensures value { result ≡ mask_of digits.now }
    ensures fits { IfSome result (λ n. n < 2 ^ 32) }
{
    let length = number_to(32, digits)?;
    Some(mask(length as u32))
}

fn mask(length: u32) -> u64
    requires { length ≤ 32 }
    ensures value { result ≡ 2 ^ 32 - 2 ^ (32 - length) }
    ensures fits { result < 2 ^ 32 }
{
    (1u64 << 32) - (1u64 << (32 - length))
}

/// A number from 0 to a last one, in decimal without leading zeros.
fn number_to(last: u64, digits: &[u8]) -> Option<u64>
    requires { last < 256 }
    ensures value { result ≡ number_to last digits.now }
    ensures within { IfSome result (λ n. n ≤ last) }
{
    if !is_decimal(digits) {
        return None;
    }
    let number = digits_value(10, digits);
    if number <= last { Some(number) } else { None }
}

/// Decimal digits without a leading zero.
#[tactic(auto, using(crate::proofs::Parting::long_decimal))]
fn is_decimal(digits: &[u8]) -> bool
    ensures { result ≡ is_decimal digits.now }
{
    match digits {
        [] => false,
        [only] => is_digit(*only),
        [first, ..] => *first != b'0' && are_digits(digits),
    }
}

fn are_digits(digits: &[u8]) -> bool
    ensures { result ≡ list_all is_digit digits.now }
{
    digits.iter().all(|digit| is_digit(*digit))
}

/// The address that a number gives.
pub(crate) fn long_to_ip4(alloc: Global, args: &[Tree]) -> Result<Tree, Refused>
    ensures { Gives (λ t. t) refusal result (long_to_ip4_of args.now) }
{
    let Arguments::One(value) = by_count(args) else {
        return Err(Refused::BadArgument);
    };
    let Some(number) = value.as_long() else {
        return Err(Refused::BadArgument);
    };
    let Some(number) = address_number(number) else {
        return Err(Refused::BadArgument);
    };
    let text = address_text(alloc, number)?;
    string_value(text)
}

/// A number from 0 to 2^32 - 1.
fn address_number(number: i64) -> Option<u64>
    ensures value { result ≡ address_number number }
    ensures fits { IfSome result (λ n. n < 2 ^ 32) }
{
    if 0 <= number && number < 1 << 32 {
        Some(number as u64)
    } else {
        None
    }
}

fn address_text(alloc: Global, number: u64) -> Result<String, AllocError>
    requires { number < 2 ^ 32 }
    ensures { IfOk result (λ s. string_bytes s ≡ join_with_byte dot (map decimal (octets number))) }
{
    let mut text = String::new(alloc);
    push_decimal(&mut text, number / 16_777_216)?;
    push_octet(&mut text, number / 65_536 % 256)?;
    push_octet(&mut text, number / 256 % 256)?;
    push_octet(&mut text, number % 256)?;
    Ok(text)
}

fn push_octet(text: &mut String, octet: u64) -> Result<(), AllocError>
    ensures { OnOk result (string_bytes text.new ≡ string_bytes text.old ++ dot ∷ decimal octet) }
{
    text.push('.')?;
    push_decimal(text, octet)?;
    Ok(())
}

fn push_decimal(text: &mut String, number: u64) -> Result<(), AllocError>
    ensures { OnOk result (string_bytes text.new ≡ string_bytes text.old ++ decimal number) }
{
    let mut buffer = Buffer::new();
    text.push_str(buffer.format(number))?;
    Ok(())
}
