ghost use Rattle.std.specs.Prelude.{◌≡◌, ◌<◌, ◌≤◌, ◌++◌, length, true, IfOk, MatchOption, OnOk, string_bytes};
ghost use Rattle.std.specs.Char.{digit_char, digit_value};
ghost use Rattle.std.specs.Str.{IsUtf8};
ghost use Rattle.base.specs.Ascii.{is_lower_hexadecimal_digit};
ghost use Rattle.path_tree.specs.Escape.{escape, escape_rest, escaped_byte, unescape, unescape_rest};
ghost use Rattle.path_tree.specs.Reading.{begins_escaped};

use base::ascii::{digit_value, is_digit, is_letter, is_lower_hexadecimal_digit};
use std::alloc::{AllocError, Global};
use std::str;

/// The key that stands for a text: each byte that is no ASCII letter or digit, and a leading digit,
/// is written as `_` and two lower-case hexadecimal digits. The empty text gives `_`.
pub fn escape(alloc: Global, text: &str) -> Result<String, AllocError>
    ensures value { IfOk result (λ key. string_bytes key ≡ escape text.now) }
    ensures undone { unescape (escape text.now) ≡ text.now }
{
    escape_bytes(alloc, text.as_bytes())
}

pub(crate) fn escape_bytes(alloc: Global, bytes: &[u8]) -> Result<String, AllocError>
    ensures { IfOk result (λ key. string_bytes key ≡ escape bytes.now) }
{
    let mut key = String::new(alloc);
    let [first, rest @ ..] = bytes else {
        key.push('_')?;
        return Ok(key);
    };
    if is_letter(*first) {
        key.push(*first as char)?;
    } else {
        push_escaped(&mut key, *first)?;
    }
    push_rest(&mut key, rest)?;
    Ok(key)
}

fn push_rest(key: &mut String, bytes: &[u8]) -> Result<(), AllocError>
    ensures { OnOk result (string_bytes key.new ≡ string_bytes key.old ++ escape_rest bytes.now) }
{
    for byte in bytes {
        if is_letter(*byte) || is_digit(*byte) {
            key.push(*byte as char)?;
        } else {
            push_escaped(key, *byte)?;
        }
    }
    Ok(())
}

fn push_escaped(key: &mut String, byte: u8) -> Result<(), AllocError>
    ensures { OnOk result (string_bytes key.new ≡ string_bytes key.old ++ escaped_byte byte) }
{
    key.push('_')?;
    key.push(hex_digit(byte / 16))?;
    key.push(hex_digit(byte % 16))?;
    Ok(())
}

fn hex_digit(value: u8) -> char
    requires { value < 16 }
    ensures digit { result ≡ digit_char value }
    ensures ascii { result < 128 }
{
    if value < 10 {
        (b'0' + value) as char
    } else {
        (b'a' - 10 + value) as char
    }
}

/// The text that a key stands for: every `_` with two lower-case hexadecimal digits is replaced by
/// that byte, and the text `_` gives the empty text. `None` exactly where the bytes are then not
/// UTF-8.
pub fn unescape(alloc: Global, key: &str) -> Result<Option<String>, AllocError>
    ensures { IfOk result (λ text. MatchOption text (¬ IsUtf8 (unescape key.now))
        (λ t. (string_bytes t ≡ unescape key.now) × IsUtf8 (unescape key.now))) }
{
    let bytes = unescape_bytes(alloc, key.as_bytes())?;
    match str::from_utf8(bytes.as_slice()) {
        Ok(text) => Ok(Some(String::from_str(alloc, text)?)),
        Err(_) => Ok(None),
    }
}

fn unescape_bytes(alloc: Global, key: &[u8]) -> Result<Vec<u8>, AllocError>
    ensures { IfOk result (λ bytes. bytes.items ≡ unescape key.now) }
{
    match key {
        [] => Ok(Vec::new(alloc)),
        [only] if *only == b'_' => Ok(Vec::new(alloc)),
        _ => unescape_rest(alloc, key),
    }
}

fn unescape_rest(alloc: Global, key: &[u8]) -> Result<Vec<u8>, AllocError>
    ensures { IfOk result (λ bytes. bytes.items ≡ unescape_rest key.now) }
{
    let mut bytes = Vec::with_capacity(alloc, key.len())?;
    let mut rest = key;
    while !rest.is_empty() {
        if begins_escaped(rest) {
            bytes.push(16 * hex_value(rest[1]) + hex_value(rest[2]))?;
            rest = &rest[3..];
        } else {
            bytes.push(rest[0])?;
            rest = &rest[1..];
        }
    }
    Ok(bytes)
}

fn begins_escaped(key: &[u8]) -> bool
    ensures value { result ≡ begins_escaped key.now }
    ensures long { result ≡ true → 3 ≤ length key.now }
{
    match key {
        [first, high, low, ..] => *first == b'_'
            && is_lower_hexadecimal_digit(*high)
            && is_lower_hexadecimal_digit(*low),
        _ => false,
    }
}

fn hex_value(c: u8) -> u8
    requires { is_lower_hexadecimal_digit c ≡ true }
    ensures value { result ≡ digit_value c }
    ensures small { result < 16 }
{
    digit_value(c)
}
