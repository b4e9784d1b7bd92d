ghost use Rattle.std.specs.Prelude.{◌≡◌, ◌<◌, ◌≤◌, ◌++◌, ◌∷◌, ◌==◌, ℕ, List, IfOk, IsUtf8, MatchOption, None, Some, drop, false, length, slice_index, true};
ghost use Rattle.std.specs.List.{prefix_len};
ghost use Rattle.regex.specs.Strings.{regex_names};
ghost use Rattle.regex.specs.Templates.{group_called, is_name_byte, name_at, text_or_nothing, written_after};
ghost use Rattle.base.specs.Characters.{open_brace};
ghost use Rattle.builtins_patterns.specs.Parts.{dollar_sign, part_text, written};

use regex::Regex;
use std::alloc::{AllocError, Global};

/// A part of the template of a replacement.
#[derive(Clone, Copy)]
pub(crate) enum Part<'t> {
    /// Written as it stands.
    Text(&'t str),
    /// What the group of this number matched.
    Group(usize),
    /// A name that no group has.
    Nothing,
}

/// The parts of a template, with the groups of a pattern.
pub(crate) fn parts<'t>(
    alloc: Global,
    pattern: &Regex,
    template: &'t str,
) -> Result<Vec<Part<'t>>, AllocError>
    ensures { IfOk result (λ v. (groups : ℕ → List ℕ) → written groups v.items
        ≡ written_after (regex_names pattern.now) groups template.now 0) }
{
    let mut parts = Vec::new(alloc);
    let mut rest = template;
    while let Some((before, after)) = rest.split_once('$') {
        let (part, left) = reference(pattern, after);
        parts.push(Part::Text(before))?;
        parts.push(part)?;
        rest = left;
    }
    parts.push(Part::Text(rest))?;
    Ok(parts)
}

// What the text behind a `$` stands for with it, and what is behind that.
fn reference<'t>(pattern: &Regex, after: &'t str) -> (Part<'t>, &'t str)
    ensures value { (groups : ℕ → List ℕ) → part_text groups result.0
        ++ written_after (regex_names pattern.now) groups result.1.now 0
        ≡ written_after (regex_names pattern.now) groups (dollar_sign ∷ after.now) 0 }
    ensures shorter { length result.1.now ≤ length after.now }
    ensures utf8 { IsUtf8 result.1.now }
{
    if let Some(left) = behind(after, b'$') {
        return (Part::Text("$"), left);
    }
    match name_at(after) {
        Some((name, left)) => (group_part(pattern, name), left),
        None => (Part::Text("$"), after),
    }
}

// What is behind the first byte, where it is this one.
fn behind(text: &str, first: u8) -> Option<&str>
    requires some { 0 < first }
    requires ascii { first < 128 }
    ensures { MatchOption result ((slice_index text.now 0 == first) ≡ false)
        (λ rest. ((slice_index text.now 0 == first) ≡ true) × (rest.now ≡ drop 1 text.now)
        × (length rest.now < length text.now)) }
{
    let bytes = text.as_bytes();
    if bytes.is_empty() || bytes[0] != first {
        return None;
    }
    Some(&text[1..])
}

// The name that stands behind a `$`, in braces or the longest one, and what is behind it.
fn name_at(after: &str) -> Option<(&str, &str)>
    ensures { MatchOption result (name_at after.now ≡ None)
        (λ found. (n : ℕ) × (name_at after.now ≡ Some (found.0.now, n))
        × (found.1.now ≡ drop n after.now) × IsUtf8 found.1.now) }
{
    match behind(after, b'{') {
        Some(inside) => inside.split_once('}'),
        None => bare_name(after),
    }
}

// The longest name at the front of a text that does not begin with a brace.
fn bare_name(after: &str) -> Option<(&str, &str)>
    requires { (slice_index after.now 0 == open_brace) ≡ false }
    ensures { MatchOption result (name_at after.now ≡ None)
        (λ found. (n : ℕ) × (name_at after.now ≡ Some (found.0.now, n))
        × (found.1.now ≡ drop n after.now) × IsUtf8 found.1.now) }
{
    let len = name_len(after.as_bytes());
    if len == 0 {
        return None;
    }
    Some(after.split_at(len))
}

// How many bytes at the front can be part of a name.
fn name_len(bytes: &[u8]) -> usize
    ensures { result ≡ prefix_len is_name_byte bytes.now }
{
    for i in 0..bytes.len() {
        if !(bytes[i].is_ascii_alphanumeric() || bytes[i] == b'_') {
            return i;
        }
    }
    bytes.len()
}

// What the group of a number or a name writes.
fn group_part(pattern: &Regex, name: &str) -> Part<'static>
    ensures { (groups : ℕ → List ℕ) → part_text groups result
        ≡ text_or_nothing (regex_names pattern.now) groups
        (group_called (regex_names pattern.now) name.now) }
{
    match group_called(pattern, name) {
        Some(n) => Part::Group(n),
        None => Part::Nothing,
    }
}

// The group of a number, or else the first of a name.
fn group_called(pattern: &Regex, name: &str) -> Option<usize>
    ensures { result ≡ group_called (regex_names pattern.now) name.now }
{
    match name.parse::<usize>() {
        Ok(number) => Some(number),
        Err(_) => pattern.capture_index(name),
    }
}
