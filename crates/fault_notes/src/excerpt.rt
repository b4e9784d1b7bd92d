ghost use Rattle.std.specs.Prelude.{◌≡◌, ℕ, ◌++◌, ◌∷◌, [], ◌==◌, IfOk, OnOk, map, option_map, string_bytes};
ghost use Rattle.std.specs.List.{slice_split, flat_map, repeat};
ghost use Rattle.fault_notes.specs.Excerpts.{place_number, behind_lines, line_at, shown_line, shown_byte, blanks, tabbed, indent, indent_to};

use crate::fault::{after, before};
use base::limits::MAX_FILE_BYTES;
use call_values::up_to_char;
use numbers::number_of;
use std::alloc::{AllocError, Global};
use unicode_width::UnicodeWidthStr;

/// The most bytes of a line that is shown.
pub const MAX_SHOWN_BYTES: usize = 240;

/// The number of a line or a column, from 1 to one more than a file has bytes.
pub(crate) fn place_number(digits: &[u8]) -> Option<u64>
    ensures { result ≡ place_number digits.now }
{
    let Some(number) = number_of(digits) else {
        return None;
    };
    if 1 <= number && number <= MAX_FILE_BYTES as u64 + 1 {
        return Some(number);
    }
    None
}

#[tactic(auto, using(crate::proofs::Steps::line_on))]
fn behind_lines(count: u64, text: &[u8]) -> &[u8]
    ensures { result.now ≡ behind_lines count text.now }
{
    let mut rest = text;
    for _ in 0..count {
        rest = after(b'\n', rest);
    }
    rest
}

/// A line of a file; lines count from 1.
pub(crate) fn line_at(number: u64, text: &[u8]) -> &[u8]
    ensures { result.now ≡ line_at number text.now }
{
    before(b'\n', behind_lines(number.saturating_sub(1), text))
}

/// A line as text, where it has at most `MAX_SHOWN_BYTES` bytes. What is not UTF-8 is shown as U+FFFD.
pub(crate) fn shown_line(alloc: Global, line: &[u8]) -> Result<Option<String>, AllocError>
    ensures { IfOk result (λ shown. option_map string_bytes shown ≡ shown_line line.now) }
{
    if line.len() <= MAX_SHOWN_BYTES {
        return Ok(Some(String::from_utf8_lossy(alloc, line)?));
    }
    Ok(None)
}

fn shown_byte(byte: u8) -> u8
    ensures { result ≡ shown_byte byte }
{
    if byte == b'\t' {
        return byte;
    }
    if byte < b' ' || byte == 127 {
        return b' ';
    }
    byte
}

/// Appends a line with blanks for control characters.
pub(crate) fn push_shown(into: &mut Vec<u8>, text: &[u8]) -> Result<(), AllocError>
    ensures { OnOk result (into.new.items ≡ into.old.items ++ map shown_byte text.now) }
{
    for byte in text {
        into.push(shown_byte(*byte))?;
    }
    Ok(())
}

/// Appends so many blanks.
#[tactic(auto, using(crate::proofs::Steps::blank_more))]
pub(crate) fn push_blanks(into: &mut Vec<u8>, count: usize) -> Result<(), AllocError>
    ensures { OnOk result (into.new.items ≡ into.old.items ++ repeat count (32 ∷ [])) }
{
    for _ in 0..count {
        into.push(b' ')?;
    }
    Ok(())
}

/// The parts of a text between its tabs.
fn parts_of(alloc: Global, text: &str) -> Result<Vec<&str>, AllocError>
    ensures { IfOk result (λ parts. map (λ p. p.now) parts.items
        ≡ slice_split (λ c. c == 9) text.now) }
{
    text.split('\t').collect(alloc)
}

fn push_behind_tabs(into: &mut Vec<u8>, parts: &[&str]) -> Result<(), AllocError>
    ensures { OnOk result (into.new.items ≡ into.old.items
        ++ flat_map (λ other. 9 ∷ blanks other) (map (λ p. p.now) parts.now)) }
{
    for part in parts {
        into.push(b'\t')?;
        push_blanks(into, part.width())?;
    }
    Ok(())
}

fn push_tabbed(into: &mut Vec<u8>, parts: &[&str]) -> Result<(), AllocError>
    ensures { OnOk result (into.new.items ≡ into.old.items
        ++ tabbed (map (λ p. p.now) parts.now)) }
{
    let [first, others @ ..] = parts else {
        return Ok(());
    };
    push_blanks(into, first.width())?;
    push_behind_tabs(into, others)
}

/// Appends what is as wide as the characters of a text before a column, with its tabs. Columns count from 1.
pub(crate) fn push_indent(
    alloc: Global,
    into: &mut Vec<u8>,
    column: u64,
    text: &str,
) -> Result<(), AllocError>
    ensures { OnOk result (into.new.items ≡ into.old.items ++ indent_to column text.now) }
{
    let parts = parts_of(alloc, up_to_char(text, column.saturating_sub(1) as usize))?;
    push_tabbed(into, &parts)
}
