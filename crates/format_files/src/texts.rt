ghost use Rattle.std.specs.Prelude.{◌≡◌, ◌++◌, ◌≤◌, OnOk, decimal};
ghost use Rattle.format_files.specs.Layouts.{refusal_line, totals_line};
ghost use Rattle.pan_format.specs.Formatted.Refusal.{Faulty, TooLong};

use base::Text;
use itoa::Buffer;
use pan_ast::{Fault, fault_line};
use std::alloc::{AllocError, Global};

/// `fault NAME` with the printed fault, a line.
pub(crate) fn push_fault(
    alloc: Global,
    text: &mut Vec<u8>,
    name: &Text,
    fault: &Fault,
) -> Result<(), AllocError>
    ensures { OnOk result (text.new.items
        ≡ text.old.items ++ refusal_line name.now (Faulty fault.now)) }
{
    text.extend_from_slice(b"fault ")?;
    text.extend_from_slice(name.as_str().as_bytes())?;
    text.extend_from_slice(b" ")?;
    text.extend_from_slice(&fault_line(alloc, fault)?)?;
    text.extend_from_slice(b"\n")
}

/// `too long NAME`, a line.
pub(crate) fn push_too_long(text: &mut Vec<u8>, name: &Text) -> Result<(), AllocError>
    ensures { OnOk result (text.new.items ≡ text.old.items ++ refusal_line name.now TooLong) }
{
    text.extend_from_slice(b"too long ")?;
    text.extend_from_slice(name.as_str().as_bytes())?;
    text.extend_from_slice(b"\n")
}

/// A word and a number in decimal.
fn push_count(text: &mut Vec<u8>, word: &str, count: usize) -> Result<(), AllocError>
    ensures { OnOk result (text.new.items ≡ text.old.items ++ (word.now ++ decimal count)) }
{
    let mut buffer = Buffer::new();
    text.extend_from_slice(word.as_bytes())?;
    text.extend_from_slice(buffer.format(count).as_bytes())
}

/// The numbers of templates, of those that are laid out, and of those that are not, a line.
pub(crate) fn push_totals(
    text: &mut Vec<u8>,
    templates: usize,
    faults: usize,
) -> Result<(), AllocError>
    requires { faults ≤ templates }
    ensures { OnOk result (text.new.items ≡ text.old.items ++ totals_line templates faults) }
{
    push_count(text, "files ", templates)?;
    push_count(text, " ok ", templates - faults)?;
    push_count(text, " faults ", faults)?;
    text.extend_from_slice(b"\n")
}
