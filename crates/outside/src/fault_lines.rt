ghost use Rattle.std.specs.Prelude.{◌≡◌, ℕ, List, [], ◌∷◌, ◌++◌, OnOk};
ghost use Rattle.outside.specs.FaultLines.{Keeps, tells_fault, with_line};

use base::Bytes;
use std::alloc::{AllocError, Global};
use std::marker::Model;

/// The most lines that are kept: a report has one fault for each object, and a scan at most so many objects.
pub const MAX_FAULT_LINES: usize = 10_000;

/// The first lines of a text that begin with `fault `, as the text comes in pieces.
#[derive(Drop)]
pub(crate) struct FaultLines {
    alloc: Global,
    lines: Vec<Bytes>,
    /// The line that has not ended yet.
    line: Vec<u8>,
}

impl Model for FaultLines {
    ghost use Rattle.outside.specs.FaultLines.{Kept};

    ghost Value = { Kept };

    ghost view = { λ f. record { lines = f.lines.items; line = f.line.items } };
}

/// Whether a line begins with `fault `.
fn tells_fault(line: &[u8]) -> bool
    ensures { result ≡ tells_fault line.now }
{
    line.starts_with(b"fault ")
}

impl FaultLines {
    /// What is kept of the empty text.
    pub(crate) fn new(alloc: Global) -> FaultLines
        ensures { Keeps [] result }
    {
        FaultLines {
            alloc,
            lines: Vec::new(alloc),
            line: Vec::new(alloc),
        }
    }

    /// The lines, each without its line feed.
    pub(crate) fn lines(&self) -> &[Bytes]
        ensures { result.now ≡ self.now.lines }
    {
        &self.lines
    }

    fn keep_line(&mut self) -> Result<(), AllocError>
        ensures lines { OnOk result (self.new.lines ≡ with_line self.old.lines self.old.line) }
        ensures line { self.new.line ≡ self.old.line }
    {
        if tells_fault(&self.line) && self.lines.len() < MAX_FAULT_LINES {
            self.lines.push(Bytes::from_slice(self.alloc, &self.line)?)?;
        }
        Ok(())
    }

    fn end_line(&mut self) -> Result<(), AllocError>
        ensures { OnOk result ((text : List ℕ) → Keeps text self.old
            → Keeps (text ++ (10 ∷ [])) self.new) }
    {
        self.keep_line()?;
        self.line.clear();
        Ok(())
    }

    fn take_byte(&mut self, byte: u8) -> Result<(), AllocError>
        ensures { OnOk result ((text : List ℕ) → Keeps text self.old
            → Keeps (text ++ (byte ∷ [])) self.new) }
    {
        if byte == b'\n' {
            return self.end_line();
        }
        self.line.push(byte)?;
        Ok(())
    }

    /// Goes on with the text. After want of memory it is unspecified what is kept.
    pub(crate) fn take(&mut self, bytes: &[u8]) -> Result<(), AllocError>
        ensures { OnOk result ((text : List ℕ) → Keeps text self.old
            → Keeps (text ++ bytes.now) self.new) }
    {
        for byte in bytes {
            self.take_byte(*byte)?;
        }
        Ok(())
    }
}
