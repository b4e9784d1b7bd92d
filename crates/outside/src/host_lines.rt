ghost use Rattle.std.specs.Prelude.{◌≡◌};

use crate::error::StoreError;
use crate::faults::Faults;
use crate::lines::Lines;
use std::io;
use std::io::{BufRead, ErrorKind};

/// The most bytes of a line that are given.
const KEPT_BYTES: usize = 1_001;

/// The most bytes of a line that are read.
const MOST_BYTES: usize = 1_000_000;

/// Lines of a reader of the host, as standard input. It tells nothing of them.
///
/// What stands behind the last line feed is a line where it is not empty. A line of over 1,001 bytes is given as its
/// first 1,001 bytes, and one of over 1,000,000 bytes is a fault.
#[derive(Drop)]
pub struct HostLines<R: BufRead + Drop> {
    reader: R,
    faults: Faults,
}

impl<R: BufRead + Drop> HostLines<R> {
    /// The lines of a reader, from its next byte on.
    pub fn new(reader: R) -> HostLines<R>
        ensures { result.faults.count ≡ 0 }
    {
        HostLines {
            reader,
            faults: Faults::new(),
        }
    }
}

/// Where a line stands after some of its bytes.
enum Part {
    /// The reader has no more bytes.
    End,
    /// So many bytes, and the line goes on.
    More(usize),
    /// So many bytes before the line feed.
    Last(usize),
}

/// Takes what the reader has at hand of a line, and keeps its first bytes.
fn take_part<R: BufRead>(reader: &mut R, into: &mut Vec<u8>) -> io::Result<Part> {
    let bytes = reader.fill_buf()?;
    if bytes.is_empty() {
        return Ok(Part::End);
    }
    let feed = bytes.iter().position(|byte| *byte == b'\n');
    let count = feed.unwrap_or(bytes.len());
    let room = KEPT_BYTES.saturating_sub(into.len());
    into.extend_from_slice(&bytes[..count.min(room)])?;
    match feed {
        Some(count) => {
            reader.consume(count + 1);
            Ok(Part::Last(count))
        }
        None => {
            reader.consume(count);
            Ok(Part::More(count))
        }
    }
}

/// Reads a line, or gives false where none is left.
fn read_line<R: BufRead>(reader: &mut R, into: &mut Vec<u8>) -> io::Result<bool> {
    into.clear();
    let mut passed = 0usize;
    for _ in 0..=MOST_BYTES {
        match take_part(reader, into)? {
            Part::End => return Ok(passed > 0),
            Part::More(count) => passed = passed.saturating_add(count),
            Part::Last(count) if passed.saturating_add(count) <= MOST_BYTES => return Ok(true),
            Part::Last(_) => break,
        }
        if passed > MOST_BYTES {
            break;
        }
    }
    Err(io::Error::from(ErrorKind::InvalidData))
}

impl<R: BufRead + Drop> Lines for HostLines<R> {
    ghost use Rattle.std.specs.Prelude.{None};

    ghost left = { λ _. None };

    ghost fault_count = { λ s. s.faults.count };

    fn faults(&self) -> u64 {
        self.faults.count()
    }

    fn next(&mut self, into: &mut Vec<u8>) -> Result<bool, StoreError> {
        match read_line(&mut self.reader, into) {
            Ok(true) => Ok(true),
            Ok(false) => {
                into.clear();
                Ok(false)
            }
            Err(error) => Err(self.faults.judge(&error)),
        }
    }
}
