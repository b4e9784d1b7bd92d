ghost use Rattle.std.specs.Prelude.{◌≡◌, ◌==◌, ◌≤◌, drop, length};
ghost use Rattle.std.specs.List.{before_first, after_first, position_or_len};
ghost use Rattle.fault_notes.specs.Lines.{object_in, fault_in, code_in, behind_code, file_in, behind_file, line_in, behind_line, column_in, detail_in, named};

/// Where a byte stands first in a text; the text's length where it does not stand there.
fn place_of(byte: u8, text: &[u8]) -> usize
    ensures place { result ≡ position_or_len (λ c. c == byte) text.now }
    ensures within { result ≤ length text.now }
{
    let mut place = 0;
    for each in text {
        if *each == byte {
            return place;
        }
        place += 1;
    }
    place
}

/// The text from a place on; nothing past its end.
pub(crate) fn from(place: usize, text: &[u8]) -> &[u8]
    ensures { result.now ≡ drop place text.now }
{
    &text[place.min(text.len())..]
}

/// What stands before a byte, or all where it does not stand there.
pub(crate) fn before(byte: u8, text: &[u8]) -> &[u8]
    ensures { result.now ≡ before_first (λ c. c == byte) text.now }
{
    &text[..place_of(byte, text)]
}

/// What stands after a byte, or nothing where it does not stand there.
pub(crate) fn after(byte: u8, text: &[u8]) -> &[u8]
    ensures { result.now ≡ after_first (λ c. c == byte) text.now }
{
    from(place_of(byte, text).saturating_add(1), text)
}

fn named(line: &[u8]) -> &[u8]
    ensures { result.now ≡ named line.now }
{
    from(b"fault ".len(), line)
}

/// The object of a line `fault NAME CODE FILE:LINE:COLUMN DETAIL`.
pub fn object_in(line: &[u8]) -> &[u8]
    ensures { result.now ≡ object_in line.now }
{
    before(b' ', named(line))
}

/// What stands behind the object: the fault.
pub fn fault_in(line: &[u8]) -> &[u8]
    ensures { result.now ≡ fault_in line.now }
{
    after(b' ', named(line))
}

/// The code of a fault `CODE FILE:LINE:COLUMN DETAIL`.
pub(crate) fn code_in(fault: &[u8]) -> &[u8]
    ensures { result.now ≡ code_in fault.now }
{
    before(b' ', fault)
}

fn behind_code(fault: &[u8]) -> &[u8]
    ensures { result.now ≡ behind_code fault.now }
{
    after(b' ', fault)
}

/// The name of the file in which a fault is, from the source's folder on. A name that holds a colon is cut short.
pub fn file_in(fault: &[u8]) -> &[u8]
    ensures { result.now ≡ file_in fault.now }
{
    before(b':', behind_code(fault))
}

fn behind_file(fault: &[u8]) -> &[u8]
    ensures { result.now ≡ behind_file fault.now }
{
    after(b':', behind_code(fault))
}

/// The digits of the line.
pub fn line_in(fault: &[u8]) -> &[u8]
    ensures { result.now ≡ line_in fault.now }
{
    before(b':', behind_file(fault))
}

fn behind_line(fault: &[u8]) -> &[u8]
    ensures { result.now ≡ behind_line fault.now }
{
    after(b':', behind_file(fault))
}

/// The digits of the column.
pub fn column_in(fault: &[u8]) -> &[u8]
    ensures { result.now ≡ column_in fault.now }
{
    before(b' ', behind_line(fault))
}

/// The detail of a fault; nothing where there is none.
pub fn detail_in(fault: &[u8]) -> &[u8]
    ensures { result.now ≡ detail_in fault.now }
{
    after(b' ', behind_line(fault))
}
