ghost use Rattle.std.specs.Prelude.{◌≡◌, ◌≤◌, ◌<◌, ◌+◌, ◌++◌, ◌∷◌, [], ℕ, IfOk, OnOk, IsTrue, length, take, decimal, IsCharBoundary};
ghost use Rattle.pan_ast.specs.Codes.{code_number, code_text};
ghost use Rattle.pan_ast.specs.Detail.{is_continuation, chars_len, first_chars, fault_at, fault_with};
ghost use Rattle.pan_ast.specs.Printed.{hex_digit, printed_byte, printed, place_text, detail_text, line_of};

use crate::place::Place;
use base::Text;
use base::limits::MAX_DETAIL_CHARACTERS;
use itoa::Buffer;
use std::alloc::{AllocError, Global};

/// The kinds of faults, by the numbers that they are printed with: `F01` and so on. A detail that is not
/// named here is empty.
#[derive(Clone, Copy, PartialEq, Eq)]
pub enum Code {
    /// F01: a character that may not stand there.
    BadCharacter = 1,
    /// F02: the file is no UTF-8.
    NotUtf8 = 2,
    /// F03: a text, a here-document or an annotation that is not closed.
    OpenText = 3,
    /// F04: a number with a fraction or an exponent.
    Double = 4,
    /// F05: a whole number past 64 bits.
    IntegerTooLarge = 5,
    /// F06: a token that no template goes on with.
    BadSyntax = 6,
    /// F07: constructs that hold one another too often.
    TooDeep = 7,
    /// F10: operands of kinds that the operator does not take.
    TypeClash = 10,
    /// F11: a result past 64 bits.
    Overflow = 11,
    /// F12: a division by zero.
    ZeroDivisor = 12,
    /// F13: an argument, or a number of arguments, that the function does not take.
    BadArgument = 13,
    /// F14: a text that is no regular expression, or a longer one than is read.
    BadPattern = 14,
    /// F15: an index, a position or a key that is not there or may not be used.
    BadIndex = 15,
    /// F16: a text, list or dict over its size or height.
    TooLarge = 16,
    /// F17: a change of what `final` closed. The detail is the path or the variable.
    Final = 17,
    /// F18: a text that is no path. The detail is the path as written.
    BadPath = 18,
    /// F19: a change of a global or of an automatic name. The detail is the name.
    GlobalChange = 19,
    /// F20: a name without a value. The detail is the name.
    NoVariable = 20,
    /// F21: a call of a name that is no function. The detail is the name.
    NoFunction = 21,
    /// F22: a loop that turns more often than the limit.
    Iterations = 22,
    /// F23: more open calls or items than the limit.
    CallDepth = 23,
    /// F24: no step of work is left.
    WorkSpent = 24,
    /// F25: an error that the template gives. The detail is its message.
    UserError = 25,
    /// F26: a condition or a test that is no boolean.
    NotBoolean = 26,
    /// F27: a change of `SELF` where it is fixed, or of its whole.
    SelfChange = 27,
    /// F28: a path without a value. The detail is the path as written.
    NoPath = 28,
    /// F29: an object that is not there. The detail is the object.
    NoObject = 29,
    /// F30: an object that is read and failed. The detail is the object.
    ForeignFailed = 30,
    /// F31: an object that reads what reads it. The detail is the object.
    Circular = 31,
    /// F32: a name that is no type. The detail is the name.
    NoType = 32,
    /// F33: a name or a key that is given twice. The detail is the name or key.
    Redefined = 33,
    /// F34: a range that holds no number, or that its type does not take.
    BadRange = 34,
    /// F35: a value of another type than the one bound to its path. The detail is the path.
    WrongType = 35,
    /// F36: a value outside its range or choice. The detail is the path.
    OutOfRange = 36,
    /// F37: a record without a required field. The detail is the path of the field.
    MissingField = 37,
    /// F38: a record with a field that its type lacks. The detail is the path of the field.
    ExtraField = 38,
    /// F39: the `with` of a type gives false. The detail is the path.
    FalseTest = 39,
    /// F40: a `valid` statement gives false. The detail is the path.
    FalseValid = 40,
    /// F41: a value that is still undefined. The detail is the path.
    UndefLeft = 41,
    /// F42: a type is bound where no value is. The detail is the path.
    NoBoundPath = 42,
    /// F43: a template that is not there. The detail is the name.
    NoTemplate = 43,
    /// F44: a template of a kind that does not fit. The detail is the name.
    WrongKind = 44,
    /// F45: a statement that may not stand in a template of this kind.
    WrongStatement = 45,
    /// F46: a template with another name than it is found by, which is the detail.
    WrongTemplate = 46,
    /// F47: includes that hold one another too often.
    IncludeDepth = 47,
    /// F48: a file over its length. The detail is the file.
    FileTooLong = 48,
}

impl Code {
    /// The number of the code: 1 to 7, or 10 to 48.
    pub fn number(self) -> u8
        ensures { result ≡ code_number self }
    {
        self as u8
    }

    /// The code as it is printed.
    pub fn text(self) -> &'static str
        ensures { result.now ≡ code_text self }
    {
        match self {
            Code::BadCharacter => "F01",
            Code::NotUtf8 => "F02",
            Code::OpenText => "F03",
            Code::Double => "F04",
            Code::IntegerTooLarge => "F05",
            Code::BadSyntax => "F06",
            Code::TooDeep => "F07",
            Code::TypeClash => "F10",
            Code::Overflow => "F11",
            Code::ZeroDivisor => "F12",
            Code::BadArgument => "F13",
            Code::BadPattern => "F14",
            Code::BadIndex => "F15",
            Code::TooLarge => "F16",
            Code::Final => "F17",
            Code::BadPath => "F18",
            Code::GlobalChange => "F19",
            Code::NoVariable => "F20",
            Code::NoFunction => "F21",
            Code::Iterations => "F22",
            Code::CallDepth => "F23",
            Code::WorkSpent => "F24",
            Code::UserError => "F25",
            Code::NotBoolean => "F26",
            Code::SelfChange => "F27",
            Code::NoPath => "F28",
            Code::NoObject => "F29",
            Code::ForeignFailed => "F30",
            Code::Circular => "F31",
            Code::NoType => "F32",
            Code::Redefined => "F33",
            Code::BadRange => "F34",
            Code::WrongType => "F35",
            Code::OutOfRange => "F36",
            Code::MissingField => "F37",
            Code::ExtraField => "F38",
            Code::FalseTest => "F39",
            Code::FalseValid => "F40",
            Code::UndefLeft => "F41",
            Code::NoBoundPath => "F42",
            Code::NoTemplate => "F43",
            Code::WrongKind => "F44",
            Code::WrongStatement => "F45",
            Code::WrongTemplate => "F46",
            Code::IncludeDepth => "F47",
            Code::FileTooLong => "F48",
        }
    }
}

/// A fault of a template: what is wrong, where, and a detail, which is empty for many codes.
pub struct Fault {
    pub code: Code,
    pub place: Place,
    pub detail: Text,
}

// By one call at each exit of who holds one: a derived Drop would let go of each part there.
impl Drop for Fault {
    fn drop(self) {
        let Fault {
            code: _code,
            place: _place,
            detail: _detail,
        } = self;
    }
}

impl Fault {
    /// Where it is.
    pub fn into_place(self) -> Place
        ensures { result ≡ self.place }
    {
        let Fault {
            code: _,
            place,
            detail: _detail,
        } = self;
        place
    }
}

fn is_continuation(byte: u8) -> bool
    ensures { result ≡ is_continuation byte }
{
    128 <= byte && byte <= 191
}

/// How many bytes the first `most` characters of a text take.
fn chars_len(most: usize, bytes: &[u8]) -> usize
    ensures { result ≡ chars_len most bytes.now }
{
    let mut left = most;
    let mut i = 0;
    while i < bytes.len() {
        if !is_continuation(bytes[i]) {
            if left == 0 {
                return i;
            }
            left -= 1;
        }
        i += 1;
    }
    i
}

/// The first `most` characters of a text.
#[tactic(auto, using(crate::proofs::Chars::chars_boundary))]
fn first_chars(most: usize, text: &str) -> &str
    ensures { result.now ≡ first_chars most text.now }
{
    let (first, _) = text.split_at(chars_len(most, text.as_bytes()));
    first
}

impl Fault {
    /// A fault with the first [MAX_DETAIL_CHARACTERS] characters of a detail.
    pub fn new(alloc: Global, code: Code, place: Place, detail: &str) -> Result<Fault, AllocError>
        ensures { IfOk result (λ f. f ≡ fault_with code place detail.now) }
    {
        let detail = Text::new(alloc, first_chars(MAX_DETAIL_CHARACTERS, detail))?;
        Ok(Fault {
            code,
            place,
            detail,
        })
    }

    /// A fault without a detail.
    pub fn at(alloc: Global, code: Code, place: Place) -> Result<Fault, AllocError>
        ensures { IfOk result (λ f. f ≡ fault_at code place) }
    {
        Ok(Fault {
            code,
            place,
            detail: Text::new(alloc, "")?,
        })
    }

    /// The same fault, its texts shared.
    pub fn share(&self) -> Result<Fault, AllocError>
        ensures { IfOk result (λ f. f ≡ self.now) }
    {
        Ok(Fault {
            code: self.code,
            place: self.place.share()?,
            detail: self.detail.share()?,
        })
    }
}

fn hex_digit(value: u8) -> u8
    requires { value < 16 }
    ensures { result ≡ hex_digit value }
{
    if value < 10 {
        b'0' + value
    } else {
        b'a' + (value - 10)
    }
}

fn push_printed_byte(line: &mut Vec<u8>, byte: u8) -> Result<(), AllocError>
    ensures { OnOk result (line.new.items ≡ line.old.items ++ printed_byte byte) }
{
    if byte == b'\\' {
        line.extend_from_slice(b"\\\\")
    } else if b' ' <= byte && byte <= b'~' {
        line.push(byte)?;
        Ok(())
    } else {
        line.extend_from_slice(&[b'\\', b'x', hex_digit(byte / 16), hex_digit(byte % 16)])
    }
}

fn push_printed(line: &mut Vec<u8>, bytes: &[u8]) -> Result<(), AllocError>
    ensures { OnOk result (line.new.items ≡ line.old.items ++ printed bytes.now) }
{
    for byte in bytes {
        push_printed_byte(line, *byte)?;
    }
    Ok(())
}

fn push_place(line: &mut Vec<u8>, place: &Place) -> Result<(), AllocError>
    ensures { OnOk result (line.new.items ≡ line.old.items ++ place_text place.now) }
{
    let mut buffer = Buffer::new();
    line.extend_from_slice(place.file.as_str().as_bytes())?;
    line.push(b':')?;
    line.extend_from_slice(buffer.format(place.line).as_bytes())?;
    line.push(b':')?;
    line.extend_from_slice(buffer.format(place.column).as_bytes())
}

fn push_detail(line: &mut Vec<u8>, detail: &[u8]) -> Result<(), AllocError>
    ensures { OnOk result (line.new.items ≡ line.old.items ++ detail_text detail.now) }
{
    if detail.is_empty() {
        return Ok(());
    }
    line.push(b' ')?;
    push_printed(line, detail)
}

/// The printed line of a fault, without a line feed: `CODE FILE:LINE:COLUMN`, and a space and the detail
/// where there is one.
///
/// The file's name stands as it is. Each byte of the detail outside 0x20 to 0x7E is printed `\xHH` in lower
/// case, and `\` as `\\`.
pub fn fault_line(alloc: Global, fault: &Fault) -> Result<Vec<u8>, AllocError>
    ensures { IfOk result (λ line. line.items ≡ line_of fault.now) }
{
    let mut line = Vec::from_slice(alloc, fault.code.text().as_bytes())?;
    line.push(b' ')?;
    push_place(&mut line, &fault.place)?;
    push_detail(&mut line, fault.detail.as_str().as_bytes())?;
    Ok(line)
}
