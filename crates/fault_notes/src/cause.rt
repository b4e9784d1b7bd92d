ghost use Rattle.std.specs.Prelude.{◌≡◌, ◌++◌, [], OnOk, IfOk, None, option_copied};
ghost use Rattle.fault_notes.specs.Causes.{at_place, default_mark, has_cause, misses_file, set_by, set_here, setter_file, shown_value};

use crate::fault::{before, code_in, detail_in};
use crate::meanings::first_of;
use base::limits::MAX_DETAIL_CHARACTERS;
use base::{Bytes, Seq};
use call_values::up_to_char;
use pan_ast::Code;
use std::alloc::{AllocError, Global};

/// The most characters of a value that are shown.
pub const MAX_VALUE_CHARS: usize = 60;

/// The codes of faults of a value, whose detail is the value's path.
const VALUE_CODES: [Code; 7] = [
    Code::WrongType,
    Code::OutOfRange,
    Code::MissingField,
    Code::ExtraField,
    Code::FalseTest,
    Code::UndefLeft,
    Code::NoBoundPath,
];

/// Who set a value last.
#[derive(Drop)]
pub struct Setter {
    /// `FILE:LINE:COLUMN` of the statement or the binding.
    pub place: Bytes,
    /// Whether the value is the default of a type.
    pub default: bool,
}

/// What is known of the value that a fault is about, or of the file that is not there, and what led to the fault.
#[derive(Drop)]
pub struct Cause {
    /// The value, as it is shown.
    pub value: Option<Bytes>,
    /// What is wanted in its place.
    pub wanted: Option<Bytes>,
    /// The files that were looked for.
    pub looked_for: Option<Bytes>,
    /// Who set it last; where there is no value, who set what is around it.
    pub set_by: Option<Setter>,
    /// `FILE:LINE:COLUMN` of each call and include inside which the fault is, the innermost first.
    pub trace: Seq<Bytes>,
}

impl Cause {
    /// Of a fault of which no more is known than its line.
    pub fn unknown(alloc: Global) -> Cause
        ensures { result ≡ record {
          value = None;
          wanted = None;
          looked_for = None;
          set_by = None;
          trace = [];
        } }
    {
        Cause {
            value: None,
            wanted: None,
            looked_for: None,
            set_by: None,
            trace: Seq::new(alloc),
        }
    }
}

/// Whether a fault `CODE FILE:LINE:COLUMN DETAIL` is about a value, so that its detail is the value's path. A detail as long
/// as details are at most may be cut, and is none.
pub fn has_cause(fault: &[u8]) -> bool
    ensures { result ≡ has_cause fault.now }
{
    detail_in(fault).len() < MAX_DETAIL_CHARACTERS
        && first_of(&VALUE_CODES, code_in(fault)).is_some()
}

/// Whether a fault is that of a template or file that is not there, so that its detail is the name.
pub fn misses_file(fault: &[u8]) -> bool
    ensures { result ≡ misses_file fault.now }
{
    Code::NoTemplate.text().as_bytes() == code_in(fault)
}

/// The first `MAX_VALUE_CHARS` characters of a text, and `..` where there are more.
pub fn shown_value(alloc: Global, text: &str) -> Result<Vec<u8>, AllocError>
    ensures { IfOk result (λ shown. shown.items ≡ shown_value text.now) }
{
    let first = up_to_char(text, MAX_VALUE_CHARS);
    let mut shown = Vec::from_slice(alloc, first.as_bytes())?;
    if first.len() < text.len() {
        shown.extend_from_slice(b"..")?;
    }
    Ok(shown)
}

/// The name of the file in which a setter stands. A name that holds a colon is cut short.
pub fn setter_file(setter: &Setter) -> &[u8]
    ensures { result.now ≡ setter_file setter.now }
{
    before(b':', setter.place.as_slice())
}

/// `set by `, or of no value `set around it by `.
pub(crate) fn push_set_by(into: &mut Vec<u8>, value: Option<&Bytes>) -> Result<(), AllocError>
    ensures { OnOk result (into.new.items
        ≡ into.old.items ++ set_by (option_copied value.entry)) }
{
    match value {
        Some(_value) => into.extend_from_slice(b"set by "),
        None => into.extend_from_slice(b"set around it by "),
    }
}

/// `: note: set here`, or of no value `: note: set around it here`.
pub(crate) fn push_set_here(into: &mut Vec<u8>, value: Option<&Bytes>) -> Result<(), AllocError>
    ensures { OnOk result (into.new.items
        ≡ into.old.items ++ set_here (option_copied value.entry)) }
{
    match value {
        Some(_value) => into.extend_from_slice(b": note: set here"),
        None => into.extend_from_slice(b": note: set around it here"),
    }
}

/// ` (default)`, where it is one.
pub(crate) fn push_default_mark(into: &mut Vec<u8>, default: bool) -> Result<(), AllocError>
    ensures { OnOk result (into.new.items ≡ into.old.items ++ default_mark default) }
{
    if default {
        return into.extend_from_slice(b" (default)");
    }
    Ok(())
}

/// A place, as the fault without a code that is there.
pub(crate) fn at_place(alloc: Global, place: &[u8]) -> Result<Vec<u8>, AllocError>
    ensures { IfOk result (λ fault. fault.items ≡ at_place place.now) }
{
    let mut fault = Vec::from_slice(alloc, b" ")?;
    fault.extend_from_slice(place)?;
    Ok(fault)
}
