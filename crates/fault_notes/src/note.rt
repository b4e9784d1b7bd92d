ghost use Rattle.std.specs.Prelude.{◌≡◌, ◌++◌, IfOk, OnOk, map, option_map, option_copied, codes, decimal};
ghost use Rattle.std.specs.List.{flat_map};
ghost use Rattle.fault_notes.specs.Causes.{at_place};
ghost use Rattle.fault_notes.specs.Notes.{red, blue, plain, in_red, in_blue, meaning_part, detail_part, headline, others, objects_part, margin, place, place_line, bar, mark, excerpt, excerpt_in, excerpt_part, equals, fact, facts_part, setter_line, setter_part, trace_line, places_more, count_fact, trace_rest, trace_part, cause_part, note_of, rest_of};
ghost use Rattle.fault_notes.specs.Excerpts.{shown_byte};

use crate::cause::{Cause, Setter, at_place, push_default_mark, push_set_by};
use crate::excerpt::{line_at, place_number, push_blanks, push_indent, push_shown, shown_line};
use crate::fault::{code_in, column_in, detail_in, file_in, line_in};
use crate::meanings::{code_of, meaning};
use crate::report::Repeated;
use base::Bytes;
use itoa::Buffer;
use pan_ast::Code;
use std::alloc::{AllocError, Global};

/// The most calls and includes whose places a note tells.
pub const MAX_TRACE_LINES: usize = 8;

/// Whether a note has the colours of a terminal.
#[derive(Clone, Copy, PartialEq, Eq)]
pub enum Colours {
    On,
    Off,
}

fn red(colours: Colours) -> &'static [u8]
    ensures { result.now ≡ red colours }
{
    match colours {
        Colours::On => b"\x1b[1;31m",
        Colours::Off => b"",
    }
}

fn blue(colours: Colours) -> &'static [u8]
    ensures { result.now ≡ blue colours }
{
    match colours {
        Colours::On => b"\x1b[1;34m",
        Colours::Off => b"",
    }
}

fn plain(colours: Colours) -> &'static [u8]
    ensures { result.now ≡ plain colours }
{
    match colours {
        Colours::On => b"\x1b[0m",
        Colours::Off => b"",
    }
}

fn push_red(into: &mut Vec<u8>, colours: Colours, text: &[u8]) -> Result<(), AllocError>
    ensures { OnOk result (into.new.items ≡ into.old.items ++ in_red colours text.now) }
{
    into.extend_from_slice(red(colours))?;
    into.extend_from_slice(text)?;
    into.extend_from_slice(plain(colours))
}

fn push_error(into: &mut Vec<u8>, colours: Colours, code: &[u8]) -> Result<(), AllocError>
    ensures { OnOk result (into.new.items ≡ into.old.items
        ++ in_red colours (codes "error " ++ code.now)) }
{
    into.extend_from_slice(red(colours))?;
    into.extend_from_slice(b"error ")?;
    into.extend_from_slice(code)?;
    into.extend_from_slice(plain(colours))
}

fn push_meaning(into: &mut Vec<u8>, code: Option<Code>) -> Result<(), AllocError>
    ensures { OnOk result (into.new.items ≡ into.old.items ++ meaning_part code) }
{
    let Some(code) = code else {
        return Ok(());
    };
    into.extend_from_slice(b": ")?;
    into.extend_from_slice(meaning(code).as_bytes())
}

pub(crate) fn push_detail(into: &mut Vec<u8>, detail: &[u8]) -> Result<(), AllocError>
    ensures { OnOk result (into.new.items ≡ into.old.items ++ detail_part detail.now) }
{
    if detail.is_empty() {
        return Ok(());
    }
    into.extend_from_slice(b": ")?;
    into.extend_from_slice(detail)
}

fn push_headline(into: &mut Vec<u8>, colours: Colours, fault: &[u8]) -> Result<(), AllocError>
    ensures { OnOk result (into.new.items ≡ into.old.items ++ headline colours fault.now) }
{
    let code = code_in(fault);
    push_error(into, colours, code)?;
    push_meaning(into, code_of(code))?;
    push_detail(into, detail_in(fault))?;
    into.extend_from_slice(b"\n")
}

fn push_many(into: &mut Vec<u8>, count: usize) -> Result<(), AllocError>
    ensures { OnOk result (into.new.items ≡ into.old.items
        ++ (codes ", and " ++ decimal count ++ codes " others")) }
{
    let mut buffer = Buffer::new();
    into.extend_from_slice(b", and ")?;
    into.extend_from_slice(buffer.format(count).as_bytes())?;
    into.extend_from_slice(b" others")
}

fn push_others(into: &mut Vec<u8>, count: usize) -> Result<(), AllocError>
    ensures { OnOk result (into.new.items ≡ into.old.items ++ others count) }
{
    if count == 0 {
        return Ok(());
    }
    if count == 1 {
        return into.extend_from_slice(b", and 1 other");
    }
    push_many(into, count)
}

fn push_objects(into: &mut Vec<u8>, objects: &[Bytes]) -> Result<(), AllocError>
    ensures { OnOk result (into.new.items ≡ into.old.items ++ objects_part objects.now) }
{
    let [first, others @ ..] = objects else {
        return Ok(());
    };
    into.extend_from_slice(b"  (object ")?;
    into.extend_from_slice(first.as_slice())?;
    push_others(into, others.len())?;
    into.extend_from_slice(b")")
}

fn push_margin(into: &mut Vec<u8>, fault: &[u8]) -> Result<(), AllocError>
    ensures { OnOk result (into.new.items ≡ into.old.items ++ margin fault.now) }
{
    push_blanks(into, line_in(fault).len())
}

fn push_arrow(into: &mut Vec<u8>, colours: Colours) -> Result<(), AllocError>
    ensures { OnOk result (into.new.items ≡ into.old.items ++ in_blue colours (codes "-->")) }
{
    into.extend_from_slice(blue(colours))?;
    into.extend_from_slice(b"-->")?;
    into.extend_from_slice(plain(colours))
}

pub(crate) fn push_place(into: &mut Vec<u8>, fault: &[u8]) -> Result<(), AllocError>
    ensures { OnOk result (into.new.items ≡ into.old.items ++ place fault.now) }
{
    into.extend_from_slice(file_in(fault))?;
    into.extend_from_slice(b":")?;
    into.extend_from_slice(line_in(fault))?;
    into.extend_from_slice(b":")?;
    into.extend_from_slice(column_in(fault))
}

fn push_place_line(
    into: &mut Vec<u8>,
    colours: Colours,
    fault: &[u8],
    objects: &[Bytes],
) -> Result<(), AllocError>
    ensures { OnOk result (into.new.items ≡ into.old.items
        ++ place_line colours fault.now objects.now) }
{
    push_margin(into, fault)?;
    push_arrow(into, colours)?;
    into.extend_from_slice(b" ")?;
    push_place(into, fault)?;
    push_objects(into, objects)?;
    into.extend_from_slice(b"\n")
}

/// Appends the bar in front of a line of the file, behind the line's number or nothing.
fn push_bar(into: &mut Vec<u8>, colours: Colours, number: &[u8]) -> Result<(), AllocError>
    ensures { OnOk result (into.new.items ≡ into.old.items ++ bar colours number.now) }
{
    into.extend_from_slice(blue(colours))?;
    into.extend_from_slice(number)?;
    into.extend_from_slice(b" |")?;
    into.extend_from_slice(plain(colours))
}

fn push_excerpt(
    alloc: Global,
    into: &mut Vec<u8>,
    colours: Colours,
    fault: &[u8],
    column: u64,
    text: &str,
) -> Result<(), AllocError>
    ensures { OnOk result (into.new.items ≡ into.old.items
        ++ excerpt colours fault.now column text.now) }
{
    push_margin(into, fault)?;
    push_bar(into, colours, b"")?;
    into.extend_from_slice(b"\n")?;
    push_bar(into, colours, line_in(fault))?;
    into.extend_from_slice(b" ")?;
    push_shown(into, text.as_bytes())?;
    into.extend_from_slice(b"\n")?;
    push_mark(alloc, into, colours, fault, column, text)
}

fn push_mark(
    alloc: Global,
    into: &mut Vec<u8>,
    colours: Colours,
    fault: &[u8],
    column: u64,
    text: &str,
) -> Result<(), AllocError>
    ensures { OnOk result (into.new.items ≡ into.old.items
        ++ mark colours fault.now column text.now) }
{
    push_margin(into, fault)?;
    push_bar(into, colours, b"")?;
    into.extend_from_slice(b" ")?;
    push_indent(alloc, into, column, text)?;
    push_red(into, colours, b"^")?;
    into.extend_from_slice(b"\n")
}

fn push_source(
    alloc: Global,
    into: &mut Vec<u8>,
    colours: Colours,
    fault: &[u8],
    source: &[u8],
) -> Result<(), AllocError>
    ensures { OnOk result (into.new.items ≡ into.old.items
        ++ excerpt_in colours fault.now source.now) }
{
    let Some(line) = place_number(line_in(fault)) else {
        return Ok(());
    };
    let Some(column) = place_number(column_in(fault)) else {
        return Ok(());
    };
    match shown_line(alloc, line_at(line, source))? {
        Some(text) => push_excerpt(alloc, into, colours, fault, column, text.as_str()),
        None => Ok(()),
    }
}

/// The line of the file in which a fault is, where `source` has the bytes of the file.
fn push_excerpt_of(
    alloc: Global,
    into: &mut Vec<u8>,
    colours: Colours,
    fault: &[u8],
    source: Option<&[u8]>,
) -> Result<(), AllocError>
    ensures { OnOk result (into.new.items ≡ into.old.items
        ++ excerpt_part colours fault.now (option_map (λ s. s.now) source.entry)) }
{
    let Some(source) = source else {
        return Ok(());
    };
    push_source(alloc, into, colours, fault, source)
}

/// ` = ` behind the margin.
fn push_equals(into: &mut Vec<u8>, colours: Colours, fault: &[u8]) -> Result<(), AllocError>
    ensures { OnOk result (into.new.items ≡ into.old.items ++ equals colours fault.now) }
{
    push_margin(into, fault)?;
    into.extend_from_slice(b" ")?;
    into.extend_from_slice(blue(colours))?;
    into.extend_from_slice(b"=")?;
    into.extend_from_slice(plain(colours))?;
    into.extend_from_slice(b" ")
}

/// ` = LABEL TEXT`, where there is a text.
fn push_fact(
    into: &mut Vec<u8>,
    colours: Colours,
    fault: &[u8],
    label: &[u8],
    text: Option<&Bytes>,
) -> Result<(), AllocError>
    ensures { OnOk result (into.new.items ≡ into.old.items
        ++ fact colours fault.now label.now (option_copied text.entry)) }
{
    let Some(text) = text else {
        return Ok(());
    };
    push_equals(into, colours, fault)?;
    into.extend_from_slice(label)?;
    push_shown(into, text.as_slice())?;
    into.extend_from_slice(b"\n")
}

/// ` = set by FILE:LINE:COLUMN`; of no value who set what is around it.
fn push_setter_line(
    into: &mut Vec<u8>,
    colours: Colours,
    fault: &[u8],
    value: Option<&Bytes>,
    setter: &Setter,
) -> Result<(), AllocError>
    ensures { OnOk result (into.new.items ≡ into.old.items
        ++ setter_line colours fault.now (option_copied value.entry) setter.now) }
{
    push_equals(into, colours, fault)?;
    push_set_by(into, value)?;
    into.extend_from_slice(setter.place.as_slice())?;
    push_default_mark(into, setter.default)?;
    into.extend_from_slice(b"\n")
}

/// Who set a value, with the line of the file.
fn push_setter(
    alloc: Global,
    into: &mut Vec<u8>,
    colours: Colours,
    fault: &[u8],
    cause: &Cause,
    source: Option<&[u8]>,
) -> Result<(), AllocError>
    ensures { OnOk result (into.new.items ≡ into.old.items ++ setter_part colours fault.now
        cause.now.value cause.now.set_by (option_map (λ s. s.now) source.entry)) }
{
    let Some(setter) = &cause.set_by else {
        return Ok(());
    };
    push_setter_line(into, colours, fault, cause.value.as_ref(), setter)?;
    let place = at_place(alloc, setter.place.as_slice())?;
    push_excerpt_of(alloc, into, colours, &place, source)
}

/// The value that a fault is about, what is wanted, and the files that were looked for.
fn push_facts(
    into: &mut Vec<u8>,
    colours: Colours,
    fault: &[u8],
    cause: &Cause,
) -> Result<(), AllocError>
    ensures { OnOk result (into.new.items ≡ into.old.items
        ++ facts_part colours fault.now cause.now) }
{
    push_fact(into, colours, fault, b"value: ", cause.value.as_ref())?;
    push_fact(into, colours, fault, b"wanted: ", cause.wanted.as_ref())?;
    push_fact(
        into,
        colours,
        fault,
        b"looked for: ",
        cause.looked_for.as_ref(),
    )
}

/// ` = reached from FILE:LINE:COLUMN`
fn push_trace_line(
    into: &mut Vec<u8>,
    colours: Colours,
    fault: &[u8],
    origin: &Bytes,
) -> Result<(), AllocError>
    ensures { OnOk result (into.new.items ≡ into.old.items
        ++ trace_line colours fault.now origin.now) }
{
    push_fact(into, colours, fault, b"reached from ", Some(origin))
}

fn push_trace_lines(
    into: &mut Vec<u8>,
    colours: Colours,
    fault: &[u8],
    origins: &[Bytes],
) -> Result<(), AllocError>
    ensures { OnOk result (into.new.items ≡ into.old.items
        ++ flat_map (trace_line colours fault.now) origins.now) }
{
    for origin in origins {
        push_trace_line(into, colours, fault, origin)?;
    }
    Ok(())
}

/// `N places more`
fn push_places_more(into: &mut Vec<u8>, count: usize) -> Result<(), AllocError>
    ensures { OnOk result (into.new.items ≡ into.old.items ++ places_more count) }
{
    if count == 1 {
        return into.extend_from_slice(b"1 place more");
    }
    let mut buffer = Buffer::new();
    into.extend_from_slice(buffer.format(count).as_bytes())?;
    into.extend_from_slice(b" places more")
}

/// ` = LABEL N places more`
fn push_count_fact(
    into: &mut Vec<u8>,
    colours: Colours,
    fault: &[u8],
    label: &[u8],
    count: usize,
) -> Result<(), AllocError>
    ensures { OnOk result (into.new.items ≡ into.old.items
        ++ count_fact colours fault.now label.now count) }
{
    push_equals(into, colours, fault)?;
    into.extend_from_slice(label)?;
    push_places_more(into, count)?;
    into.extend_from_slice(b"\n")
}

/// ` = reached from N places more`, where there are more than are told.
fn push_trace_rest(
    into: &mut Vec<u8>,
    colours: Colours,
    fault: &[u8],
    left: usize,
) -> Result<(), AllocError>
    ensures { OnOk result (into.new.items ≡ into.old.items ++ trace_rest colours fault.now left) }
{
    if left == 0 {
        return Ok(());
    }
    push_count_fact(into, colours, fault, b"reached from ", left)
}

/// The places of the first `MAX_TRACE_LINES` calls and includes inside which a fault is, and how many more there are.
fn push_trace(
    into: &mut Vec<u8>,
    colours: Colours,
    fault: &[u8],
    origins: &[Bytes],
) -> Result<(), AllocError>
    ensures { OnOk result (into.new.items ≡ into.old.items
        ++ trace_part colours fault.now origins.now) }
{
    let told = origins.len().min(MAX_TRACE_LINES);
    push_trace_lines(into, colours, fault, &origins[..told])?;
    push_trace_rest(into, colours, fault, origins.len() - told)
}

/// What is known beside its line of a fault.
fn push_cause(
    alloc: Global,
    into: &mut Vec<u8>,
    colours: Colours,
    fault: &[u8],
    cause: &Cause,
    source: Option<&[u8]>,
) -> Result<(), AllocError>
    ensures { OnOk result (into.new.items ≡ into.old.items
        ++ cause_part colours fault.now cause.now (option_map (λ s. s.now) source.entry)) }
{
    push_facts(into, colours, fault, cause)?;
    push_setter(alloc, into, colours, fault, cause, source)?;
    push_trace(into, colours, fault, cause.trace.as_slice())
}

/// The text for a fault, with a blank line at its end: its code, what that means and the detail; the place and the
/// objects; the line of the file with a mark below the column, where `source` has the bytes of the file; and what is
/// known of the value that it is about, or of the file that is not there: the value, what is wanted, the files that were
/// looked for, and who set the value, with that line, where `set_in` has the bytes of the setter's file. Behind that stand
/// the places of the calls and includes inside which the fault is, the innermost first: `MAX_TRACE_LINES` of them, and how
/// many more there are.
///
/// A line of over `MAX_SHOWN_BYTES` bytes is not shown. In a line, a value, what is wanted and the place of a call or an
/// include control characters are shown as blanks, but for tabs.
pub fn note_of(
    alloc: Global,
    colours: Colours,
    told: &Repeated,
    source: Option<&[u8]>,
    cause: &Cause,
    set_in: Option<&[u8]>,
) -> Result<Vec<u8>, AllocError>
    ensures { IfOk result (λ text. text.items
        ≡ note_of colours told.now (option_map (λ s. s.now) source.entry) cause.now
        (option_map (λ s. s.now) set_in.entry)) }
{
    let mut text = Vec::new(alloc);
    let fault = told.fault.as_slice();
    push_headline(&mut text, colours, fault)?;
    push_place_line(&mut text, colours, fault, told.objects.as_slice())?;
    push_excerpt_of(alloc, &mut text, colours, fault, source)?;
    push_cause(alloc, &mut text, colours, fault, cause, set_in)?;
    text.extend_from_slice(b"\n")?;
    Ok(text)
}

/// The text for the different faults of which no note is given; none where there are no such.
pub fn rest_of(alloc: Global, left: usize) -> Result<Vec<u8>, AllocError>
    ensures { IfOk result (λ text. text.items ≡ rest_of left) }
{
    if left == 0 {
        return Ok(Vec::new(alloc));
    }
    if left == 1 {
        return Vec::from_slice(alloc, b"and 1 different fault more\n");
    }
    let mut buffer = Buffer::new();
    let mut text = Vec::from_slice(alloc, b"and ")?;
    text.extend_from_slice(buffer.format(left).as_bytes())?;
    text.extend_from_slice(b" different faults more\n")?;
    Ok(text)
}
