ghost use Rattle.std.specs.Prelude.{◌≡◌, ◌++◌, ◌∷◌, [], IfOk, OnOk, codes, option_copied};
ghost use Rattle.std.specs.List.{flat_map};
ghost use Rattle.std.specs.Str.Lossy.{utf8_lossy};
ghost use Rattle.json.specs.Token as token;
ghost use Rattle.json.specs.Tree.{json_tokens, members_tokens};
ghost use Rattle.fault_notes.specs.Excerpts.{place_number};
ghost use Rattle.fault_notes.specs.Printed.{cause_members, code_named, compiler_line, json_line, meant, name_json, number_json, option_json, owner, place_members, reached_note, setter_note, setter_place, text_json, told_fault, trace_json, value_text, wanted_text};

use crate::cause::{Cause, Setter, push_default_mark, push_set_here};
use crate::excerpt::{place_number, push_shown};
use crate::fault::{code_in, column_in, detail_in, fault_in, file_in, line_in, object_in};
use crate::meanings::{code_of, meaning};
use crate::note::{push_detail, push_place};
use base::Bytes;
use json::Writer;
use pan_ast::Code;
use std::alloc::{AllocError, Global};

/// A line of a report that tells a fault, `fault NAME CODE FILE:LINE:COLUMN DETAIL`, and what is known of the value that
/// it is about.
#[derive(Drop)]
pub struct Explained {
    pub line: Bytes,
    pub cause: Cause,
}

fn push_meant(into: &mut Vec<u8>, code: Option<Code>) -> Result<(), AllocError>
    ensures { OnOk result (into.new.items ≡ into.old.items ++ meant code) }
{
    let Some(code) = code else {
        return Ok(());
    };
    into.extend_from_slice(b" ")?;
    into.extend_from_slice(meaning(code).as_bytes())
}

/// `CODE MEANING: DETAIL`
fn push_told(into: &mut Vec<u8>, fault: &[u8]) -> Result<(), AllocError>
    ensures { OnOk result (into.new.items ≡ into.old.items ++ told_fault fault.now) }
{
    let code = code_in(fault);
    into.extend_from_slice(code)?;
    push_meant(into, code_of(code))?;
    push_detail(into, detail_in(fault))
}

/// ` (object NAME)` and the end of the line.
fn push_owner(into: &mut Vec<u8>, object: &[u8]) -> Result<(), AllocError>
    ensures { OnOk result (into.new.items ≡ into.old.items ++ owner object.now) }
{
    into.extend_from_slice(b" (object ")?;
    into.extend_from_slice(object)?;
    into.extend_from_slice(b")\n")
}

fn push_value(into: &mut Vec<u8>, value: Option<&Bytes>) -> Result<(), AllocError>
    ensures { OnOk result (into.new.items
        ≡ into.old.items ++ value_text (option_copied value.entry)) }
{
    let Some(value) = value else {
        return Ok(());
    };
    into.extend_from_slice(b": ")?;
    push_shown(into, value.as_slice())
}

fn push_wanted(into: &mut Vec<u8>, wanted: Option<&Bytes>) -> Result<(), AllocError>
    ensures { OnOk result (into.new.items
        ≡ into.old.items ++ wanted_text (option_copied wanted.entry)) }
{
    let Some(wanted) = wanted else {
        return Ok(());
    };
    into.extend_from_slice(b", wanted ")?;
    push_shown(into, wanted.as_slice())
}

/// `FILE:LINE:COLUMN: note: set here: VALUE, wanted TYPE`, a line, where it is known who set the value.
fn push_setter(
    into: &mut Vec<u8>,
    value: Option<&Bytes>,
    wanted: Option<&Bytes>,
    setter: Option<&Setter>,
) -> Result<(), AllocError>
    ensures { OnOk result (into.new.items ≡ into.old.items ++ setter_note
        (option_copied value.entry) (option_copied wanted.entry) (option_copied setter.entry)) }
{
    let Some(setter) = setter else {
        return Ok(());
    };
    into.extend_from_slice(setter.place.as_slice())?;
    push_set_here(into, value)?;
    push_default_mark(into, setter.default)?;
    push_value(into, value)?;
    push_wanted(into, wanted)?;
    into.extend_from_slice(b"\n")
}

/// `FILE:LINE:COLUMN: note: reached from here`, a line.
fn push_reached(into: &mut Vec<u8>, origin: &[u8]) -> Result<(), AllocError>
    ensures { OnOk result (into.new.items ≡ into.old.items ++ reached_note origin.now) }
{
    into.extend_from_slice(origin)?;
    into.extend_from_slice(b": note: reached from here\n")
}

fn push_trace(into: &mut Vec<u8>, origins: &[Bytes]) -> Result<(), AllocError>
    ensures { OnOk result (into.new.items ≡ into.old.items ++ flat_map reached_note origins.now) }
{
    for origin in origins {
        push_reached(into, origin.as_slice())?;
    }
    Ok(())
}

fn push_line(into: &mut Vec<u8>, explained: &Explained) -> Result<(), AllocError>
    ensures { OnOk result (into.new.items ≡ into.old.items ++ compiler_line explained.now) }
{
    let line = explained.line.as_slice();
    let cause = &explained.cause;
    push_place(into, fault_in(line))?;
    into.extend_from_slice(b": error: ")?;
    push_told(into, fault_in(line))?;
    push_owner(into, object_in(line))?;
    push_setter(
        into,
        cause.value.as_ref(),
        cause.wanted.as_ref(),
        cause.set_by.as_ref(),
    )?;
    push_trace(into, cause.trace.as_slice())
}

fn push_lines(into: &mut Vec<u8>, faults: &[Explained]) -> Result<(), AllocError>
    ensures { OnOk result (into.new.items ≡ into.old.items ++ flat_map compiler_line faults.now) }
{
    for explained in faults {
        push_line(into, explained)?;
    }
    Ok(())
}

/// The faults of a report, each as compilers print one: `FILE:LINE:COLUMN: error: CODE MEANING: DETAIL (object NAME)`, and
/// behind it, where it is known who set the value, `FILE:LINE:COLUMN: note: set here: VALUE, wanted TYPE`, and for each
/// call and include inside which the fault is, the innermost first, `FILE:LINE:COLUMN: note: reached from here`.
pub fn compiler_lines(alloc: Global, faults: &[Explained]) -> Result<Vec<u8>, AllocError>
    ensures { IfOk result (λ text. text.items ≡ flat_map compiler_line faults.now) }
{
    let mut text = Vec::new(alloc);
    push_lines(&mut text, faults)?;
    Ok(text)
}

/// A text, in which what is not UTF-8 is U+FFFD.
fn write_string(alloc: Global, out: &mut Writer, bytes: &[u8]) -> Result<(), AllocError>
    ensures ok { OnOk result (out.new.tokens ≡ out.old.tokens
        ++ json_tokens (text_json bytes.now)) }
    ensures before { out.new.before ≡ out.old.before }
{
    let text = String::from_utf8_lossy(alloc, bytes)?;
    out.string(text.as_str())
}

/// A member with a text.
fn write_text(alloc: Global, out: &mut Writer, key: &str, bytes: &[u8]) -> Result<(), AllocError>
    ensures ok { OnOk result (out.new.tokens ≡ out.old.tokens
        ++ token.key key.now ∷ json_tokens (text_json bytes.now)) }
    ensures before { out.new.before ≡ out.old.before }
{
    out.key(key)?;
    write_string(alloc, out, bytes)
}

fn write_count(out: &mut Writer, number: Option<u64>) -> Result<(), AllocError>
    ensures ok { OnOk result (out.new.tokens ≡ out.old.tokens
        ++ json_tokens (number_json number)) }
    ensures before { out.new.before ≡ out.old.before }
{
    match number {
        None => out.null(),
        Some(number) => out.u64(number),
    }
}

/// A member with a number.
fn write_number(out: &mut Writer, key: &str, digits: &[u8]) -> Result<(), AllocError>
    ensures ok { OnOk result (out.new.tokens ≡ out.old.tokens
        ++ token.key key.now ∷ json_tokens (number_json (place_number digits.now))) }
    ensures before { out.new.before ≡ out.old.before }
{
    out.key(key)?;
    write_count(out, place_number(digits))?;
    Ok(())
}

fn write_meaning(out: &mut Writer, code: Option<Code>) -> Result<(), AllocError>
    ensures ok { OnOk result (out.new.tokens ≡ out.old.tokens ++ json_tokens (name_json code)) }
    ensures before { out.new.before ≡ out.old.before }
{
    match code {
        None => out.null(),
        Some(code) => out.string(meaning(code)),
    }
}

/// The member with what the code means.
fn write_name(out: &mut Writer, code: &[u8]) -> Result<(), AllocError>
    ensures ok { OnOk result (out.new.tokens ≡ out.old.tokens
        ++ token.key (codes "name") ∷ json_tokens (name_json (code_named code.now))) }
    ensures before { out.new.before ≡ out.old.before }
{
    out.key("name")?;
    write_meaning(out, code_of(code))?;
    Ok(())
}

fn write_known(alloc: Global, out: &mut Writer, text: Option<&Bytes>) -> Result<(), AllocError>
    ensures ok { OnOk result (out.new.tokens ≡ out.old.tokens
        ++ json_tokens (option_json (option_copied text.entry))) }
    ensures before { out.new.before ≡ out.old.before }
{
    let Some(text) = text else {
        return out.null();
    };
    write_string(alloc, out, text.as_slice())
}

/// A member with a text, or null where it is not known.
fn write_option(
    alloc: Global,
    out: &mut Writer,
    key: &str,
    text: Option<&Bytes>,
) -> Result<(), AllocError>
    ensures ok { OnOk result (out.new.tokens ≡ out.old.tokens
        ++ token.key key.now ∷ json_tokens (option_json (option_copied text.entry))) }
    ensures before { out.new.before ≡ out.old.before }
{
    out.key(key)?;
    write_known(alloc, out, text)
}

fn setter_place(setter: &Option<Setter>) -> Option<&Bytes>
    ensures { option_copied result ≡ setter_place setter.now }
{
    match setter {
        None => None,
        Some(setter) => Some(&setter.place),
    }
}

fn write_strings(alloc: Global, out: &mut Writer, texts: &[Bytes]) -> Result<(), AllocError>
    ensures ok { OnOk result (out.new.tokens ≡ out.old.tokens
        ++ flat_map (λ text. json_tokens (text_json text)) texts.now) }
    ensures before { out.new.before ≡ out.old.before }
{
    for text in texts {
        write_string(alloc, out, text.as_slice())?;
    }
    Ok(())
}

/// The places of calls and includes, as an array.
fn write_trace(alloc: Global, out: &mut Writer, origins: &[Bytes]) -> Result<(), AllocError>
    ensures ok { OnOk result (out.new.tokens ≡ out.old.tokens
        ++ json_tokens (trace_json origins.now)) }
    ensures before { out.new.before ≡ out.old.before }
{
    out.begin_array()?;
    write_strings(alloc, out, origins)?;
    out.end_array()?;
    Ok(())
}

/// The members on the value that a fault is about and on what led to the fault, and the end of the object.
fn write_cause(alloc: Global, out: &mut Writer, cause: &Cause) -> Result<(), AllocError>
    ensures ok { OnOk result (out.new.tokens ≡ out.old.tokens
        ++ members_tokens (cause_members cause.now)) }
    ensures before { out.new.before ≡ out.old.before }
{
    write_option(alloc, out, "value", cause.value.as_ref())?;
    write_option(alloc, out, "expected", cause.wanted.as_ref())?;
    write_option(alloc, out, "set_by", setter_place(&cause.set_by))?;
    out.key("trace")?;
    write_trace(alloc, out, cause.trace.as_slice())?;
    out.end_object()?;
    Ok(())
}

/// The members on where a fault is and its detail, and those behind them.
fn write_place(
    alloc: Global,
    out: &mut Writer,
    fault: &[u8],
    cause: &Cause,
) -> Result<(), AllocError>
    ensures ok { OnOk result (out.new.tokens ≡ out.old.tokens
        ++ members_tokens (place_members fault.now (cause_members cause.now))) }
    ensures before { out.new.before ≡ out.old.before }
{
    write_text(alloc, out, "file", file_in(fault))?;
    write_number(out, "line", line_in(fault))?;
    write_number(out, "column", column_in(fault))?;
    write_text(alloc, out, "detail", detail_in(fault))?;
    write_cause(alloc, out, cause)
}

/// One object of JSON for a line of a report, a line.
fn json_line(alloc: Global, explained: &Explained) -> Result<Vec<u8>, AllocError>
    ensures { IfOk result (λ text. text.items ≡ json_line explained.now) }
{
    let mut out = Writer::new(Vec::new(alloc));
    let line = explained.line.as_slice();
    let fault = fault_in(line);
    out.begin_object()?;
    write_text(alloc, &mut out, "object", object_in(line))?;
    write_text(alloc, &mut out, "code", code_in(fault))?;
    write_name(&mut out, code_in(fault))?;
    write_place(alloc, &mut out, fault, &explained.cause)?;
    let mut text = out.into_inner();
    text.push(b'\n')?;
    Ok(text)
}

fn push_json(alloc: Global, into: &mut Vec<u8>, explained: &Explained) -> Result<(), AllocError>
    ensures { OnOk result (into.new.items ≡ into.old.items ++ json_line explained.now) }
{
    let text = json_line(alloc, explained)?;
    into.extend_from_slice(&text)
}

fn push_all_json(alloc: Global, into: &mut Vec<u8>, faults: &[Explained]) -> Result<(), AllocError>
    ensures { OnOk result (into.new.items ≡ into.old.items ++ flat_map json_line faults.now) }
{
    for explained in faults {
        push_json(alloc, into, explained)?;
    }
    Ok(())
}

/// The faults of a report, each as one object of JSON (RFC 8259) on a line of its own, with the members `object`, `code`,
/// `name` (what the code means), `file`, `line`, `column`, `detail`, of the value that the fault is about `value`,
/// `expected` (what is wanted in its place) and `set_by` (`FILE:LINE:COLUMN`), each null where it is not known, and
/// `trace`, an array of the places (`FILE:LINE:COLUMN`) of the calls and includes inside which the fault is, the innermost
/// first, empty where there is none.
pub fn json_lines(alloc: Global, faults: &[Explained]) -> Result<Vec<u8>, AllocError>
    ensures { IfOk result (λ text. text.items ≡ flat_map json_line faults.now) }
{
    let mut text = Vec::new(alloc);
    push_all_json(alloc, &mut text, faults)?;
    Ok(text)
}
