ghost use Rattle.std.specs.Prelude.{◌≡◌, ◌^◌, ◌++◌, ◌&&◌, OnOk, nat_lt, true};
ghost use Rattle.load_path.specs.declared.limits.TheConstants.{MAX_ITERATIONS, MAX_RECURSION};
ghost use Rattle.std.specs.Int.{w32, w64, to_be_bytes};
ghost use Rattle.record_rows.specs.Forms.{bytes_form, list, number32, number64, text};
ghost use Rattle.record_rows.specs.Fields.{a_term, terms, key, item_in, trace_in, place, fault, built, verdict, content, directory, directories, header, file_text, name_text, detail_text, is_counter, is_limit};
ghost use Rattle.record_rows.specs.Rows.{file_parts, parts_of_file, object_parts, parts_of_object, header_in};
ghost use Rattle.record_rows.specs.declared.format.Format.TheVariants.{Third};
ghost use Rattle.kept_state.specs.Stored.{stored};

use crate::format::Format;
use crate::header::is_directory;
use crate::items::is_item;
use crate::parts::{are_parts, has_file_number};
use crate::reading::is_asked;
use crate::tree_writing::put_whole_tree;
use asking::limits::END_OF_NUMBERS;
use base::Text;
use base::limits::MAX_FILE_BYTES;
use kept_state::limits::{FIRST_NUMBER, MAX_INDEX, MAX_ITEMS, MAX_TERMS};
use kept_state::{Kept, KeptFile, KeptObject};
use load_path::Content;
use load_path::limits::{MAX_ITERATIONS, MAX_PARTS, MAX_RECURSION};
use pan_ast::{Code, Fault, Limits, Place};
use path_tree::{Name, Term, Tree};
use questions::Key;
use read_sets::{Item, Trace};
use std::alloc::{AllocError, Global};

/// Writes a count; one that has no 32 bits is refused as want of memory.
pub(crate) fn put_count(out: &mut Vec<u8>, count: usize) -> Result<(), AllocError>
    ensures bytes { OnOk result (out.new.items ≡ out.old.items ++ to_be_bytes w32 count) }
    ensures fits { OnOk result (nat_lt count (2 ^ 32) ≡ true) }
{
    match u32::try_from(count) {
        Ok(count) => out.extend_from_slice(&count.to_be_bytes()),
        Err(_) => Err(AllocError),
    }
}

pub(crate) fn put_u32(out: &mut Vec<u8>, number: u32) -> Result<(), AllocError>
    ensures bytes { OnOk result (out.new.items ≡ out.old.items ++ to_be_bytes w32 number) }
    ensures fits { OnOk result (number32.fits number ≡ true) }
{
    out.extend_from_slice(&number.to_be_bytes())
}

pub(crate) fn put_u64(out: &mut Vec<u8>, number: u64) -> Result<(), AllocError>
    ensures bytes { OnOk result (out.new.items ≡ out.old.items ++ to_be_bytes w64 number) }
    ensures fits { OnOk result (number64.fits number ≡ true) }
{
    out.extend_from_slice(&number.to_be_bytes())
}

pub(crate) fn put_bytes(out: &mut Vec<u8>, bytes: &[u8]) -> Result<(), AllocError>
    ensures bytes { OnOk result (out.new.items ≡ out.old.items ++ bytes_form.spell bytes.now) }
    ensures fits { OnOk result (bytes_form.fits bytes.now ≡ true) }
{
    put_count(out, bytes.len())?;
    out.extend_from_slice(bytes)
}

#[tactic(auto, using(crate::proofs::Texts::passes_utf8))]
pub(crate) fn put_text(out: &mut Vec<u8>, held: &str) -> Result<(), AllocError>
    ensures bytes { OnOk result (out.new.items ≡ out.old.items ++ text.spell held.now) }
    ensures fits { OnOk result (text.fits held.now ≡ true) }
{
    put_bytes(out, held.as_bytes())
}

fn put_term(out: &mut Vec<u8>, term: &Term) -> Result<(), AllocError>
    ensures bytes { OnOk result (out.new.items ≡ out.old.items ++ a_term.spell term.now) }
    ensures fits { OnOk result (a_term.fits term.now ≡ true) }
{
    match term {
        Term::Key(key) => {
            out.push(0)?;
            put_text(out, key.as_str())
        }
        Term::Index(index) => {
            if *index > MAX_INDEX {
                return Err(AllocError);
            }
            out.push(1)?;
            put_u32(out, *index)
        }
    }
}

fn put_terms(out: &mut Vec<u8>, path: &[Term]) -> Result<(), AllocError>
    ensures bytes { OnOk result (out.new.items ≡ out.old.items ++ terms.spell path.now) }
    ensures fits { OnOk result (terms.fits path.now ≡ true) }
{
    if path.len() > MAX_TERMS {
        return Err(AllocError);
    }
    put_count(out, path.len())?;
    for term in path {
        put_term(out, term)?;
    }
    Ok(())
}

/// Writes the name of a file that a run may ask for.
fn put_file_name(out: &mut Vec<u8>, name: &Text) -> Result<(), AllocError>
    ensures bytes { OnOk result (out.new.items ≡ out.old.items ++ file_text.spell name.now) }
    ensures fits { OnOk result (file_text.fits name.now ≡ true) }
{
    if !is_asked(name.as_str()) {
        return Err(AllocError);
    }
    put_text(out, name.as_str())
}

fn put_name(out: &mut Vec<u8>, name: &Name) -> Result<(), AllocError>
    ensures bytes { OnOk result (out.new.items ≡ out.old.items ++ name_text.spell name.now) }
    ensures fits { OnOk result (name_text.fits name.now ≡ true) }
{
    put_text(out, name.as_str())
}

fn put_key(out: &mut Vec<u8>, asked: &Key) -> Result<(), AllocError>
    ensures bytes { OnOk result (out.new.items ≡ out.old.items ++ key.spell asked.now) }
    ensures fits { OnOk result (key.fits asked.now ≡ true) }
{
    match asked {
        Key::File(name) => {
            out.push(0)?;
            put_file_name(out, name)
        }
        Key::Under { object, terms } => {
            out.push(1)?;
            put_name(out, object)?;
            put_terms(out, terms.as_slice())
        }
    }
}

fn put_item(out: &mut Vec<u8>, counter: u64, item: &Item) -> Result<(), AllocError>
    ensures bytes { OnOk result (out.new.items ≡ out.old.items ++ (item_in Third counter).spell item.now) }
    ensures fits { OnOk result ((item_in Third counter).fits item.now ≡ true) }
{
    if !is_item(counter, item) {
        return Err(AllocError);
    }
    put_key(out, &item.key)?;
    put_u64(out, item.number)
}

fn put_items(out: &mut Vec<u8>, counter: u64, items: &[Item]) -> Result<(), AllocError>
    ensures bytes { OnOk result (out.new.items
        ≡ out.old.items ++ (list (item_in Third counter)).spell items.now) }
    ensures fits { OnOk result ((list (item_in Third counter)).fits items.now ≡ true) }
{
    put_count(out, items.len())?;
    for item in items {
        put_item(out, counter, item)?;
    }
    Ok(())
}

fn put_trace(out: &mut Vec<u8>, counter: u64, trace: &Trace) -> Result<(), AllocError>
    ensures bytes { OnOk result (out.new.items
        ≡ out.old.items ++ (trace_in Third counter).spell trace.now) }
    ensures fits { OnOk result ((trace_in Third counter).fits trace.now ≡ true) }
{
    let items = trace.items();
    if items.len() > MAX_ITEMS {
        return Err(AllocError);
    }
    put_items(out, counter, items)
}

fn put_place(out: &mut Vec<u8>, at: &Place) -> Result<(), AllocError>
    ensures bytes { OnOk result (out.new.items ≡ out.old.items ++ place.spell at.now) }
    ensures fits { OnOk result (place.fits at.now ≡ true) }
{
    if at.line == 0 || at.column == 0 {
        return Err(AllocError);
    }
    put_file_name(out, &at.file)?;
    put_u32(out, at.line)?;
    put_u32(out, at.column)
}

/// Writes the detail of a fault.
#[tactic(auto, using(crate::proofs::Details::kept_whole))]
fn put_detail(out: &mut Vec<u8>, alloc: Global, detail: &Text) -> Result<(), AllocError>
    ensures bytes { OnOk result (out.new.items ≡ out.old.items ++ detail_text.spell detail.now) }
    ensures fits { OnOk result (detail_text.fits detail.now ≡ true) }
{
    let place = Place {
        file: Text::new(alloc, "")?,
        line: 1,
        column: 1,
    };
    let kept = Fault::new(alloc, Code::UserError, place, detail.as_str())?;
    if kept.detail.as_str().len() != detail.as_str().len() {
        return Err(AllocError);
    }
    put_text(out, detail.as_str())
}

fn put_fault(out: &mut Vec<u8>, alloc: Global, found: &Fault) -> Result<(), AllocError>
    ensures bytes { OnOk result (out.new.items ≡ out.old.items ++ fault.spell found.now) }
    ensures fits { OnOk result (fault.fits found.now ≡ true) }
{
    out.push(found.code.number())?;
    put_place(out, &found.place)?;
    put_detail(out, alloc, &found.detail)
}

fn put_built(out: &mut Vec<u8>, alloc: Global, end: &Result<Tree, Fault>) -> Result<(), AllocError>
    ensures bytes { OnOk result (out.new.items ≡ out.old.items ++ built.spell end.now) }
    ensures fits { OnOk result (built.fits end.now ≡ true) }
{
    match end {
        Ok(tree) => {
            out.push(0)?;
            put_whole_tree(out, tree)
        }
        Err(fault) => {
            out.push(1)?;
            put_fault(out, alloc, fault)
        }
    }
}

fn put_verdict(out: &mut Vec<u8>, alloc: Global, found: &Option<Fault>) -> Result<(), AllocError>
    ensures bytes { OnOk result (out.new.items ≡ out.old.items ++ verdict.spell found.now) }
    ensures fits { OnOk result (verdict.fits found.now ≡ true) }
{
    match found {
        None => {
            out.push(0)?;
            Ok(())
        }
        Some(fault) => {
            out.push(1)?;
            put_fault(out, alloc, fault)
        }
    }
}

fn put_content(out: &mut Vec<u8>, held: &Content) -> Result<(), AllocError>
    ensures bytes { OnOk result (out.new.items ≡ out.old.items ++ content.spell held.now) }
    ensures fits { OnOk result (content.fits held.now ≡ true) }
{
    match held {
        Content::TooLong => {
            out.push(0)?;
            Ok(())
        }
        Content::Bytes(bytes) => {
            if bytes.as_slice().len() > MAX_FILE_BYTES {
                return Err(AllocError);
            }
            out.push(1)?;
            put_bytes(out, bytes.as_slice())
        }
    }
}

/// Writes what is kept of a file.
pub(crate) fn put_file(out: &mut Vec<u8>, counter: u64, file: &KeptFile) -> Result<(), AllocError>
    ensures bytes { OnOk result (out.new.items
        ≡ out.old.items ++ (file_parts counter).spell (parts_of_file file.now)) }
    ensures fits { OnOk result ((file_parts counter).fits (parts_of_file file.now) ≡ true) }
{
    if !has_file_number(counter, file.number, &file.content) {
        return Err(AllocError);
    }
    put_u64(out, file.number)?;
    put_content(out, &file.content)
}

/// Writes what is kept of an object.
pub(crate) fn put_object(
    out: &mut Vec<u8>,
    alloc: Global,
    counter: u64,
    object: &KeptObject,
) -> Result<(), AllocError>
    ensures bytes { OnOk result (out.new.items
        ≡ out.old.items ++ (object_parts Third counter).spell (parts_of_object object.now)) }
    ensures fits { OnOk result ((object_parts Third counter).fits (parts_of_object object.now) ≡ true) }
{
    if !are_parts(counter, object) {
        return Err(AllocError);
    }
    put_u64(out, object.number)?;
    put_built(out, alloc, &object.built)?;
    put_trace(out, counter, &object.build_reads)?;
    put_verdict(out, alloc, &object.verdict)?;
    put_trace(out, counter, &object.check_reads)
}

fn put_dir(out: &mut Vec<u8>, dir: &Text) -> Result<(), AllocError>
    ensures bytes { OnOk result (out.new.items ≡ out.old.items ++ directory.spell dir.now) }
    ensures fits { OnOk result (directory.fits dir.now ≡ true) }
{
    if !is_directory(dir.as_str().as_bytes()) {
        return Err(AllocError);
    }
    put_text(out, dir.as_str())
}

fn put_dirs(out: &mut Vec<u8>, dirs: &[Text]) -> Result<(), AllocError>
    ensures bytes { OnOk result (out.new.items ≡ out.old.items ++ directories.spell dirs.now) }
    ensures fits { OnOk result (directories.fits dirs.now ≡ true) }
{
    if dirs.is_empty() || dirs.len() > MAX_PARTS {
        return Err(AllocError);
    }
    put_count(out, dirs.len())?;
    for dir in dirs {
        put_dir(out, dir)?;
    }
    Ok(())
}

fn is_counter(counter: u64) -> bool
    ensures { result ≡ is_counter counter }
{
    FIRST_NUMBER <= counter && counter <= END_OF_NUMBERS
}

fn is_limit(most: u64, number: u64) -> bool
    ensures { result ≡ is_limit most number }
{
    1 <= number && number <= most
}

fn are_limits(limits: &Limits) -> bool
    ensures { result ≡ (is_limit MAX_ITERATIONS limits.now.max_iteration
        && is_limit MAX_RECURSION limits.now.max_recursion) }
{
    is_limit(MAX_ITERATIONS, limits.max_iteration) && is_limit(MAX_RECURSION, limits.max_recursion)
}

/// Writes the header.
pub(crate) fn put_header(out: &mut Vec<u8>, kept: &Kept) -> Result<(), AllocError>
    ensures bytes { OnOk result (out.new.items
        ≡ out.old.items ++ header.spell (header_in Third (stored kept.now))) }
    ensures fits { OnOk result (header.fits (header_in Third (stored kept.now)) ≡ true) }
{
    if !is_counter(kept.counter) || !are_limits(&kept.limits) {
        return Err(AllocError);
    }
    out.push(Format::Third.number())?;
    put_u64(out, kept.counter)?;
    put_u64(out, kept.limits.max_iteration)?;
    put_u64(out, kept.limits.max_recursion)?;
    put_dirs(out, &kept.dirs)
}
