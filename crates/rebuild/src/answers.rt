//! What the engine answers.

ghost use Rattle.std.specs.Prelude.{◌≡◌, ◌≤◌, ◌*◌, ◌++◌, [], IfOk, length, map, true};
ghost use Rattle.rebuild.specs.Answers.{seen_answer, answer_of_row, answer_found, seen_why, why_found, seen_reads, reads_of_row, reads_found, run_names, touched_names, open_parts};
ghost use Rattle.base.specs.declared.limits.TheConstants.{MAX_OBJECTS};
ghost use Rattle.object_names.specs.Objects.{are_rising};
ghost use Rattle.engine_turns.specs.Changes.{forgotten_row};
ghost use Rattle.engine_turns.specs.Places.{row_in, names};
ghost use Rattle.engine_turns.specs.Ready.{IsReady};
ghost use Rattle.rebuild.specs.Engines.{turns_left_of};

use engine_turns::{Cause, Core, Row, row_in};
use pan_ast::Fault;
use path_tree::{Name, Tree};
use read_sets::{Key, Trace};
use std::alloc::{AllocError, Global};

/// The answer for a name: its profile's tree, its fault, that it is not settled, or that it is no object.
#[derive(Clone, Copy)]
pub enum Answer<'a> {
    Profile(&'a Tree),
    Fault(&'a Fault),
    Pending,
    NoObject,
}

/// Why a name was run last.
#[derive(Clone, Copy)]
pub enum Why<'a> {
    NotRun,
    NoRecord,
    Changed(&'a Key),
    NoObject,
}

/// What an object asked for in its build and in its check.
#[derive(Clone, Copy)]
pub struct Reads<'a> {
    pub build: &'a Trace,
    pub check: &'a Trace,
}

/// The answer of a row.
fn answer_of_row<T>(row: &Row<T>) -> Answer<'_>
    ensures { seen_answer result ≡ answer_of_row row.now }
{
    if row.open_build || row.open_check {
        return Answer::Pending;
    }
    match &row.last {
        None => Answer::Pending,
        Some(last) => match &last.result {
            Err(fault) => Answer::Fault(fault),
            Ok(tree) => match &row.check {
                None => Answer::Pending,
                Some(check) => match &check.verdict {
                    Some(fault) => Answer::Fault(fault),
                    None => Answer::Profile(tree),
                },
            },
        },
    }
}

/// The answer for a name.
pub(crate) fn answer_in<'a, T>(rows: &'a [Row<T>], name: &str) -> Answer<'a>
    requires { are_rising (names rows.now) ≡ true }
    ensures { seen_answer result ≡ answer_found (row_in name.now rows.now) }
{
    match row_in(rows, name) {
        None => Answer::NoObject,
        Some(row) => answer_of_row(row),
    }
}

/// Why a name was run last.
pub(crate) fn why_in<'a, T>(rows: &'a [Row<T>], name: &str) -> Why<'a>
    requires { are_rising (names rows.now) ≡ true }
    ensures { seen_why result ≡ why_found (row_in name.now rows.now) }
{
    match row_in(rows, name) {
        None => Why::NoObject,
        Some(row) => match &row.cause {
            Cause::NotRun => Why::NotRun,
            Cause::NoRecord => Why::NoRecord,
            Cause::Changed(key) => Why::Changed(key),
        },
    }
}

/// What the object of a row asked for.
fn reads_of_row<T>(row: &Row<T>) -> Option<Reads<'_>>
    ensures { seen_reads result ≡ reads_of_row row.now }
{
    if row.open_build || row.open_check {
        return None;
    }
    match (&row.build, &row.check) {
        (Some(build), Some(check)) => Some(Reads {
            build,
            check: &check.reads,
        }),
        _ => None,
    }
}

/// What an object asked for.
pub(crate) fn reads_in<'a, T>(rows: &'a [Row<T>], name: &str) -> Option<Reads<'a>>
    requires { are_rising (names rows.now) ≡ true }
    ensures { seen_reads result ≡ reads_found (row_in name.now rows.now) }
{
    match row_in(rows, name) {
        None => None,
        Some(row) => reads_of_row(row),
    }
}

/// The names of all rows.
pub(crate) fn names_in<T>(alloc: Global, rows: &[Row<T>]) -> Result<Vec<Name>, AllocError>
    ensures { IfOk result (λ made. made.items ≡ names rows.now) }
{
    let mut made = Vec::with_capacity(alloc, rows.len())?;
    for row in rows {
        made.push(row.name.share()?)?;
    }
    Ok(made)
}

/// The names of the rows that were run.
pub(crate) fn runs_in<T>(alloc: Global, rows: &[Row<T>]) -> Result<Vec<Name>, AllocError>
    ensures { IfOk result (λ made. made.items ≡ run_names rows.now) }
{
    let mut made = Vec::new(alloc);
    for row in rows {
        if row.run {
            made.push(row.name.share()?)?;
        }
    }
    Ok(made)
}

/// The names of the rows that the last take may have reached.
pub(crate) fn touched_in<T>(alloc: Global, rows: &[Row<T>]) -> Result<Vec<Name>, AllocError>
    ensures { IfOk result (λ made. made.items ≡ touched_names rows.now) }
{
    let mut made = Vec::new(alloc);
    for row in rows {
        if row.touched {
            made.push(row.name.share()?)?;
        }
    }
    Ok(made)
}

/// How many parts are unsettled.
pub(crate) fn open_parts<T>(rows: &[Row<T>]) -> u64
    requires { length rows.now ≤ MAX_OBJECTS }
    ensures parts { result ≡ open_parts rows.now }
    ensures few { result ≤ 2 * length rows.now }
{
    let mut open = 0;
    for row in rows {
        if row.open_build {
            open += 1;
        }
        if row.open_check {
            open += 1;
        }
    }
    open
}

/// How many turns are left until all is settled: twice the unsettled parts, less those on the chain.
pub(crate) fn turns_left<T>(core: &Core<T>) -> u64
    requires ready { IsReady core.now }
    requires few { length core.now.rows.items ≤ MAX_OBJECTS }
    ensures { result ≡ turns_left_of core.now }
{
    let open = open_parts(&core.rows);
    (2 * open).saturating_sub(core.chain.len() as u64)
}

/// No name was run.
pub(crate) fn forget_rows<T>(rows: &mut Vec<Row<T>>)
    ensures { rows.new.items ≡ map forgotten_row rows.old.items }
{
    for row in rows.iter_mut() {
        row.run = false;
    }
}
