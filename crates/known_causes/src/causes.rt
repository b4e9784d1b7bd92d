use crate::files::file_cause;
use crate::tokens::{name_cause, syntax_cause};
use crate::trails::trace_of;
use crate::values::value_cause;
use base::Steps;
use dml_runner::DmlRunner;
use engine_session::Works;
use fault_notes::{Cause, has_cause, misses_file};
use object_run::Library;
use pan_ast::Code;
use std::alloc::{AllocError, Global};
use std::sync::ledger::Ledger;

/// Whether a fault has a code.
fn is_of(code: Code, fault: &[u8]) -> bool {
    fault.starts_with(code.text().as_bytes())
}

/// What is known of what a fault of an object is about, by its code.
fn cause_by_code<D: DmlRunner, L: Ledger>(
    alloc: Global,
    works: &mut Works<Library<D>>,
    object: &str,
    fault: &[u8],
    steps: &mut Steps<L>,
) -> Result<Cause, AllocError> {
    if has_cause(fault) {
        return value_cause(alloc, works, object, fault, steps);
    }
    if misses_file(fault) {
        return file_cause(alloc, works, object, fault);
    }
    if is_of(Code::BadSyntax, fault) {
        return syntax_cause(alloc, works, fault);
    }
    if is_of(Code::WrongTemplate, fault) {
        return name_cause(alloc, works, fault);
    }
    Ok(Cause::unknown(alloc))
}

/// What is known beside its line of a fault of an object.
fn looked_up<D: DmlRunner, L: Ledger>(
    alloc: Global,
    works: &mut Works<Library<D>>,
    object: &[u8],
    fault: &[u8],
    steps: &mut Steps<L>,
) -> Result<Cause, AllocError> {
    let Ok(object) = str::from_utf8(object) else {
        return Ok(Cause::unknown(alloc));
    };
    let mut cause = cause_by_code(alloc, works, object, fault, steps)?;
    if let Ok(trace) = trace_of(alloc, works, object, fault, steps) {
        cause.trace = trace;
    }
    Ok(cause)
}

/// What is known beside its line of a fault of an object, where memory is ample.
pub fn cause_in<D: DmlRunner, L: Ledger>(
    alloc: Global,
    works: &mut Works<Library<D>>,
    object: &[u8],
    fault: &[u8],
    steps: &mut Steps<L>,
) -> Cause {
    match looked_up(alloc, works, object, fault, steps) {
        Ok(cause) => cause,
        Err(AllocError) => Cause::unknown(alloc),
    }
}
