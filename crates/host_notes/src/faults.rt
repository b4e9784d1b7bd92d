use crate::causes::CauseSource;
use crate::files::{setter_source, source_in};
use crate::forms::{Form, colours};
use base::{Bytes, Text};
use command_words::{Command, read_command};
use fault_notes::{
    Cause, Colours, Explained, Repeated, compiler_lines, fault_in, file_in, json_lines, note_of,
    object_in, report_of, rest_of,
};
use std::alloc::AllocError;

fn as_bytes(source: &Option<Vec<u8>>) -> Option<&[u8]> {
    match source {
        Some(bytes) => Some(bytes),
        None => None,
    }
}

/// The note on a fault of files below a folder. The lines of a file that cannot be read are left out.
fn fault_note(
    rt: &HostRuntime,
    folder: &str,
    colours: Colours,
    told: &Repeated,
    cause: &Cause,
) -> Result<Vec<u8>, AllocError> {
    let source = source_in(rt, folder, file_in(told.fault.as_slice()));
    let set_in = setter_source(rt, folder, cause);
    note_of(
        rt.alloc(),
        colours,
        told,
        as_bytes(&source),
        cause,
        as_bytes(&set_in),
    )
}

/// What is known of the value that a fault is about, in the first object that has it.
fn repeated_cause<C: CauseSource>(rt: &HostRuntime, told: &Repeated, causes: &mut C) -> Cause {
    match told.objects.as_slice() {
        [object, ..] => causes.cause_in(object.as_slice(), told.fault.as_slice()),
        [] => Cause::unknown(rt.alloc()),
    }
}

/// For a reader, the faults of a build of this folder.
fn reader_notes<C: CauseSource>(
    rt: &HostRuntime,
    folder: &str,
    lines: &[Bytes],
    causes: &mut C,
) -> Result<Vec<u8>, AllocError> {
    let colours = colours(rt)?;
    let report = report_of(rt.alloc(), lines)?;
    let mut notes = Vec::new(rt.alloc());
    for told in report.faults.as_slice() {
        let cause = repeated_cause(rt, told, causes);
        notes.extend_from_slice(&fault_note(rt, folder, colours, told, &cause)?)?;
    }
    notes.extend_from_slice(&rest_of(rt.alloc(), report.left)?)?;
    Ok(notes)
}

/// The lines of a report that tell a fault, each with what is known beside it.
fn explained<C: CauseSource>(
    rt: &HostRuntime,
    lines: &[Bytes],
    causes: &mut C,
) -> Result<Vec<Explained>, AllocError> {
    let mut faults = Vec::new(rt.alloc());
    for line in lines {
        let text = line.as_slice();
        let cause = causes.cause_in(object_in(text), fault_in(text));
        faults.push(Explained {
            line: line.share()?,
            cause,
        })?;
    }
    Ok(faults)
}

/// The notes on the faults of a build of this folder.
fn fault_notes<C: CauseSource>(
    rt: &HostRuntime,
    form: Form,
    folder: &str,
    lines: &[Bytes],
    causes: &mut C,
) -> Result<Vec<u8>, AllocError> {
    match form {
        Form::Notes => reader_notes(rt, folder, lines, causes),
        Form::CompilerLines => compiler_lines(rt.alloc(), &explained(rt, lines, causes)?),
        Form::Json => json_lines(rt.alloc(), &explained(rt, lines, causes)?),
    }
}

/// The folder whose build, or layout, has faults; none where the words are another command.
fn folder_in(rt: &HostRuntime, words: &[Text]) -> Result<Option<Text>, AllocError> {
    match read_command(rt.alloc(), words)? {
        Some(Command::Build(work)) => Ok(Some(work.source.share()?)),
        Some(Command::Format(pair)) => Ok(Some(pair.source.share()?)),
        _ => Ok(None),
    }
}

/// The notes on the faults of a build, or of a layout; nothing where the words are another command.
pub(crate) fn report_notes<C: CauseSource>(
    rt: &HostRuntime,
    form: Form,
    words: &[Text],
    faults: &[Bytes],
    causes: &mut C,
) -> Result<Vec<u8>, AllocError> {
    match folder_in(rt, words)? {
        Some(folder) => fault_notes(rt, form, folder.as_str(), faults, causes),
        None => Ok(Vec::new(rt.alloc())),
    }
}
