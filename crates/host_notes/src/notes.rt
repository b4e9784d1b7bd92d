use crate::causes::CauseSource;
use crate::ends::end_notes;
use crate::faults::report_notes;
use crate::forms::form_in;
use base::{Bytes, Text};
use call_status::Status;
use outside::Trouble;
use std::alloc::AllocError;
use std::io::Write;

/// What the words and the devices tell of a call that ended.
#[derive(Drop)]
pub struct Told<'a> {
    /// The program's words; none where one of them is not UTF-8.
    pub words: Option<&'a Vec<Text>>,
    /// Why the source failed last.
    pub source: Option<&'a Trouble>,
    /// Why the shelf failed last.
    pub shelf: Option<&'a Trouble>,
    /// The lines of the report that tell a fault.
    pub faults: &'a [Bytes],
}

fn notes_on<C: CauseSource>(
    rt: &HostRuntime,
    status: Status,
    told: &Told<'_>,
    keeper: Option<&Trouble>,
    causes: &mut C,
) -> Result<Vec<u8>, AllocError> {
    let Some(form) = form_in(rt) else {
        return Ok(Vec::new(rt.alloc()));
    };
    match (status, told.words) {
        (Status::SomeFaults, Some(words)) => report_notes(rt, form, words, told.faults, causes),
        _ => end_notes(rt, status, told, keeper),
    }
}

/// Writes to standard error what a reader wants to know of a call that ended: of a build the meaning and the place of
/// each fault, and of the value that it is about what it is, what is wanted and who set it, of a failed device, or of the
/// keeper of rows, the path and the reason, of wrong words the word and the usage, of one that was to take away too many
/// files how many, of a file with rows that no build has kept what to do. Nothing where the variable PAN_NOTES is `off`,
/// and where memory is wanting; the status stays as it is. With `gcc` or `json` in that variable the faults are told for
/// other programs, all of them. `causes` is asked what is known of each fault that is told.
pub fn write_notes<C: CauseSource>(
    rt: &HostRuntime,
    status: Status,
    told: &Told<'_>,
    keeper: Option<&Trouble>,
    causes: &mut C,
) {
    if let Ok(notes) = notes_on(rt, status, told, keeper, causes) {
        let _ = rt.stderr().write_all(&notes);
    }
}
