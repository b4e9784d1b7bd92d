use crate::notes::Told;
use base::Text;
use call_status::Status;
use command_words::{Command, read_command};
use end_notes::{Wrong, bad_rows_note, removals_note, trouble_note, usage_note, wrong_of};
use outside::Trouble;
use std::alloc::AllocError;

fn trouble_notes(rt: &HostRuntime, trouble: Option<&Trouble>) -> Result<Vec<u8>, AllocError> {
    let Some(trouble) = trouble else {
        return Ok(Vec::new(rt.alloc()));
    };
    trouble_note(rt.alloc(), trouble.path.as_str(), trouble.reason.as_str())
}

/// The note on a build that was to take away so many files, more than it may.
fn removals_notes(
    rt: &HostRuntime,
    words: &[Text],
    removals: usize,
) -> Result<Vec<u8>, AllocError> {
    match read_command(rt.alloc(), words)? {
        Some(Command::Build(work)) => removals_note(
            rt.alloc(),
            work.out.as_str(),
            removals as u64,
            work.most_removed.unwrap_or(0),
        ),
        _ => Ok(Vec::new(rt.alloc())),
    }
}

/// The note on a file whose rows no build has kept.
fn state_note(rt: &HostRuntime, state: &Option<Text>) -> Result<Vec<u8>, AllocError> {
    let Some(file) = state else {
        return Ok(Vec::new(rt.alloc()));
    };
    bad_rows_note(rt.alloc(), file.as_str())
}

/// The note on the file of the rows that the words name, where no build has kept them.
fn bad_rows_notes(rt: &HostRuntime, words: &[Text]) -> Result<Vec<u8>, AllocError> {
    match read_command(rt.alloc(), words)? {
        Some(Command::Build(work)) => state_note(rt, &work.state),
        Some(Command::Watch(work)) => state_note(rt, &work.state),
        _ => Ok(Vec::new(rt.alloc())),
    }
}

/// What is wrong with words that are no command.
fn wrong_in(rt: &HostRuntime, words: Option<&Vec<Text>>) -> Result<Wrong, AllocError> {
    match words {
        Some(words) => wrong_of(rt.alloc(), words),
        None => Ok(Wrong::NotUtf8),
    }
}

/// The notes on a call that ended but for faults of a build.
pub(crate) fn end_notes(
    rt: &HostRuntime,
    status: Status,
    told: &Told<'_>,
    keeper: Option<&Trouble>,
) -> Result<Vec<u8>, AllocError> {
    match (status, told.words) {
        (Status::Usage, words) => usage_note(rt.alloc(), &wrong_in(rt, words)?),
        (Status::SourceFault, _) => trouble_notes(rt, told.source),
        (Status::ShelfFault, _) => trouble_notes(rt, told.shelf),
        (Status::KeeperFault, _) => trouble_notes(rt, keeper),
        (Status::BadRows, Some(words)) => bad_rows_notes(rt, words),
        (Status::TooManyRemovals(removals), Some(words)) => removals_notes(rt, words, removals),
        _ => Ok(Vec::new(rt.alloc())),
    }
}
