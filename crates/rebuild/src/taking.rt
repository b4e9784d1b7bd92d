//! The numbers of files at a Take.

ghost use Rattle.std.specs.Prelude.{◌≡◌, ◌≤◌, ◌+◌, IfOk, IfErr, OnOk, OnErr, length, true};
ghost use Rattle.asking.specs.declared.limits.TheConstants.{END_OF_NUMBERS};
ghost use Rattle.object_names.specs.Objects.{are_rising};
ghost use Rattle.engine_turns.specs.Places.{file_names};
ghost use Rattle.rebuild.specs.Taking.{old_or_none, number_or, counter_or, with_number, numbered, counter_after};
ghost use Rattle.rebuild.specs.Refused.{IsSpent};
ghost use Rattle.rebuild.specs.declared.taking.TakeError.TheVariants.{Memory};

use crate::sharing::{Share, same_content};
use asking::limits::END_OF_NUMBERS;
use base::Steps;
use engine_turns::{FileRow, file_in};
use load_path::{Content, PictureFile};
use std::alloc::{AllocError, AllocFailed, Global};
use std::sync::ledger::Ledger;

/// Why a picture was not taken.
#[derive(Clone, Copy, PartialEq, Eq)]
pub enum TakeError {
    TooManyObjects,
    NumbersSpent,
    Memory,
}

impl From<AllocError> for TakeError {
    ghost from_gives = { λ _ e. e ≡ Memory };

    fn from(_e: AllocError) -> TakeError {
        TakeError::Memory
    }
}

impl<T: Drop> From<AllocFailed<T>> for TakeError {
    ghost from_gives = { λ _ e. e ≡ Memory };

    fn from(_e: AllocFailed<T>) -> TakeError {
        TakeError::Memory
    }
}

/// 1 where a file is too long, its number before where its bytes are the same, and else none.
fn old_or_none(old: &[FileRow], file: &PictureFile) -> Option<u64>
    requires { are_rising (file_names old.now) ≡ true }
    ensures { result ≡ old_or_none old.now file.now.name file.now.content }
{
    if let Content::TooLong = &file.content {
        return Some(1);
    }
    match file_in(old, file.name.as_str()) {
        None => None,
        Some(before) => {
            if same_content(&before.content, &file.content) {
                Some(before.number)
            } else {
                None
            }
        }
    }
}

/// The number before, or one that is drawn.
fn give(counter: &mut u64, before: Option<u64>) -> Result<u64, TakeError>
    ensures number { IfOk result (λ n. n ≡ number_or counter.old before) }
    ensures counter { OnOk result (counter.new ≡ counter_or counter.old before) }
    ensures low { OnOk result (counter.old ≤ END_OF_NUMBERS → counter.new ≤ END_OF_NUMBERS) }
    ensures refused { IfErr result (λ e. IsSpent e (counter_or counter.old before)) }
{
    match before {
        Some(number) => Ok(number),
        None => {
            let number = *counter;
            if number >= END_OF_NUMBERS {
                return Err(TakeError::NumbersSpent);
            }
            *counter += 1;
            Ok(number)
        }
    }
}

/// A file with the number that it had before, or with one that is drawn.
fn number_file(old: &[FileRow], file: &PictureFile, counter: &mut u64) -> Result<FileRow, TakeError>
    requires { are_rising (file_names old.now) ≡ true }
    ensures file { IfOk result (λ row. row ≡ with_number file.now
        (number_or counter.old (old_or_none old.now file.now.name file.now.content))) }
    ensures counter { OnOk result (counter.new ≡ counter_or counter.old
        (old_or_none old.now file.now.name file.now.content)) }
    ensures low { OnOk result (counter.old ≤ END_OF_NUMBERS → counter.new ≤ END_OF_NUMBERS) }
    ensures refused { IfErr result (λ e. IsSpent e
        (counter_or counter.old (old_or_none old.now file.now.name file.now.content))) }
{
    let name = file.name.share()?;
    let content = file.content.shared()?;
    let number = give(counter, old_or_none(old, file))?;
    Ok(FileRow {
        name,
        number,
        content,
    })
}

/// The files of a picture with their numbers, a step for each. The counter is drawn from in their order.
pub(crate) fn number_files<L: Ledger>(
    alloc: Global,
    old: &[FileRow],
    files: &[PictureFile],
    counter: &mut u64,
    steps: &mut Steps<L>,
) -> Result<Vec<FileRow>, TakeError>
    requires { are_rising (file_names old.now) ≡ true }
    ensures files { IfOk result (λ made. made.items ≡ numbered old.now counter.old files.now) }
    ensures counter { OnOk result (counter.new ≡ counter_after old.now counter.old files.now) }
    ensures low { OnOk result (counter.old ≤ END_OF_NUMBERS → counter.new ≤ END_OF_NUMBERS) }
    ensures steps { OnOk result (steps.new ≡ steps.old + length files.now) }
    ensures refused { IfErr result (λ e. IsSpent e (counter_after old.now counter.old files.now)) }
    ensures refused_steps { OnErr result (steps.new ≤ steps.old + length files.now) }
{
    let mut made = Vec::new(alloc);
    for file in files {
        steps.tick();
        made.push(number_file(old, file, counter)?)?;
    }
    Ok(made)
}
