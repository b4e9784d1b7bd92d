//! A template: its lines one after the other.

ghost use Rattle.std.specs.Prelude.{◌≡◌, IfOk, OnOk, drop, option_copied};
ghost use Rattle.path_tree.specs.Plain.{undef};
ghost use Rattle.questions.specs.Told.{answers_of, whole};
ghost use Rattle.runner.specs.Words.{words, file_content};
ghost use Rattle.written_runner.specs.Written.{action_of, actions, all_acted, first_asked, file_run, object_run};
ghost use Rattle.written_runner.specs.Meaning.{outcome_of};
ghost use Rattle.written_runner.specs.Traces.{AreNumbered, meter_of};

use crate::acting::{act, fault_at, fault_with};
use crate::action::{Action, build_action, check_action, file_text};
use crate::questioning::ask_file;
use crate::used::{Came, Used, step};
use asking::limits::MAX_WORK;
use base::Text;
use load_path::{Content, Picture, candidates};
use pan_ast::{Code, Place};
use path_tree::{Name, Tree};
use read_sets::Trace;
use runner::Known;
use std::alloc::{AllocError, Global};

/// The part of an object whose lines are done.
#[derive(Clone, Copy)]
pub(crate) enum Side {
    Build,
    Check,
}

/// Whose lines are done: the object, where its file begins, and which part of it they are.
#[derive(Drop)]
struct Part<'a> {
    own: &'a Name,
    place: Place,
    side: Side,
}

/// How many bytes stand in front of the lines: the word `object`.
const HEAD: usize = 6;

/// What a line does.
fn action_of(side: Side, operation: u8, letter: u8) -> Action
    ensures { result ≡ action_of side operation letter }
{
    match side {
        Side::Build => build_action(operation, letter),
        Side::Check => check_action(operation, letter),
    }
}

/// The lines of a text, from a byte on.
fn act_all<K: Known>(
    alloc: Global,
    picture: &Picture,
    known: &K,
    part: &Part<'_>,
    bytes: &[u8],
    used: &mut Used,
) -> Result<Came, AllocError>
    ensures outcome { IfOk result (λ came. outcome_of came used.new.value
        (meter_of used.new.left used.new.trace)
        ≡ all_acted part.now.place part.now.own.now
        (actions (action_of part.now.side) (drop HEAD bytes.now))
        (answers_of (words picture.now (K.numbers known.now) (K.objects known.now)))
        used.old.value (meter_of used.old.left used.old.trace)) }
    ensures numbered { OnOk result
        (AreNumbered (words picture.now (K.numbers known.now) (K.objects known.now))
        used.old.trace → AreNumbered (words picture.now (K.numbers known.now)
        (K.objects known.now)) used.new.trace) }
{
    let mut at = HEAD;
    'lines: while bytes.len().saturating_sub(at) > 2 {
        let action = action_of(part.side, bytes[at + 1], bytes[at + 2]);
        match act(alloc, picture, known, &part.place, part.own, action, used)? {
            Came::Done => {}
            came => return Ok(came),
        }
        at += 3;
    }
    Ok(Came::Done)
}

/// What an object's file gives.
fn act_on<K: Known>(
    alloc: Global,
    picture: &Picture,
    known: &K,
    part: &Part<'_>,
    content: Option<&Content>,
    used: &mut Used,
) -> Result<Came, AllocError>
    ensures outcome { IfOk result (λ came. outcome_of came used.new.value
        (meter_of used.new.left used.new.trace)
        ≡ file_run part.now.place part.now.own.now (action_of part.now.side)
        (file_content (option_copied content.entry))
        (answers_of (words picture.now (K.numbers known.now) (K.objects known.now)))
        used.old.value (meter_of used.old.left used.old.trace)) }
    ensures numbered { OnOk result
        (AreNumbered (words picture.now (K.numbers known.now) (K.objects known.now))
        used.old.trace → AreNumbered (words picture.now (K.numbers known.now)
        (K.objects known.now)) used.new.trace) }
{
    match content {
        None => Ok(Came::Failed(fault_with(
            alloc,
            &part.place,
            Code::NoTemplate,
            part.own.as_str(),
        )?)),
        Some(Content::TooLong) => Ok(Came::Failed(fault_with(
            alloc,
            &part.place,
            Code::FileTooLong,
            part.own.as_str(),
        )?)),
        Some(Content::Bytes(bytes)) => {
            let bytes = bytes.as_slice();
            act_all(alloc, picture, known, part, bytes, used)
        }
    }
}

/// The files are asked for up to the first that is there, and its lines are done.
fn begin<K: Known>(
    alloc: Global,
    picture: &Picture,
    known: &K,
    part: &Part<'_>,
    files: &[Text],
    used: &mut Used,
) -> Result<Came, AllocError>
    ensures outcome { IfOk result (λ came. outcome_of came used.new.value
        (meter_of used.new.left used.new.trace)
        ≡ first_asked part.now.place files.now
        (file_run part.now.place part.now.own.now (action_of part.now.side))
        (answers_of (words picture.now (K.numbers known.now) (K.objects known.now)))
        used.old.value (meter_of used.old.left used.old.trace)) }
    ensures numbered { OnOk result
        (AreNumbered (words picture.now (K.numbers known.now) (K.objects known.now))
        used.old.trace → AreNumbered (words picture.now (K.numbers known.now)
        (K.objects known.now)) used.new.trace) }
{
    for file in files {
        if !step(&mut used.left) {
            return Ok(Came::Failed(fault_at(alloc, &part.place, Code::WorkSpent)?));
        }
        let content = ask_file(picture, known, file.share()?, &mut used.trace)?;
        if content.is_some() {
            return act_on(alloc, picture, known, part, content, used);
        }
    }
    act_on(alloc, picture, known, part, None, used)
}

/// How a run came out, and what it used.
#[derive(Drop)]
pub(crate) struct Ran {
    pub came: Came,
    pub used: Used,
}

/// A run of the build or of the check of an object, whose file is looked for in the directories.
pub(crate) fn run_object<K: Known>(
    alloc: Global,
    picture: &Picture,
    dirs: &[Text],
    known: &K,
    own: &Name,
    side: Side,
) -> Result<Ran, AllocError>
    ensures outcome { IfOk result (λ ran. outcome_of ran.came ran.used.value
        (meter_of ran.used.left ran.used.trace) ≡ object_run dirs.now own.now (action_of side)
        (answers_of (words picture.now (K.numbers known.now) (K.objects known.now)))
        undef whole) }
    ensures numbered { IfOk result (λ ran. AreNumbered (words picture.now (K.numbers known.now)
        (K.objects known.now)) ran.used.trace) }
{
    let place = Place {
        file: file_text(alloc, own.as_str())?,
        line: 1,
        column: 1,
    };
    let part = Part { own, place, side };
    let files = candidates(alloc, own.as_str(), ".pan", &[], dirs)?;
    let mut used = Used {
        value: Tree::undef(),
        left: MAX_WORK,
        trace: Trace::new(alloc),
    };
    let files = files.as_slice();
    let came = begin(alloc, picture, known, &part, files, &mut used)?;
    Ok(Ran { came, used })
}
