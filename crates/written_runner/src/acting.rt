//! What a line does.

ghost use Rattle.std.specs.Prelude.{◌≡◌, Some, IfOk, OnOk, option_copied};
ghost use Rattle.path_tree.specs.Plain.{Plain, text, boolean};
ghost use Rattle.questions.specs.Contents.{Answers};
ghost use Rattle.questions.specs.Run.{Meter, become};
ghost use Rattle.pan_ast.specs.Detail.{fault_at, fault_with};
ghost use Rattle.questions.specs.Told.{answers_of};
ghost use Rattle.runner.specs.Words.{words, object_content};
ghost use Rattle.written_runner.specs.Written.{letter_text, file_text, read_in, tested_in, is_there, file_asked, other_object, object_asked, acted};
ghost use Rattle.written_runner.specs.Meaning.{outcome_of};
ghost use Rattle.written_runner.specs.Traces.{AreNumbered, meter_of};

use crate::action::{Action, file_text, letter_text};
use crate::questioning::{ask_file, ask_object};
use crate::used::{Came, Used, step};
use load_path::Picture;
use pan_ast::{Code, Fault, Place};
use path_tree::{Name, NameError, Tree};
use runner::{Known, Told};
use std::alloc::{AllocError, Global};

/// A fault at a place, with a detail.
pub(crate) fn fault_with(
    alloc: Global,
    place: &Place,
    code: Code,
    detail: &str,
) -> Result<Fault, AllocError>
    ensures { IfOk result (λ f. f ≡ fault_with code place.now detail.now) }
{
    Fault::new(alloc, code, place.share()?, detail)
}

/// A fault at a place.
pub(crate) fn fault_at(alloc: Global, place: &Place, code: Code) -> Result<Fault, AllocError>
    ensures { IfOk result (λ f. f ≡ fault_at code place.now) }
{
    Fault::at(alloc, code, place.share()?)
}

/// What a line that reads an object gives.
fn read_told(
    alloc: Global,
    place: &Place,
    object: &str,
    told: Told<'_>,
    value: &mut Tree,
) -> Result<Came, AllocError>
    ensures { IfOk result (λ came. (o : Answers) (m : Meter) → outcome_of came value.new m
        ≡ read_in place.now object.now
        (object_content told.entry.number (option_copied told.entry.value)) o value.old m) }
{
    match told.number {
        0 => Ok(Came::Failed(fault_with(alloc, place, Code::NoObject, object)?)),
        1 => Ok(Came::Failed(fault_with(alloc, place, Code::ForeignFailed, object)?)),
        2 => Ok(Came::Failed(fault_with(alloc, place, Code::Circular, object)?)),
        _ => match told.value {
            None => Ok(Came::Failed(fault_at(alloc, place, Code::NoPath)?)),
            Some(tree) => {
                *value = tree.copy()?;
                Ok(Came::Done)
            }
        },
    }
}

/// What a line that tests for an object gives.
fn tested_told(
    alloc: Global,
    place: &Place,
    object: &str,
    told: Told<'_>,
    value: &mut Tree,
) -> Result<Came, AllocError>
    ensures { IfOk result (λ came. (o : Answers) (m : Meter) → outcome_of came value.new m
        ≡ tested_in place.now object.now
        (object_content told.entry.number (option_copied told.entry.value)) o value.old m) }
{
    match told.number {
        0 => {
            *value = Tree::boolean(false);
            Ok(Came::Done)
        }
        1 => Ok(Came::Failed(fault_with(alloc, place, Code::ForeignFailed, object)?)),
        2 => Ok(Came::Failed(fault_with(alloc, place, Code::Circular, object)?)),
        _ => {
            *value = Tree::boolean(told.value.is_some());
            Ok(Came::Done)
        }
    }
}

/// A line that looks for a file.
fn look_for<K: Known>(
    alloc: Global,
    picture: &Picture,
    known: &K,
    place: &Place,
    letter: u8,
    used: &mut Used,
) -> Result<Came, AllocError>
    ensures outcome { IfOk result (λ came. outcome_of came used.new.value
        (meter_of used.new.left used.new.trace)
        ≡ file_asked place.now (file_text (letter_text letter))
        (λ c. become (boolean (is_there c)))
        (answers_of (words picture.now (K.numbers known.now) (K.objects known.now)))
        used.old.value (meter_of used.old.left used.old.trace)) }
    ensures numbered { OnOk result
        (AreNumbered (words picture.now (K.numbers known.now) (K.objects known.now))
        used.old.trace → AreNumbered (words picture.now (K.numbers known.now) (K.objects known.now))
        used.new.trace) }
{
    let object = letter_text(alloc, letter)?;
    let name = file_text(alloc, object.as_str())?;
    if !step(&mut used.left) {
        return Ok(Came::Failed(fault_at(alloc, place, Code::WorkSpent)?));
    }
    let found = ask_file(picture, known, name, &mut used.trace)?;
    used.value = Tree::boolean(found.is_some());
    Ok(Came::Done)
}

/// A line that reads an object.
fn read_object<K: Known>(
    alloc: Global,
    picture: &Picture,
    known: &K,
    place: &Place,
    object: Name,
    used: &mut Used,
) -> Result<Came, AllocError>
    ensures outcome { IfOk result (λ came. outcome_of came used.new.value
        (meter_of used.new.left used.new.trace)
        ≡ object_asked place.now (read_in place.now) (Some object)
        (answers_of (words picture.now (K.numbers known.now) (K.objects known.now)))
        used.old.value (meter_of used.old.left used.old.trace)) }
    ensures numbered { OnOk result
        (AreNumbered (words picture.now (K.numbers known.now) (K.objects known.now))
        used.old.trace → AreNumbered (words picture.now (K.numbers known.now) (K.objects known.now))
        used.new.trace) }
{
    let name = object.share()?;
    if !step(&mut used.left) {
        return Ok(Came::Failed(fault_at(alloc, place, Code::WorkSpent)?));
    }
    let Some(told) = ask_object(alloc, known, object, &mut used.trace)? else {
        return Ok(Came::Waits(name));
    };
    read_told(alloc, place, name.as_str(), told, &mut used.value)
}

/// A line that tests for an object.
fn test_object<K: Known>(
    alloc: Global,
    picture: &Picture,
    known: &K,
    place: &Place,
    object: Name,
    used: &mut Used,
) -> Result<Came, AllocError>
    ensures outcome { IfOk result (λ came. outcome_of came used.new.value
        (meter_of used.new.left used.new.trace)
        ≡ object_asked place.now (tested_in place.now) (Some object)
        (answers_of (words picture.now (K.numbers known.now) (K.objects known.now)))
        used.old.value (meter_of used.old.left used.old.trace)) }
    ensures numbered { OnOk result
        (AreNumbered (words picture.now (K.numbers known.now) (K.objects known.now))
        used.old.trace → AreNumbered (words picture.now (K.numbers known.now) (K.objects known.now))
        used.new.trace) }
{
    let name = object.share()?;
    if !step(&mut used.left) {
        return Ok(Came::Failed(fault_at(alloc, place, Code::WorkSpent)?));
    }
    let Some(told) = ask_object(alloc, known, object, &mut used.trace)? else {
        return Ok(Came::Waits(name));
    };
    tested_told(alloc, place, name.as_str(), told, &mut used.value)
}

/// The object of a letter, where that is a name and not the object itself.
fn other_object(alloc: Global, own: &Name, letter: u8) -> Result<Option<Name>, AllocError>
    ensures { IfOk result (λ object. object ≡ other_object own.now (letter_text letter)) }
{
    let text = letter_text(alloc, letter)?;
    match Name::parse(alloc, text.as_str()) {
        Ok(object) => {
            if object.as_str() == own.as_str() {
                return Ok(None);
            }
            Ok(Some(object))
        }
        Err(NameError::BadName) => Ok(None),
        Err(NameError::Memory) => Err(AllocError),
    }
}

/// A letter as a tree.
fn text_of(alloc: Global, letter: u8) -> Result<Tree, AllocError>
    ensures { IfOk result (λ t. t ≡ text (letter_text letter)) }
{
    let letter = letter_text(alloc, letter)?;
    match Tree::text(alloc, letter.as_str()) {
        Ok(tree) => Ok(tree),
        Err(_) => Err(AllocError),
    }
}

/// A line.
pub(crate) fn act<K: Known>(
    alloc: Global,
    picture: &Picture,
    known: &K,
    place: &Place,
    own: &Name,
    action: Action,
    used: &mut Used,
) -> Result<Came, AllocError>
    ensures outcome { IfOk result (λ came. outcome_of came used.new.value
        (meter_of used.new.left used.new.trace) ≡ acted place.now own.now action
        (answers_of (words picture.now (K.numbers known.now) (K.objects known.now)))
        used.old.value (meter_of used.old.left used.old.trace)) }
    ensures numbered { OnOk result
        (AreNumbered (words picture.now (K.numbers known.now) (K.objects known.now))
        used.old.trace → AreNumbered (words picture.now (K.numbers known.now) (K.objects known.now))
        used.new.trace) }
{
    match action {
        Action::Nothing => Ok(Came::Done),
        Action::Gives(letter) => {
            used.value = text_of(alloc, letter)?;
            Ok(Came::Done)
        }
        Action::Fails(letter) => {
            let detail = letter_text(alloc, letter)?;
            Ok(Came::Failed(fault_with(alloc, place, Code::UserError, detail.as_str())?))
        }
        Action::LooksFor(letter) => look_for(alloc, picture, known, place, letter, used),
        Action::Reads(letter) => match other_object(alloc, own, letter)? {
            None => Ok(Came::Failed(fault_at(alloc, place, Code::BadPath)?)),
            Some(object) => read_object(alloc, picture, known, place, object, used),
        },
        Action::TestsFor(letter) => match other_object(alloc, own, letter)? {
            None => Ok(Came::Failed(fault_at(alloc, place, Code::BadPath)?)),
            Some(object) => test_object(alloc, picture, known, place, object, used),
        },
    }
}
