ghost use Rattle.std.specs.Prelude.{◌≡◌, ◌++◌, List, ℕ, IfOk, OnOk, Err, codes, cond, option_map};
ghost use Rattle.rebuild.specs.Answers.{seen_why, why_at};
ghost use Rattle.rebuild.specs.Engines.{situation_of, objects_of};
ghost use Rattle.engine_laws.specs.Engine.{is_among};
ghost use Rattle.session.specs.Sessions.{shown_of, deps_of};
ghost use Rattle.engine_session.specs.Compiler.{outcome_by, cause_text, key_text};
ghost use Rattle.engine_session.specs.KeptTexts.{AreFaithful, AreTexts};
ghost use Rattle.engine_session.specs.Standing.{IsFaithful, compiled_in, machine_in};

use crate::kept_deps::dep_of;
use crate::kept_texts::{KeptTexts, Numbered};
use crate::works::Works;
use base::Bytes;
use engine_turns::row_in;
use pan_ast::{Fault, fault_line};
use questions::Key;
use rebuild::{Answer, Engine, Why};
use runner::Runner;
use session::{Outcome, Shown};
use std::alloc::{AllocError, Global};

/// What is said of a name that has nothing settled.
fn unsettled<R: Runner>(engine: &Engine<R>, name: &str) -> Shown<Bytes>
    ensures { result ≡ cond (is_among name.now (objects_of engine.now.core)) Shown.Pending
        Shown.NoObject }
{
    match engine.answer(name) {
        Answer::NoObject => Shown::NoObject,
        Answer::Pending | Answer::Profile(_) | Answer::Fault(_) => Shown::Pending,
    }
}

/// What is said of a name, and of the text of what compiling it looks at.
pub fn deps<R: Runner>(
    alloc: Global,
    works: &Works<R>,
    name: &str,
) -> Result<Shown<Bytes>, AllocError>
    ensures { IsFaithful R.meaning works.now → IfOk result (λ said. said ≡ deps_of
        (machine_in R.meaning works.now.engine.core) name.now
        (compiled_in works.now.engine.core)) }
{
    match works.engine.reads(name) {
        Some(reads) => Ok(Shown::Settled(dep_of(alloc, reads)?)),
        None => Ok(unsettled(&works.engine, name)),
    }
}

/// The outcome of a fault.
fn fault_outcome(alloc: Global, fault: &Fault) -> Result<Outcome, AllocError>
    ensures { IfOk result (λ o. (dep : List ℕ) → o ≡ outcome_by (Err fault.now) dep) }
{
    Ok(Outcome::Fault(Bytes::from_vec(fault_line(alloc, fault)?)?))
}

/// The number of an object's last result.
fn number_of<R: Runner>(engine: &Engine<R>, name: &str) -> Option<u64>
    ensures { result ≡ option_map (λ last. last.0)
        ((situation_of engine.now.core).state.last name.now) }
{
    let row = row_in(&engine.core().rows, name)?;
    match &row.last {
        Some(last) => Some(last.number),
        None => None,
    }
}

/// What is said of a name, and what compiling it gives. A profile's texts are those that are kept, where they are made
/// of the same.
pub(crate) fn shown_by<R: Runner>(
    alloc: Global,
    works: &Works<R>,
    name: &str,
    texts: &mut KeptTexts,
) -> Result<Shown<Outcome>, AllocError>
    ensures said { AreFaithful R.meaning works.now texts.old → IfOk result (λ said. said ≡ shown_of
        (machine_in R.meaning works.now.engine.core) name.now
        (compiled_in works.now.engine.core)) }
    ensures texts { AreFaithful R.meaning works.now texts.old
        → OnOk result (AreTexts (situation_of works.now.engine.core) texts.new) }
{
    match works.engine.answer(name) {
        Answer::Profile(tree) => {
            // An engine that is not faithful may have a profile that nothing was read for.
            let Some(reads) = works.engine.reads(name) else {
                return Ok(Shown::Pending);
            };
            let Some(number) = number_of(&works.engine, name) else {
                return Ok(Shown::Pending);
            };
            let made = Numbered { number, tree };
            Ok(Shown::Settled(texts.outcome(alloc, name, made, reads)?))
        }
        Answer::Fault(fault) => Ok(Shown::Settled(fault_outcome(alloc, fault)?)),
        Answer::Pending => Ok(Shown::Pending),
        Answer::NoObject => Ok(Shown::NoObject),
    }
}

/// What is said of a name, and what compiling it gives.
pub fn shown<R: Runner>(
    alloc: Global,
    works: &Works<R>,
    name: &str,
) -> Result<Shown<Outcome>, AllocError>
    ensures { IsFaithful R.meaning works.now → IfOk result (λ said. said ≡ shown_of
        (machine_in R.meaning works.now.engine.core) name.now
        (compiled_in works.now.engine.core)) }
{
    let mut texts = KeptTexts::unkept(alloc);
    shown_by(alloc, works, name, &mut texts)
}

fn push_key(text: &mut Vec<u8>, key: &Key) -> Result<(), AllocError>
    ensures { OnOk result (text.new.items ≡ text.old.items ++ key_text key.now) }
{
    match key {
        Key::File(name) => {
            text.extend_from_slice(b"file ")?;
            text.extend_from_slice(name.as_str().as_bytes())
        }
        Key::Under { object, .. } => {
            text.extend_from_slice(b"object ")?;
            text.extend_from_slice(object.as_str().as_bytes())
        }
    }
}

fn push_changed(text: &mut Vec<u8>, key: &Key) -> Result<(), AllocError>
    ensures { OnOk result (text.new.items ≡ text.old.items ++ (codes "changed " ++ key_text key.now
        ++ codes "\n")) }
{
    text.extend_from_slice(b"changed ")?;
    push_key(text, key)?;
    text.extend_from_slice(b"\n")
}

/// Writes why a name was run last.
pub fn push_cause<R: Runner>(
    text: &mut Vec<u8>,
    works: &Works<R>,
    name: &str,
) -> Result<(), AllocError>
    ensures { OnOk result (text.new.items ≡ text.old.items ++ cause_text (why_at (situation_of
        works.now.engine.core) name.now)) }
{
    match works.engine.why(name) {
        Why::NotRun => text.extend_from_slice(b"not run\n"),
        Why::NoRecord => text.extend_from_slice(b"no record\n"),
        Why::Changed(key) => push_changed(text, key),
        Why::NoObject => text.extend_from_slice(b"no object\n"),
    }
}
