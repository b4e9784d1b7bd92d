ghost use Rattle.std.specs.Prelude.{◌≡◌, ◌++◌, [], List, ℕ, IfOk, OnOk, true, map};
ghost use Rattle.engine_turns.specs.States.{pictured};
ghost use Rattle.rebuild.specs.Engines.{objects_of, situation_of, turns_left_of};
ghost use Rattle.publication.specs.Wants.{proper, wants_of};
ghost use Rattle.session.specs.Sessions.{profile_of, profiles_of};
ghost use Rattle.engine_laws.specs.Engine.{is_among};
ghost use Rattle.engine_session.specs.Compiler.{answer_name, answer_of, answers_of};
ghost use Rattle.engine_session.specs.KeptTexts.{AreFaithful, AreTexts};
ghost use Rattle.engine_session.specs.Standing.{IsFaithful, Gives, compiled_in, machine_in};

use crate::answering::shown_by;
use crate::kept_texts::KeptTexts;
use crate::works::Works;
use path_tree::Name;
use publication::Profile;
use runner::Runner;
use session::{Answer, Outcome, Shown, count_faults, report};
use std::alloc::{AllocError, Global};

/// What a build publishes and reports.
#[derive(Drop)]
pub struct Built {
    pub profiles: Vec<Profile>,
    pub report: Vec<u8>,
    /// Whether an object has a fault.
    pub has_faults: bool,
}

/// The answer of an object.
fn answer<R: Runner>(
    alloc: Global,
    works: &Works<R>,
    name: &Name,
    texts: &mut KeptTexts,
) -> Result<Answer, AllocError>
    requires settled { turns_left_of works.now.engine.core ≡ 0 }
    requires object { is_among name.now (objects_of works.now.engine.core) ≡ true }
    ensures answer { AreFaithful R.meaning works.now texts.old
        → IfOk result (λ answer. answer ≡ answer_of
        (R.meaning works.now.engine.core.dirs works.now.engine.core.limits)
        works.now.engine.core.dirs (pictured works.now.engine.core.files.items)
        (objects_of works.now.engine.core) name.now) }
    ensures name { IfOk result (λ answer. answer.name ≡ name.now) }
    ensures texts { AreFaithful R.meaning works.now texts.old
        → OnOk result (AreTexts (situation_of works.now.engine.core) texts.new) }
{
    match shown_by(alloc, works, name.as_str(), texts)? {
        Shown::Settled(outcome) => Ok(Answer {
            name: name.text_handle().share()?,
            outcome,
        }),
        // Only an engine that is not faithful says so where all is settled.
        Shown::Pending | Shown::NoObject => Err(AllocError),
    }
}

/// The answers of all objects, in byte order of names.
fn answers<R: Runner>(
    alloc: Global,
    works: &Works<R>,
    texts: &mut KeptTexts,
) -> Result<Vec<Answer>, AllocError>
    requires settled { turns_left_of works.now.engine.core ≡ 0 }
    ensures answers { AreFaithful R.meaning works.now texts.old
        → IfOk result (λ made. made.items ≡ answers_of
        (R.meaning works.now.engine.core.dirs works.now.engine.core.limits)
        works.now.engine.core.dirs (pictured works.now.engine.core.files.items)
        (objects_of works.now.engine.core)) }
    ensures names { IfOk result
        (λ made. map answer_name made.items ≡ objects_of works.now.engine.core) }
    ensures texts { AreFaithful R.meaning works.now texts.old
        → OnOk result (AreTexts (situation_of works.now.engine.core) texts.new) }
{
    let names = works.engine.objects(alloc)?;
    let mut made = Vec::with_capacity(alloc, names.len())?;
    texts.begin(alloc);
    for name in &names {
        made.push(answer(alloc, works, name, texts)?)?;
    }
    texts.end(alloc);
    Ok(made)
}

/// The profile of an answer, where it has one.
fn add_profile(made: &mut Vec<Profile>, answer: Answer) -> Result<(), AllocError>
    ensures { OnOk result (made.new.items ≡ made.old.items ++ profile_of answer.name answer.outcome
        []) }
{
    let Answer { name, outcome } = answer;
    match outcome {
        Outcome::Profile { json, dep } => made.push(Profile { name, json, dep })?,
        Outcome::Fault(_line) => {}
    }
    Ok(())
}

/// The profiles among answers.
fn profiles(alloc: Global, answers: Vec<Answer>) -> Result<Vec<Profile>, AllocError>
    ensures { IfOk result (λ made. made.items ≡ profiles_of answers.items) }
{
    let mut made = Vec::new(alloc);
    for answer in answers {
        add_profile(&mut made, answer)?;
    }
    Ok(made)
}

/// The profiles of the objects, and the report, of an engine in which all is settled. Texts that are kept serve again
/// where they are made of the same, and those of this report are kept for the next one.
pub fn build_again<R: Runner>(
    alloc: Global,
    works: &Works<R>,
    texts: &mut KeptTexts,
) -> Result<Built, AllocError>
    requires settled { turns_left_of works.now.engine.core ≡ 0 }
    ensures gives { AreFaithful R.meaning works.now texts.old → IfOk result (λ b. Gives
        (machine_in R.meaning works.now.engine.core) (compiled_in works.now.engine.core) b) }
    ensures proper { IfOk result (λ b. proper (wants_of b.profiles.items) ≡ true) }
    ensures texts { AreFaithful R.meaning works.now texts.old
        → OnOk result (AreTexts (situation_of works.now.engine.core) texts.new) }
{
    let answers = answers(alloc, works, texts)?;
    let runs = works.engine.runs(alloc)?;
    let report = report(alloc, &answers, &runs)?;
    let has_faults = count_faults(&answers) > 0;
    Ok(Built {
        profiles: profiles(alloc, answers)?,
        report,
        has_faults,
    })
}

/// The profiles of the objects, and the report, of an engine in which all is settled.
pub fn build<R: Runner>(alloc: Global, works: &Works<R>) -> Result<Built, AllocError>
    requires settled { turns_left_of works.now.engine.core ≡ 0 }
    ensures gives { IsFaithful R.meaning works.now → IfOk result (λ b. Gives
        (machine_in R.meaning works.now.engine.core) (compiled_in works.now.engine.core) b) }
    ensures proper { IfOk result (λ b. proper (wants_of b.profiles.items) ≡ true) }
{
    let mut texts = KeptTexts::unkept(alloc);
    build_again(alloc, works, &mut texts)
}
