ghost use Rattle.std.specs.Prelude.{◌≡◌, ◌++◌, IfOk, OnOk, decimal, flat_map};
ghost use Rattle.session.specs.Texts.{run_line, fault_line, is_fault, faults_in, totals, report, too_many_line};

use crate::{Answer, Outcome};
use itoa::Buffer;
use path_tree::Name;
use std::alloc::{AllocError, Global};

/// `run NAME`, a line.
fn push_run(text: &mut Vec<u8>, name: &Name) -> Result<(), AllocError>
    ensures { OnOk result (text.new.items ≡ text.old.items ++ run_line name.now) }
{
    text.extend_from_slice(b"run ")?;
    text.extend_from_slice(name.as_str().as_bytes())?;
    text.extend_from_slice(b"\n")
}

/// `fault NAME` with the printed fault, a line, where the answer is a fault.
fn push_fault(text: &mut Vec<u8>, answer: &Answer) -> Result<(), AllocError>
    ensures { OnOk result (text.new.items ≡ text.old.items ++ fault_line answer.now) }
{
    let Outcome::Fault(fault) = &answer.outcome else {
        return Ok(());
    };
    text.extend_from_slice(b"fault ")?;
    text.extend_from_slice(answer.name.as_str().as_bytes())?;
    text.extend_from_slice(b" ")?;
    text.extend_from_slice(fault.as_slice())?;
    text.extend_from_slice(b"\n")
}

fn push_runs(text: &mut Vec<u8>, runs: &[Name]) -> Result<(), AllocError>
    ensures { OnOk result (text.new.items ≡ text.old.items ++ flat_map run_line runs.now) }
{
    for name in runs {
        push_run(text, name)?;
    }
    Ok(())
}

fn push_faults(text: &mut Vec<u8>, answers: &[Answer]) -> Result<(), AllocError>
    ensures { OnOk result (text.new.items ≡ text.old.items ++ flat_map fault_line answers.now) }
{
    for answer in answers {
        push_fault(text, answer)?;
    }
    Ok(())
}

fn is_fault(answer: &Answer) -> bool
    ensures { result ≡ is_fault answer.now.outcome }
{
    matches!(answer.outcome, Outcome::Fault(_))
}

/// How many answers are faults.
pub fn count_faults(answers: &[Answer]) -> usize
    ensures { result ≡ faults_in answers.now }
{
    answers.iter().filter(|answer| is_fault(answer)).count()
}

/// A word and a number in decimal.
fn push_count(text: &mut Vec<u8>, word: &str, count: usize) -> Result<(), AllocError>
    ensures { OnOk result (text.new.items ≡ text.old.items ++ (word.now ++ decimal count)) }
{
    let mut buffer = Buffer::new();
    text.extend_from_slice(word.as_bytes())?;
    text.extend_from_slice(buffer.format(count).as_bytes())
}

/// The line of a publication that was to remove so many names, which is more than it may.
pub fn push_too_many(text: &mut Vec<u8>, removals: usize) -> Result<(), AllocError>
    ensures { OnOk result (text.new.items ≡ text.old.items ++ too_many_line removals) }
{
    push_count(text, "too many removals ", removals)?;
    text.extend_from_slice(b"\n")
}

/// The numbers of objects, of profiles, of faults and of runs, a line.
fn push_totals(text: &mut Vec<u8>, answers: &[Answer], runs: &[Name]) -> Result<(), AllocError>
    ensures { OnOk result (text.new.items ≡ text.old.items ++ totals answers.now runs.now) }
{
    let objects = answers.len();
    let faults = count_faults(answers);
    push_count(text, "objects ", objects)?;
    push_count(text, " ok ", objects - faults)?;
    push_count(text, " faults ", faults)?;
    push_count(text, " run ", runs.len())?;
    text.extend_from_slice(b"\n")
}

/// The text of a build: a line for each of these runs, a line for each fault among the answers, and the totals.
pub fn report(alloc: Global, answers: &[Answer], runs: &[Name]) -> Result<Vec<u8>, AllocError>
    ensures { IfOk result (λ text. text.items ≡ report answers.now runs.now) }
{
    let mut text = Vec::new(alloc);
    push_runs(&mut text, runs)?;
    push_faults(&mut text, answers)?;
    push_totals(&mut text, answers, runs)?;
    Ok(text)
}
