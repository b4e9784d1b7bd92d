ghost use Rattle.std.specs.Prelude.{◌≡◌, ◌++◌, IfOk, OnOk, map};
ghost use Rattle.std.specs.List.{filter};
ghost use Rattle.expected_tokens.specs.Candidates.{words};
ghost use Rattle.expected_tokens.specs.Texts.{is_told, listed, text_of};

use crate::candidate::Candidate;
use std::alloc::{AllocError, Global};

/// Whether no other of these candidates tells as much.
fn is_told(all: &[Candidate], candidate: Candidate) -> bool
    ensures { result ≡ is_told all.now candidate }
{
    !candidate
        .tells_as_much()
        .iter()
        .any(|other| other.is_among(all))
}

/// What is told of candidates, each by its words.
fn told(alloc: Global, all: &[Candidate]) -> Result<Vec<&'static str>, AllocError>
    ensures { IfOk result (λ told. map (λ w. w.now) told.items
        ≡ map words (filter (is_told all.now) all.now)) }
{
    let mut told = Vec::new(alloc);
    for candidate in all {
        if is_told(all, *candidate) {
            told.push(candidate.words())?;
        }
    }
    Ok(told)
}

/// Appends `A, B or C`.
fn push_listed(into: &mut Vec<u8>, texts: &[&str]) -> Result<(), AllocError>
    ensures { OnOk result (into.new.items
        ≡ into.old.items ++ listed (map (λ w. w.now) texts.now)) }
{
    match texts {
        [] => Ok(()),
        [last] => into.extend_from_slice(last.as_bytes()),
        [first, last] => {
            into.extend_from_slice(first.as_bytes())?;
            into.extend_from_slice(b" or ")?;
            into.extend_from_slice(last.as_bytes())
        }
        [first, rest @ ..] => {
            into.extend_from_slice(first.as_bytes())?;
            into.extend_from_slice(b", ")?;
            push_listed(into, rest)
        }
    }
}

/// What a reader is told that is expected: `';' or an operator`. Nothing where no candidate is given.
pub fn expected_text(alloc: Global, candidates: &[Candidate]) -> Result<Vec<u8>, AllocError>
    ensures { IfOk result (λ text. text.items ≡ text_of candidates.now) }
{
    let told = told(alloc, candidates)?;
    let mut text = Vec::new(alloc);
    push_listed(&mut text, &told)?;
    Ok(text)
}
