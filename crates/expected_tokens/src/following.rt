ghost use Rattle.pan_ast.specs.Detail.{fault_at};
ghost use Rattle.pan_ast.specs.Sorts.{EndsInEnd};
ghost use Rattle.pan_ast.specs.declared.fault.Code.TheVariants.{BadSyntax};
ghost use Rattle.pan_grammar.specs.Parsed.{parsed};
ghost use Rattle.expected_tokens.specs.declared.candidate.Candidate.{Candidate};
ghost use Rattle.std.specs.Prelude.{List, Err, ◌≡◌, ◌++◌, ◌∷◌, [], IfOk, OnOk, true, false};
ghost use Rattle.expected_tokens.specs.Candidates.{sample};
ghost use Rattle.expected_tokens.specs.Following.{Begins, CouldFollow, IsSifted};

use crate::candidate::Candidate;
use pan_ast::{Code, Failure, Place, Token};
use pan_parser::parse;
use std::alloc::{AllocError, Global};

/// A place in no line.
fn nowhere(place: &Place) -> Result<Place, AllocError>
    ensures { IfOk result (λ end. end ≡ place.now → ⊥) }
{
    Ok(Place {
        file: place.file.share()?,
        line: if place.line == 0 { 1 } else { 0 },
        column: place.column,
    })
}

/// Whether the last two of these tokens, such a token at a place and an End elsewhere, are read on to behind the first.
fn goes_on(alloc: Global, tokens: &[Token], place: &Place) -> Result<bool, AllocError>
    requires { EndsInEnd tokens.now }
    ensures stays { IfOk result (λ goes. goes ≡ true
        → parsed tokens.now ≡ Err (fault_at BadSyntax place.now) → ⊥) }
    ensures stops { IfOk result (λ goes. goes ≡ false
        → parsed tokens.now ≡ Err (fault_at BadSyntax place.now)) }
{
    match parse(alloc, tokens) {
        Ok(_template) => Ok(true),
        Err(Failure::Memory) => Err(AllocError),
        Err(Failure::Fault(fault)) => Ok(fault.code != Code::BadSyntax || fault.place != *place),
    }
}

/// Whether some template begins with the tokens and such a token at the place behind them. The tokens stay.
fn could_follow(
    alloc: Global,
    tokens: &mut Vec<Token>,
    candidate: Candidate,
    place: &Place,
) -> Result<bool, AllocError>
    requires { Begins tokens.old.items }
    ensures could { IfOk result (λ could. could ≡ true
        → CouldFollow tokens.old.items place.now candidate) }
    ensures could_not { IfOk result (λ could. could ≡ false
        → CouldFollow tokens.old.items place.now candidate → ⊥) }
    ensures same { OnOk result (tokens.new.items ≡ tokens.old.items) }
{
    tokens.push(candidate.token(alloc, place)?)?;
    tokens.push(Candidate::End.token(alloc, &nowhere(place)?)?)?;
    let could = goes_on(alloc, tokens, place)?;
    tokens.pop();
    tokens.pop();
    Ok(could)
}

/// Adds the candidate where it could follow the tokens at the place. The tokens stay.
fn add_if_could(
    alloc: Global,
    found: &mut Vec<Candidate>,
    tokens: &mut Vec<Token>,
    candidate: &Candidate,
    place: &Place,
) -> Result<(), AllocError>
    requires { Begins tokens.old.items }
    ensures sifted { OnOk result ((among : List Candidate) → IsSifted
        (CouldFollow tokens.old.items place.now) among found.old.items → IsSifted
        (CouldFollow tokens.old.items place.now) (among ++ candidate.now ∷ []) found.new.items) }
    ensures same { OnOk result (tokens.new.items ≡ tokens.old.items) }
{
    if could_follow(alloc, tokens, *candidate, place)? {
        found.push(*candidate)?;
    }
    Ok(())
}

/// Those of these candidates that could follow the tokens at the place, in order. The tokens stay.
pub(crate) fn all_that_could(
    alloc: Global,
    candidates: &[Candidate],
    tokens: &mut Vec<Token>,
    place: &Place,
) -> Result<Vec<Candidate>, AllocError>
    requires { Begins tokens.old.items }
    ensures sifted { IfOk result (λ found. IsSifted (CouldFollow tokens.old.items place.now)
        candidates.now found.items) }
    ensures same { OnOk result (tokens.new.items ≡ tokens.old.items) }
{
    let mut found = Vec::new(alloc);
    for candidate in candidates {
        add_if_could(alloc, &mut found, tokens, candidate, place)?;
    }
    Ok(found)
}
