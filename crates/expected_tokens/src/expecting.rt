ghost use Rattle.std.specs.Prelude.{◌≡◌, ◌≤◌, IfOk, Err, length};
ghost use Rattle.std.specs.List.{position_or_len};
ghost use Rattle.base.specs.declared.limits.TheConstants.{MAX_FILE_BYTES};
ghost use Rattle.pan_ast.specs.Detail.{fault_at};
ghost use Rattle.pan_ast.specs.Sorts.{EndsInEnd};
ghost use Rattle.pan_ast.specs.declared.fault.Code.TheVariants.{BadSyntax};
ghost use Rattle.pan_grammar.specs.Parsed.{parsed};
ghost use Rattle.expected_tokens.specs.Expected.{IsExpected, IsExpectedIn, is_at};

use crate::behind::place_behind;
use crate::candidate::{CANDIDATES, Candidate};
use crate::following::all_that_could;
use base::Text;
use pan_ast::{Code, Failure, Place, Token};
use pan_lexer::lex;
use pan_parser::parse;
use std::alloc::{AllocError, Global};

/// What could stand in a file in the place of its first wrong token.
#[derive(Drop)]
pub struct Expectation {
    /// The place of the wrong token.
    pub place: Place,
    /// The place behind the token before it: where something is missing that should end the line before.
    pub behind: Place,
    /// What could stand there, in the order of [CANDIDATES](crate::CANDIDATES).
    pub candidates: Vec<Candidate>,
}

/// Whether the token is at the place.
fn is_at(place: &Place, token: &Token) -> bool
    ensures { result ≡ is_at place.now token.now }
{
    let at = token.place();
    at.line == place.line && at.column == place.column
}

/// A token with the text and the place of another.
fn copy_of(token: &Token) -> Result<Token, AllocError>
    ensures { IfOk result (λ copy. copy ≡ token.now) }
{
    Ok(Token::new(
        token.kind(),
        token.start(),
        token.end(),
        token.place().share()?,
        token.value().share()?,
    ))
}

/// How many tokens stand before the place.
fn count_before(place: &Place, tokens: &[Token]) -> usize
    ensures place { result ≡ position_or_len (is_at place.now) tokens.now }
    ensures within { result ≤ length tokens.now }
{
    let mut count = 0;
    for token in tokens {
        if is_at(place, token) {
            return count;
        }
        count += 1;
    }
    count
}

fn copies_of(alloc: Global, tokens: &[Token]) -> Result<Vec<Token>, AllocError>
    ensures { IfOk result (λ copies. copies.items ≡ tokens.now) }
{
    let mut copies = Vec::new(alloc);
    for token in tokens {
        copies.push(copy_of(token)?)?;
    }
    Ok(copies)
}

/// What could stand in a file at the place of its first wrong token.
fn expected_at(
    alloc: Global,
    file: &Text,
    bytes: &[u8],
    tokens: &[Token],
    place: Place,
) -> Result<Expectation, AllocError>
    requires few { length bytes.now ≤ MAX_FILE_BYTES }
    requires wrong { parsed tokens.now ≡ Err (fault_at BadSyntax place) }
    requires ended { EndsInEnd tokens.now }
    ensures { IfOk result (IsExpected file.now bytes.now tokens.now) }
{
    let count = count_before(&place, tokens);
    let mut before = copies_of(alloc, &tokens[..count])?;
    let candidates = all_that_could(alloc, &CANDIDATES, &mut before, &place)?;
    let behind = place_behind(file, bytes, &before)?;
    Ok(Expectation {
        place,
        behind,
        candidates,
    })
}

/// What could stand in the place of the first token of a file that no template goes on with. None of a file that is a
/// template, or that has another fault. `file` is the file's name, for the places.
pub fn expected(alloc: Global, file: &Text, bytes: &[u8]) -> Result<Option<Expectation>, AllocError>
    requires { length bytes.now ≤ MAX_FILE_BYTES }
    ensures { IfOk result (IsExpectedIn file.now bytes.now) }
{
    let tokens = match lex(alloc, bytes, file) {
        Ok(tokens) => tokens,
        Err(Failure::Fault(_fault)) => return Ok(None),
        Err(Failure::Memory) => return Err(AllocError),
    };
    let fault = match parse(alloc, tokens.as_slice()) {
        Ok(_template) => return Ok(None),
        Err(Failure::Fault(fault)) => fault,
        Err(Failure::Memory) => return Err(AllocError),
    };
    if fault.code != Code::BadSyntax {
        return Ok(None);
    }
    let wrong = expected_at(alloc, file, bytes, tokens.as_slice(), fault.into_place())?;
    Ok(Some(wrong))
}
