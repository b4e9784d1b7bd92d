ghost use Rattle.std.specs.Prelude.{◌≡◌, ◌<◌, ◌≤◌, [], ◌∷◌, ◌++◌, ℤ, neg_ℤ, IfOk, List, MatchOption, Option, length};
ghost use Rattle.pan_ast.specs.declared.place.Place.{Place};
ghost use Rattle.pan_ast.specs.declared.types.Bounds.{Bounds};
ghost use Rattle.pan_ast.specs.declared.types.Suffix.{Suffix};
ghost use Rattle.pan_ast.specs.Types.{Head};
ghost use Rattle.pan_grammar.specs.Grammar.{number};
ghost use Rattle.pan_grammar.specs.Machine.{run};
ghost use Rattle.pan_grammar.specs.States.{Closing, FullStack, HasHead, HasLow, NeedBounds, NeedSigned, RangeOpen, RangeRead, State, closing};
ghost use Rattle.pan_parser.specs.Answers.{Goes, NoSuffix, suffixed};

use crate::stopped::Stopped;
use crate::tables::long;
use crate::tokens::{Expected, cut, expect, next_is};
use pan_ast::make_types::make_bounds;
use pan_ast::{Bounds, Place, Sort, Suffix, Token};
use std::alloc::{AllocError, Global};

/// The number of an Int after `-`.
fn negative(token: &Token) -> i64
    ensures { result ≡ neg_ℤ (number token.now) }
{
    -long(token)
}

/// A whole number, perhaps with `-` before it.
fn signed(tokens: &[Token]) -> Result<(i64, &[Token]), Stopped<'_>>
    ensures read { (next : ℤ → State) → Goes result (λ r. run r.1.now (next r.0))
        (run tokens.now (NeedSigned next)) }
    ensures shorter { IfOk result (λ r. length r.1.now < length tokens.now) }
{
    let Some(after) = next_is(Sort::Minus, tokens) else {
        let (number, rest) = expect(Expected::Sort(Sort::Int), tokens)?;
        return Ok((long(number), rest));
    };
    let (number, rest) = expect(Expected::Sort(Sort::Int), after)?;
    Ok((negative(number), rest))
}

/// Bounds, and the sign that closes them.
pub(crate) fn bounds(sign: Sort, tokens: &[Token]) -> Result<(Bounds, &[Token]), Stopped<'_>>
    ensures read { (k : Closing) (next : Bounds → State) → closing k ≡ sign → Goes result
        (λ r. run r.1.now (next r.0)) (run tokens.now (NeedBounds k next)) }
    ensures shorter { IfOk result (λ r. length r.1.now < length tokens.now) }
{
    let Some((first, _)) = cut(tokens) else {
        return Err(Stopped::Bad(tokens));
    };
    let Some(after) = next_is(Sort::Range, tokens) else {
        let (low, rest) = signed(tokens)?;
        return after_low(sign, first.place(), low, rest);
    };
    let (high, rest) = signed(after)?;
    let (_, rest) = expect(Expected::Sort(sign), rest)?;
    Ok((make_bounds(first.place(), None, Some(high))?, rest))
}

/// After the first number of bounds.
fn after_low<'a>(
    sign: Sort,
    place: &Place,
    low: i64,
    tokens: &'a [Token],
) -> Result<(Bounds, &'a [Token]), Stopped<'a>>
    ensures read { (k : Closing) (next : Bounds → State) → closing k ≡ sign → Goes result
        (λ r. run r.1.now (next r.0)) (run tokens.now (HasLow k place.now low next)) }
    ensures shorter { IfOk result (λ r. length r.1.now < length tokens.now) }
{
    if let Some(after) = next_is(sign, tokens) {
        return Ok((make_bounds(place, Some(low), Some(low))?, after));
    }
    let Some(after) = next_is(Sort::Range, tokens) else {
        return Err(Stopped::Bad(tokens));
    };
    after_range(sign, place, low, after)
}

/// After the `..` that follows a number.
fn after_range<'a>(
    sign: Sort,
    place: &Place,
    low: i64,
    tokens: &'a [Token],
) -> Result<(Bounds, &'a [Token]), Stopped<'a>>
    ensures read { (k : Closing) (next : Bounds → State) → closing k ≡ sign → Goes result
        (λ r. run r.1.now (next r.0)) (run tokens.now (RangeRead k place.now low next)) }
    ensures shorter { IfOk result (λ r. length r.1.now < length tokens.now) }
{
    if let Some(after) = next_is(sign, tokens) {
        return Ok((make_bounds(place, Some(low), None)?, after));
    }
    let (high, rest) = signed(tokens)?;
    let (_, rest) = expect(Expected::Sort(sign), rest)?;
    Ok((make_bounds(place, Some(low), Some(high))?, rest))
}

/// Bounds or none, and the sign that closes them.
fn range(sign: Sort, tokens: &[Token]) -> Result<(Option<Bounds>, &[Token]), Stopped<'_>>
    ensures read { (k : Closing) (next : Option Bounds → State) → closing k ≡ sign → Goes result
        (λ r. run r.1.now (next r.0)) (run tokens.now (RangeOpen k next)) }
    ensures shorter { IfOk result (λ r. length r.1.now < length tokens.now) }
{
    if let Some(after) = next_is(sign, tokens) {
        return Ok((None, after));
    }
    let (bounds, rest) = bounds(sign, tokens)?;
    Ok((Some(bounds), rest))
}

/// The suffix of a type that stands at the front, if one does.
fn next_suffix(tokens: &[Token]) -> Result<Option<(Suffix, &[Token])>, Stopped<'_>>
    ensures read { (h : Head) (ss : List Suffix) (s : FullStack) → Goes result
        (λ o. suffixed o h ss s tokens.now) (run tokens.now (HasHead h ss s)) }
    ensures none { IfOk result (λ o. MatchOption o (NoSuffix tokens.now)
        (λ r. length r.1.now < length tokens.now)) }
{
    if let Some(after) = next_is(Sort::OpenBracket, tokens) {
        let (bounds, rest) = range(Sort::CloseBracket, after)?;
        return Ok(Some((Suffix::List(bounds), rest)));
    }
    if let Some(after) = next_is(Sort::OpenBrace, tokens) {
        let (bounds, rest) = range(Sort::CloseBrace, after)?;
        return Ok(Some((Suffix::Dict(bounds), rest)));
    }
    let Some(after) = next_is(Sort::Star, tokens) else {
        return Ok(None);
    };
    Ok(Some((Suffix::Link, after)))
}

/// The suffixes of a type.
pub(crate) fn suffixes(
    alloc: Global,
    tokens: &[Token],
) -> Result<(Vec<Suffix>, &[Token]), Stopped<'_>>
    ensures read { (h : Head) (s : FullStack) → Goes result
        (λ r. run r.1.now (HasHead h r.0.items s)) (run tokens.now (HasHead h [] s)) }
    ensures ended { IfOk result (λ r. NoSuffix r.1.now) }
    ensures shorter { IfOk result (λ r. length r.1.now ≤ length tokens.now) }
{
    let mut suffixes = Vec::new(alloc);
    let mut rest = tokens;
    loop {
        let Some((suffix, after)) = next_suffix(rest)? else {
            return Ok((suffixes, rest));
        };
        suffixes.push(suffix)?;
        rest = after;
    }
}
