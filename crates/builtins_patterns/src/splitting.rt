ghost use Rattle.std.specs.Prelude.{◌≡◌, ◌-◌, ◌∷◌, [], IfOk, MatchOption, option_map, slice_range, true};
ghost use Rattle.regex.specs.Patterns.{find_all_str, span};
ghost use Rattle.regex.specs.Search.{IsNextLeft, matches_left, next_match};
ghost use Rattle.regex.specs.Strings.{match_span, matcher_names, matcher_pattern};
ghost use Rattle.base.specs.Answers.{Gives};
ghost use Rattle.path_tree.specs.Plain as plain;
ghost use Rattle.path_tree.specs.Refusals.{refusal};
ghost use Rattle.builtins_patterns.specs.Calls.{cuts, limit_of, pieces_of, split_of, split_within};
ghost use Rattle.builtins_patterns.specs.Pieces.{is_spent};

use crate::pattern::short_text;
use crate::patterns::Patterns;
use crate::searcher::Searcher;
use call_values::{Arguments, by_count};
use path_tree::{Refused, Tree};
use regex::{Match, Matcher};
use std::alloc::{AllocError, Global};

/// `split(p, t)`: the list of the texts between the matches of the pattern p in t, empty ones
/// included. `split(p, n, t)`: the same, cut at the first n - 1 matches alone where n is 1 or more.
/// `BadArgument` where the arguments are not two texts, or two with a long between them;
/// `BadPattern` exactly where p is no pattern; `TooLarge` exactly where the list is over the limits
/// of a tree.
pub fn split(alloc: Global, patterns: &mut Patterns, arguments: &[Tree]) -> Result<Tree, Refused>
    ensures { Gives (λ t. t) refusal result (split_of arguments.now) }
{
    match by_count(arguments) {
        Arguments::Two(source, text) => split_all(alloc, patterns, source, text),
        Arguments::Three(source, most, text) => split_most(alloc, patterns, source, most, text),
        _ => Err(Refused::BadArgument),
    }
}

fn split_all(
    alloc: Global,
    patterns: &mut Patterns,
    source: &Tree,
    text: &Tree,
) -> Result<Tree, Refused>
    ensures { Gives (λ t. t) refusal result (split_of (source.now ∷ text.now ∷ [])) }
{
    let (Some(source), Some(text)) = (source.as_text(), text.as_text()) else {
        return Err(Refused::BadArgument);
    };
    split_at_all(alloc, patterns, source, text)
}

fn split_at_all(
    alloc: Global,
    patterns: &mut Patterns,
    source: &str,
    text: &str,
) -> Result<Tree, Refused>
    ensures { Gives (λ t. t) refusal result
        (split_of (plain.text source.now ∷ plain.text text.now ∷ [])) }
{
    let Some(searcher) = patterns.kept(source)? else {
        let mut searcher = patterns.once(alloc, source)?;
        return split_by(alloc, &mut *searcher, None, text);
    };
    split_by(alloc, searcher, None, text)
}

fn split_most(
    alloc: Global,
    patterns: &mut Patterns,
    source: &Tree,
    most: &Tree,
    text: &Tree,
) -> Result<Tree, Refused>
    ensures { Gives (λ t. t) refusal result (split_of (source.now ∷ most.now ∷ text.now ∷ [])) }
{
    let (Some(source), Some(most), Some(text)) = (source.as_text(), most.as_long(), text.as_text())
    else {
        return Err(Refused::BadArgument);
    };
    split_at_most(alloc, patterns, source, most, text)
}

fn split_at_most(
    alloc: Global,
    patterns: &mut Patterns,
    source: &str,
    most: i64,
    text: &str,
) -> Result<Tree, Refused>
    ensures { Gives (λ t. t) refusal result
        (split_of (plain.text source.now ∷ plain.long most ∷ plain.text text.now ∷ [])) }
{
    let Some(searcher) = patterns.kept(source)? else {
        let mut searcher = patterns.once(alloc, source)?;
        return split_by(alloc, &mut *searcher, limit(most), text);
    };
    split_by(alloc, searcher, limit(most), text)
}

// A number of 1 or more as a limit.
fn limit(most: i64) -> Option<usize>
    ensures { result ≡ limit_of most }
{
    if 0 < most { Some(most as usize) } else { None }
}

// The list of the texts between the matches, at most so many.
fn split_by(
    alloc: Global,
    searcher: &mut Searcher<'_>,
    limit: Option<usize>,
    text: &str,
) -> Result<Tree, Refused>
    ensures { Gives (λ t. t) refusal result (split_within limit searcher.old text.now) }
{
    let pieces = pieces(alloc, &mut searcher.matcher, limit, text)?;
    Tree::list(alloc, pieces)
}

fn pieces(
    alloc: Global,
    matcher: &mut Matcher<'_>,
    limit: Option<usize>,
    text: &str,
) -> Result<Vec<Tree>, AllocError>
    ensures ok { IfOk result (λ v. v.items ≡ pieces_of text.now
        (cuts limit (find_all_str (matcher_pattern matcher.old) text.now))) }
    ensures same { matcher_pattern matcher.new ≡ matcher_pattern matcher.old }
    ensures names { matcher_names matcher.new ≡ matcher_names matcher.old }
{
    let mut made = Vec::new(alloc);
    let mut left = one_less(limit);
    let mut after = 0;
    while let Some(cut) = next_cut(matcher, text, left, after) {
        made.push(piece(alloc, text, after, cut.start())?)?;
        left = one_less(left);
        after = cut.end() + 1;
    }
    made.push(piece(alloc, text, after, text.len())?)?;
    Ok(made)
}

fn one_less(limit: Option<usize>) -> Option<usize>
    ensures { result ≡ option_map (λ n. n - 1) limit }
{
    match limit {
        Some(n) => Some(n.saturating_sub(1)),
        None => None,
    }
}

fn is_spent(left: Option<usize>) -> bool
    ensures { result ≡ is_spent left }
{
    match left {
        Some(n) => n == 0,
        None => false,
    }
}

// The next match, where it is cut at. `after`: one more than the end of the last match, or 0 before
// the first.
fn next_cut<'h>(
    matcher: &mut Matcher<'_>,
    text: &'h str,
    left: Option<usize>,
    after: usize,
) -> Option<Match<'h>>
    ensures found { MatchOption result
        (matches_left true (matcher_pattern matcher.old) text.now left after ≡ [])
        (λ x. (m : _) × IsNextLeft true (matcher_pattern matcher.old) text.now left after m
        (match_span x)) }
    ensures same { matcher_pattern matcher.new ≡ matcher_pattern matcher.old }
    ensures names { matcher_names matcher.new ≡ matcher_names matcher.old }
{
    if is_spent(left) {
        return None;
    }
    next_found(matcher, text, after)
}

// The next match: an empty one that touches the last one is none.
fn next_found<'h>(matcher: &mut Matcher<'_>, text: &'h str, after: usize) -> Option<Match<'h>>
    ensures found { option_map match_span result
        ≡ option_map span (next_match true (matcher_pattern matcher.old) text.now after) }
    ensures same { matcher_pattern matcher.new ≡ matcher_pattern matcher.old }
    ensures names { matcher_names matcher.new ≡ matcher_names matcher.old }
{
    let Some(found) = matcher.find_at(text, after.saturating_sub(1)) else {
        return None;
    };
    if after <= found.end() {
        return Some(found);
    }
    matcher.find_at(text, after)
}

// The text from the end of the last match to a place. They are always places between characters.
fn piece(alloc: Global, text: &str, after: usize, end: usize) -> Result<Tree, AllocError>
    ensures { IfOk result (λ t. t ≡ plain.text (slice_range text.now (after - 1) end)) }
{
    match text.get(after.saturating_sub(1)..end) {
        Some(piece) => short_text(alloc, piece),
        None => Err(AllocError),
    }
}
