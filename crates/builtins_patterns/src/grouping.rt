ghost use Rattle.std.specs.Prelude.{◌≡◌, ◌∷◌, [], IfOk, length};
ghost use Rattle.regex.specs.Patterns.{find_str};
ghost use Rattle.regex.specs.Replace.{bytes_of};
ghost use Rattle.regex.specs.Strings.{captures_haystack, captures_names, captures_span, matcher_names, matcher_pattern};
ghost use Rattle.base.specs.Answers.{Gives};
ghost use Rattle.path_tree.specs.Plain as plain;
ghost use Rattle.path_tree.specs.Refusals.{refusal};
ghost use Rattle.builtins_patterns.specs.Calls.{groups_of, matches_of};
ghost use Rattle.builtins_patterns.specs.Pieces.{captured};

use crate::pattern::short_text;
use crate::patterns::Patterns;
use crate::searcher::Searcher;
use call_values::{Arguments, by_count};
use path_tree::{Refused, Tree};
use regex::{Captures, Matcher};
use std::alloc::{AllocError, Global};

/// `matches(t, p)`: the list of what each group of the first match of the pattern p in t matched,
/// the whole match first, and the empty text for a group that took no part; an empty list without a
/// match. `BadArgument` where the arguments are not two texts, `BadPattern` exactly where p is no
/// pattern, `TooLarge` exactly where the list is over the limits of a tree.
pub fn matches(alloc: Global, patterns: &mut Patterns, arguments: &[Tree]) -> Result<Tree, Refused>
    ensures { Gives (λ t. t) refusal result (matches_of arguments.now) }
{
    let Arguments::Two(text, source) = by_count(arguments) else {
        return Err(Refused::BadArgument);
    };
    let (Some(text), Some(source)) = (text.as_text(), source.as_text()) else {
        return Err(Refused::BadArgument);
    };
    groups_in(alloc, patterns, text, source)
}

fn groups_in(
    alloc: Global,
    patterns: &mut Patterns,
    text: &str,
    source: &str,
) -> Result<Tree, Refused>
    ensures { Gives (λ t. t) refusal result
        (matches_of (plain.text text.now ∷ plain.text source.now ∷ [])) }
{
    let Some(searcher) = patterns.kept(source)? else {
        let mut searcher = patterns.once(alloc, source)?;
        return groups(alloc, &mut *searcher, text);
    };
    groups(alloc, searcher, text)
}

fn groups(alloc: Global, searcher: &mut Searcher<'_>, text: &str) -> Result<Tree, Refused>
    ensures { Gives (λ t. t) refusal result
        (matches_of (plain.text text.now ∷ plain.text searcher.old ∷ [])) }
{
    let groups = first_groups(alloc, &mut searcher.matcher, text)?;
    Tree::list(alloc, groups)
}

// What the groups of the first match matched.
#[tactic(auto, using(crate::proofs::Captured::captured_is))]
fn first_groups(
    alloc: Global,
    matcher: &mut Matcher<'_>,
    text: &str,
) -> Result<Vec<Tree>, AllocError>
    ensures ok { IfOk result (λ v. v.items
        ≡ groups_of text.now (length (matcher_names matcher.old))
        (find_str (matcher_pattern matcher.old) text.now 0)) }
    ensures same { matcher_pattern matcher.new ≡ matcher_pattern matcher.old }
    ensures names { matcher_names matcher.new ≡ matcher_names matcher.old }
{
    match matcher.captures(text) {
        Some(captures) => texts(alloc, &captures),
        None => Ok(Vec::new(alloc)),
    }
}

#[tactic(auto, using(crate::proofs::Captured::captured_next))]
fn texts(alloc: Global, captures: &Captures<'_, '_>) -> Result<Vec<Tree>, AllocError>
    ensures { IfOk result
        (λ v. v.items ≡ captured captures.now 0 (length (captures_names captures.now))) }
{
    let mut made = Vec::new(alloc);
    for n in 0..captures.len() {
        made.push(short_text(alloc, group(captures, n))?)?;
    }
    Ok(made)
}

// What a group matched, or nothing.
pub(crate) fn group<'h>(captures: &Captures<'_, 'h>, n: usize) -> &'h str
    ensures { result.now
        ≡ bytes_of (captures_haystack captures.now) (captures_span captures.now n) }
{
    match captures.get(n) {
        Some(found) => found.as_str(),
        None => "",
    }
}
