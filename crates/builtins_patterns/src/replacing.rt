ghost use Rattle.std.specs.Prelude.{◌≡◌, ◌++◌, ◌∷◌, [], ℕ, List, IfOk, OnOk, slice_range, true};
ghost use Rattle.regex.specs.Patterns.{find_str};
ghost use Rattle.regex.specs.Search.{next_match};
ghost use Rattle.regex.specs.Strings.{matcher_names, matcher_pattern, regex_names, regex_pattern};
ghost use Rattle.base.specs.Answers.{Gives};
ghost use Rattle.call_values.specs.Drafts.{drafted};
ghost use Rattle.path_tree.specs.Plain as plain;
ghost use Rattle.path_tree.specs.Refusals.{refusal};
ghost use Rattle.path_tree.specs.Values.{text_value};
ghost use Rattle.builtins_patterns.specs.Calls.{replace_of, rewritten};
ghost use Rattle.builtins_patterns.specs.Parts.{WritesNext, captured_text, part_text, written};

use crate::grouping::group;
use crate::patterns::Patterns;
use crate::searcher::Searcher;
use crate::template::{Part, parts};
use call_values::{Arguments, Draft, by_count};
use path_tree::{Refused, Tree};
use regex::{Captures, Matcher, Regex};
use std::alloc::{AllocError, Global};

/// `replace(p, r, t)`: t with each match of the pattern p replaced by what the template r writes
/// there. `BadArgument` where the arguments are not three texts, `BadPattern` exactly where p is no
/// pattern, `TooLarge` exactly where the text has over `MAX_TEXT_BYTES` bytes; no more of it than
/// these is put together.
pub fn replace(alloc: Global, patterns: &mut Patterns, arguments: &[Tree]) -> Result<Tree, Refused>
    ensures { Gives (λ t. t) refusal result (replace_of arguments.now) }
{
    let Arguments::Three(source, template, text) = by_count(arguments) else {
        return Err(Refused::BadArgument);
    };
    let (Some(source), Some(template), Some(text)) = (
        source.as_text(),
        template.as_text(),
        text.as_text(),
    ) else {
        return Err(Refused::BadArgument);
    };
    replaced(alloc, patterns, source, template, text)
}

fn replaced(
    alloc: Global,
    patterns: &mut Patterns,
    source: &str,
    template: &str,
    text: &str,
) -> Result<Tree, Refused>
    ensures { Gives (λ t. t) refusal result (replace_of
        (plain.text source.now ∷ plain.text template.now ∷ plain.text text.now ∷ [])) }
{
    let Some(searcher) = patterns.kept(source)? else {
        let mut searcher = patterns.once(alloc, source)?;
        return replaced_by(alloc, &mut *searcher, template, text);
    };
    replaced_by(alloc, searcher, template, text)
}

fn replaced_by(
    alloc: Global,
    searcher: &mut Searcher<'_>,
    template: &str,
    text: &str,
) -> Result<Tree, Refused>
    ensures { Gives (λ t. t) refusal result (replace_of
        (plain.text searcher.old ∷ plain.text template.now ∷ plain.text text.now ∷ [])) }
{
    rewritten(
        alloc,
        searcher.pattern,
        &mut searcher.matcher,
        template,
        text,
    )
}

// The text with what the template writes in the place of each match.
fn rewritten(
    alloc: Global,
    pattern: &Regex,
    matcher: &mut Matcher<'_>,
    template: &str,
    text: &str,
) -> Result<Tree, Refused>
    requires { matcher_pattern matcher.old ≡ regex_pattern pattern.now }
    ensures value { Gives (λ t. t) refusal result (text_value (rewritten
        (record { meaning = regex_pattern pattern.now; names = regex_names pattern.now })
        template.now text.now)) }
    ensures same { matcher_pattern matcher.new ≡ matcher_pattern matcher.old }
    ensures names { matcher_names matcher.new ≡ matcher_names matcher.old }
{
    let parts = parts(alloc, pattern, template)?;
    let mut draft = Draft::new(alloc);
    let mut after = 0;
    while let Some(end) = write_next(matcher, &mut draft, &parts, text, after)? {
        after = end + 1;
    }
    write_between(&mut draft, text, after.saturating_sub(1), text.len())?;
    draft.finish()
}

// Writes up to the end of the next match, and answers that end.
fn write_next(
    matcher: &mut Matcher<'_>,
    draft: &mut Draft,
    parts: &[Part<'_>],
    text: &str,
    after: usize,
) -> Result<Option<usize>, AllocError>
    ensures ok { IfOk result
        (WritesNext (matcher_pattern matcher.old) parts.now text.now after draft.old draft.new) }
    ensures same { matcher_pattern matcher.new ≡ matcher_pattern matcher.old }
    ensures names { matcher_names matcher.new ≡ matcher_names matcher.old }
{
    let start = next_start(matcher, text, after);
    let Some(captures) = matcher.captures_at(text, start) else {
        return Ok(None);
    };
    let found = captures.get_match();
    write_between(draft, text, after.saturating_sub(1), found.start())?;
    write_parts(draft, parts, &captures)?;
    Ok(Some(found.end()))
}

// From where the next match is the leftmost: an empty match that touches the last one is none.
fn next_start(matcher: &mut Matcher<'_>, text: &str, after: usize) -> usize
    ensures value { find_str (matcher_pattern matcher.old) text.now result
        ≡ next_match true (matcher_pattern matcher.old) text.now after }
    ensures same { matcher_pattern matcher.new ≡ matcher_pattern matcher.old }
    ensures names { matcher_names matcher.new ≡ matcher_names matcher.old }
{
    if after == 0 {
        return 0;
    }
    match matcher.find_at(text, after - 1) {
        Some(found) => if found.end() < after {
            after
        } else {
            after - 1
        },
        None => after - 1,
    }
}

// Writes the text between two places. They are always places between characters.
fn write_between(draft: &mut Draft, text: &str, start: usize, end: usize) -> Result<(), AllocError>
    ensures { OnOk result ((w : List ℕ) → draft.old ≡ drafted w
        → draft.new ≡ drafted (w ++ slice_range text.now start end)) }
{
    match text.get(start..end) {
        Some(part) => draft.push(part),
        None => Err(AllocError),
    }
}

// Writes what the parts of a template write at a match.
fn write_parts(
    draft: &mut Draft,
    parts: &[Part<'_>],
    captures: &Captures<'_, '_>,
) -> Result<(), AllocError>
    ensures { OnOk result ((w : List ℕ) → draft.old ≡ drafted w
        → draft.new ≡ drafted (w ++ written (captured_text captures.now) parts.now)) }
{
    for part in parts {
        write_part(draft, part, captures)?;
    }
    Ok(())
}

fn write_part(
    draft: &mut Draft,
    part: &Part<'_>,
    captures: &Captures<'_, '_>,
) -> Result<(), AllocError>
    ensures { OnOk result ((w : List ℕ) → draft.old ≡ drafted w
        → draft.new ≡ drafted (w ++ part_text (captured_text captures.now) part.now)) }
{
    match part {
        Part::Text(text) => draft.push(text),
        Part::Group(n) => draft.push(group(captures, *n)),
        Part::Nothing => Ok(()),
    }
}
