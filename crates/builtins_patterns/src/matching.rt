ghost use Rattle.std.specs.Prelude.{◌≡◌, ◌∷◌, [], Ok};
ghost use Rattle.base.specs.Answers.{Gives};
ghost use Rattle.path_tree.specs.Plain as plain;
ghost use Rattle.path_tree.specs.Refusals.{refusal};
ghost use Rattle.builtins_patterns.specs.Calls.{match_of};

use crate::patterns::Patterns;
use crate::searcher::Searcher;
use call_values::{Arguments, by_count};
use path_tree::{Refused, Tree};
use std::alloc::Global;

/// `match(t, p)`: whether the pattern p matches somewhere in t. `BadArgument` where the arguments
/// are not two texts, `BadPattern` exactly where p is no pattern.
pub fn match_call(
    alloc: Global,
    patterns: &mut Patterns,
    arguments: &[Tree],
) -> Result<Tree, Refused>
    ensures { Gives (λ t. t) refusal result (match_of arguments.now) }
{
    let Arguments::Two(text, source) = by_count(arguments) else {
        return Err(Refused::BadArgument);
    };
    let (Some(text), Some(source)) = (text.as_text(), source.as_text()) else {
        return Err(Refused::BadArgument);
    };
    matches_somewhere(alloc, patterns, text, source)
}

fn matches_somewhere(
    alloc: Global,
    patterns: &mut Patterns,
    text: &str,
    source: &str,
) -> Result<Tree, Refused>
    ensures { Gives (λ t. t) refusal result
        (match_of (plain.text text.now ∷ plain.text source.now ∷ [])) }
{
    let Some(searcher) = patterns.kept(source)? else {
        let mut searcher = patterns.once(alloc, source)?;
        return Ok(Tree::boolean(is_match(&mut *searcher, text)));
    };
    Ok(Tree::boolean(is_match(searcher, text)))
}

// Whether its pattern matches somewhere.
fn is_match(searcher: &mut Searcher<'_>, text: &str) -> bool
    ensures { match_of (plain.text text.now ∷ plain.text searcher.old ∷ [])
        ≡ Ok (plain.boolean result) }
{
    searcher.matcher.is_match(text)
}
