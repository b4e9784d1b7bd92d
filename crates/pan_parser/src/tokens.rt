ghost use Rattle.std.specs.Prelude.{◌≡◌, ◌<◌, ◌∷◌, [], IfOk, MatchOption, length};
ghost use Rattle.pan_ast.specs.declared.token.Token.{Token};
ghost use Rattle.pan_ast.specs.Sorts.{sort};
ghost use Rattle.pan_grammar.specs.Machine.{run};
ghost use Rattle.pan_grammar.specs.States.{State};
ghost use Rattle.pan_parser.specs.Answers.{Goes, Wants, NotAt, IsAt, takes};

use crate::stopped::Stopped;
use pan_ast::{Sort, Token};

/// The first token, and the tokens after it.
pub(crate) fn cut(tokens: &[Token]) -> Option<(&Token, &[Token])>
    ensures { MatchOption result (tokens.now ≡ []) (λ r. tokens.now ≡ r.0.now ∷ r.1.now) }
{
    match tokens {
        [] => None,
        [first, rest @ ..] => Some((first, rest)),
    }
}

/// The tokens after the first, where that is of the sort.
pub(crate) fn next_is(wanted: Sort, tokens: &[Token]) -> Option<&[Token]>
    ensures { MatchOption result (NotAt wanted tokens.now) (λ r. IsAt wanted tokens.now r.now) }
{
    let Some((first, rest)) = cut(tokens) else {
        return None;
    };
    if wanted.is(first.sort()) {
        Some(rest)
    } else {
        None
    }
}

/// What a token is expected to be.
#[derive(Clone, Copy)]
pub enum Expected {
    /// A token of this sort.
    Sort(Sort),
    /// A word.
    Word,
    /// A word that may be the name of a type.
    TypeName,
    /// `:` or `?`
    Mark,
    /// `=` or `?=`
    Setting,
}

impl Expected {
    /// Whether a token of the sort is what is expected.
    fn takes(self, sort: Sort) -> bool
        ensures { result ≡ takes self sort }
    {
        match self {
            Expected::Sort(wanted) => wanted.is(sort),
            Expected::Word => sort.is_word(),
            Expected::TypeName => sort.is_type_name(),
            Expected::Mark => Sort::Colon.is(sort) || Sort::Question.is(sort),
            Expected::Setting => Sort::Assign.is(sort) || Sort::ConditionalAssign.is(sort),
        }
    }
}

/// The token that is expected, and the tokens after it.
pub(crate) fn expect(
    expected: Expected,
    tokens: &[Token],
) -> Result<(&Token, &[Token]), Stopped<'_>>
    ensures read { (s : State) (next : Token → State) → Wants s (λ t. takes expected (sort t))
        next → Goes result (λ r. run r.1.now (next r.0.now)) (run tokens.now s) }
    ensures shorter { IfOk result (λ r. length r.1.now < length tokens.now) }
{
    let Some((first, rest)) = cut(tokens) else {
        return Err(Stopped::Bad(tokens));
    };
    if expected.takes(first.sort()) {
        Ok((first, rest))
    } else {
        Err(Stopped::Bad(tokens))
    }
}
