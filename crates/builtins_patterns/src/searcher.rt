ghost use Rattle.std.specs.Prelude.{◌≡◌, IfOk};
ghost use Rattle.builtins_patterns.specs.Pattern.{IsCompiled};

use base::Text;
use regex::{Matcher, Regex};
use std::alloc::{AllocError, Global};
use std::marker::Model;

/// A pattern with a matcher of its own. Contracts see the text of the pattern.
#[derive(Drop)]
pub(crate) struct Searcher<'r> {
    source: Text,
    pub(crate) pattern: &'r Regex,
    pub(crate) matcher: Matcher<'r>,
}

impl<'r> Model for Searcher<'r> {
    ghost use Rattle.std.specs.Prelude.{ℕ, List};
    ghost use Rattle.builtins_patterns.specs.Pattern.{Searches};

    ghost Value = { List ℕ };

    ghost view = { λ s. s.source };

    ghost invariant = { λ s. Searches s.source s.pattern.now s.matcher };
}

impl<'r> Searcher<'r> {
    pub(crate) fn new(
        alloc: Global,
        source: &str,
        pattern: &'r Regex,
    ) -> Result<Searcher<'r>, AllocError>
        requires { IsCompiled source.now pattern.now }
        ensures { IfOk result (λ s. s ≡ source.now) }
    {
        let source = Text::new(alloc, source)?;
        let matcher = pattern.matcher(alloc)?;
        Ok(Searcher {
            source,
            pattern,
            matcher,
        })
    }

    /// The text of its pattern.
    pub(crate) fn source(&self) -> &str
        ensures { result.now ≡ self.now }
    {
        self.source.as_str()
    }
}

/// A pattern that is never freed, with its matcher.
pub(crate) fn leaked(
    alloc: Global,
    source: &str,
    pattern: Regex,
) -> Result<Searcher<'static>, AllocError>
    requires { IsCompiled source.now pattern }
    ensures { IfOk result (λ s. s ≡ source.now) }
{
    let pattern: &'static Regex = Box::leak(Box::new(alloc, pattern)?);
    Searcher::new(alloc, source, pattern)
}
