ghost use Rattle.std.specs.Prelude.{◌≡◌, ◌≢◌, IfErr, IfOk, IfSome, None, Some, slice_get};
ghost use Rattle.path_tree.specs.declared.refused.Refused.TheVariants.{BadPattern, Memory};
ghost use Rattle.builtins_patterns.specs.Pattern.{IsCompiled, pattern_of};

use crate::pattern::compiled;
use crate::searcher::{Searcher, leaked};
use base::Text;
use path_tree::Refused;
use regex::Regex;
use std::alloc::{AllocError, Global};
use std::marker::Model;

/// Patterns that have a matcher beside them for as long as the program runs. A matcher borrows its
/// pattern, and a struct cannot keep both, so such a pattern is never freed: this bounds the memory
/// that is not given back.
const MAX_LEAKED: usize = 32;

/// Patterns that are kept at one time beside those. A matcher is made for each call of one.
const MAX_KEPT: usize = 64;

/// Patterns that were compiled before, so that one that is asked for again is not compiled again.
/// The first `MAX_LEAKED` keep a matcher too. What a call answers does not depend on them, and
/// contracts say nothing of what is kept.
#[derive(Drop)]
pub struct Patterns {
    alloc: Global,
    searchers: Vec<Searcher<'static>>,
    kept: Vec<Kept>,
}

// A pattern with its text, which is what contracts see.
#[derive(Drop)]
struct Kept {
    source: Text,
    pattern: Regex,
}

impl Model for Kept {
    ghost use Rattle.std.specs.Prelude.{ℕ, List};
    ghost use Rattle.builtins_patterns.specs.Pattern.{IsCompiled};

    ghost Value = { List ℕ };

    ghost view = { λ k. k.source };

    ghost invariant = { λ k. IsCompiled k.source k.pattern };
}

impl Kept {
    fn new(alloc: Global, source: &str, pattern: Regex) -> Result<Kept, AllocError>
        requires { IsCompiled source.now pattern }
    {
        let source = Text::new(alloc, source)?;
        Ok(Kept { source, pattern })
    }

    // Its pattern, where it is that of the text.
    fn pattern_of(&self, source: &str) -> Option<&Regex>
        ensures { IfSome result (λ r. IsCompiled source.now r.now) }
    {
        if self.source.as_str() == source {
            Some(&self.pattern)
        } else {
            None
        }
    }
}

impl Patterns {
    /// No pattern.
    pub fn new(alloc: Global) -> Patterns {
        Patterns {
            alloc,
            searchers: Vec::new(alloc),
            kept: Vec::new(alloc),
        }
    }

    /// The pattern of a text with its matcher, where both are kept: one that is new is kept so while
    /// there is room. Errors as of `compiled`.
    pub(crate) fn kept(&mut self, source: &str) -> Result<Option<&mut Searcher<'static>>, Refused>
        ensures ok { IfOk result (λ o. IfSome o (λ s. s.now ≡ source.now)) }
        ensures err { IfErr result
            (λ e. e ≢ Memory → (e ≡ BadPattern) × (pattern_of source.now ≡ None)) }
    {
        let Some(place) = self.place(source)? else {
            return Ok(None);
        };
        Ok(self.searchers.get_mut(place))
    }

    /// The pattern of a text with a matcher for one call. A matcher takes some thousand bytes: boxed,
    /// it takes none in the frame of a call that has one at hand. Errors as of `compiled`.
    #[inline(never)]
    pub(crate) fn once(&mut self, alloc: Global, source: &str) -> Result<Box<Searcher<'_>>, Refused>
        ensures ok { IfOk result (λ s. s.value ≡ source.now) }
        ensures err { IfErr result
            (λ e. e ≢ Memory → (e ≡ BadPattern) × (pattern_of source.now ≡ None)) }
    {
        let pattern = self.pattern(source)?;
        let searcher = Searcher::new(alloc, source, pattern)?;
        Ok(Box::new(alloc, searcher)?)
    }

    // Its place among those with a matcher, where it is one of them.
    fn place(&mut self, source: &str) -> Result<Option<usize>, Refused>
        ensures ok { IfOk result (λ o. IfSome o
            (λ i. slice_get self.new.searchers.items i ≡ Some source.now)) }
        ensures err { IfErr result
            (λ e. e ≢ Memory → (e ≡ BadPattern) × (pattern_of source.now ≡ None)) }
    {
        let found = place_in(&self.searchers, source);
        if found.is_some() || self.searchers.len() >= MAX_LEAKED {
            return Ok(found);
        }
        let place = self.add(source)?;
        Ok(Some(place))
    }

    // The place of a new one, which comes behind the others. It is seldom called: apart, it takes
    // no room for a pattern and a matcher in the frame of each call.
    #[inline(never)]
    fn add(&mut self, source: &str) -> Result<usize, Refused>
        ensures ok { IfOk result (λ i. slice_get self.new.searchers.items i ≡ Some source.now) }
        ensures err { IfErr result
            (λ e. e ≢ Memory → (e ≡ BadPattern) × (pattern_of source.now ≡ None)) }
    {
        let pattern = compiled(self.alloc, source)?;
        let searcher = leaked(self.alloc, source, pattern)?;
        let place = self.searchers.len();
        self.searchers.push(searcher)?;
        Ok(place)
    }

    // The pattern of a text, kept for the next call.
    fn pattern(&mut self, source: &str) -> Result<&Regex, Refused>
        ensures ok { IfOk result (λ r. IsCompiled source.now r.now) }
        ensures err { IfErr result
            (λ e. e ≢ Memory → (e ≡ BadPattern) × (pattern_of source.now ≡ None)) }
    {
        if self.known(source).is_none() {
            let pattern = compiled(self.alloc, source)?;
            self.keep(source, pattern)?;
        }
        match self.known(source) {
            Some(pattern) => Ok(pattern),
            None => Err(Refused::Memory),
        }
    }

    fn known(&self, source: &str) -> Option<&Regex>
        ensures { IfSome result (λ r. IsCompiled source.now r.now) }
    {
        for kept in &self.kept {
            if let Some(pattern) = kept.pattern_of(source) {
                return Some(pattern);
            }
        }
        None
    }

    // All are dropped once `MAX_KEPT` are kept, so that they take a bounded room.
    fn keep(&mut self, source: &str, pattern: Regex) -> Result<(), AllocError>
        requires { IsCompiled source.now pattern }
    {
        if self.kept.len() >= MAX_KEPT {
            self.kept.clear();
        }
        let kept = Kept::new(self.alloc, source, pattern)?;
        self.kept.push(kept)?;
        Ok(())
    }
}

// The place of the pattern of a text.
fn place_in(searchers: &[Searcher<'static>], source: &str) -> Option<usize>
    ensures { IfSome result (λ i. slice_get searchers.now i ≡ Some source.now) }
{
    for i in 0..searchers.len() {
        if searchers[i].source() == source {
            return Some(i);
        }
    }
    None
}
