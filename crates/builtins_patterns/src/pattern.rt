ghost use Rattle.std.specs.Prelude.{◌≡◌, ◌≢◌, IfErr, IfOk, None};
ghost use Rattle.path_tree.specs.Plain as plain;
ghost use Rattle.path_tree.specs.declared.refused.Refused.TheVariants.{BadPattern, Memory};
ghost use Rattle.builtins_patterns.specs.Pattern.{IsCompiled, pattern_of};

use path_tree::{Refused, Tree};
use regex::{Error, Regex};
use std::alloc::{AllocError, Global};

/// Bytes of a pattern.
pub const MAX_PATTERN_BYTES: usize = 4096;

/// The pattern of a text. `BadPattern` exactly where the text is none. A pattern that takes more
/// room than `regex` allows is want of memory: no rule on the text says which those are.
pub(crate) fn compiled(alloc: Global, source: &str) -> Result<Regex, Refused>
    ensures ok { IfOk result (IsCompiled source.now) }
    ensures err { IfErr result
        (λ e. e ≢ Memory → (e ≡ BadPattern) × (pattern_of source.now ≡ None)) }
{
    if source.len() > MAX_PATTERN_BYTES {
        return Err(Refused::BadPattern);
    }
    match Regex::new(alloc, source) {
        Ok(pattern) => Ok(pattern),
        Err(Error::Syntax(_)) => Err(Refused::BadPattern),
        Err(Error::CompiledTooBig | Error::Internal | Error::OutOfMemory) => Err(Refused::Memory),
    }
}

/// A text as a tree. One over the limit is refused as want of memory; a part of a tree's text never
/// is.
pub(crate) fn short_text(alloc: Global, text: &str) -> Result<Tree, AllocError>
    ensures { IfOk result (λ t. t ≡ plain.text text.now) }
{
    match Tree::text(alloc, text) {
        Ok(tree) => Ok(tree),
        Err(_) => Err(AllocError),
    }
}
