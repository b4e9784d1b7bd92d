ghost use Rattle.std.specs.Prelude.{◌≡◌, ◌++◌, OnOk};

use path_tree::Term;
use std::alloc::AllocError;

/// Copies of terms, behind others.
pub fn push_terms(terms: &mut Vec<Term>, more: &[Term]) -> Result<(), AllocError>
    ensures { OnOk result (terms.new.items ≡ terms.old.items ++ more.now) }
{
    for term in more {
        terms.push(term.clone()?)?;
    }
    Ok(())
}
