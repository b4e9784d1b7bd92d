ghost use Rattle.std.specs.Prelude.{◌≡◌, ◌++◌, IfOk, OnOk};

use base::Seq;
use path_tree::Term;
use std::alloc::{AllocError, Global};

fn share_term(term: &Term) -> Result<Term, AllocError>
    ensures { IfOk result (λ t. t ≡ term.now) }
{
    match term {
        Term::Key(key) => Ok(Term::Key(key.share()?)),
        Term::Index(index) => Ok(Term::Index(*index)),
    }
}

/// Puts terms behind those of a list, sharing their keys.
pub fn push_terms(list: &mut Vec<Term>, terms: &[Term]) -> Result<(), AllocError>
    ensures { OnOk result (list.new.items ≡ list.old.items ++ terms.now) }
{
    for term in terms {
        list.push(share_term(term)?)?;
    }
    Ok(())
}

/// The same terms, as a list of its own whose keys are shared.
pub fn share_terms(alloc: Global, terms: &[Term]) -> Result<Seq<Term>, AllocError>
    ensures { IfOk result (λ ts. ts ≡ terms.now) }
{
    let mut shared = Vec::with_capacity(alloc, terms.len())?;
    push_terms(&mut shared, terms)?;
    Ok(Seq::from_vec(shared))
}
