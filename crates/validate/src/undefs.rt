ghost use Rattle.std.specs.Prelude.{◌≡◌, ◌∷◌, IfOk, option_map};
ghost use Rattle.path_tree.specs.Children.{child_fields, child_items};
ghost use Rattle.path_tree.specs.Find.{child_at, key_at, kind_of};
ghost use Rattle.path_tree.specs.declared.kind.Kind.TheVariants as kind;
ghost use Rattle.validate.specs.Checked.{first_undef, undef_in_fields, undef_in_items};
ghost use Rattle.validate.specs.Walks.{terms_in, undef_at_index, undef_at_key};

use path_tree::{Kind, Term, Tree};
use std::alloc::{AllocError, Global};

/// The terms with one before them, where there are some.
fn below(term: Term, found: Option<Vec<Term>>) -> Result<Option<Vec<Term>>, AllocError>
    ensures { IfOk result (λ o. terms_in o ≡ option_map (λ ms. term ∷ ms) (terms_in found)) }
{
    match found {
        None => Ok(None),
        Some(mut terms) => {
            terms.insert(0, term)?;
            Ok(Some(terms))
        }
    }
}

/// The terms that lead to the first undef, a container before its children and children in order.
#[cycle(undefs)]
#[tactic(auto, using(crate::proofs::Searching::finds))]
pub(crate) fn first_undef(alloc: Global, tree: &Tree) -> Result<Option<Vec<Term>>, AllocError>
    ensures { IfOk result (λ o. terms_in o ≡ first_undef tree.now) }
{
    match tree.kind() {
        Kind::Undef => Ok(Some(Vec::new(alloc))),
        Kind::List => undef_in_list(alloc, tree),
        Kind::Dict => undef_in_dict(alloc, tree),
        Kind::Text => Ok(None),
        Kind::Long => Ok(None),
        Kind::Bool => Ok(None),
        Kind::Null => Ok(None),
    }
}

#[cycle(undefs)]
#[tactic(auto, using(crate::proofs::Searching::in_items))]
fn undef_in_list(alloc: Global, tree: &Tree) -> Result<Option<Vec<Term>>, AllocError>
    requires { kind_of tree.now ≡ kind.List }
    ensures { IfOk result (λ o. terms_in o ≡ undef_in_items 0 (child_items tree.now)) }
{
    for i in 0..tree.len() {
        let found = undef_at_index(alloc, tree, i)?;
        if found.is_some() {
            return Ok(found);
        }
    }
    Ok(None)
}

#[cycle(undefs)]
fn undef_at_index(alloc: Global, tree: &Tree, i: usize) -> Result<Option<Vec<Term>>, AllocError>
    ensures { IfOk result (λ o. terms_in o ≡ undef_at_index i (child_at i tree.now)) }
{
    let Some(child) = tree.child_at(i) else {
        return Ok(None);
    };
    let Some(terms) = first_undef(alloc, child)? else {
        return Ok(None);
    };
    match u32::try_from(i) {
        Ok(i) => below(Term::Index(i), Some(terms)),
        Err(_) => Err(AllocError),
    }
}

#[cycle(undefs)]
#[tactic(auto, using(crate::proofs::Searching::in_fields))]
fn undef_in_dict(alloc: Global, tree: &Tree) -> Result<Option<Vec<Term>>, AllocError>
    requires { kind_of tree.now ≡ kind.Dict }
    ensures { IfOk result (λ o. terms_in o ≡ undef_in_fields (child_fields tree.now)) }
{
    for i in 0..tree.len() {
        let found = undef_at_key(alloc, tree, i)?;
        if found.is_some() {
            return Ok(found);
        }
    }
    Ok(None)
}

#[cycle(undefs)]
fn undef_at_key(alloc: Global, tree: &Tree, i: usize) -> Result<Option<Vec<Term>>, AllocError>
    ensures { IfOk result (λ o. terms_in o
        ≡ undef_at_key (key_at i tree.now) (child_at i tree.now)) }
{
    let Some(key) = tree.key_handle(i) else {
        return Ok(None);
    };
    let Some(child) = tree.child_at(i) else {
        return Ok(None);
    };
    let Some(terms) = first_undef(alloc, child)? else {
        return Ok(None);
    };
    below(Term::Key(key.share()?), Some(terms))
}
