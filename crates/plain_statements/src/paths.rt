ghost use Rattle.std.specs.Prelude.{◌≡◌, ◌++◌, IfOk, option_map};
ghost use Rattle.path_tree.specs.Paths.{path_of};
ghost use Rattle.template_meaning.specs.Statements.{absolute, absolute_prefix, behind, path_terms, prefix_of, prefix_run, terms_of};
ghost use Rattle.plain_statements.specs.Executions.{Executes};

use crate::execution::Execution;
use assign_rules::{push_terms, share_terms};
use base::{Seq, Text};
use dml_runner::DmlRunner;
use dml_world::leaf::stop_on;
use dml_world::{Stop, World};
use pan_ast::{Code, Place};
use path_tree::{Anchor, Path, PathError, Term};
use std::alloc::{AllocError, Global};
use std::sync::ledger::Ledger;

/// The path before relative ones, where a prefix holds.
pub type Prefix = Option<Seq<Term>>;

/// A path of these terms behind those of another.
fn joined(alloc: Global, first: &[Term], second: &[Term]) -> Result<Seq<Term>, AllocError>
    ensures { IfOk result (λ ms. ms ≡ first.now ++ second.now) }
{
    let mut terms = Vec::new(alloc);
    push_terms(&mut terms, first)?;
    push_terms(&mut terms, second)?;
    Ok(Seq::from_vec(terms))
}

/// The terms of a path, behind the prefix where the path is relative.
fn behind(alloc: Global, prefix: &Prefix, path: Path) -> Result<Option<Seq<Term>>, AllocError>
    ensures { IfOk result (λ o. o ≡ behind prefix.now path.anchor path.terms) }
{
    match (path.anchor, prefix) {
        (Anchor::Absolute, _) => Ok(Some(path.terms)),
        (Anchor::Relative, Some(first)) => Ok(Some(joined(
            alloc,
            first.as_slice(),
            path.terms.as_slice(),
        )?)),
        (Anchor::Relative | Anchor::External(_), _) => Ok(None),
    }
}

/// The terms that the path of a statement stands for, where it stands for any.
fn terms_of(alloc: Global, prefix: &Prefix, text: &Text) -> Result<Option<Seq<Term>>, AllocError>
    ensures { IfOk result (λ o. o ≡ terms_of prefix.now (path_of text.now)) }
{
    match Path::parse(alloc, text) {
        Ok(path) => behind(alloc, prefix, path),
        Err(PathError::Memory) => Err(AllocError),
        Err(_) => Ok(None),
    }
}

/// The terms of the path of a statement: an absolute one, or a relative one under a prefix.
#[tactic(auto, using(crate::proofs::Stopping::sought_leaves))]
pub(crate) fn path_terms<D: DmlRunner, W: World, L: Ledger>(
    prefix: &Prefix,
    place: &Place,
    text: &Text,
    execution: &Execution<'_, '_, '_, D, W, L>,
) -> Result<Seq<Term>, Stop>
    ensures { Executes (λ ms. ms) result W.World execution.now execution.now
        (path_terms prefix.now place.now text.now) }
{
    match terms_of(execution.alloc, prefix, text)? {
        Some(terms) => Ok(terms),
        None => Err(stop_on(execution.alloc, Code::BadPath, place, text.as_str())),
    }
}

/// An absolute path in plain form.
pub(crate) fn absolute(alloc: Global, terms: &[Term]) -> Result<Text, AllocError>
    ensures { IfOk result (λ t. t ≡ absolute terms.now) }
{
    let path = Path {
        anchor: Anchor::Absolute,
        terms: share_terms(alloc, terms)?,
    };
    Text::from_string(path.text(alloc)?)
}

/// The prefix that a path is, where it is absolute.
fn absolute_prefix(path: Path) -> Option<Prefix>
    ensures { result ≡ absolute_prefix path.anchor path.terms }
{
    match path.anchor {
        Anchor::Absolute => Some(Some(path.terms)),
        Anchor::Relative | Anchor::External(_) => None,
    }
}

/// The prefix that a text sets: none where it is empty.
fn prefix_of(alloc: Global, text: &Text) -> Result<Option<Prefix>, AllocError>
    ensures { IfOk result (λ o. o ≡ prefix_of text.now (path_of text.now)) }
{
    if text.as_str().is_empty() {
        return Ok(Some(None));
    }
    match Path::parse(alloc, text) {
        Ok(path) => Ok(absolute_prefix(path)),
        Err(PathError::Memory) => Err(AllocError),
        Err(_) => Ok(None),
    }
}

/// The prefix that holds from a statement on.
#[tactic(auto, using(crate::proofs::Stopping::sought_leaves))]
pub fn run_prefix<D: DmlRunner, W: World, L: Ledger>(
    place: &Place,
    text: &Text,
    execution: &Execution<'_, '_, '_, D, W, L>,
) -> Result<Prefix, Stop>
    ensures { Executes (λ q. q) result W.World execution.now execution.now
        (prefix_run place.now text.now) }
{
    match prefix_of(execution.alloc, text)? {
        Some(prefix) => Ok(prefix),
        None => Err(stop_on(execution.alloc, Code::BadPath, place, text.as_str())),
    }
}
