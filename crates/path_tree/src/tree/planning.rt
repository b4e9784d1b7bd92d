ghost use Rattle.std.specs.Prelude.{◌≡◌, ◌+◌, ◌<◌, ◌≤◌, ◌^◌, ◌∷◌, Err, IfOk, MatchResult, length};
ghost use Rattle.base.specs.declared.limits.TheConstants.{MAX_TREE_HEIGHT, MAX_TREE_SIZE};
ghost use Rattle.path_tree.specs.Kept.{CanWalk, Fits, IsGrown, IsMade, IsPlan, wrapped_size};
ghost use Rattle.path_tree.specs.Plain.{AreFields, dict, list, tree_height, tree_size};
ghost use Rattle.path_tree.specs.Put.{put};
ghost use Rattle.path_tree.specs.View.{fields_of, items_of};
ghost use Rattle.path_tree.specs.declared.path.Term.TheVariants as term;

use super::{Entry, Measure, Node, Tree, dicts, lists};
use crate::key::Key;
use crate::path::{PutError, Term};
use base::limits::{MAX_TREE_HEIGHT, MAX_TREE_SIZE};
use std::cmp::max;

impl Tree {
    // Whether a put goes through, but for memory.
    pub(super) fn admit(&self, terms: &[Term], value: &Tree) -> Result<(), PutError>
        ensures { MatchResult result (λ _. CanWalk terms.now value.now self.now)
            (λ e. put terms.now value.now self.now ≡ Err e) }
    {
        let plan = self.plan(0, terms, value)?;
        if max(self.height(), plan.height) > MAX_TREE_HEIGHT {
            return Err(PutError::TooHigh);
        }
        Ok(())
    }

    pub(super) fn measure(&self) -> Measure
        ensures size { result.size ≡ tree_size self.now }
        ensures height { result.height ≡ tree_height self.now }
        ensures small { result.size ≤ MAX_TREE_SIZE }
        ensures flat { result.height ≤ MAX_TREE_HEIGHT }
    {
        Measure {
            size: self.size(),
            height: self.height(),
        }
    }

    // The size that a put would leave, and a height that is the new one where it is over the old
    // one; or why the put is refused, but for the height.
    #[cycle(plan)]
    pub(super) fn plan(
        &self,
        passed: usize,
        terms: &[Term],
        value: &Tree,
    ) -> Result<Measure, PutError>
        requires { passed + length terms.now < 2 ^ 64 }
        ensures { IsPlan passed terms.now value.now self.now result }
    {
        let [term, rest @ ..] = terms else {
            return Ok(value.measure());
        };
        match &self.node {
            Node::Dict(dict) => match term {
                Term::Key(key) => plan_field(self, &dict.entries, key, passed, rest, value),
                Term::Index(_) => Err(PutError::IndexInDict),
            },
            Node::List(list) => match term {
                Term::Index(index) => {
                    plan_item(self, &list.items, *index as usize, passed, rest, value)
                }
                Term::Key(_) => Err(PutError::KeyInList),
            },
            Node::Undef | Node::Null => plan_made(terms, value),
            Node::Text(_) | Node::Long(_) | Node::Boolean(_) => {
                Err(PutError::ThroughProperty(passed))
            }
        }
    }
}

#[cycle(plan)]
fn plan_field(
    tree: &Tree,
    entries: &[Entry],
    key: &Key,
    passed: usize,
    terms: &[Term],
    value: &Tree,
) -> Result<Measure, PutError>
    requires passed { passed + 1 + length terms.now < 2 ^ 64 }
    requires fields { AreFields (fields_of entries.now) }
    requires tree { tree.now ≡ dict (fields_of entries.now) }
    ensures { IsPlan passed (term.Key key.now ∷ terms.now) value.now tree.now result }
{
    match dicts::find(entries, key) {
        None => grown(tree.size(), 0, plan_made(terms, value)),
        Some(child) => grown(
            tree.size(),
            child.size(),
            child.plan(passed + 1, terms, value),
        ),
    }
}

#[cycle(plan)]
fn plan_item(
    tree: &Tree,
    items: &[Tree],
    index: usize,
    passed: usize,
    terms: &[Term],
    value: &Tree,
) -> Result<Measure, PutError>
    requires passed { passed + 1 + length terms.now < 2 ^ 64 }
    requires index { index < 2 ^ 32 }
    requires tree { tree.now ≡ list (items_of items.now) }
    ensures { IsPlan passed (term.Index index ∷ terms.now) value.now tree.now result }
{
    match lists::item_at(items, index) {
        None => {
            let filled = tree.size() + (index - items.len()) as u64;
            grown(filled, 0, plan_made(terms, value))
        }
        Some(child) => grown(
            tree.size(),
            child.size(),
            child.plan(passed + 1, terms, value),
        ),
    }
}

// The measure of a tree of this size, in which a tree of the size before is replaced.
fn grown(size: u64, before: u64, below: Result<Measure, PutError>) -> Result<Measure, PutError>
    requires before { before ≤ size }
    requires size { size < 2 ^ 33 }
    requires below { IfOk below Fits }
    ensures { IsGrown size before below result }
{
    match below {
        Err(refused) => Err(refused),
        Ok(below) => {
            let size = size - before + below.size;
            if size > MAX_TREE_SIZE {
                return Err(PutError::TooLarge);
            }
            Ok(Measure {
                size,
                height: below.height + 1,
            })
        }
    }
}

// The measure of what is made where nothing was.
#[tactic(auto, using(crate::proofs::Plans::chain_lemmas))]
fn plan_made(terms: &[Term], value: &Tree) -> Result<Measure, PutError>
    ensures { IsMade terms.now value.now result }
{
    let mut made = value.measure();
    let mut i = terms.len();
    while 0 < i {
        i -= 1;
        made = wrapped(&terms[i], made);
        if made.size > MAX_TREE_SIZE {
            return Err(PutError::TooLarge);
        }
    }
    Ok(made)
}

// The measure of what a term makes around a tree.
fn wrapped(term: &Term, below: Measure) -> Measure
    requires size { below.size ≤ MAX_TREE_SIZE }
    requires height { below.height ≤ MAX_TREE_SIZE }
    ensures size { result.size ≡ wrapped_size term.now below.size }
    ensures height { result.height ≡ below.height + 1 }
{
    let filled = match term {
        Term::Key(_) => 0,
        Term::Index(index) => *index as u64,
    };
    Measure {
        size: below.size + filled + 1,
        height: below.height + 1,
    }
}
