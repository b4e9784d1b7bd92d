ghost use Rattle.std.specs.Prelude.{◌≡◌, ◌≢◌, ◌≤◌, ℕ, List, true, false, Ok, IfOk, IfSome, OnOk, is_ok};
ghost use Rattle.path_tree.specs.declared.path.Term.{Term};
ghost use Rattle.path_tree.specs.Plain.{null};
ghost use Rattle.path_tree.specs.Put.{put};
ghost use Rattle.path_tree.specs.Remove.{remove};
ghost use Rattle.pan_blame.specs.Tags.{made_at, path_before};
ghost use Rattle.pan_blame.specs.Marks.{all_marks, ends_in_index, is_index, marked, marked_value, marks_at};
ghost use Rattle.assign_rules.specs.Profiles.{replayed_value};

use crate::made::made;
use crate::marks::{Layer, mark_all};
use assign_rules::share_terms;
use pan_ast::Change;
use path_tree::{Name, PutError, Term, Tree};
use questions::Key;
use std::alloc::{AllocError, Global};
use std::collections::HashMap;
use std::mem;

fn is_index(term: &Term) -> bool
    ensures { result ≡ is_index term.now }
{
    match term {
        Term::Index(_) => true,
        Term::Key(_) => false,
    }
}

fn ends_in_index(terms: &[Term]) -> bool
    ensures { result ≡ ends_in_index terms.now }
{
    let [first, rest @ ..] = terms else {
        return false;
    };
    if rest.len() == 0 {
        return is_index(first);
    }
    ends_in_index(rest)
}

/// The tree that changes made so far, and the marks of its nodes: those set since the last removal of an item, and a
/// layer for each removal before.
#[derive(Drop)]
pub(crate) struct Replay {
    pub(crate) tree: Tree,
    pub(crate) top: HashMap<Key, usize>,
    pub(crate) layers: Vec<Layer>,
}

/// What stands at the terms is removed: where later items of a list move down, the marks so far become a layer.
#[tactic(auto, using(crate::proofs::Layers::same_before))]
fn take_out(alloc: Global, replay: &mut Replay, terms: &[Term]) -> Result<(), AllocError>
    ensures tree { OnOk result (replay.new.tree ≡ remove terms.now replay.old.tree) }
    ensures marks { OnOk result ((object : List ℕ) (q : List Term)
        → all_marks replay.new.top object replay.new.layers.items q
        ≡ all_marks replay.old.top object replay.old.layers.items (path_before terms.now q)) }
{
    if terms.len() == 0 {
        return Ok(());
    }
    replay.tree.remove(alloc, terms)?;
    if !ends_in_index(terms) {
        return Ok(());
    }
    let removed = share_terms(alloc, terms)?;
    let marks = mem::replace(&mut replay.top, HashMap::new(alloc));
    replay.layers.push(Layer { marks, removed })?;
    Ok(())
}

/// A value is put at the terms: all that is set or made has this mark. False where the put is refused.
fn put_in(
    alloc: Global,
    object: &Name,
    replay: &mut Replay,
    terms: &[Term],
    value: &Tree,
    number: usize,
) -> Result<bool, AllocError>
    requires { value.now ≢ null }
    ensures done { IfOk result (λ b. b ≡ true
        → put terms.now value.now replay.old.tree ≡ Ok replay.new.tree) }
    ensures refused { IfOk result (λ b. b ≡ false
        → is_ok (put terms.now value.now replay.old.tree) ≡ false) }
    ensures marks { OnOk result ((q : List Term) → marks_at replay.new.top object.now q
        ≡ marked (made_at terms.now replay.old.tree) number (marks_at replay.old.top object.now)
        q) }
    ensures layers { OnOk result (replay.new.layers.items ≡ replay.old.layers.items) }
{
    let paths = made(alloc, &replay.tree, terms)?;
    mark_all(alloc, &mut replay.top, object, &paths, number)?;
    let copy = value.copy()?;
    match replay.tree.put(alloc, terms, copy) {
        Ok(()) => Ok(true),
        Err(PutError::Memory) => Err(AllocError),
        Err(PutError::ThroughProperty(_terms)) => Ok(false),
        Err(PutError::KeyInList) => Ok(false),
        Err(PutError::IndexInDict) => Ok(false),
        Err(PutError::TooLarge) => Ok(false),
        Err(PutError::TooHigh) => Ok(false),
    }
}

/// One change of a log, whose marks have its number. False where its put is refused.
#[tactic(auto, using(crate::proofs::Numbered::top_marked))]
pub(crate) fn change(
    alloc: Global,
    object: &Name,
    replay: &mut Replay,
    change: &Change,
    number: usize,
) -> Result<bool, AllocError>
    requires { IfSome change.now.value (λ v. v ≢ null) }
    ensures done { IfOk result (λ b. b ≡ true
        → replayed_value change.now.terms change.now.value replay.old.tree ≡ Ok replay.new.tree) }
    ensures refused { IfOk result (λ b. b ≡ false
        → is_ok (replayed_value change.now.terms change.now.value replay.old.tree) ≡ false) }
    ensures marks { ((q : List Term)
        → all_marks replay.old.top object.now replay.old.layers.items q ≤ number)
        → OnOk result ((q : List Term)
        → all_marks replay.new.top object.now replay.new.layers.items q
        ≡ marked_value change.now.terms change.now.value replay.old.tree number
        (all_marks replay.old.top object.now replay.old.layers.items) q) }
{
    match &change.value {
        None => {
            take_out(alloc, replay, change.terms.as_slice())?;
            Ok(true)
        }
        Some(value) => put_in(
            alloc,
            object,
            replay,
            change.terms.as_slice(),
            value,
            number,
        ),
    }
}
