ghost use Rattle.std.specs.Prelude.{◌≡◌, ◌∷◌, [], IfOk, OnOk, Some, option_copied, option_and_then, option_map, false, ◌+◌, int_lt, nat_abs, pos, if◌then◌else◌};
ghost use Rattle.dml_meaning.specs.Indexes.{at_index, changed, changed_at, deleted, from_end, index_term, key_term, put_code, removed, term_for, terms_for};
ghost use Rattle.dml_meaning.specs.Values.{is_nothing};
ghost use Rattle.path_tree.specs.Put.{put};
ghost use Rattle.path_tree.specs.Remove.{remove as removed_from};
ghost use Rattle.path_tree.specs.Find.{child};
ghost use Rattle.path_tree.specs.Plain as plain;
ghost use Rattle.dml_leaves.specs.Changes.{IsChange, IsUnput};
ghost use Rattle.dml_meaning.specs.Leaves.{apply_index};
ghost use Rattle.dml_world.specs.Evaluations.{Evaluates, KeepsLoans, total};

use base::Text;
use dml_meaning::Test;
use dml_world::leaf::{fault, passes, take_step};
use dml_world::{Evaluation, Exit, World};
use pan_ast::{Code, Place};
use path_tree::{Key, KeyError, PutError, Term, Tree};
use std::alloc::{AllocError, Global};
use std::sync::ledger::Ledger;

/// Why a value is not changed.
#[derive(Clone, Copy, PartialEq, Eq)]
pub enum Unchanged {
    Code(Code),
    Memory,
}

impl From<AllocError> for Unchanged {
    ghost use Rattle.dml_leaves.specs.declared.indexes.Unchanged.TheVariants.{Memory};

    ghost from_gives = { λ _ e. e ≡ Memory };

    fn from(_e: AllocError) -> Unchanged {
        Unchanged::Memory
    }
}

fn key_term(text: &Text) -> Result<Option<Term>, AllocError>
    ensures { IfOk result (λ m. m ≡ key_term text.now) }
{
    match Key::of_text(text) {
        Ok(key) => Ok(Some(Term::Key(key))),
        Err(KeyError::BadKey) => Ok(None),
        Err(KeyError::Memory) => Err(AllocError),
    }
}

fn index_term(number: u64) -> Option<Term>
    ensures { result ≡ index_term number }
{
    if number < 1_000_000 {
        Some(Term::Index(number as u32))
    } else {
        None
    }
}

/// The place that counts from the end of a list.
#[tactic(auto, using(path_tree::proofs::Counts::few_children))]
fn from_end(back: u64, reached: &Tree) -> Option<Term>
    ensures { result ≡ from_end back (Some reached.now) }
{
    let size = reached.size();
    let count = reached.len() as u64;
    if passes(Test::List, reached.kind()) && back <= count {
        return Some(Term::Index((count - back) as u32));
    }
    None
}

fn number_term(number: i64, reached: Option<&Tree>) -> Option<Term>
    ensures { result ≡ (if int_lt number (pos 0) then from_end (nat_abs number)
        (option_copied reached.entry) else index_term (nat_abs number)) }
{
    let size = number.unsigned_abs();
    if number < 0 {
        from_end(size, reached?)
    } else {
        index_term(size)
    }
}

/// The term that an index stands for, at the value reached so far.
#[tactic(auto, using(crate::proofs::Trees::other_term))]
pub fn term_for(index: &Tree, reached: Option<&Tree>) -> Result<Option<Term>, AllocError>
    ensures { IfOk result (λ m. m ≡ term_for index.now (option_copied reached.entry)) }
{
    if let Some(text) = index.text_handle() {
        return key_term(text);
    }
    match index.as_long() {
        Some(number) => Ok(number_term(number, reached)),
        None => Ok(None),
    }
}

/// What is at an index.
#[tactic(auto, using(path_tree::proofs::Growing::get_one))]
pub fn at_index<'a>(index: &Tree, value: &'a Tree) -> Result<Option<&'a Tree>, AllocError>
    ensures { IfOk result (λ t. option_copied t ≡ at_index index.now value.now) }
{
    match term_for(index, Some(value))? {
        None => Ok(None),
        Some(term) => {
            let terms = [term];
            Ok(value.get(&terms))
        }
    }
}

/// The terms that indexes stand for, from a value on.
#[tactic(auto, using(crate::proofs::Trees::terms))]
fn terms_for(alloc: Global, keys: &[Tree], value: &Tree) -> Result<Option<Vec<Term>>, AllocError>
    ensures { IfOk result (λ ms. option_map (λ v. v.items) ms ≡ terms_for keys.now value.now) }
{
    let mut terms = Vec::new(alloc);
    'keys: for key in keys {
        let Some(term) = term_for(key, value.get(&terms))? else {
            return Ok(None);
        };
        terms.push(term)?;
    }
    Ok(Some(terms))
}

fn put_code(error: PutError) -> Unchanged
    ensures { IsUnput error result }
{
    match error {
        PutError::ThroughProperty(_) | PutError::KeyInList | PutError::IndexInDict => {
            Unchanged::Code(Code::BadIndex)
        }
        PutError::TooLarge | PutError::TooHigh => Unchanged::Code(Code::TooLarge),
        PutError::Memory => Unchanged::Memory,
    }
}

/// Removes what is at the terms; without terms the value becomes null.
fn remove(alloc: Global, terms: &[Term], tree: &mut Tree) -> Result<(), AllocError>
    ensures { OnOk result (tree.new ≡ removed terms.now tree.old) }
{
    match terms {
        [] => {
            *tree = Tree::null();
            Ok(())
        }
        [_, ..] => tree.remove(alloc, terms),
    }
}

#[tactic(auto, using(crate::proofs::Trees::puts))]
fn put(alloc: Global, terms: &[Term], value: &Tree, tree: &mut Tree) -> Result<(), Unchanged>
    requires { is_nothing value.now ≡ false }
    ensures { IsChange result tree.new (put_code (put terms.now value.now tree.old)) }
{
    match tree.put(alloc, terms, value.copy()?) {
        Ok(()) => Ok(()),
        Err(error) => Err(put_code(error)),
    }
}

/// What is at indexes of a value goes; where they find nothing, the value stays.
pub fn delete_in(alloc: Global, keys: &[Tree], tree: &mut Tree) -> Result<(), AllocError>
    ensures { OnOk result (tree.new ≡ deleted keys.now tree.old) }
{
    match terms_for(alloc, keys, tree)? {
        Some(terms) => remove_found(alloc, &terms, tree),
        None => Ok(()),
    }
}

/// Removes what is at the terms; without terms nothing is removed.
pub fn remove_found(alloc: Global, terms: &[Term], tree: &mut Tree) -> Result<(), AllocError>
    ensures { OnOk result (tree.new ≡ removed_from terms.now tree.old) }
{
    match terms {
        [] => Ok(()),
        [_, ..] => tree.remove(alloc, terms),
    }
}

/// Changes what is at terms of a value: null removes.
fn change_at(alloc: Global, terms: &[Term], value: &Tree, tree: &mut Tree) -> Result<(), Unchanged>
    ensures { IsChange result tree.new (changed_at (Some terms.now) value.now tree.old) }
{
    if passes(Test::Null, value.kind()) {
        Ok(remove(alloc, terms, tree)?)
    } else {
        put(alloc, terms, value, tree)
    }
}

/// The same at the term of one index, for which no list of terms is made.
#[tactic(auto, using(crate::proofs::Trees::lone_index))]
fn change_one(alloc: Global, key: &Tree, value: &Tree, tree: &mut Tree) -> Result<(), Unchanged>
    ensures { IsChange result tree.new (changed (key.now ∷ []) value.now tree.old) }
{
    match term_for(key, Some(&*tree))? {
        None => Err(Unchanged::Code(Code::BadIndex)),
        Some(term) => {
            let terms = [term];
            change_at(alloc, &terms, value, tree)
        }
    }
}

/// Changes what is at indexes of a value: null removes.
#[tactic(auto, using(crate::proofs::Trees::one_key))]
pub fn change_tree(
    alloc: Global,
    keys: &[Tree],
    value: &Tree,
    tree: &mut Tree,
) -> Result<(), Unchanged>
    ensures { IsChange result tree.new (changed keys.now value.now tree.old) }
{
    if let [key] = keys {
        return change_one(alloc, key, value, tree);
    }
    match terms_for(alloc, keys, tree)? {
        None => Err(Unchanged::Code(Code::BadIndex)),
        Some(terms) => change_at(alloc, &terms, value, tree),
    }
}

/// The value at an index.
pub fn apply_index<W: World, L: Ledger>(
    place: &Place,
    value: &Tree,
    index: &Tree,
    evaluation: &mut Evaluation<'_, '_, W, L>,
) -> Result<Tree, Exit>
    ensures gives { Evaluates (λ t. t) result W.World evaluation.old evaluation.new
        (apply_index place.now value.now index.now) }
    ensures counted { total evaluation.new ≡ total evaluation.old }
    ensures lent { KeepsLoans evaluation.old evaluation.new }
{
    take_step(place, evaluation)?;
    match at_index(index, value)? {
        Some(found) => Ok(found.copy()?),
        None => Err(fault(evaluation.alloc, Code::BadIndex, place)),
    }
}
