ghost use Rattle.std.specs.Prelude.{◌≡◌, ◌≢◌, [], false, true, IfErr, IfOk, MatchOption, OnErr, OnOk};
ghost use Rattle.std.specs.List.{list_any};
ghost use Rattle.base.specs.Answers.{Gives};
ghost use Rattle.path_tree.specs.Plain.{dict, no_fields};
ghost use Rattle.path_tree.specs.declared.path.PutError.TheVariants as put_error;
ghost use Rattle.assign_rules.specs.Profiles.{assign_refusal, assigned, are_in_line, begins_with, change_at, is_no_root, is_set, may_assign, put_into, with_change, with_tree, IsLogOf};

use crate::terms::share_terms;
use base::Seq;
use pan_ast::{Change, Place};
use path_tree::{Kind, PutError, Term, Tree};
use questions::is_same_term;
use std::alloc::{AllocError, AllocFailed, Global};
use std::marker::Model;

/// Why an assignment is refused.
#[derive(Clone, Copy, PartialEq, Eq)]
pub enum AssignError {
    /// The path, one above it or one below it is final.
    Final,
    /// The whole tree would be no dict.
    NotDict,
    /// The path cannot be put into the tree.
    Put(PutError),
    /// Memory is wanting.
    Memory,
}

impl From<AllocError> for AssignError {
    ghost from_gives = { λ _ e. e ≡ Memory };

    ghost use Rattle.assign_rules.specs.declared.profile.AssignError.TheVariants.{Memory};

    fn from(_e: AllocError) -> AssignError {
        AssignError::Memory
    }
}

impl<T: Drop> From<AllocFailed<T>> for AssignError {
    ghost from_gives = { λ _ e. e ≡ Memory };

    ghost use Rattle.assign_rules.specs.declared.profile.AssignError.TheVariants.{Memory};

    fn from(_e: AllocFailed<T>) -> AssignError {
        AssignError::Memory
    }
}

/// The tree of an object while its statements run, the paths that are final (Pan Book,
/// "Statements"), and a log of the changes, which made in order from an empty dict give the tree.
#[derive(Drop)]
pub struct Profile {
    tree: Tree,
    finals: Vec<Seq<Term>>,
    log: Vec<Change>,
}

impl Model for Profile {
    ghost use Rattle.path_tree.specs.Code.{plain_code};
    ghost use Rattle.std.specs.Coded.{codes};
    ghost use Rattle.assign_rules.specs.Profiles.{ProfileValue};

    ghost Value = { ProfileValue };

    ghost coded = { Prim.hlevel (codes, plain_code) };

    ghost view = { λ p. record { tree = p.tree; finals = p.finals.items; log = p.log.items } };
}

impl Profile {
    /// An empty dict, of which nothing is final.
    pub fn new(alloc: Global) -> Result<Profile, AllocError>
        ensures tree { IfOk result (λ p. p.tree ≡ dict no_fields) }
        ensures finals { IfOk result (λ p. p.finals ≡ []) }
        ensures log { IfOk result (λ p. p.log ≡ []) }
        ensures replays { IfOk result (λ p. IsLogOf p.log p.tree) }
    {
        Ok(Profile {
            tree: Tree::empty_dict(alloc)?,
            finals: Vec::new(alloc),
            log: Vec::new(alloc),
        })
    }

    /// The tree.
    pub fn root(&self) -> &Tree
        ensures { result.now ≡ self.now.tree }
    {
        &self.tree
    }

    /// The changes that were made, in order.
    pub fn log(&self) -> &[Change]
        ensures { result.now ≡ self.now.log }
    {
        &self.log
    }

    /// The tree, and the log of its changes.
    pub fn into_parts(self) -> (Tree, Vec<Change>)
        ensures tree { result.0 ≡ self.tree }
        ensures log { result.1.items ≡ self.log }
    {
        let Profile {
            tree,
            finals: _finals,
            log,
        } = self;
        (tree, log)
    }

    /// Whether no final path stands at, above or below this one.
    pub fn may_assign(&self, terms: &[Term]) -> bool
        ensures { result ≡ may_assign self.now.finals terms.now }
    {
        !is_in_line(terms, &self.finals)
    }

    /// Whether the path has a value other than undef.
    pub fn is_set(&self, terms: &[Term]) -> bool
        ensures { result ≡ is_set self.now.tree terms.now }
    {
        match self.tree.get(terms) {
            None => false,
            Some(value) => value.kind() != Kind::Undef,
        }
    }

    /// Puts a value at a path, by a statement at a place; null removes what is there. The path is
    /// final from then on where `last` says so. A refusal leaves all as before.
    #[tactic(auto, using(crate::proofs::Logs::assigned_replays))]
    pub fn assign(
        &mut self,
        alloc: Global,
        place: &Place,
        terms: &[Term],
        last: bool,
        value: Tree,
    ) -> Result<(), AssignError>
        ensures gives { Gives (λ _. self.new) assign_refusal result
            (assigned place.now terms.now last value self.old) }
        ensures before { OnErr result (self.new ≡ self.old) }
        ensures memory { IfErr result (λ e. e ≢ AssignError.Put put_error.Memory) }
        ensures replays { IsLogOf self.old.log self.old.tree
            → OnOk result (IsLogOf self.new.log self.new.tree) }
    {
        self.change(alloc, place, terms, last, value)
    }

    fn change(
        &mut self,
        alloc: Global,
        place: &Place,
        terms: &[Term],
        last: bool,
        value: Tree,
    ) -> Result<(), AssignError>
        ensures gives { Gives (λ _. self.new) assign_refusal result
            (assigned place.now terms.now last value self.old) }
        ensures before { OnErr result (self.new ≡ self.old) }
        ensures memory { IfErr result (λ e. e ≢ AssignError.Put put_error.Memory) }
    {
        if is_in_line(terms, &self.finals) {
            return Err(AssignError::Final);
        }
        if is_no_root(terms, &value) {
            return Err(AssignError::NotDict);
        }
        self.put_value(alloc, place, terms, last, value)
    }

    // Puts a value at a path that is not final, where the whole tree stays a dict.
    fn put_value(
        &mut self,
        alloc: Global,
        place: &Place,
        terms: &[Term],
        last: bool,
        value: Tree,
    ) -> Result<(), AssignError>
        requires { is_no_root terms.now value ≡ false }
        ensures gives { Gives (λ _. self.new) assign_refusal result
            (with_tree place.now terms.now last value self.old
            (put_into (with_change terms.now value self.old.tree))) }
        ensures before { OnErr result (self.new ≡ self.old) }
        ensures memory { IfErr result (λ e. e ≢ AssignError.Put put_error.Memory) }
    {
        self.log.reserve(1)?;
        self.finals.reserve(1)?;
        let Added { change, path } = added_at(alloc, place, terms, last, &value)?;
        change_tree(alloc, terms, value, &mut self.tree)?;
        self.log.push(change).unwrap();
        if let Some(path) = path {
            self.finals.push(path).unwrap();
        }
        Ok(())
    }
}

fn begins_with(terms: &[Term], prefix: &[Term]) -> bool
    ensures { result ≡ begins_with terms.now prefix.now }
{
    let [p, prefix @ ..] = prefix else {
        return true;
    };
    let [t, terms @ ..] = terms else {
        return false;
    };
    is_same_term(t, p) && begins_with(terms, prefix)
}

// Whether one of the paths stands at, above or below these terms.
fn is_in_line(terms: &[Term], paths: &[Seq<Term>]) -> bool
    ensures { result ≡ list_any (are_in_line terms.now) paths.now }
{
    paths.iter().any(|path| {
        begins_with(terms, path.as_slice()) || begins_with(path.as_slice(), terms)
    })
}

fn is_no_root(terms: &[Term], value: &Tree) -> bool
    ensures { result ≡ is_no_root terms.now value.now }
{
    terms.is_empty() && value.kind() != Kind::Dict
}

fn change_at(
    alloc: Global,
    place: &Place,
    terms: &[Term],
    value: &Tree,
) -> Result<Change, AllocError>
    ensures { IfOk result (λ c. c ≡ change_at place.now terms.now value.now) }
{
    Ok(Change {
        terms: share_terms(alloc, terms)?,
        value: if value.is_null() {
            None
        } else {
            Some(value.copy()?)
        },
        place: place.share()?,
        default: false,
    })
}

// What an assignment adds to a profile beside its tree.
#[derive(Drop)]
struct Added {
    // The change for the log.
    change: Change,
    // The path, where it is final from then on.
    path: Option<Seq<Term>>,
}

fn added_at(
    alloc: Global,
    place: &Place,
    terms: &[Term],
    last: bool,
    value: &Tree,
) -> Result<Added, AllocError>
    ensures log { IfOk result (λ added. added.change ≡ change_at place.now terms.now value.now) }
    ensures path { IfOk result (λ added. MatchOption added.path (last ≡ false)
        (λ path. (last ≡ true) × (path ≡ terms.now))) }
{
    let path = if last {
        Some(share_terms(alloc, terms)?)
    } else {
        None
    };
    Ok(Added {
        change: change_at(alloc, place, terms, value)?,
        path,
    })
}

fn change_tree(
    alloc: Global,
    terms: &[Term],
    value: Tree,
    tree: &mut Tree,
) -> Result<(), AssignError>
    requires { is_no_root terms.now value ≡ false }
    ensures gives { Gives (λ _. tree.new) assign_refusal result
        (put_into (with_change terms.now value tree.old)) }
    ensures before { OnErr result (tree.new ≡ tree.old) }
    ensures memory { IfErr result (λ e. e ≢ AssignError.Put put_error.Memory) }
{
    if value.is_null() {
        tree.remove(alloc, terms)?;
        return Ok(());
    }
    match tree.put(alloc, terms, value) {
        Ok(()) => Ok(()),
        Err(PutError::Memory) => Err(AssignError::Memory),
        Err(error) => Err(AssignError::Put(error)),
    }
}
