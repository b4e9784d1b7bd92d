ghost use Rattle.std.specs.Prelude.{◌≡◌, ◌≤◌, [], length, List, OnOk, OnErr};
ghost use Rattle.type_defs.specs.Bindings.{IsInOrder, added, bound_place, path_cmp, term_cmp};
ghost use Rattle.type_defs.specs.Bindings as plain;
ghost use Rattle.type_defs.specs.BindingsSeen.{bounds_seen, bound_seen, bindings_seen};

use crate::measured::SharedType;
use base::Seq;
use pan_ast::{Item, Place};
use path_tree::{Name, Term};
use std::alloc::{AllocError, Global};
use std::cmp::Ordering;
use std::rc::Rc;

/// A type that is bound to an absolute path, by the `bind` statement at the place (Pan Book,
/// "Types").
#[derive(Drop)]
pub struct Bound {
    pub terms: Seq<Term>,
    pub resolved: SharedType,
    pub place: Place,
}

/// A `valid` statement: what is to hold of the value at an absolute path. Its template is the one
/// that it stands in.
#[derive(Drop)]
pub struct Valid {
    pub terms: Seq<Term>,
    pub body: Rc<Item>,
    pub template: Name,
    pub place: Place,
}

/// The types that are bound, in path order, those of one path in the order in which they were
/// added.
#[derive(Drop)]
pub struct Bindings {
    bounds: Vec<Bound>,
}

fn term_cmp(first: &Term, second: &Term) -> Ordering
    ensures { result ≡ term_cmp first.now second.now }
{
    match (first, second) {
        (Term::Index(i), Term::Index(j)) => i.cmp(j),
        (Term::Index(_), Term::Key(_)) => Ordering::Less,
        (Term::Key(_), Term::Index(_)) => Ordering::Greater,
        (Term::Key(k), Term::Key(l)) => k.cmp(l),
    }
}

/// Path order: term by term, a prefix first, indexes before keys.
fn path_cmp(first: &[Term], second: &[Term]) -> Ordering
    ensures { result ≡ path_cmp first.now second.now }
{
    match first {
        [] => match second {
            [] => Ordering::Equal,
            [_, ..] => Ordering::Less,
        },
        [x, xs @ ..] => match second {
            [] => Ordering::Greater,
            [y, ys @ ..] => match term_cmp(x, y) {
                Ordering::Equal => path_cmp(xs, ys),
                Ordering::Less => Ordering::Less,
                Ordering::Greater => Ordering::Greater,
            },
        },
    }
}

/// Where a binding of this path goes: before the first that stands behind it.
#[tactic(auto, using(crate::proofs::Places::place_more))]
fn place_of(bounds: &[Bound], terms: &[Term]) -> usize
    ensures { result ≡ bound_place terms.now (bounds_seen bounds.now) }
{
    let mut i = 0;
    for bound in bounds {
        if path_cmp(terms, bound.terms.as_slice()).is_lt() {
            return i;
        }
        i += 1;
    }
    i
}

impl Bindings {
    /// No bindings.
    pub fn new(alloc: Global) -> Bindings
        ensures { bindings_seen result ≡ [] }
    {
        Bindings {
            bounds: Vec::new(alloc),
        }
    }

    /// The bindings, in path order.
    pub fn bounds(&self) -> &[Bound]
        ensures { bounds_seen result.now ≡ bindings_seen self.now }
    {
        &self.bounds
    }

    /// Adds a binding in path order, behind those of its path. After a refusal all is as before.
    #[tactic(auto, using(crate::proofs::Places::place_within, crate::proofs::Places::put_in_place))]
    pub fn add(&mut self, bound: Bound) -> Result<(), AllocError>
        ensures ok { OnOk result (bindings_seen self.new
            ≡ added (bound_seen bound) (bindings_seen self.old)) }
        ensures before { OnErr result (bindings_seen self.new ≡ bindings_seen self.old) }
    {
        let place = place_of(&self.bounds, bound.terms.as_slice());
        self.bounds.insert(place, bound)?;
        Ok(())
    }
}

/// A law: bindings in path order with one more stay in path order.
#[tactic(auto, using(crate::proofs::Places::kept_in_order))]
pub fn added_in_order()
    ensures { (b : plain.Bound) (bs : List plain.Bound) → IsInOrder bs
        → IsInOrder (added b bs) }
{}
