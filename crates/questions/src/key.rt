ghost use Rattle.std.specs.Prelude.{◌≡◌, ◌==◌, fold, option_copied};
ghost use Rattle.std.specs.Cmp.{partial_equiv_from_equiv};
ghost use Rattle.questions.specs.KeyLaws.{key_alike, key_equivalence};
ghost use Rattle.questions.specs.Keys.{file_of, key_eq, key_fed, object_of, term_eq, term_fed, terms_eq, terms_fed};

use base::{Seq, Text};
use path_tree::{Name, Term};
use std::hash::{Hash, Hasher};

/// What a run asks for: a file by its name, or what stands at terms in the tree of an object.
#[derive(Drop)]
pub enum Key {
    File(Text),
    Under { object: Name, terms: Seq<Term> },
}

/// Whether two terms are one.
pub fn is_same_term(a: &Term, b: &Term) -> bool
    ensures { result ≡ term_eq a.now b.now }
{
    match (a, b) {
        (Term::Key(a), Term::Key(b)) => a.as_str() == b.as_str(),
        (Term::Index(a), Term::Index(b)) => *a == *b,
        _ => false,
    }
}

fn are_same_terms(a: &[Term], b: &[Term]) -> bool
    ensures { result ≡ terms_eq a.now b.now }
{
    let [x, xs @ ..] = a else {
        return b.is_empty();
    };
    let [y, ys @ ..] = b else {
        return false;
    };
    is_same_term(x, y) && are_same_terms(xs, ys)
}

impl Key {
    /// Whether this is the same key.
    pub fn is_same(&self, other: &Key) -> bool
        ensures { result ≡ key_eq self.now other.now }
    {
        match (self, other) {
            (Key::File(a), Key::File(b)) => a.as_str() == b.as_str(),
            (
                Key::Under {
                    object: a,
                    terms: xs,
                },
                Key::Under {
                    object: b,
                    terms: ys,
                },
            ) => a.as_str() == b.as_str() && are_same_terms(xs.as_slice(), ys.as_slice()),
            _ => false,
        }
    }

    /// The file that it asks for.
    pub fn file(&self) -> Option<&str>
        ensures { option_copied result ≡ file_of self.now }
    {
        match self {
            Key::File(name) => Some(name.as_str()),
            Key::Under { .. } => None,
        }
    }

    /// The object that it asks for.
    pub fn object(&self) -> Option<&Name>
        ensures { option_copied result ≡ object_of self.now }
    {
        match self {
            Key::File(_) => None,
            Key::Under { object, .. } => Some(object),
        }
    }
}

impl PartialEq for Key {
    ghost eq = { key_eq };

    ghost laws = { partial_equiv_from_equiv key_equivalence };

    fn eq(&self, other: &Key) -> bool {
        self.is_same(other)
    }
}

impl Eq for Key {
    ghost laws = { key_equivalence };
}

fn hash_term<H: Hasher>(term: &Term, state: &mut H)
    ensures { state.new ≡ fold H.write state.old (term_fed term.now) }
{
    match term {
        Term::Key(key) => key.as_str().hash(state),
        Term::Index(index) => state.write_u32(*index),
    }
}

fn hash_terms<H: Hasher>(terms: &[Term], state: &mut H)
    ensures { state.new ≡ fold H.write state.old (terms_fed terms.now) }
{
    let [first, rest @ ..] = terms else {
        return;
    };
    hash_term(first, state);
    hash_terms(rest, state);
}

impl Hash for Key {
    ghost hash_input = { key_fed };

    ghost respects_eq = { key_alike };

    fn hash<H: Hasher>(&self, state: &mut H) {
        match self {
            Key::File(name) => name.hash(state),
            Key::Under { object, terms } => {
                object.as_str().hash(state);
                hash_terms(terms.as_slice(), state);
            }
        }
    }
}
