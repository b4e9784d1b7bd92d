use crate::place::Place;
use base::Seq;
use path_tree::{Term, Tree};

/// A change of an object's tree: where, the value that was put there, or None where a value was removed, the
/// place of the statement or binding that made it, and whether the value is the default of a type.
#[derive(Drop)]
pub struct Change {
    pub terms: Seq<Term>,
    pub value: Option<Tree>,
    pub place: Place,
    pub default: bool,
}
