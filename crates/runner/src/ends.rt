use pan_ast::Fault;
use path_tree::{Name, Tree};
use read_sets::Trace;

/// What was built: of which object, its tree, and what else its check looks at.
#[derive(Drop)]
pub struct Built<T> {
    pub object: Name,
    pub tree: Tree,
    pub rest: T,
}

/// How a run of a build ends: with what was built, with a fault, or at a question about an object that is not known.
#[derive(Drop)]
pub enum BuildEnd<T> {
    Done(Built<T>, Trace),
    Fault(Fault, Trace),
    Need(Name),
}

/// How a run of a check ends: without a fault, with one, or at a question about an object that is not known.
#[derive(Drop)]
pub enum CheckEnd {
    Done(Trace),
    Fault(Fault, Trace),
    Need(Name),
}
