ghost use Rattle.std.specs.Prelude.{◌≡◌, ◌∷◌, IfOk, MatchOption, false, if◌then◌else◌, map, option_map, Some, None};
ghost use Rattle.pan_ast.specs.Seen.{item_seen, items_seen, node_seen, step_seen};
ghost use Rattle.pan_ast.specs.Syntax.{AtIndex, more, none};
ghost use Rattle.dml_meaning.specs.Names.{no_indexes};
ghost use Rattle.dml_meaning.specs.References.{reference_in, reference_on};
ghost use Rattle.dml_leaves.specs.References.{IsFront, argument_of, indexed, indexes_back, is_index, is_lone, is_pair};

use base::Text;
use pan_ast::{Form, Item, ItemForm, Node, Place, Step};
use path_tree::Tree;
use std::alloc::{AllocError, Global};

/// An argument that is written as a reference: a name, and the indexes behind it.
#[derive(Drop)]
pub struct Argument<'a> {
    pub place: &'a Place,
    pub name: &'a Text,
    /// The last one stands first, so that each is taken from the end.
    pub indexes: Vec<&'a Item>,
}

impl Argument<'_> {
    /// Whether there is no index.
    #[tactic(auto, using(crate::proofs::Indexed::whole))]
    pub fn is_whole(&self) -> bool
        ensures { result ≡ no_indexes (indexes_back self.now.indexes.items none) }
    {
        if self.indexes.len() == 0 {
            return true;
        }
        false
    }
}

/// What a reference leads to: the values of its indexes, as many as were looked at, and the value
/// there.
#[derive(Drop)]
pub struct Reached {
    pub keys: Vec<Tree>,
    pub value: Option<Tree>,
}

/// The item of a list of one.
#[tactic(auto, using(crate::proofs::Indexed::lone))]
pub fn lone(items: &[Item]) -> Option<&Item>
    ensures { MatchOption result (is_lone (items_seen items.now) ≡ false)
        (λ i. items_seen items.now ≡ more (item_seen i.now) none) }
{
    match items {
        [item] => Some(item),
        _ => None,
    }
}

/// The items of a list of two.
#[tactic(auto, using(crate::proofs::Indexed::two))]
pub fn two(items: &[Item]) -> Option<(&Item, &Item)>
    ensures { MatchOption result (is_pair (items_seen items.now) ≡ false)
        (λ r. items_seen items.now ≡ more (item_seen r.0.now) (more (item_seen r.1.now) none)) }
{
    match items {
        [first, second] => Some((first, second)),
        _ => None,
    }
}

/// The item of a step that is an index.
#[tactic(auto, using(pan_ast::proofs::Forms::steps))]
fn index_of(step: &Step) -> Option<&Item>
    ensures { MatchOption result (is_index (step_seen step.now) ≡ false)
        (λ i. step_seen step.now ≡ AtIndex (item_seen i.now)) }
{
    match step {
        Step::Index(item) => Some(item),
        Step::Binary(_, _) => None,
        Step::And(_) => None,
        Step::Or(_) => None,
    }
}

/// Appends the indexes of steps, the last one first; false where one of them is no index.
#[tactic(auto, using(crate::proofs::Indexed::rest))]
fn push_rest<'a>(indexes: &mut Vec<&'a Item>, steps: &'a [Step]) -> Result<bool, AllocError>
    ensures { IfOk result (λ all. indexed (map step_seen steps.now)
        (indexes_back indexes.old.items none)
        ≡ (if all then Some (indexes_back indexes.new.items none) else None)) }
{
    let mut left = steps.len();
    'steps: while 0 < left {
        let Some(item) = index_of(&steps[left - 1]) else {
            return Ok(false);
        };
        indexes.push(item)?;
        left -= 1;
    }
    Ok(true)
}

/// The same of a first step and those behind it.
#[tactic(auto, using(crate::proofs::Indexed::first))]
fn push_indexes<'a>(
    indexes: &mut Vec<&'a Item>,
    first: &'a Step,
    rest: &'a [Step],
) -> Result<bool, AllocError>
    ensures { IfOk result (λ all. indexed (step_seen first.now ∷ map step_seen rest.now)
        (indexes_back indexes.old.items none)
        ≡ (if all then Some (indexes_back indexes.new.items none) else None)) }
{
    if !push_rest(indexes, rest)? {
        return Ok(false);
    }
    let Some(item) = index_of(first) else {
        return Ok(false);
    };
    indexes.push(item)?;
    Ok(true)
}

/// What a reference can be on its way to its name.
enum Front<'a> {
    Name(&'a Text),
    Chain(&'a Node, &'a Step, &'a [Step]),
    Other,
}

#[tactic(auto, using(pan_ast::proofs::Forms::nodes, pan_ast::proofs::Forms::seen_spine))]
fn front_of(node: &Node) -> Front<'_>
    ensures { IsFront (node_seen node.now) node.now.place result }
{
    match &node.form {
        Form::Name(name) => Front::Name(name),
        Form::Spine(first, step, rest) => Front::Chain(first, step, rest),
        Form::Long(_) => Front::Other,
        Form::Text(_) => Front::Other,
        Form::Boolean(_) => Front::Other,
        Form::Undef => Front::Other,
        Form::Null => Front::Other,
        Form::Call(_, _) => Front::Other,
        Form::Inside(_) => Front::Other,
        Form::Unary(_, _) => Front::Other,
    }
}

/// The reference that a node is.
#[tactic(auto, using(crate::proofs::Indexed::chains))]
fn reference_on<'a>(alloc: Global, node: &'a Node) -> Result<Option<Argument<'a>>, AllocError>
    ensures { IfOk result (λ r. option_map argument_of r ≡ reference_on (node_seen node.now) none) }
{
    let mut indexes = Vec::new(alloc);
    let mut node = node;
    'chain: loop {
        match front_of(node) {
            Front::Name(name) => {
                return Ok(Some(Argument {
                    place: &node.place,
                    name,
                    indexes,
                }));
            }
            Front::Chain(first, step, rest) => {
                if !push_indexes(&mut indexes, step, rest)? {
                    return Ok(None);
                }
                node = first;
            }
            Front::Other => return Ok(None),
        }
    }
}

/// The reference that an argument is, where it is written as one, without parentheses.
#[tactic(auto, using(pan_ast::proofs::Forms::items))]
pub fn reference_in<'a>(alloc: Global, item: &'a Item) -> Result<Option<Argument<'a>>, AllocError>
    ensures { IfOk result (λ r. option_map argument_of r ≡ reference_in (item_seen item.now)) }
{
    match &item.form {
        ItemForm::Plain(node) => reference_on(alloc, node),
        ItemForm::Block(_)
        | ItemForm::If(_, _, _)
        | ItemForm::While(_, _)
        | ItemForm::For(_, _, _, _)
        | ItemForm::Foreach(_, _, _, _)
        | ItemForm::Assign(_, _) => Ok(None),
    }
}
