ghost use Rattle.std.specs.Prelude.{◌≡◌, ◌+◌, max, IfOk};
ghost use Rattle.pan_ast.specs.Syntax.{Assign, Binary, Block, Boolean, Call, For, Foreach, Index, Inside, Long, Name, Null, Plain, Refer, Unary, Undef, While, choice, node_place, stepped};
ghost use Rattle.pan_ast.specs.Syntax as plain;
ghost use Rattle.pan_ast.specs.Seen.{item_seen, items_seen, node_seen, reference_seen, step_seen};
ghost use Rattle.pan_ast.specs.Pointers.{item_pointers, items_pointers, left_pointers, node_pointers, reference_pointers, step_pointers};

use crate::place::Place;
use crate::syntax::{Form, Item, ItemForm, Node, Reference, Step};
use base::Text;
use path_tree::{BinaryOp, UnaryOp};
use std::alloc::{AllocError, Global};

/// A number.
#[tactic(auto, using(crate::proofs::Forms::nodes, crate::proofs::Pointers::nodes))]
pub fn make_long(place: &Place, value: i64) -> Result<Node, AllocError>
    ensures seen { IfOk result (λ y. node_seen y ≡ Long place.now value) }
    ensures pointers { IfOk result (λ y. left_pointers y ≡ 0) }
{
    Ok(Node {
        place: place.share()?,
        form: Form::Long(value),
    })
}

/// A text.
#[tactic(auto, using(crate::proofs::Forms::nodes, crate::proofs::Pointers::nodes))]
pub fn make_text(place: &Place, value: &Text) -> Result<Node, AllocError>
    ensures seen { IfOk result (λ y. node_seen y ≡ plain.Text place.now value.now) }
    ensures pointers { IfOk result (λ y. left_pointers y ≡ 0) }
{
    Ok(Node {
        place: place.share()?,
        form: Form::Text(value.share()?),
    })
}

/// `true` or `false`.
#[tactic(auto, using(crate::proofs::Forms::nodes, crate::proofs::Pointers::nodes))]
pub fn make_boolean(place: &Place, value: bool) -> Result<Node, AllocError>
    ensures seen { IfOk result (λ y. node_seen y ≡ Boolean place.now value) }
    ensures pointers { IfOk result (λ y. left_pointers y ≡ 0) }
{
    Ok(Node {
        place: place.share()?,
        form: Form::Boolean(value),
    })
}

/// `undef`
#[tactic(auto, using(crate::proofs::Forms::nodes, crate::proofs::Pointers::nodes))]
pub fn make_undef(place: &Place) -> Result<Node, AllocError>
    ensures seen { IfOk result (λ y. node_seen y ≡ Undef place.now) }
    ensures pointers { IfOk result (λ y. left_pointers y ≡ 0) }
{
    Ok(Node {
        place: place.share()?,
        form: Form::Undef,
    })
}

/// `null`
#[tactic(auto, using(crate::proofs::Forms::nodes, crate::proofs::Pointers::nodes))]
pub fn make_null(place: &Place) -> Result<Node, AllocError>
    ensures seen { IfOk result (λ y. node_seen y ≡ Null place.now) }
    ensures pointers { IfOk result (λ y. left_pointers y ≡ 0) }
{
    Ok(Node {
        place: place.share()?,
        form: Form::Null,
    })
}

/// The reading of a name.
#[tactic(auto, using(crate::proofs::Forms::nodes, crate::proofs::Pointers::nodes))]
pub fn make_name(place: &Place, name: &Text) -> Result<Node, AllocError>
    ensures seen { IfOk result (λ y. node_seen y ≡ Name place.now name.now) }
    ensures pointers { IfOk result (λ y. left_pointers y ≡ 0) }
{
    Ok(Node {
        place: place.share()?,
        form: Form::Name(name.share()?),
    })
}

/// `name(argument, argument, ..)`
#[tactic(auto, using(crate::proofs::Forms::nodes, crate::proofs::Pointers::nodes))]
pub fn make_call(place: &Place, name: &Text, arguments: Vec<Item>) -> Result<Node, AllocError>
    ensures seen { IfOk result (λ y. node_seen y ≡ Call place.now name.now
        (items_seen arguments.items)) }
    ensures pointers { IfOk result (λ y. left_pointers y ≡ 1 + items_pointers arguments.items) }
{
    Ok(Node {
        place: place.share()?,
        form: Form::Call(name.share()?, arguments),
    })
}

/// `(item)`, with the place of the parenthesis.
#[tactic(auto, using(crate::proofs::Forms::nodes, crate::proofs::Pointers::nodes))]
pub fn make_inside(alloc: Global, place: &Place, item: Item) -> Result<Node, AllocError>
    ensures seen { IfOk result (λ y. node_seen y ≡ Inside place.now (item_seen item)) }
    ensures pointers { IfOk result (λ y. left_pointers y ≡ 1 + item_pointers item) }
{
    Ok(Node {
        place: place.share()?,
        form: Form::Inside(Box::new(alloc, item)?),
    })
}

/// An operator before its operand.
#[tactic(auto, using(crate::proofs::Forms::nodes, crate::proofs::Pointers::nodes))]
pub fn make_unary(
    alloc: Global,
    place: &Place,
    operator: UnaryOp,
    operand: Node,
) -> Result<Node, AllocError>
    ensures seen { IfOk result (λ y. node_seen y ≡ Unary place.now operator (node_seen operand)) }
    ensures pointers { IfOk result (λ y. left_pointers y ≡ 1 + node_pointers operand) }
{
    Ok(Node {
        place: place.share()?,
        form: Form::Unary(operator, Box::new(alloc, operand)?),
    })
}

/// A left operand with its first step.
#[tactic(auto, using(crate::proofs::Spines::started, crate::proofs::Pointers::started_left))]
fn start_spine(alloc: Global, left: Node, step: Step) -> Result<Node, AllocError>
    ensures seen { IfOk result (λ y. node_seen y ≡ stepped (node_place (node_seen left))
        (node_seen left) (step_seen step)) }
    ensures pointers { IfOk result (λ y. left_pointers y ≡ max (node_pointers left)
        (step_pointers step)) }
{
    Ok(Node {
        place: left.place.share()?,
        form: Form::Spine(
            Box::new(alloc, left)?,
            Box::new(alloc, step)?,
            Vec::new(alloc),
        ),
    })
}

/// A left operand with one step more. A spine takes it at its end, so that no chain nests.
#[tactic(auto, using(crate::proofs::Spines::grown, crate::proofs::Pointers::grown_left, crate::proofs::Pointers::plain_left))]
fn with_step(alloc: Global, left: Node, step: Step) -> Result<Node, AllocError>
    ensures seen { IfOk result (λ y. node_seen y ≡ stepped (node_place (node_seen left))
        (node_seen left) (step_seen step)) }
    ensures pointers { IfOk result (λ y. left_pointers y ≡ max (left_pointers left)
        (step_pointers step)) }
{
    let (place, form) = left.into_parts();
    match form {
        Form::Spine(first, second, mut rest) => {
            rest.push(step)?;
            Ok(Node {
                place,
                form: Form::Spine(first, second, rest),
            })
        }
        form => start_spine(alloc, Node { place, form }, step),
    }
}

/// `left[item]`, with the place of its left operand.
#[tactic(auto, using(crate::proofs::Forms::seen_step_index, crate::proofs::Pointers::index_step))]
pub fn make_index(alloc: Global, left: Node, item: Item) -> Result<Node, AllocError>
    ensures seen { IfOk result (λ y. node_seen y ≡ Index (node_place (node_seen left))
        (node_seen left) (item_seen item)) }
    ensures pointers { IfOk result (λ y. left_pointers y ≡ max (left_pointers left)
        (item_pointers item)) }
{
    with_step(alloc, left, Step::Index(item))
}

/// An operator between two operands, with the place of the left one.
#[tactic(auto, using(crate::proofs::Forms::seen_step_binary, crate::proofs::Pointers::binary_step))]
pub fn make_binary(
    alloc: Global,
    operator: BinaryOp,
    left: Node,
    right: Node,
) -> Result<Node, AllocError>
    ensures seen { IfOk result (λ y. node_seen y ≡ Binary (node_place (node_seen left)) operator
        (node_seen left) (node_seen right)) }
    ensures pointers { IfOk result (λ y. left_pointers y ≡ max (left_pointers left)
        (node_pointers right)) }
{
    with_step(alloc, left, Step::Binary(operator, right))
}

/// `left && right`, with the place of the left one.
#[tactic(auto, using(crate::proofs::Forms::seen_step_and, crate::proofs::Pointers::and_step))]
pub fn make_and(alloc: Global, left: Node, right: Node) -> Result<Node, AllocError>
    ensures seen { IfOk result (λ y. node_seen y ≡ plain.And (node_place (node_seen left))
        (node_seen left) (node_seen right)) }
    ensures pointers { IfOk result (λ y. left_pointers y ≡ max (left_pointers left)
        (node_pointers right)) }
{
    with_step(alloc, left, Step::And(right))
}

/// `left || right`, with the place of the left one.
#[tactic(auto, using(crate::proofs::Forms::seen_step_or, crate::proofs::Pointers::or_step))]
pub fn make_or(alloc: Global, left: Node, right: Node) -> Result<Node, AllocError>
    ensures seen { IfOk result (λ y. node_seen y ≡ plain.Or (node_place (node_seen left))
        (node_seen left) (node_seen right)) }
    ensures pointers { IfOk result (λ y. left_pointers y ≡ max (left_pointers left)
        (node_pointers right)) }
{
    with_step(alloc, left, Step::Or(right))
}

/// `{ item; item; .. }`
#[tactic(auto, using(crate::proofs::Forms::items, crate::proofs::Pointers::items))]
pub fn make_block(place: &Place, items: Vec<Item>) -> Result<Item, AllocError>
    ensures seen { IfOk result (λ y. item_seen y ≡ Block place.now (items_seen items.items)) }
    ensures pointers { IfOk result (λ y. item_pointers y ≡ 1 + items_pointers items.items) }
{
    Ok(Item {
        place: place.share()?,
        form: ItemForm::Block(items),
    })
}

/// `if (condition) then`
#[tactic(auto, using(crate::proofs::Forms::items, crate::proofs::Pointers::items))]
pub fn make_if(place: &Place, condition: Box<Item>, then: Box<Item>) -> Result<Item, AllocError>
    ensures seen { IfOk result (λ y. item_seen y ≡ choice place.now (item_seen condition.value)
        (item_seen then.value) None) }
    ensures pointers { IfOk result (λ y. item_pointers y ≡ 1 + max (item_pointers condition.value)
        (item_pointers then.value)) }
{
    Ok(Item {
        place: place.share()?,
        form: ItemForm::If(condition, then, None),
    })
}

/// `if (condition) then else otherwise`
#[tactic(auto, using(crate::proofs::Forms::items, crate::proofs::Pointers::items))]
pub fn make_if_else(
    place: &Place,
    condition: Box<Item>,
    then: Box<Item>,
    otherwise: Box<Item>,
) -> Result<Item, AllocError>
    ensures seen { IfOk result (λ y. item_seen y ≡ choice place.now (item_seen condition.value)
        (item_seen then.value) (Some (item_seen otherwise.value))) }
    ensures pointers { IfOk result (λ y. item_pointers y ≡ 1 + max (item_pointers condition.value)
        (max (item_pointers then.value) (item_pointers otherwise.value))) }
{
    Ok(Item {
        place: place.share()?,
        form: ItemForm::If(condition, then, Some(otherwise)),
    })
}

/// `while (condition) body`
#[tactic(auto, using(crate::proofs::Forms::items, crate::proofs::Pointers::items))]
pub fn make_while(place: &Place, condition: Box<Item>, body: Box<Item>) -> Result<Item, AllocError>
    ensures seen { IfOk result (λ y. item_seen y ≡ While place.now (item_seen condition.value)
        (item_seen body.value)) }
    ensures pointers { IfOk result (λ y. item_pointers y ≡ 1 + max (item_pointers condition.value)
        (item_pointers body.value)) }
{
    Ok(Item {
        place: place.share()?,
        form: ItemForm::While(condition, body),
    })
}

/// `for (first; condition; step) body`
#[tactic(auto, using(crate::proofs::Forms::items, crate::proofs::Pointers::items))]
pub fn make_for(
    place: &Place,
    first: Box<Item>,
    condition: Box<Item>,
    step: Box<Item>,
    body: Box<Item>,
) -> Result<Item, AllocError>
    ensures seen { IfOk result (λ y. item_seen y ≡ For place.now (item_seen first.value)
        (item_seen condition.value) (item_seen step.value) (item_seen body.value)) }
    ensures pointers { IfOk result (λ y. item_pointers y ≡ 1 + max
        (max (item_pointers first.value) (item_pointers condition.value))
        (max (item_pointers step.value) (item_pointers body.value))) }
{
    Ok(Item {
        place: place.share()?,
        form: ItemForm::For(first, condition, step, body),
    })
}

/// `foreach (key; value; items) body`
#[tactic(auto, using(crate::proofs::Forms::items, crate::proofs::Pointers::items))]
pub fn make_foreach(
    place: &Place,
    key: &Text,
    value: &Text,
    items: Box<Item>,
    body: Box<Item>,
) -> Result<Item, AllocError>
    ensures seen { IfOk result (λ y. item_seen y ≡ Foreach place.now key.now value.now
        (item_seen items.value) (item_seen body.value)) }
    ensures pointers { IfOk result (λ y. item_pointers y ≡ 1 + max (item_pointers items.value)
        (item_pointers body.value)) }
{
    Ok(Item {
        place: place.share()?,
        form: ItemForm::Foreach(key.share()?, value.share()?, items, body),
    })
}

/// `name[index][index]..`
#[tactic(auto, using(crate::proofs::Forms::items, crate::proofs::Pointers::items))]
pub fn make_reference(
    place: &Place,
    name: &Text,
    indexes: Vec<Item>,
) -> Result<Reference, AllocError>
    ensures seen { IfOk result (λ y. reference_seen y ≡ Refer place.now name.now
        (items_seen indexes.items)) }
    ensures pointers { IfOk result (λ y. reference_pointers y ≡ 1 + items_pointers indexes.items) }
{
    Ok(Reference {
        place: place.share()?,
        name: name.share()?,
        indexes,
    })
}

/// `reference = item`
#[tactic(auto, using(crate::proofs::Forms::items, crate::proofs::Pointers::items))]
pub fn make_assign(place: &Place, reference: Reference, item: Box<Item>) -> Result<Item, AllocError>
    ensures seen { IfOk result (λ y. item_seen y ≡ Assign place.now (reference_seen reference)
        (item_seen item.value)) }
    ensures pointers { IfOk result (λ y. item_pointers y ≡ max (reference_pointers reference)
        (1 + item_pointers item.value)) }
{
    Ok(Item {
        place: place.share()?,
        form: ItemForm::Assign(reference, item),
    })
}

/// A chain of operators as an item.
#[tactic(auto, using(crate::proofs::Forms::items, crate::proofs::Places::place_seen, crate::proofs::Pointers::items))]
pub fn make_plain(node: Node) -> Result<Item, AllocError>
    ensures seen { IfOk result (λ y. item_seen y ≡ Plain (node_place (node_seen node))
        (node_seen node)) }
    ensures pointers { IfOk result (λ y. item_pointers y ≡ node_pointers node) }
{
    Ok(Item {
        place: node.place.share()?,
        form: ItemForm::Plain(node),
    })
}
