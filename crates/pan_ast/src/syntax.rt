ghost use Rattle.std.specs.Prelude.{◌≡◌};

use crate::place::Place;
use base::Text;
use path_tree::{BinaryOp, UnaryOp};

/// An expression that may stand for a statement list, a condition or a loop, with the place of its first token.
#[cycle(syntax)]
pub struct Item {
    pub place: Place,
    pub form: ItemForm,
}

// The types here are let go by one call at each exit of who holds one: a derived Drop would let go of each part there.
impl Drop for Item {
    #[cycle(letting_go)]
    fn drop(self) {
        let Item {
            place: _place,
            form: _form,
        } = self;
    }
}

/// What an item is.
#[derive(Drop)]
#[cycle(syntax)]
pub enum ItemForm {
    /// `{ item; item; .. }`
    Block(Vec<Item>),
    /// `if (condition) item`, and `else item` where there is one.
    If(Box<Item>, Box<Item>, Option<Box<Item>>),
    /// `while (condition) item`
    While(Box<Item>, Box<Item>),
    /// `for (first; condition; step) item`
    For(Box<Item>, Box<Item>, Box<Item>, Box<Item>),
    /// `foreach (key; value; items) item`
    Foreach(Text, Text, Box<Item>, Box<Item>),
    /// `reference = item`
    Assign(Reference, Box<Item>),
    /// A chain of operators.
    Plain(Node),
}

/// What may stand before `=`: a name and the indexes after it, `name[item][item]..`.
#[cycle(syntax)]
pub struct Reference {
    pub place: Place,
    pub name: Text,
    pub indexes: Vec<Item>,
}

impl Drop for Reference {
    #[cycle(letting_go)]
    fn drop(self) {
        let Reference {
            place: _place,
            name: _name,
            indexes: _indexes,
        } = self;
    }
}

/// An operand, or a chain of operators over operands, with the place of its first token.
#[cycle(syntax)]
pub struct Node {
    pub place: Place,
    pub form: Form,
}

impl Drop for Node {
    #[cycle(letting_go)]
    fn drop(self) {
        let Node {
            place: _place,
            form: _form,
        } = self;
    }
}

impl Node {
    /// Its place and what it is.
    pub(crate) fn into_parts(self) -> (Place, Form)
        ensures place { result.0 ≡ self.place }
        ensures form { result.1 ≡ self.form }
    {
        let Node { place, form } = self;
        (place, form)
    }
}

/// What a node is.
#[derive(Drop)]
#[cycle(syntax)]
pub enum Form {
    /// A whole number.
    Long(i64),
    /// A text, by its value.
    Text(Text),
    /// `true` or `false`
    Boolean(bool),
    /// `undef`
    Undef,
    /// `null`
    Null,
    /// A name that is read.
    Name(Text),
    /// `name(item, item, ..)`
    Call(Text, Vec<Item>),
    /// `(item)`
    Inside(Box<Item>),
    /// An operator before its operand.
    Unary(UnaryOp, Box<Node>),
    /// A left operand and the steps to its right, one or more, taken from the left: `a * b + c` is `a` with two
    /// steps. So a chain of any length is one node, and no deeper in memory than its operands.
    Spine(Box<Node>, Box<Step>, Vec<Step>),
}

/// What stands to the right of a left operand.
#[cycle(syntax)]
pub enum Step {
    /// `[item]`
    Index(Item),
    /// An operator whose right side is always evaluated, and that side.
    Binary(BinaryOp, Node),
    /// `&& node`
    And(Node),
    /// `|| node`
    Or(Node),
}

impl Drop for Step {
    #[cycle(letting_go)]
    fn drop(self) {
        match self {
            Step::Index(_item) => (),
            Step::Binary(_operator, _operand) => (),
            Step::And(_operand) => (),
            Step::Or(_operand) => (),
        }
    }
}
