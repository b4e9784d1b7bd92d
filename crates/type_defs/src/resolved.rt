ghost use Rattle.std.specs.Prelude.{◌≡◌, ◌≢◌, IfOk};
ghost use Rattle.path_tree.specs.Plain as plain;
ghost use Rattle.type_defs.specs.Defaults.{proper};

use base::Text;
use pan_ast::Item;
use path_tree::{Key, Kind, Name, Tree};
use std::alloc::AllocError;
use std::marker::Model;
use std::rc::Rc;

/// The types that the language gives (Pan Book, "Types").
#[derive(Clone, Copy)]
pub enum Base {
    /// `string`
    Text,
    /// `long`
    Long,
    /// `boolean`
    Boolean,
    /// `number`
    Number,
    /// `property`: a text, a long or a boolean.
    Property,
    /// `resource`: a dict or a list.
    Resource,
    /// `element`: any value.
    Element,
    /// `list`
    List,
    /// `dict` and `nlist`
    Dict,
}

/// From `low` to `high`, both included, each where it is given.
#[derive(Clone, Copy)]
pub struct Range {
    pub low: Option<i64>,
    pub high: Option<i64>,
}

/// A default: a value that is neither null nor undef. Contracts see the value.
#[derive(Drop)]
pub struct DefaultValue {
    value: Tree,
}

impl Model for DefaultValue {
    ghost use Rattle.std.specs.Prelude.{◌≢◌};
    ghost use Rattle.path_tree.specs.Plain.{Plain};
    ghost use Rattle.path_tree.specs.Plain as plain;
    ghost use Rattle.path_tree.specs.Code.{plain_code};

    ghost Value = { Plain };

    ghost coded = { plain_code };

    ghost view = { λ d. d.value };

    ghost invariant = { λ d. (d.value ≢ plain.null) × (d.value ≢ plain.undef) };
}

impl DefaultValue {
    /// The default that a value is: none where it is undef or null.
    pub fn of(value: &Tree) -> Result<Option<DefaultValue>, AllocError>
        ensures { IfOk result (λ d. d ≡ proper value.now) }
    {
        match value.kind() {
            Kind::Undef | Kind::Null => Ok(None),
            _ => Ok(Some(DefaultValue {
                value: value.copy()?,
            })),
        }
    }

    /// Its value.
    pub fn tree(&self) -> &Tree
        ensures value { result.now ≡ self.now }
        ensures some { self.now ≢ plain.null }
        ensures set { self.now ≢ plain.undef }
    {
        &self.value
    }

    /// The same default, shared.
    pub fn share(&self) -> Result<DefaultValue, AllocError>
        ensures { IfOk result (λ d. d ≡ self.now) }
    {
        Ok(DefaultValue {
            value: self.value.copy()?,
        })
    }
}

/// A type whose names are resolved: its shape, what `with` tests, the template of its text, and its
/// default, which is its own or that of the definition that it names.
#[derive(Drop)]
#[cycle(resolved)]
pub struct Resolved {
    pub shape: Shape,
    pub condition: Option<Rc<Item>>,
    pub template: Name,
    pub default: Option<DefaultValue>,
}

/// What a type asks of a value, but for its test.
#[derive(Drop)]
#[cycle(resolved)]
pub enum Shape {
    /// A type that the language gives.
    Base(Base),
    /// The definition of a name.
    Named(Rc<Resolved>),
    /// A type, in a range.
    Ranged(Rc<Resolved>, Range),
    /// A list of so many items of a type.
    ListOf(Rc<Resolved>, Range),
    /// A dict of so many items of a type.
    DictOf(Rc<Resolved>, Range),
    /// A path to a value of a type.
    Link(Rc<Resolved>),
    /// A dict of fields. One that is extensible may have other keys beside them.
    Record {
        extensible: bool,
        fields: Vec<RecordField>,
    },
    /// One of these texts.
    Choice(Vec<Text>),
}

/// A field of a record, which has to be there where it is required.
#[derive(Drop)]
#[cycle(resolved)]
pub struct RecordField {
    pub key: Key,
    pub required: bool,
    pub resolved: Rc<Resolved>,
}
