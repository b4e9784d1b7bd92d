use crate::place::Place;
use crate::syntax::Item;
use base::Text;
use path_tree::Key;
use std::rc::Rc;

/// A type with its default and its test: `type = item with item`, each of the two where it is written.
#[cycle(types)]
pub struct FullType {
    pub form: TypeForm,
    pub default: Option<Item>,
    pub with: Option<Rc<Item>>,
}

// The types here are let go by one call at each exit of who holds one: a derived Drop would let go of each part there.
impl Drop for FullType {
    #[cycle(letting_go_of_types)]
    fn drop(self) {
        let FullType {
            form: _form,
            default: _default,
            with: _with,
        } = self;
    }
}

/// A head and the suffixes after it, in the order of the text.
#[cycle(types)]
pub struct TypeForm {
    pub head: Head,
    pub suffixes: Vec<Suffix>,
}

impl Drop for TypeForm {
    #[cycle(letting_go_of_types)]
    fn drop(self) {
        let TypeForm {
            head: _head,
            suffixes: _suffixes,
        } = self;
    }
}

/// A type without its suffixes, default and test.
#[derive(Drop)]
#[cycle(types)]
pub enum Head {
    /// `name` or `name(bounds)`
    Named {
        name: Text,
        place: Place,
        bounds: Option<Bounds>,
    },
    /// `{ field field .. }`, with `extensible` before it or not.
    Record(RecordForm),
    /// `choice("text", "text", ..)`, the texts in the order of the text.
    Choice(Vec<Text>),
}

/// What stands behind the head of a type.
pub enum Suffix {
    /// `[bounds]` or `[]`
    List(Option<Bounds>),
    /// `{bounds}` or `{}`
    Dict(Option<Bounds>),
    /// `*`
    Link,
}

impl Drop for Suffix {
    fn drop(self) {
        match self {
            Suffix::List(_bounds) => (),
            Suffix::Dict(_bounds) => (),
            Suffix::Link => (),
        }
    }
}

/// A range of numbers, with the place of its first token. Exactly `n` is from `n` to `n`.
pub struct Bounds {
    pub place: Place,
    pub low: Option<i64>,
    pub high: Option<i64>,
}

impl Drop for Bounds {
    fn drop(self) {
        let Bounds {
            place: _place,
            low: _low,
            high: _high,
        } = self;
    }
}

/// The fields of a record, in the order of the text.
#[derive(Drop)]
#[cycle(types)]
pub struct RecordForm {
    pub extensible: bool,
    pub fields: Vec<Field>,
}

/// What stands between the braces of a record.
#[cycle(types)]
pub enum Field {
    /// `"key" : type` where it is required, `"key" ? type` where it is not. The place is that of the key.
    Own {
        key: Key,
        place: Place,
        required: bool,
        full: FullType,
    },
    /// `include name`, with the place of the word and that of the name.
    Include {
        place: Place,
        name: Text,
        name_place: Place,
    },
}

impl Drop for Field {
    #[cycle(letting_go_of_types)]
    fn drop(self) {
        match self {
            Field::Own {
                key: _key,
                place: _place,
                required: _required,
                full: _full,
            } => (),
            Field::Include {
                place: _place,
                name: _name,
                name_place: _name_place,
            } => (),
        }
    }
}
