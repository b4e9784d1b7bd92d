use crate::place::Place;
use crate::syntax::Item;
use crate::types::FullType;
use base::Text;
use path_tree::Name;
use std::rc::Rc;

/// The word before `template` in a header, or none.
#[derive(Clone, Copy, PartialEq, Eq)]
pub enum TemplateKind {
    Ordinary,
    Object,
    Structure,
    Unique,
    Declaration,
}

/// A template: its header, `kind template name;`, and its statements. The place is that of the first token.
pub struct Template {
    pub kind: TemplateKind,
    pub name: Name,
    pub name_place: Place,
    pub place: Place,
    pub statements: Vec<Statement>,
}

// The types here are let go by one call at each exit of who holds one: a derived Drop would let go of each part there.
impl Drop for Template {
    fn drop(self) {
        let Template {
            kind: _kind,
            name: _name,
            name_place: _name_place,
            place: _place,
            statements: _statements,
        } = self;
    }
}

/// A statement with the place of its first token.
pub struct Statement {
    pub place: Place,
    pub form: StatementForm,
}

impl Drop for Statement {
    fn drop(self) {
        let Statement {
            place: _place,
            form: _form,
        } = self;
    }
}

/// What a statement is. `last` says that `final` stands before the statement, `conditional` that it has `?=` in place of `=`. A path is
/// the value of its text.
#[derive(Drop)]
pub enum StatementForm {
    /// `"path" = item;`
    Assign {
        last: bool,
        path: Text,
        conditional: bool,
        item: Item,
    },
    /// `variable name = item;`
    Variable {
        last: bool,
        name: Text,
        conditional: bool,
        item: Item,
    },
    /// `function name = item;`
    Function {
        name: Text,
        body: Rc<Item>,
    },
    /// `type name = type;`
    Define {
        name: Text,
        full: Rc<FullType>,
    },
    /// `bind "path" = type;`
    Bind {
        path: Text,
        full: Rc<FullType>,
    },
    /// `valid "path" = item;`
    Valid {
        path: Text,
        body: Rc<Item>,
    },
    /// `include "name";` or `include { .. };`, the text or the block as an item.
    Include {
        item: Item,
    },
    /// `prefix "path";`
    Prefix {
        path: Text,
    },
}
