ghost use Rattle.std.specs.Prelude.{◌≡◌, ◌+◌, IfOk};
ghost use Rattle.pan_ast.specs.Seen.{item_seen};
ghost use Rattle.pan_ast.specs.TypesSeen.{full_seen};
ghost use Rattle.pan_ast.specs.Templates as plain;
ghost use Rattle.pan_ast.specs.TemplatesSeen.{form_seen, statement_seen};
ghost use Rattle.pan_ast.specs.Pointers.{form_pointers, full_pointers, item_pointers, statement_pointers};

use crate::place::Place;
use crate::syntax::Item;
use crate::template::{Statement, StatementForm};
use crate::types::FullType;
use base::Text;
use std::alloc::{AllocError, Global};
use std::rc::Rc;

/// A statement with the place of its first token.
pub fn make_statement(place: &Place, form: StatementForm) -> Result<Statement, AllocError>
    ensures seen { IfOk result (λ s. statement_seen s ≡ record
        { place = place.now; form = form_seen form }) }
    ensures pointers { IfOk result (λ s. statement_pointers s ≡ form_pointers form) }
{
    Ok(Statement {
        place: place.share()?,
        form,
    })
}

/// `"path" = item;`, with `?=` where it is conditional and after `final` where it is the last.
pub fn assign_statement(
    last: bool,
    path: &Text,
    conditional: bool,
    item: Item,
) -> Result<StatementForm, AllocError>
    ensures seen { IfOk result (λ f. form_seen f ≡ plain.Assign last path.now conditional
        (item_seen item)) }
    ensures pointers { IfOk result (λ f. form_pointers f ≡ item_pointers item) }
{
    Ok(StatementForm::Assign {
        last,
        path: path.share()?,
        conditional,
        item,
    })
}

/// `variable name = item;`, with `?=` where it is conditional and after `final` where it is the last.
pub fn variable_statement(
    last: bool,
    name: &Text,
    conditional: bool,
    item: Item,
) -> Result<StatementForm, AllocError>
    ensures seen { IfOk result (λ f. form_seen f ≡ plain.Variable last name.now conditional
        (item_seen item)) }
    ensures pointers { IfOk result (λ f. form_pointers f ≡ item_pointers item) }
{
    Ok(StatementForm::Variable {
        last,
        name: name.share()?,
        conditional,
        item,
    })
}

/// `function name = item;`
pub fn function_statement(
    alloc: Global,
    name: &Text,
    body: Item,
) -> Result<StatementForm, AllocError>
    ensures seen { IfOk result (λ f. form_seen f ≡ plain.Function name.now (item_seen body)) }
    ensures pointers { IfOk result (λ f. form_pointers f ≡ 1 + item_pointers body) }
{
    Ok(StatementForm::Function {
        name: name.share()?,
        body: Rc::new(alloc, body)?,
    })
}

/// `type name = type;`
pub fn type_statement(
    alloc: Global,
    name: &Text,
    full: FullType,
) -> Result<StatementForm, AllocError>
    ensures seen { IfOk result (λ f. form_seen f ≡ plain.Define name.now (full_seen full)) }
    ensures pointers { IfOk result (λ f. form_pointers f ≡ 1 + full_pointers full) }
{
    Ok(StatementForm::Define {
        name: name.share()?,
        full: Rc::new(alloc, full)?,
    })
}

/// `bind "path" = type;`
pub fn bind_statement(
    alloc: Global,
    path: &Text,
    full: FullType,
) -> Result<StatementForm, AllocError>
    ensures seen { IfOk result (λ f. form_seen f ≡ plain.Bind path.now (full_seen full)) }
    ensures pointers { IfOk result (λ f. form_pointers f ≡ 1 + full_pointers full) }
{
    Ok(StatementForm::Bind {
        path: path.share()?,
        full: Rc::new(alloc, full)?,
    })
}

/// `valid "path" = item;`
pub fn valid_statement(alloc: Global, path: &Text, body: Item) -> Result<StatementForm, AllocError>
    ensures seen { IfOk result (λ f. form_seen f ≡ plain.Valid path.now (item_seen body)) }
    ensures pointers { IfOk result (λ f. form_pointers f ≡ 1 + item_pointers body) }
{
    Ok(StatementForm::Valid {
        path: path.share()?,
        body: Rc::new(alloc, body)?,
    })
}

/// `include item;`
pub fn include_statement(item: Item) -> StatementForm
    ensures seen { form_seen result ≡ plain.Include (item_seen item) }
    ensures pointers { form_pointers result ≡ item_pointers item }
{
    StatementForm::Include { item }
}

/// `prefix "path";`
pub fn prefix_statement(path: &Text) -> Result<StatementForm, AllocError>
    ensures seen { IfOk result (λ f. form_seen f ≡ plain.Prefix path.now) }
    ensures pointers { IfOk result (λ f. form_pointers f ≡ 0) }
{
    Ok(StatementForm::Prefix {
        path: path.share()?,
    })
}
