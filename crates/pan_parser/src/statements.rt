ghost use Rattle.std.specs.Prelude.{◌≡◌, ◌<◌, ◌≤◌, [], ◌∷◌, ◌++◌, Bool, false, IfOk, List, length, map};
ghost use Rattle.pan_ast.specs.Pointers.{form_pointers, full_pointers, item_pointers, statement_pointers, statements_pointers};
ghost use Rattle.pan_parser.specs.Room.{Within};
ghost use Rattle.pan_ast.specs.declared.place.Place.{Place};
ghost use Rattle.pan_ast.specs.declared.sort.Sort.TheVariants.{End};
ghost use Rattle.pan_ast.specs.declared.token.Token.{Token};
ghost use Rattle.pan_ast.specs.Seen.{item_seen};
ghost use Rattle.pan_ast.specs.Sorts.{at, sort};
ghost use Rattle.pan_ast.specs.Syntax.{Item as Seen};
ghost use Rattle.pan_ast.specs.Templates.{Statement as Shown};
ghost use Rattle.pan_ast.specs.TemplatesSeen.{form_seen, statement_seen};
ghost use Rattle.pan_ast.specs.Types.{FullType as SeenType};
ghost use Rattle.pan_ast.specs.TypesSeen.{full_seen};
ghost use Rattle.pan_grammar.specs.Machine.{bind_read, full_of, function_read, item_of, path_read, prefix_read, run, setting_at, type_read, valid_read, variable_read};
ghost use Rattle.pan_grammar.specs.States.{Done, IncludeRead, Statements, Takes, AnAssign, ASetting, ASemicolon};
ghost use Rattle.pan_grammar.specs.Templates.{Header, conditional, stated, template};
ghost use Rattle.pan_parser.specs.Answers.{Goes, NotAt, on_front};

use crate::items::{block_items, item};
use crate::stopped::Stopped;
use crate::tokens::{Expected, cut, expect, next_is};
use crate::types::full_type;
use pan_ast::make_items::{make_block, make_plain, make_text};
use pan_ast::make_statements::{
    assign_statement, bind_statement, function_statement, include_statement, make_statement,
    prefix_statement, type_statement, valid_statement, variable_statement,
};
use pan_ast::{FullType, Item, Place, Sort, Statement, StatementForm, Token};
use std::alloc::{AllocError, Global};

/// How many tokens a statement of usual text has at least.
const USUAL_TOKENS: usize = 4;

/// An item and the `;` after it.
fn item_of(alloc: Global, tokens: &[Token]) -> Result<(Item, &[Token]), Stopped<'_>>
    ensures read { (h : Header) (ss : List Shown) (make : Seen → Shown) → Goes result
        (λ r. run r.1.now (Statements h (ss ++ make (item_seen r.0) ∷ [])))
        (run tokens.now (item_of h ss make)) }
    ensures shorter { IfOk result (λ r. length r.1.now < length tokens.now) }
    ensures pointers { IfOk result (λ r. Within 0 0 (item_pointers r.0)) }
{
    let (next, rest) = item(alloc, 0, tokens)?;
    let (_, rest) = expect(Expected::Sort(Sort::Semicolon), rest)?;
    Ok((next, rest))
}

/// `=`, an item, and the `;` after it.
fn right_side(alloc: Global, tokens: &[Token]) -> Result<(Item, &[Token]), Stopped<'_>>
    ensures read { (h : Header) (ss : List Shown) (make : Seen → Shown) → Goes result
        (λ r. run r.1.now (Statements h (ss ++ make (item_seen r.0) ∷ [])))
        (run tokens.now (Takes AnAssign (λ e. item_of h ss make))) }
    ensures shorter { IfOk result (λ r. length r.1.now < length tokens.now) }
    ensures pointers { IfOk result (λ r. Within 0 0 (item_pointers r.0)) }
{
    let (_, rest) = expect(Expected::Sort(Sort::Assign), tokens)?;
    item_of(alloc, rest)
}

/// `=`, a type, and the `;` after it.
fn type_of(alloc: Global, tokens: &[Token]) -> Result<(FullType, &[Token]), Stopped<'_>>
    ensures read { (h : Header) (ss : List Shown) (make : SeenType → Shown) → Goes result
        (λ r. run r.1.now (Statements h (ss ++ make (full_seen r.0) ∷ [])))
        (run tokens.now (Takes AnAssign (λ e. full_of h ss make))) }
    ensures shorter { IfOk result (λ r. length r.1.now < length tokens.now) }
    ensures pointers { IfOk result (λ r. Within 1 0 (full_pointers r.0)) }
{
    let (_, rest) = expect(Expected::Sort(Sort::Assign), tokens)?;
    let (full, rest) = full_type(alloc, 0, rest)?;
    let Some(after) = next_is(Sort::Semicolon, rest) else {
        return Err(Stopped::Bad(rest));
    };
    Ok((full, after))
}

/// `=` or `?=`, an item, and the `;` after it; and whether it was `?=`.
fn set_to(alloc: Global, tokens: &[Token]) -> Result<(bool, Item, &[Token]), Stopped<'_>>
    ensures read { (h : Header) (ss : List Shown) (make : Bool → Seen → Shown) → Goes result
        (λ r. run r.2.now (Statements h (ss ++ make r.0 (item_seen r.1) ∷ [])))
        (run tokens.now (Takes ASetting (λ a. item_of h ss (make (conditional a))))) }
    ensures shorter { IfOk result (λ r. length r.2.now < length tokens.now) }
    ensures pointers { IfOk result (λ r. Within 0 0 (item_pointers r.1)) }
{
    let (sign, rest) = expect(Expected::Setting, tokens)?;
    let (right, rest) = item_of(alloc, rest)?;
    Ok((Sort::ConditionalAssign.is(sign.sort()), right, rest))
}

/// After the text of a path.
fn path_form<'a>(
    alloc: Global,
    last: bool,
    path: &Token,
    tokens: &'a [Token],
) -> Result<(StatementForm, &'a [Token]), Stopped<'a>>
    ensures read { (p : Place) (h : Header) (ss : List Shown) → Goes result
        (λ r. run r.1.now (Statements h (ss ++ stated p (form_seen r.0) ∷ [])))
        (run tokens.now (path_read p last h ss path.now)) }
    ensures shorter { IfOk result (λ r. length r.1.now < length tokens.now) }
    ensures pointers { IfOk result (λ r. Within 2 0 (form_pointers r.0)) }
{
    let (conditional, right, rest) = set_to(alloc, tokens)?;
    Ok((
        assign_statement(last, path.value(), conditional, right)?,
        rest,
    ))
}

/// After `variable`.
fn variable_form(
    alloc: Global,
    last: bool,
    tokens: &[Token],
) -> Result<(StatementForm, &[Token]), Stopped<'_>>
    ensures read { (p : Place) (h : Header) (ss : List Shown) → Goes result
        (λ r. run r.1.now (Statements h (ss ++ stated p (form_seen r.0) ∷ [])))
        (run tokens.now (variable_read p last h ss)) }
    ensures shorter { IfOk result (λ r. length r.1.now < length tokens.now) }
    ensures pointers { IfOk result (λ r. Within 2 0 (form_pointers r.0)) }
{
    let (name, rest) = expect(Expected::Word, tokens)?;
    let (conditional, right, rest) = set_to(alloc, rest)?;
    Ok((
        variable_statement(last, name.value(), conditional, right)?,
        rest,
    ))
}

/// After `function`.
fn function_form(alloc: Global, tokens: &[Token]) -> Result<(StatementForm, &[Token]), Stopped<'_>>
    ensures read { (p : Place) (h : Header) (ss : List Shown) → Goes result
        (λ r. run r.1.now (Statements h (ss ++ stated p (form_seen r.0) ∷ [])))
        (run tokens.now (function_read p h ss)) }
    ensures shorter { IfOk result (λ r. length r.1.now < length tokens.now) }
    ensures pointers { IfOk result (λ r. Within 2 0 (form_pointers r.0)) }
{
    let (name, rest) = expect(Expected::Word, tokens)?;
    let (body, rest) = right_side(alloc, rest)?;
    Ok((function_statement(alloc, name.value(), body)?, rest))
}

/// After `type`.
fn type_form(alloc: Global, tokens: &[Token]) -> Result<(StatementForm, &[Token]), Stopped<'_>>
    ensures read { (p : Place) (h : Header) (ss : List Shown) → Goes result
        (λ r. run r.1.now (Statements h (ss ++ stated p (form_seen r.0) ∷ [])))
        (run tokens.now (type_read p h ss)) }
    ensures shorter { IfOk result (λ r. length r.1.now < length tokens.now) }
    ensures pointers { IfOk result (λ r. Within 2 0 (form_pointers r.0)) }
{
    let (name, rest) = expect(Expected::Word, tokens)?;
    let (full, rest) = type_of(alloc, rest)?;
    Ok((type_statement(alloc, name.value(), full)?, rest))
}

/// After `bind`.
fn bind_form(alloc: Global, tokens: &[Token]) -> Result<(StatementForm, &[Token]), Stopped<'_>>
    ensures read { (p : Place) (h : Header) (ss : List Shown) → Goes result
        (λ r. run r.1.now (Statements h (ss ++ stated p (form_seen r.0) ∷ [])))
        (run tokens.now (bind_read p h ss)) }
    ensures shorter { IfOk result (λ r. length r.1.now < length tokens.now) }
    ensures pointers { IfOk result (λ r. Within 2 0 (form_pointers r.0)) }
{
    let (path, rest) = expect(Expected::Sort(Sort::Text), tokens)?;
    let (full, rest) = type_of(alloc, rest)?;
    Ok((bind_statement(alloc, path.value(), full)?, rest))
}

/// After `valid`.
fn valid_form(alloc: Global, tokens: &[Token]) -> Result<(StatementForm, &[Token]), Stopped<'_>>
    ensures read { (p : Place) (h : Header) (ss : List Shown) → Goes result
        (λ r. run r.1.now (Statements h (ss ++ stated p (form_seen r.0) ∷ [])))
        (run tokens.now (valid_read p h ss)) }
    ensures shorter { IfOk result (λ r. length r.1.now < length tokens.now) }
    ensures pointers { IfOk result (λ r. Within 2 0 (form_pointers r.0)) }
{
    let (path, rest) = expect(Expected::Sort(Sort::Text), tokens)?;
    let (body, rest) = right_side(alloc, rest)?;
    Ok((valid_statement(alloc, path.value(), body)?, rest))
}

/// After `prefix`.
fn prefix_form(tokens: &[Token]) -> Result<(StatementForm, &[Token]), Stopped<'_>>
    ensures read { (p : Place) (h : Header) (ss : List Shown) → Goes result
        (λ r. run r.1.now (Statements h (ss ++ stated p (form_seen r.0) ∷ [])))
        (run tokens.now (prefix_read p h ss)) }
    ensures shorter { IfOk result (λ r. length r.1.now < length tokens.now) }
    ensures pointers { IfOk result (λ r. Within 2 0 (form_pointers r.0)) }
{
    let (path, rest) = expect(Expected::Sort(Sort::Text), tokens)?;
    let (_, rest) = expect(Expected::Sort(Sort::Semicolon), rest)?;
    Ok((prefix_statement(path.value())?, rest))
}

/// After `include`.
#[tactic(auto, using(pan_ast::proofs::Pointers::node_below))]
fn include_form(alloc: Global, tokens: &[Token]) -> Result<(StatementForm, &[Token]), Stopped<'_>>
    ensures read { (p : Place) (h : Header) (ss : List Shown) → Goes result
        (λ r. run r.1.now (Statements h (ss ++ stated p (form_seen r.0) ∷ [])))
        (run tokens.now (IncludeRead p h ss)) }
    ensures shorter { IfOk result (λ r. length r.1.now < length tokens.now) }
    ensures pointers { IfOk result (λ r. Within 2 0 (form_pointers r.0)) }
{
    let Some((first, rest)) = cut(tokens) else {
        return Err(Stopped::Bad(tokens));
    };
    match first.sort() {
        Sort::Text => {
            let text = make_plain(make_text(first.place(), first.value())?)?;
            let (_, rest) = expect(Expected::Sort(Sort::Semicolon), rest)?;
            Ok((include_statement(text), rest))
        }
        Sort::OpenBrace => {
            let (items, rest) = block_items(alloc, 1, first.place(), rest)?;
            let (_, rest) = expect(Expected::Sort(Sort::Semicolon), rest)?;
            Ok((include_statement(make_block(first.place(), items)?), rest))
        }
        _ => Err(Stopped::Bad(tokens)),
    }
}

/// An assignment or a variable, after `final` or not.
fn setting_form(
    alloc: Global,
    last: bool,
    tokens: &[Token],
) -> Result<(StatementForm, &[Token]), Stopped<'_>>
    ensures read { (p : Place) (h : Header) (ss : List Shown) → Goes result
        (λ r. run r.1.now (Statements h (ss ++ stated p (form_seen r.0) ∷ [])))
        (on_front (setting_at p last h ss) tokens.now) }
    ensures shorter { IfOk result (λ r. length r.1.now < length tokens.now) }
    ensures pointers { IfOk result (λ r. Within 2 0 (form_pointers r.0)) }
{
    let Some((first, rest)) = cut(tokens) else {
        return Err(Stopped::Bad(tokens));
    };
    match first.sort() {
        Sort::Text => path_form(alloc, last, first, rest),
        Sort::Variable => variable_form(alloc, last, rest),
        _ => Err(Stopped::Bad(tokens)),
    }
}

/// A statement but for its place. The tokens are the first one and those after it.
fn form<'a>(
    alloc: Global,
    first: &Token,
    rest: &'a [Token],
    tokens: &'a [Token],
) -> Result<(StatementForm, &'a [Token]), Stopped<'a>>
    requires parts { tokens.now ≡ first.now ∷ rest.now }
    requires open { at End (sort first.now) ≡ false }
    ensures read { (h : Header) (ss : List Shown) → Goes result
        (λ r. run r.1.now (Statements h (ss ++ stated first.now.place (form_seen r.0) ∷ [])))
        (run tokens.now (Statements h ss)) }
    ensures shorter { IfOk result (λ r. length r.1.now < length tokens.now) }
    ensures pointers { IfOk result (λ r. Within 2 0 (form_pointers r.0)) }
{
    match first.sort() {
        Sort::Final => setting_form(alloc, true, rest),
        Sort::Function => function_form(alloc, rest),
        Sort::Type => type_form(alloc, rest),
        Sort::Bind => bind_form(alloc, rest),
        Sort::Valid => valid_form(alloc, rest),
        Sort::Include => include_form(alloc, rest),
        Sort::Prefix => prefix_form(rest),
        _ => setting_form(alloc, false, tokens),
    }
}

/// A statement.
fn statement(alloc: Global, tokens: &[Token]) -> Result<(Statement, &[Token]), Stopped<'_>>
    requires { NotAt End tokens.now }
    ensures read { (h : Header) (ss : List Shown) → Goes result
        (λ r. run r.1.now (Statements h (ss ++ statement_seen r.0 ∷ [])))
        (run tokens.now (Statements h ss)) }
    ensures shorter { IfOk result (λ r. length r.1.now < length tokens.now) }
    ensures pointers { IfOk result (λ r. Within 2 0 (statement_pointers r.0)) }
{
    let Some((first, rest)) = cut(tokens) else {
        return Err(Stopped::Bad(tokens));
    };
    let (form, rest) = form(alloc, first, rest, tokens)?;
    Ok((make_statement(first.place(), form)?, rest))
}

/// The statements of a template, to the End and what stands after it.
#[tactic(auto, using(pan_ast::proofs::Pointers::statements_push))]
pub(crate) fn statements(
    alloc: Global,
    tokens: &[Token],
) -> Result<(Vec<Statement>, &[Token]), Stopped<'_>>
    ensures read { (h : Header) → Goes result
        (λ r. run r.1.now (Done (template h (map statement_seen r.0.items))))
        (run tokens.now (Statements h [])) }
    ensures pointers { IfOk result (λ r. Within 2 0 (statements_pointers r.0.items)) }
{
    let mut statements = Vec::with_capacity(alloc, tokens.len() / USUAL_TOKENS)?;
    let mut rest = tokens;
    loop {
        if let Some(after) = next_is(Sort::End, rest) {
            return Ok((statements, after));
        }
        let (next, more) = statement(alloc, rest)?;
        statements.push(next)?;
        rest = more;
    }
}
