ghost use Rattle.std.specs.Prelude.{◌≡◌, ◌<◌, ◌≤◌, ◌∷◌, ◌^◌, ◌-◌, [], IfOk, MatchOption, map, min, pos, option_map, ◌+◌, max, IfSome};
ghost use Rattle.pan_ast.specs.Pointers.{items_pointers, left_pointers};
ghost use Rattle.pan_ast.specs.Sorts.{sort};
ghost use Rattle.pan_ast.specs.Seen.{item_seen, node_seen};
ghost use Rattle.pan_grammar.specs.Depths.{full_start, item_start};
ghost use Rattle.pan_grammar.specs.Grammar.{joined, level, literal, name, number, operator, unary_of};
ghost use Rattle.path_tree.specs.Grammar.{number_of};
ghost use Rattle.pan_parser.specs.Answers.{ends_chains, IsOperator, NoOperator, indexed, op_seen};

use crate::tokens::cut;
use pan_ast::make_items::{
    make_and, make_binary, make_boolean, make_index, make_long, make_name, make_null, make_or,
    make_text, make_undef,
};
use pan_ast::{Item, Node, Sort, Token};
use path_tree::{BinaryOp, UnaryOp};
use std::alloc::{AllocError, Global};

/// An operator between two operands.
#[derive(Clone, Copy)]
pub enum Operator {
    Of(BinaryOp),
    Both,
    Either,
}

/// The operator before an operand that a sign is.
pub(crate) fn unary_of(sort: Sort) -> Option<UnaryOp>
    ensures { result ≡ unary_of sort }
{
    match sort {
        Sort::Plus => Some(UnaryOp::Plus),
        Sort::Minus => Some(UnaryOp::Minus),
        Sort::Not => Some(UnaryOp::Not),
        Sort::Flip => Some(UnaryOp::Flip),
        _ => None,
    }
}

/// The line of chains that an operator belongs to, from products, 1, to `||`, 9; 0 for every other token.
fn level(sort: Sort) -> u8
    ensures { result ≡ level sort }
{
    match sort {
        Sort::Star | Sort::Slash | Sort::Percent => 1,
        Sort::Plus | Sort::Minus => 2,
        Sort::Less | Sort::LessEqual | Sort::More | Sort::MoreEqual => 3,
        Sort::Equal | Sort::NotEqual => 4,
        Sort::BitAnd => 5,
        Sort::BitXor => 6,
        Sort::BitOr => 7,
        Sort::And => 8,
        Sort::Or => 9,
        _ => 0,
    }
}

/// The operator that a sign is between two operands.
fn operator_of(sort: Sort) -> Operator
    ensures { op_seen result ≡ operator sort }
{
    match sort {
        Sort::Star => Operator::Of(BinaryOp::Multiply),
        Sort::Slash => Operator::Of(BinaryOp::Divide),
        Sort::Percent => Operator::Of(BinaryOp::Rest),
        Sort::Plus => Operator::Of(BinaryOp::Add),
        Sort::Minus => Operator::Of(BinaryOp::Subtract),
        Sort::Less => Operator::Of(BinaryOp::Less),
        Sort::LessEqual => Operator::Of(BinaryOp::LessEqual),
        Sort::More => Operator::Of(BinaryOp::More),
        Sort::MoreEqual => Operator::Of(BinaryOp::MoreEqual),
        Sort::Equal => Operator::Of(BinaryOp::Equal),
        Sort::NotEqual => Operator::Of(BinaryOp::NotEqual),
        Sort::BitAnd => Operator::Of(BinaryOp::BitAnd),
        Sort::BitXor => Operator::Of(BinaryOp::BitXor),
        Sort::BitOr => Operator::Of(BinaryOp::BitOr),
        Sort::And => Operator::Both,
        _ => Operator::Either,
    }
}

/// The operator of a line of chains that stands at the front, and the tokens after it.
pub(crate) fn next_operator(line: u8, tokens: &[Token]) -> Option<(Operator, &[Token])>
    ensures { MatchOption result (NoOperator line tokens.now)
        (λ r. IsOperator line tokens.now (op_seen r.0) r.1.now) }
{
    let Some((first, rest)) = cut(tokens) else {
        return None;
    };
    let sort = first.sort();
    if level(sort) == line {
        Some((operator_of(sort), rest))
    } else {
        None
    }
}

/// Whether no operator of two operands stands at the front.
pub(crate) fn ends_chains(tokens: &[Token]) -> bool
    ensures { result ≡ ends_chains tokens.now }
{
    let Some((first, _)) = cut(tokens) else {
        return true;
    };
    level(first.sort()) == 0
}

/// Two operands and the operator between them.
#[tactic(auto, using(pan_ast::proofs::Pointers::node_below))]
pub(crate) fn join(
    alloc: Global,
    operator: Operator,
    left: Node,
    right: Node,
) -> Result<Node, AllocError>
    ensures seen { IfOk result (λ y. node_seen y ≡ joined (op_seen operator) (node_seen left)
        (node_seen right)) }
    ensures pointers { IfOk result (λ y. left_pointers y ≤ max (left_pointers left)
        (1 + left_pointers right)) }
{
    match operator {
        Operator::Of(operator) => make_binary(alloc, operator, left, right),
        Operator::Both => make_and(alloc, left, right),
        Operator::Either => make_or(alloc, left, right),
    }
}

/// The number that decimal digits give, at most 2^64 - 1.
fn number_of(digits: &[u8]) -> u64
    ensures { result ≡ min (number_of digits.now) (2 ^ 64 - 1) }
{
    let mut number = 0u64;
    for digit in digits {
        number = number
            .saturating_mul(10)
            .saturating_add(u64::from(digit.saturating_sub(48)));
    }
    number
}

/// The number of the token of an Int, which the lexer keeps below 2^63.
pub(crate) fn long(token: &Token) -> i64
    ensures { result ≡ number token.now }
{
    let number = number_of(token.value().as_str().as_bytes());
    number.min(9_223_372_036_854_775_807) as i64
}

/// The literal that a token is, or None.
pub(crate) fn literal(token: &Token) -> Result<Option<Node>, AllocError>
    ensures seen { IfOk result (λ o. option_map node_seen o ≡ literal (sort token.now) token.now) }
    ensures pointers { IfOk result (λ o. IfSome o (λ n. left_pointers n ≡ 0)) }
{
    let place = token.place();
    let node = match token.sort() {
        Sort::Int => make_long(place, long(token))?,
        Sort::Text => make_text(place, token.value())?,
        Sort::True => make_boolean(place, true)?,
        Sort::False => make_boolean(place, false)?,
        Sort::Undef => make_undef(place)?,
        Sort::Null => make_null(place)?,
        _ => return Ok(None),
    };
    Ok(Some(node))
}

/// Whether an item can begin with a token of the sort.
pub(crate) fn starts_item(sort: Sort) -> bool
    ensures { result ≡ item_start sort }
{
    match sort {
        Sort::OpenBrace | Sort::Open => true,
        Sort::If | Sort::While | Sort::For | Sort::Foreach => true,
        Sort::Int | Sort::Text | Sort::True | Sort::False | Sort::Undef | Sort::Null => true,
        Sort::Plus | Sort::Minus | Sort::Not | Sort::Flip => true,
        sort => sort.is_plain(),
    }
}

/// Whether a type can begin with a token of the sort.
pub(crate) fn starts_type(sort: Sort) -> bool
    ensures { result ≡ full_start sort }
{
    match sort {
        Sort::OpenBrace | Sort::Extensible | Sort::Choice => true,
        sort => sort.is_type_name(),
    }
}

/// A name with indexes.
pub(crate) fn indexed_name(
    alloc: Global,
    token: &Token,
    indexes: Vec<Item>,
) -> Result<Node, AllocError>
    ensures seen { IfOk result (λ y. node_seen y ≡ indexed (name token.now)
        (map item_seen indexes.items)) }
    ensures pointers { IfOk result (λ y. left_pointers y ≤ items_pointers indexes.items) }
{
    let mut node = make_name(token.place(), token.value())?;
    for index in indexes {
        node = make_index(alloc, node, index)?;
    }
    Ok(node)
}
