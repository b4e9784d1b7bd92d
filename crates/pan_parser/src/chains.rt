ghost use Rattle.std.specs.Prelude.{◌≡◌, ◌<◌, ◌≤◌, [], ℕ, zero, suc, IfOk, length, map, ◌+◌};
ghost use Rattle.base.specs.declared.limits.TheConstants.{MAX_NESTING};
ghost use Rattle.pan_ast.specs.Pointers.{item_pointers, items_pointers, left_pointers};
ghost use Rattle.pan_parser.specs.Room.{Within};
ghost use Rattle.pan_ast.specs.Seen.{item_seen, node_seen};
ghost use Rattle.pan_grammar.specs.Depths.{holders, node_holders};
ghost use Rattle.pan_grammar.specs.Grammar.{called, name};
ghost use Rattle.pan_grammar.specs.Machine.{run};
ghost use Rattle.pan_grammar.specs.States.{CallOpen, Chained, HasItem, HasNode, HasPrimary, HasReference, ItemStack, NeedUnary, NodeStack, WordRead, down};
ghost use Rattle.pan_ast.specs.declared.sort.Sort.TheVariants.{OpenBracket};
ghost use Rattle.pan_parser.specs.Answers.{Goes, NoSign, NotAt, indexed};

use crate::items::item;
use crate::stopped::Stopped;
use crate::tables::{ends_chains, join, literal, next_operator, unary_of};
use crate::tokens::{Expected, cut, expect, next_is};
use base::limits::MAX_NESTING;
use pan_ast::make_items::{make_call, make_index, make_inside, make_name, make_plain, make_unary};
use pan_ast::{Item, Node, Sort, Token};
use std::alloc::{AllocError, Global};

/// A chain of operators that begins with an operand that was read, as an item.
#[tactic(auto, using(pan_ast::proofs::Pointers::node_below))]
#[cycle(items)]
pub(crate) fn chain_item(
    alloc: Global,
    depth: usize,
    first: Node,
    tokens: &[Token],
) -> Result<(Item, &[Token]), Stopped<'_>>
    requires room { depth ≤ MAX_NESTING }
    requires operand { Within 1 depth (left_pointers first) }
    ensures read { (s : ItemStack) → suc (holders s) ≡ depth → Goes result
        (λ r. run r.1.now (HasItem (item_seen r.0) s))
        (run tokens.now (HasNode (node_seen first) (down 9 (Chained s)))) }
    ensures shorter { IfOk result (λ r. length r.1.now ≤ length tokens.now) }
    ensures pointers { IfOk result (λ r. Within 11 depth (item_pointers r.0)) }
{
    let (node, rest) = chain(alloc, depth, 9, first, tokens)?;
    Ok((make_plain(node)?, rest))
}

/// A chain of a line that begins with an operand that was read. Line 0 is that operand alone.
#[cycle(items)]
fn chain(
    alloc: Global,
    depth: usize,
    line: u8,
    first: Node,
    tokens: &[Token],
) -> Result<(Node, &[Token]), Stopped<'_>>
    requires room { depth ≤ MAX_NESTING }
    requires lines { line ≤ 9 }
    requires operand { Within 1 depth (left_pointers first) }
    ensures read { (n : NodeStack line) → node_holders n ≡ depth → Goes result
        (λ r. run r.1.now (HasNode (node_seen r.0) n))
        (run tokens.now (HasNode (node_seen first) (down line n))) }
    ensures shorter { IfOk result (λ r. length r.1.now ≤ length tokens.now) }
    ensures pointers { IfOk result (λ r. Within (1 + line) depth (left_pointers r.0)) }
{
    if line == 0 {
        return Ok((first, tokens));
    }
    // Most operands stand alone; this saves them the way through all lines.
    if ends_chains(tokens) {
        return Ok((first, tokens));
    }
    let (mut left, mut rest) = chain(alloc, depth, line - 1, first, tokens)?;
    while let Some((operator, after)) = next_operator(line, rest) {
        let (right, more) = operand(alloc, depth, line - 1, after)?;
        left = join(alloc, operator, left, right)?;
        rest = more;
    }
    Ok((left, rest))
}

/// A chain of a line.
#[cycle(items)]
fn operand(
    alloc: Global,
    depth: usize,
    line: u8,
    tokens: &[Token],
) -> Result<(Node, &[Token]), Stopped<'_>>
    requires room { depth ≤ MAX_NESTING }
    requires lines { line ≤ 9 }
    ensures read { (n : NodeStack line) → node_holders n ≡ depth → Goes result
        (λ r. run r.1.now (HasNode (node_seen r.0) n)) (run tokens.now (NeedUnary (down line n))) }
    ensures shorter { IfOk result (λ r. length r.1.now < length tokens.now) }
    ensures pointers { IfOk result (λ r. Within (1 + line) depth (left_pointers r.0)) }
{
    let (first, rest) = unary(alloc, depth, tokens)?;
    chain(alloc, depth, line, first, rest)
}

/// An operand with the signs before it and the indexes after it.
#[tactic(auto, using(pan_ast::proofs::Pointers::node_below))]
#[cycle(items)]
pub(crate) fn unary(
    alloc: Global,
    depth: usize,
    tokens: &[Token],
) -> Result<(Node, &[Token]), Stopped<'_>>
    requires { depth ≤ MAX_NESTING }
    ensures read { (n : NodeStack zero) → node_holders n ≡ depth → Goes result
        (λ r. run r.1.now (HasNode (node_seen r.0) n)) (run tokens.now (NeedUnary n)) }
    ensures shorter { IfOk result (λ r. length r.1.now < length tokens.now) }
    ensures pointers { IfOk result (λ r. Within 1 depth (left_pointers r.0)) }
{
    let Some((first, rest)) = cut(tokens) else {
        return Err(Stopped::Bad(tokens));
    };
    let Some(operator) = unary_of(first.sort()) else {
        let (node, rest) = primary(alloc, depth, tokens)?;
        return indexes(alloc, depth, node, rest);
    };
    if depth == MAX_NESTING {
        return Err(Stopped::Deep(tokens));
    }
    let (node, rest) = unary(alloc, depth + 1, rest)?;
    Ok((make_unary(alloc, first.place(), operator, node)?, rest))
}

/// An operand without signs and indexes.
#[cycle(items)]
fn primary(alloc: Global, depth: usize, tokens: &[Token]) -> Result<(Node, &[Token]), Stopped<'_>>
    requires room { depth ≤ MAX_NESTING }
    requires sign { NoSign tokens.now }
    ensures read { (n : NodeStack zero) → node_holders n ≡ depth → Goes result
        (λ r. run r.1.now (HasPrimary (node_seen r.0) n)) (run tokens.now (NeedUnary n)) }
    ensures shorter { IfOk result (λ r. length r.1.now < length tokens.now) }
    ensures pointers { IfOk result (λ r. Within 1 depth (left_pointers r.0)) }
{
    let Some((first, rest)) = cut(tokens) else {
        return Err(Stopped::Bad(tokens));
    };
    if let Some(node) = literal(first)? {
        return Ok((node, rest));
    }
    if first.sort().is_plain() {
        return named(alloc, depth, first, rest);
    }
    if !Sort::Open.is(first.sort()) {
        return Err(Stopped::Bad(tokens));
    }
    let (inner, rest) = item(alloc, depth, rest)?;
    let (_, rest) = expect(Expected::Sort(Sort::Close), rest)?;
    Ok((make_inside(alloc, first.place(), inner)?, rest))
}

/// After a plain word: a call, or the word as a name.
#[cycle(items)]
fn named<'a>(
    alloc: Global,
    depth: usize,
    word: &Token,
    tokens: &'a [Token],
) -> Result<(Node, &'a [Token]), Stopped<'a>>
    requires { depth ≤ MAX_NESTING }
    ensures read { (n : NodeStack zero) → node_holders n ≡ depth → Goes result
        (λ r. run r.1.now (HasPrimary (node_seen r.0) n)) (run tokens.now (WordRead word.now n)) }
    ensures shorter { IfOk result (λ r. length r.1.now ≤ length tokens.now) }
    ensures pointers { IfOk result (λ r. Within 1 depth (left_pointers r.0)) }
{
    let Some(after) = next_is(Sort::Open, tokens) else {
        return Ok((make_name(word.place(), word.value())?, tokens));
    };
    let (items, rest) = arguments(alloc, depth, word, after)?;
    Ok((make_call(word.place(), word.value(), items)?, rest))
}

/// After `name(`: the arguments through `)`.
#[tactic(auto, using(pan_ast::proofs::Pointers::items_push))]
#[cycle(items)]
pub(crate) fn arguments<'a>(
    alloc: Global,
    depth: usize,
    word: &Token,
    tokens: &'a [Token],
) -> Result<(Vec<Item>, &'a [Token]), Stopped<'a>>
    requires { depth ≤ MAX_NESTING }
    ensures read { (n : NodeStack zero) → node_holders n ≡ depth → Goes result
        (λ r. run r.1.now (HasPrimary (called word.now (map item_seen r.0.items)) n))
        (run tokens.now (CallOpen word.now n)) }
    ensures shorter { IfOk result (λ r. length r.1.now < length tokens.now) }
    ensures pointers { IfOk result (λ r. Within 0 depth (items_pointers r.0.items)) }
{
    let mut items = Vec::new(alloc);
    let mut rest = tokens;
    if let Some(after) = next_is(Sort::Close, tokens) {
        return Ok((items, after));
    }
    loop {
        let (next, more) = item(alloc, depth, rest)?;
        items.push(next)?;
        let Some(after) = next_is(Sort::Comma, more) else {
            let (_, rest) = expect(Expected::Sort(Sort::Close), more)?;
            return Ok((items, rest));
        };
        rest = after;
    }
}

/// The indexes after an operand.
#[cycle(items)]
pub(crate) fn indexes(
    alloc: Global,
    depth: usize,
    first: Node,
    tokens: &[Token],
) -> Result<(Node, &[Token]), Stopped<'_>>
    requires room { depth ≤ MAX_NESTING }
    requires operand { Within 1 depth (left_pointers first) }
    ensures read { (n : NodeStack zero) → node_holders n ≡ depth → Goes result
        (λ r. run r.1.now (HasNode (node_seen r.0) n))
        (run tokens.now (HasPrimary (node_seen first) n)) }
    ensures shorter { IfOk result (λ r. length r.1.now ≤ length tokens.now) }
    ensures pointers { IfOk result (λ r. Within 1 depth (left_pointers r.0)) }
{
    let mut whole = first;
    let mut rest = tokens;
    while let Some(after) = next_is(Sort::OpenBracket, rest) {
        let (index, more) = item(alloc, depth, after)?;
        whole = make_index(alloc, whole, index)?;
        (_, rest) = expect(Expected::Sort(Sort::CloseBracket), more)?;
    }
    Ok((whole, rest))
}

/// The indexes after a word at the beginning of an item, each an item, through the last `]` of them.
#[tactic(auto, using(pan_ast::proofs::Pointers::items_push))]
#[cycle(items)]
pub(crate) fn reference_indexes<'a>(
    alloc: Global,
    depth: usize,
    word: &Token,
    tokens: &'a [Token],
) -> Result<(Vec<Item>, &'a [Token]), Stopped<'a>>
    requires { depth ≤ MAX_NESTING }
    ensures read { (s : ItemStack) → suc (holders s) ≡ depth → Goes result
        (λ r. run r.1.now (HasReference word.now (map item_seen r.0.items)
        (indexed (name word.now) (map item_seen r.0.items)) s))
        (run tokens.now (HasReference word.now [] (name word.now) s)) }
    ensures ended { IfOk result (λ r. NotAt OpenBracket r.1.now) }
    ensures shorter { IfOk result (λ r. length r.1.now ≤ length tokens.now) }
    ensures pointers { IfOk result (λ r. Within 0 depth (items_pointers r.0.items)) }
{
    let mut items = Vec::new(alloc);
    let mut rest = tokens;
    while let Some(after) = next_is(Sort::OpenBracket, rest) {
        let (index, more) = item(alloc, depth, after)?;
        items.push(index)?;
        (_, rest) = expect(Expected::Sort(Sort::CloseBracket), more)?;
    }
    Ok((items, rest))
}
