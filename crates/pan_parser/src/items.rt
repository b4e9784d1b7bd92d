ghost use Rattle.std.specs.Prelude.{◌≡◌, ◌<◌, ◌≤◌, [], ◌∷◌, ℕ, suc, false, IfOk, IfSome, length, map};
ghost use Rattle.base.specs.declared.limits.TheConstants.{MAX_NESTING};
ghost use Rattle.pan_ast.specs.Pointers.{item_pointers, items_pointers};
ghost use Rattle.pan_parser.specs.Room.{Within};
ghost use Rattle.pan_ast.specs.declared.token.Token.{Token};
ghost use Rattle.pan_ast.specs.Seen.{item_seen};
ghost use Rattle.pan_ast.specs.declared.sort.Sort.TheVariants.{OpenBracket};
ghost use Rattle.pan_ast.specs.Syntax.{Item as Seen};
ghost use Rattle.pan_grammar.specs.Depths.{holders};
ghost use Rattle.pan_grammar.specs.Grammar.{block, name};
ghost use Rattle.pan_grammar.specs.Machine.{for_read, foreach_read, if_read, over, run, while_read};
ghost use Rattle.pan_grammar.specs.States.{ASemicolon, AWord, AnOpen, BlockOpen, Divider, Further, HasItem, HasReference, InParts, ItemStack, ItemWord, NeedItem, Parts, State, Takes, divider};
ghost use Rattle.pan_parser.specs.Answers.{Fails, Goes, NotAt, indexed};

use crate::chains::{arguments, chain_item, indexes, reference_indexes, unary};
use crate::stopped::Stopped;
use crate::tables::{ends_chains, indexed_name, literal, starts_item};
use crate::tokens::{Expected, cut, expect, next_is};
use base::limits::MAX_NESTING;
use pan_ast::make_items::{
    make_assign, make_block, make_call, make_for, make_foreach, make_if, make_if_else, make_plain,
    make_reference, make_while,
};
use pan_ast::{Item, Place, Sort, Token};
use std::alloc::{AllocError, Global};

/// The fault where an item is wanted that as many constructs would hold as may.
fn at_limit(tokens: &[Token]) -> Stopped<'_>
    ensures { (s : ItemStack) → holders s ≡ MAX_NESTING → Fails result
        (run tokens.now (NeedItem s)) }
{
    let Some((first, _)) = cut(tokens) else {
        return Stopped::Bad(tokens);
    };
    if starts_item(first.sort()) {
        Stopped::Deep(tokens)
    } else {
        Stopped::Bad(tokens)
    }
}

/// The item that a literal alone is: with no index and no operator behind it. Most items are such, and this saves them
/// the way through all lines of chains.
#[tactic(auto, using(pan_ast::proofs::Pointers::node_below))]
fn lone_literal(first: &Token, rest: &[Token]) -> Result<Option<Item>, AllocError>
    ensures read { IfOk result (λ o. IfSome o
        (λ y. (s : ItemStack) → over (suc (holders s)) ≡ false → run (first.now ∷ rest.now)
        (NeedItem s) ≡ run rest.now (HasItem (item_seen y) s))) }
    ensures pointers { IfOk result (λ o. IfSome o (λ y. item_pointers y ≤ 1)) }
{
    let None = next_is(Sort::OpenBracket, rest) else {
        return Ok(None);
    };
    if !ends_chains(rest) {
        return Ok(None);
    }
    match literal(first)? {
        Some(node) => Ok(Some(make_plain(node)?)),
        None => Ok(None),
    }
}

/// An item that as many constructs hold as `depth` says.
#[cycle(items)]
pub(crate) fn item(
    alloc: Global,
    depth: usize,
    tokens: &[Token],
) -> Result<(Item, &[Token]), Stopped<'_>>
    requires { depth ≤ MAX_NESTING }
    ensures read { (s : ItemStack) → holders s ≡ depth → Goes result
        (λ r. run r.1.now (HasItem (item_seen r.0) s)) (run tokens.now (NeedItem s)) }
    ensures shorter { IfOk result (λ r. length r.1.now < length tokens.now) }
    ensures pointers { IfOk result (λ r. Within 0 depth (item_pointers r.0)) }
{
    if depth == MAX_NESTING {
        return Err(at_limit(tokens));
    }
    let Some((first, rest)) = cut(tokens) else {
        return Err(Stopped::Bad(tokens));
    };
    match first.sort() {
        Sort::OpenBrace => {
            let (items, rest) = block_items(alloc, depth + 1, first.place(), rest)?;
            Ok((make_block(first.place(), items)?, rest))
        }
        Sort::If => if_item(alloc, depth + 1, first.place(), rest),
        Sort::While => while_item(alloc, depth + 1, first.place(), rest),
        Sort::For => for_item(alloc, depth + 1, first.place(), rest),
        Sort::Foreach => foreach_item(alloc, depth + 1, first.place(), rest),
        sort => {
            if sort.is_plain() {
                return word_item(alloc, depth + 1, first, rest);
            }
            if let Some(alone) = lone_literal(first, rest)? {
                return Ok((alone, rest));
            }
            let (node, rest) = unary(alloc, depth + 1, tokens)?;
            chain_item(alloc, depth + 1, node, rest)
        }
    }
}

/// After `{`: the items through `}`.
#[tactic(auto, using(pan_ast::proofs::Pointers::items_push))]
#[cycle(items)]
pub(crate) fn block_items<'a>(
    alloc: Global,
    depth: usize,
    place: &Place,
    tokens: &'a [Token],
) -> Result<(Vec<Item>, &'a [Token]), Stopped<'a>>
    requires { depth ≤ MAX_NESTING }
    ensures read { (s : ItemStack) → suc (holders s) ≡ depth → Goes result
        (λ r. run r.1.now (HasItem (block place.now (map item_seen r.0.items)) s))
        (run tokens.now (BlockOpen place.now [] s)) }
    ensures shorter { IfOk result (λ r. length r.1.now < length tokens.now) }
    ensures pointers { IfOk result (λ r. Within 0 depth (items_pointers r.0.items)) }
{
    let mut items = Vec::new(alloc);
    let mut rest = tokens;
    loop {
        if let Some(after) = next_is(Sort::CloseBrace, rest) {
            return Ok((items, after));
        }
        let (next, more) = item(alloc, depth, rest)?;
        items.push(next)?;
        let Some(after) = next_is(Sort::Semicolon, more) else {
            let (_, rest) = expect(Expected::Sort(Sort::CloseBrace), more)?;
            return Ok((items, rest));
        };
        rest = after;
    }
}

/// An item in a box.
#[cycle(items)]
fn boxed_item(
    alloc: Global,
    depth: usize,
    tokens: &[Token],
) -> Result<(Box<Item>, &[Token]), Stopped<'_>>
    requires { depth ≤ MAX_NESTING }
    ensures read { (s : ItemStack) → holders s ≡ depth → Goes result
        (λ r. run r.1.now (HasItem (item_seen r.0.value) s)) (run tokens.now (NeedItem s)) }
    ensures shorter { IfOk result (λ r. length r.1.now < length tokens.now) }
    ensures pointers { IfOk result (λ r. Within 0 depth (item_pointers r.0.value)) }
{
    let (next, rest) = item(alloc, depth, tokens)?;
    Ok((Box::new(alloc, next)?, rest))
}

/// An item and the sign after it.
#[cycle(items)]
fn item_before(
    alloc: Global,
    depth: usize,
    sign: Sort,
    tokens: &[Token],
) -> Result<(Box<Item>, &[Token]), Stopped<'_>>
    requires { depth ≤ MAX_NESTING }
    ensures read { (k : Divider) (next : Seen → Parts) (s : ItemStack) → divider k ≡ sign → suc
        (holders s) ≡ depth → Goes result (λ r. run r.1.now
        (NeedItem (InParts (next (item_seen r.0.value)) s)))
        (run tokens.now (NeedItem (InParts (Further k next) s))) }
    ensures shorter { IfOk result (λ r. length r.1.now < length tokens.now) }
    ensures pointers { IfOk result (λ r. Within 0 depth (item_pointers r.0.value)) }
{
    let (next, rest) = boxed_item(alloc, depth, tokens)?;
    let (_, rest) = expect(Expected::Sort(sign), rest)?;
    Ok((next, rest))
}

/// After `if`.
#[cycle(items)]
fn if_item<'a>(
    alloc: Global,
    depth: usize,
    place: &Place,
    tokens: &'a [Token],
) -> Result<(Item, &'a [Token]), Stopped<'a>>
    requires { depth ≤ MAX_NESTING }
    ensures read { (s : ItemStack) → suc (holders s) ≡ depth → Goes result
        (λ r. run r.1.now (HasItem (item_seen r.0) s)) (run tokens.now (if_read place.now s)) }
    ensures shorter { IfOk result (λ r. length r.1.now < length tokens.now) }
    ensures pointers { IfOk result (λ r. Within 11 depth (item_pointers r.0)) }
{
    let (_, rest) = expect(Expected::Sort(Sort::Open), tokens)?;
    let (condition, rest) = item_before(alloc, depth, Sort::Close, rest)?;
    let (then, rest) = boxed_item(alloc, depth, rest)?;
    let Some(after) = next_is(Sort::Else, rest) else {
        return Ok((make_if(place, condition, then)?, rest));
    };
    let (otherwise, rest) = boxed_item(alloc, depth, after)?;
    Ok((make_if_else(place, condition, then, otherwise)?, rest))
}

/// After `while`.
#[cycle(items)]
fn while_item<'a>(
    alloc: Global,
    depth: usize,
    place: &Place,
    tokens: &'a [Token],
) -> Result<(Item, &'a [Token]), Stopped<'a>>
    requires { depth ≤ MAX_NESTING }
    ensures read { (s : ItemStack) → suc (holders s) ≡ depth → Goes result
        (λ r. run r.1.now (HasItem (item_seen r.0) s)) (run tokens.now (while_read place.now s)) }
    ensures shorter { IfOk result (λ r. length r.1.now < length tokens.now) }
    ensures pointers { IfOk result (λ r. Within 11 depth (item_pointers r.0)) }
{
    let (_, rest) = expect(Expected::Sort(Sort::Open), tokens)?;
    let (condition, rest) = item_before(alloc, depth, Sort::Close, rest)?;
    let (body, rest) = boxed_item(alloc, depth, rest)?;
    Ok((make_while(place, condition, body)?, rest))
}

/// After `for`.
#[cycle(items)]
fn for_item<'a>(
    alloc: Global,
    depth: usize,
    place: &Place,
    tokens: &'a [Token],
) -> Result<(Item, &'a [Token]), Stopped<'a>>
    requires { depth ≤ MAX_NESTING }
    ensures read { (s : ItemStack) → suc (holders s) ≡ depth → Goes result
        (λ r. run r.1.now (HasItem (item_seen r.0) s)) (run tokens.now (for_read place.now s)) }
    ensures shorter { IfOk result (λ r. length r.1.now < length tokens.now) }
    ensures pointers { IfOk result (λ r. Within 11 depth (item_pointers r.0)) }
{
    let (_, rest) = expect(Expected::Sort(Sort::Open), tokens)?;
    let (first, rest) = item_before(alloc, depth, Sort::Semicolon, rest)?;
    let (condition, rest) = item_before(alloc, depth, Sort::Semicolon, rest)?;
    let (step, rest) = item_before(alloc, depth, Sort::Close, rest)?;
    let (body, rest) = boxed_item(alloc, depth, rest)?;
    Ok((make_for(place, first, condition, step, body)?, rest))
}

/// After `foreach`: the words for key and value, through the second `;`.
fn foreach_words(tokens: &[Token]) -> Result<(&Token, &Token, &[Token]), Stopped<'_>>
    ensures read { (next : Token → Token → State) → Goes result
        (λ r. run r.2.now (next r.0.now r.1.now))
        (run tokens.now (Takes AnOpen (λ o. Takes AWord
        (λ k. Takes ASemicolon (λ s1. Takes AWord (λ v. Takes ASemicolon (λ s2. next k v))))))) }
    ensures shorter { IfOk result (λ r. length r.2.now < length tokens.now) }
{
    let (_, rest) = expect(Expected::Sort(Sort::Open), tokens)?;
    let (key, rest) = expect(Expected::Word, rest)?;
    let (_, rest) = expect(Expected::Sort(Sort::Semicolon), rest)?;
    let (value, rest) = expect(Expected::Word, rest)?;
    let (_, rest) = expect(Expected::Sort(Sort::Semicolon), rest)?;
    Ok((key, value, rest))
}

/// After `foreach`.
#[cycle(items)]
fn foreach_item<'a>(
    alloc: Global,
    depth: usize,
    place: &Place,
    tokens: &'a [Token],
) -> Result<(Item, &'a [Token]), Stopped<'a>>
    requires { depth ≤ MAX_NESTING }
    ensures read { (s : ItemStack) → suc (holders s) ≡ depth → Goes result
        (λ r. run r.1.now (HasItem (item_seen r.0) s)) (run tokens.now (foreach_read place.now s)) }
    ensures shorter { IfOk result (λ r. length r.1.now < length tokens.now) }
    ensures pointers { IfOk result (λ r. Within 11 depth (item_pointers r.0)) }
{
    let (key, value, rest) = foreach_words(tokens)?;
    let (items, rest) = item_before(alloc, depth, Sort::Close, rest)?;
    let (body, rest) = boxed_item(alloc, depth, rest)?;
    Ok((
        make_foreach(place, key.value(), value.value(), items, body)?,
        rest,
    ))
}

/// After a plain word at the beginning of an item: a chain that begins with a call, or what may be a reference.
#[cycle(items)]
fn word_item<'a>(
    alloc: Global,
    depth: usize,
    word: &Token,
    tokens: &'a [Token],
) -> Result<(Item, &'a [Token]), Stopped<'a>>
    requires { depth ≤ MAX_NESTING }
    ensures read { (s : ItemStack) → suc (holders s) ≡ depth → Goes result
        (λ r. run r.1.now (HasItem (item_seen r.0) s)) (run tokens.now (ItemWord word.now s)) }
    ensures shorter { IfOk result (λ r. length r.1.now ≤ length tokens.now) }
    ensures pointers { IfOk result (λ r. Within 11 depth (item_pointers r.0)) }
{
    let Some(after) = next_is(Sort::Open, tokens) else {
        let (items, rest) = reference_indexes(alloc, depth, word, tokens)?;
        return reference_item(alloc, depth, word, items, rest);
    };
    let (items, rest) = arguments(alloc, depth, word, after)?;
    let call = make_call(word.place(), word.value(), items)?;
    let (node, rest) = indexes(alloc, depth, call, rest)?;
    chain_item(alloc, depth, node, rest)
}

/// After a word and the indexes after it: an assignment, or a chain that begins with them.
#[cycle(items)]
fn reference_item<'a>(
    alloc: Global,
    depth: usize,
    word: &Token,
    items: Vec<Item>,
    tokens: &'a [Token],
) -> Result<(Item, &'a [Token]), Stopped<'a>>
    requires room { depth ≤ MAX_NESTING }
    requires ended { NotAt OpenBracket tokens.now }
    requires indexes { Within 0 depth (items_pointers items.items) }
    ensures read { (s : ItemStack) → suc (holders s) ≡ depth → Goes result
        (λ r. run r.1.now (HasItem (item_seen r.0) s))
        (run tokens.now (HasReference word.now (map item_seen items.items)
        (indexed (name word.now) (map item_seen items.items)) s)) }
    ensures shorter { IfOk result (λ r. length r.1.now ≤ length tokens.now) }
    ensures pointers { IfOk result (λ r. Within 11 depth (item_pointers r.0)) }
{
    let Some(after) = next_is(Sort::Assign, tokens) else {
        let node = indexed_name(alloc, word, items)?;
        return chain_item(alloc, depth, node, tokens);
    };
    let (right, rest) = boxed_item(alloc, depth, after)?;
    let reference = make_reference(word.place(), word.value(), items)?;
    Ok((make_assign(word.place(), reference, right)?, rest))
}
