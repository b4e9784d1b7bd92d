ghost use Rattle.std.specs.Prelude.{◌≡◌, ◌<◌, ◌≤◌, [], ◌∷◌, ◌++◌, suc, Bool, true, false, IfOk, List, MatchOption, Option, length, map};
ghost use Rattle.base.specs.declared.limits.TheConstants.{MAX_NESTING};
ghost use Rattle.pan_ast.specs.Pointers.{field_pointers, fields_pointers, full_pointers, head_pointers, option_pointers, test_pointers, type_pointers};
ghost use Rattle.pan_parser.specs.Room.{Within};
ghost use Rattle.pan_ast.specs.declared.sort.Sort.TheVariants.{CloseBrace};
ghost use Rattle.pan_ast.specs.Seen.{option_seen};
ghost use Rattle.pan_ast.specs.Syntax.{Item as Seen};
ghost use Rattle.pan_ast.specs.Types.{Field as Shown, Full, TypeForm as Formed};
ghost use Rattle.pan_ast.specs.Types as plain;
ghost use Rattle.pan_ast.specs.TypesSeen.{field_seen, full_seen, head_seen, type_seen};
ghost use Rattle.pan_grammar.specs.Depths.{full_holders};
ghost use Rattle.pan_grammar.specs.Machine.{choice_read, has_default, has_form, has_full, is_key_text, run};
ghost use Rattle.pan_grammar.specs.States.{FieldsOpen, FullStack, HasHead, NameRead, NeedFull, TextsOpen};
ghost use Rattle.pan_grammar.specs.Types.{recorded};
ghost use Rattle.pan_parser.specs.Answers.{Fails, Goes, NoSuffix, NotAt, on_front};

use crate::bounds::{bounds, suffixes};
use crate::items::item;
use crate::stopped::Stopped;
use crate::tables::starts_type;
use crate::tokens::{Expected, cut, expect, next_is};
use base::Text;
use base::limits::MAX_NESTING;
use pan_ast::make_types::{
    make_choice, make_field, make_full, make_include, make_named, make_record, make_type,
};
use pan_ast::{Field, FullType, Head, Item, Sort, Token, TypeForm};
use path_tree::{Key, KeyError};
use std::alloc::{AllocError, Global};

/// The key that the token of a text is, or None where it is none.
fn key_of(token: &Token) -> Result<Option<Key>, AllocError>
    ensures { IfOk result (λ o. MatchOption o (is_key_text token.now ≡ false)
        (λ k. (is_key_text token.now ≡ true) × (k ≡ token.now.value))) }
{
    if !Sort::Text.is(token.sort()) {
        return Ok(None);
    }
    match Key::of_text(token.value()) {
        Ok(key) => Ok(Some(key)),
        Err(KeyError::BadKey) => Ok(None),
        Err(KeyError::Memory) => Err(AllocError),
    }
}

/// After a type: its default, where `=` follows.
fn default_of(
    alloc: Global,
    depth: usize,
    tokens: &[Token],
) -> Result<(Option<Item>, &[Token]), Stopped<'_>>
    requires { depth ≤ MAX_NESTING }
    ensures read { (f : Formed) (s : FullStack) → full_holders s ≡ depth → Goes result
        (λ r. on_front (has_default f (option_seen r.0) s) r.1.now)
        (on_front (has_form f s) tokens.now) }
    ensures shorter { IfOk result (λ r. length r.1.now ≤ length tokens.now) }
    ensures pointers { IfOk result (λ r. Within 0 depth (option_pointers r.0)) }
{
    let Some(after) = next_is(Sort::Assign, tokens) else {
        return Ok((None, tokens));
    };
    let (default, rest) = item(alloc, depth, after)?;
    Ok((Some(default), rest))
}

/// After a type and its default: its test, where `with` follows.
fn test_of(
    alloc: Global,
    depth: usize,
    tokens: &[Token],
) -> Result<(Option<Item>, &[Token]), Stopped<'_>>
    requires { depth ≤ MAX_NESTING }
    ensures read { (f : Formed) (e : Option Seen) (s : FullStack) → full_holders s ≡ depth → Goes
        result (λ r. on_front (has_full s (Full f e (option_seen r.0))) r.1.now)
        (on_front (has_default f e s) tokens.now) }
    ensures shorter { IfOk result (λ r. length r.1.now ≤ length tokens.now) }
    ensures pointers { IfOk result (λ r. Within 1 depth (test_pointers r.0)) }
{
    let Some(after) = next_is(Sort::With, tokens) else {
        return Ok((None, tokens));
    };
    let (test, rest) = item(alloc, depth, after)?;
    Ok((Some(test), rest))
}

/// After a type's head and suffixes.
fn whole_type(
    alloc: Global,
    depth: usize,
    form: TypeForm,
    tokens: &[Token],
) -> Result<(FullType, &[Token]), Stopped<'_>>
    requires room { depth ≤ MAX_NESTING }
    requires form { Within 1 depth (type_pointers form) }
    ensures read { (s : FullStack) → full_holders s ≡ depth → Goes result
        (λ r. on_front (has_full s (full_seen r.0)) r.1.now)
        (on_front (has_form (type_seen form) s) tokens.now) }
    ensures shorter { IfOk result (λ r. length r.1.now ≤ length tokens.now) }
    ensures pointers { IfOk result (λ r. Within 1 depth (full_pointers r.0)) }
{
    let (default, rest) = default_of(alloc, depth, tokens)?;
    let (test, rest) = test_of(alloc, depth, rest)?;
    Ok((make_full(alloc, form, default, test)?, rest))
}

/// After `choice`: the texts through `)`.
fn choice(alloc: Global, tokens: &[Token]) -> Result<(Head, &[Token]), Stopped<'_>>
    ensures read { (s : FullStack) → Goes result (λ r. run r.1.now (HasHead (head_seen r.0) [] s))
        (run tokens.now (choice_read s)) }
    ensures shorter { IfOk result (λ r. length r.1.now < length tokens.now) }
    ensures pointers { IfOk result (λ r. head_pointers r.0 ≡ 1) }
{
    let (_, rest) = expect(Expected::Sort(Sort::Open), tokens)?;
    let (first, rest) = expect(Expected::Sort(Sort::Text), rest)?;
    let mut texts = Vec::new(alloc);
    texts.push(first.value().share()?)?;
    let (texts, rest) = more_texts(texts, rest)?;
    Ok((make_choice(texts), rest))
}

/// After a text of a choice: the texts through `)`, after those before.
fn more_texts(texts: Vec<Text>, tokens: &[Token]) -> Result<(Vec<Text>, &[Token]), Stopped<'_>>
    ensures read { (s : FullStack) → Goes result
        (λ r. run r.1.now (HasHead (plain.Choice r.0.items) [] s))
        (run tokens.now (TextsOpen texts.items s)) }
    ensures shorter { IfOk result (λ r. length r.1.now < length tokens.now) }
{
    let mut texts = texts;
    let mut rest = tokens;
    loop {
        let Some(after) = next_is(Sort::Comma, rest) else {
            let Some(after) = next_is(Sort::Close, rest) else {
                return Err(Stopped::Bad(rest));
            };
            return Ok((texts, after));
        };
        let (text, more) = expect(Expected::Sort(Sort::Text), after)?;
        texts.push(text.value().share()?)?;
        rest = more;
    }
}

/// After the name of a type.
fn named<'a>(name: &Token, tokens: &'a [Token]) -> Result<(Head, &'a [Token]), Stopped<'a>>
    ensures read { (s : FullStack) → Goes result (λ r. run r.1.now (HasHead (head_seen r.0) [] s))
        (run tokens.now (NameRead name.now s)) }
    ensures shorter { IfOk result (λ r. length r.1.now ≤ length tokens.now) }
    ensures pointers { IfOk result (λ r. head_pointers r.0 ≡ 0) }
{
    let Some(after) = next_is(Sort::Open, tokens) else {
        return Ok((make_named(name.place(), name.value(), None)?, tokens));
    };
    let (bounds, rest) = bounds(Sort::Close, after)?;
    Ok((make_named(name.place(), name.value(), Some(bounds))?, rest))
}

/// The fault where a type is wanted that as many constructs would hold as may.
fn at_limit(tokens: &[Token]) -> Stopped<'_>
    ensures { (s : FullStack) → full_holders s ≡ MAX_NESTING → Fails result
        (run tokens.now (NeedFull s)) }
{
    let Some((first, _)) = cut(tokens) else {
        return Stopped::Bad(tokens);
    };
    if starts_type(first.sort()) {
        Stopped::Deep(tokens)
    } else {
        Stopped::Bad(tokens)
    }
}

/// A type with its default and its test, that as many constructs hold as `depth` says.
#[cycle(types)]
pub(crate) fn full_type(
    alloc: Global,
    depth: usize,
    tokens: &[Token],
) -> Result<(FullType, &[Token]), Stopped<'_>>
    requires { depth ≤ MAX_NESTING }
    ensures read { (s : FullStack) → full_holders s ≡ depth → Goes result
        (λ r. on_front (has_full s (full_seen r.0)) r.1.now) (run tokens.now (NeedFull s)) }
    ensures shorter { IfOk result (λ r. length r.1.now < length tokens.now) }
    ensures pointers { IfOk result (λ r. Within 1 depth (full_pointers r.0)) }
{
    if depth == MAX_NESTING {
        return Err(at_limit(tokens));
    }
    let (head, rest) = head(alloc, depth, tokens)?;
    let (suffixes, rest) = suffixes(alloc, rest)?;
    whole_type(alloc, depth, make_type(head, suffixes), rest)
}

/// A type without suffixes. A record is a construct beside its type.
#[cycle(types)]
fn head(alloc: Global, depth: usize, tokens: &[Token]) -> Result<(Head, &[Token]), Stopped<'_>>
    requires { depth < MAX_NESTING }
    ensures read { (s : FullStack) → full_holders s ≡ depth → Goes result
        (λ r. run r.1.now (HasHead (head_seen r.0) [] s)) (run tokens.now (NeedFull s)) }
    ensures shorter { IfOk result (λ r. length r.1.now < length tokens.now) }
    ensures pointers { IfOk result (λ r. Within 1 depth (head_pointers r.0)) }
{
    let Some((first, rest)) = cut(tokens) else {
        return Err(Stopped::Bad(tokens));
    };
    match first.sort() {
        Sort::OpenBrace => {
            if depth + 1 == MAX_NESTING {
                return Err(Stopped::Deep(tokens));
            }
            let (fields, rest) = fields(alloc, depth + 2, rest)?;
            Ok((make_record(false, fields), rest))
        }
        Sort::Extensible => {
            if depth + 1 == MAX_NESTING {
                return Err(Stopped::Deep(tokens));
            }
            let (_, rest) = expect(Expected::Sort(Sort::OpenBrace), rest)?;
            let (fields, rest) = fields(alloc, depth + 2, rest)?;
            Ok((make_record(true, fields), rest))
        }
        Sort::Choice => choice(alloc, rest),
        sort => {
            if !sort.is_type_name() {
                return Err(Stopped::Bad(tokens));
            }
            named(first, rest)
        }
    }
}

/// After `{`: the fields through `}`.
#[tactic(auto, using(pan_ast::proofs::Pointers::fields_push))]
#[cycle(types)]
fn fields(
    alloc: Global,
    depth: usize,
    tokens: &[Token],
) -> Result<(Vec<Field>, &[Token]), Stopped<'_>>
    requires { depth ≤ MAX_NESTING }
    ensures read { (e : Bool) (s : FullStack) → suc (suc (full_holders s)) ≡ depth → Goes result
        (λ r. run r.1.now (HasHead (recorded e (map field_seen r.0.items)) [] s))
        (run tokens.now (FieldsOpen e [] s)) }
    ensures shorter { IfOk result (λ r. length r.1.now < length tokens.now) }
    ensures pointers { IfOk result (λ r. Within 1 depth (fields_pointers r.0.items)) }
{
    let mut fields = Vec::new(alloc);
    let mut rest = tokens;
    loop {
        if let Some(after) = next_is(Sort::CloseBrace, rest) {
            return Ok((fields, after));
        }
        let (next, more) = field(alloc, depth, rest)?;
        fields.push(next)?;
        rest = more;
    }
}

#[cycle(types)]
fn field(alloc: Global, depth: usize, tokens: &[Token]) -> Result<(Field, &[Token]), Stopped<'_>>
    requires room { depth ≤ MAX_NESTING }
    requires open { NotAt CloseBrace tokens.now }
    ensures read { (e : Bool) (fs : List Shown) (s : FullStack) → suc (suc (full_holders s)) ≡
        depth → Goes result (λ r. run r.1.now (FieldsOpen e (fs ++ field_seen r.0 ∷ []) s))
        (run tokens.now (FieldsOpen e fs s)) }
    ensures shorter { IfOk result (λ r. length r.1.now < length tokens.now) }
    ensures pointers { IfOk result (λ r. Within 1 depth (field_pointers r.0)) }
{
    let Some((first, rest)) = cut(tokens) else {
        return Err(Stopped::Bad(tokens));
    };
    if Sort::Include.is(first.sort()) {
        let (name, rest) = expect(Expected::TypeName, rest)?;
        return Ok((
            make_include(first.place(), name.value(), name.place())?,
            rest,
        ));
    }
    let Some(key) = key_of(first)? else {
        return Err(Stopped::Bad(tokens));
    };
    let (mark, rest) = expect(Expected::Mark, rest)?;
    let (full, rest) = full_type(alloc, depth, rest)?;
    let required = Sort::Colon.is(mark.sort());
    Ok((make_field(first.place(), key, required, full)?, rest))
}
