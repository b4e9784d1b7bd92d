ghost use Rattle.std.specs.Prelude.{◌≡◌, ◌++◌, OnOk, IfOk, codes};
ghost use Rattle.std.specs.List.{flat_map};
ghost use Rattle.type_defs.specs.Resolved.{fields_of};
ghost use Rattle.type_defs.specs.ResolvedSeen.{resolved_seen, shape_seen};
ghost use Rattle.type_defs.specs.Tables.{all_seen};
ghost use Rattle.wanted_types.specs.Words.{base_word, choices, dict_words, end_text, fields_words, is_tested, keys_in, later_names, names, quoted, range_text, rest_mark, shape_tested, shape_words, test_text, type_text, words};

use base::Text;
use itoa::Buffer;
use std::alloc::{AllocError, Global};
use type_defs::{Base, Range, RecordField, Resolved, Shape};

/// How many fields of a record, or texts of a choice, are named.
pub const MAX_NAMES: usize = 8;

fn base_word(base: Base) -> &'static str
    ensures { result.now ≡ base_word base }
{
    match base {
        Base::Text => "string",
        Base::Long => "long",
        Base::Boolean => "boolean",
        Base::Number => "number",
        Base::Property => "property",
        Base::Resource => "resource",
        Base::Element => "element",
        Base::List => "list",
        Base::Dict => "dict",
    }
}

/// An end of a range, or nothing where it has none there.
fn push_end(into: &mut Vec<u8>, end: Option<i64>) -> Result<(), AllocError>
    ensures { OnOk result (into.new.items ≡ into.old.items ++ end_text end) }
{
    let Some(number) = end else {
        return Ok(());
    };
    let mut buffer = Buffer::new();
    into.extend_from_slice(buffer.format(number).as_bytes())
}

/// `(LOW..HIGH)`, and nothing for a range without ends.
fn push_range(into: &mut Vec<u8>, range: Range) -> Result<(), AllocError>
    ensures { OnOk result (into.new.items ≡ into.old.items ++ range_text range) }
{
    if range.low.is_none() && range.high.is_none() {
        return Ok(());
    }
    into.extend_from_slice(b"(")?;
    push_end(into, range.low)?;
    into.extend_from_slice(b"..")?;
    push_end(into, range.high)?;
    into.extend_from_slice(b")")
}

fn push_quoted(into: &mut Vec<u8>, text: &[u8]) -> Result<(), AllocError>
    ensures { OnOk result (into.new.items ≡ into.old.items ++ quoted text.now) }
{
    into.extend_from_slice(b"'")?;
    into.extend_from_slice(text)?;
    into.extend_from_slice(b"'")
}

fn push_later(into: &mut Vec<u8>, texts: &[Text]) -> Result<(), AllocError>
    ensures { OnOk result (into.new.items
        ≡ into.old.items ++ flat_map later_names texts.now) }
{
    for text in texts {
        into.extend_from_slice(b", ")?;
        push_quoted(into, text.as_str().as_bytes())?;
    }
    Ok(())
}

fn push_rest(into: &mut Vec<u8>, count: usize) -> Result<(), AllocError>
    ensures { OnOk result (into.new.items ≡ into.old.items ++ rest_mark count) }
{
    if count > MAX_NAMES {
        return into.extend_from_slice(b", ..");
    }
    Ok(())
}

/// The first `MAX_NAMES` of these texts in quotes, and `, ..` where there are more.
fn push_names(into: &mut Vec<u8>, texts: &[Text]) -> Result<(), AllocError>
    ensures { OnOk result (into.new.items ≡ into.old.items ++ names texts.now) }
{
    let [first, others @ ..] = texts else {
        return Ok(());
    };
    push_quoted(into, first.as_str().as_bytes())?;
    let shown = others.len().min(MAX_NAMES - 1);
    push_later(into, &others[..shown])?;
    push_rest(into, texts.len())
}

/// The keys of fields.
fn keys_in(alloc: Global, fields: &[RecordField]) -> Result<Vec<Text>, AllocError>
    ensures { IfOk result (λ keys. keys.items ≡ keys_in (fields_of (all_seen fields.now))) }
{
    let mut keys = Vec::new(alloc);
    for field in fields {
        keys.push(Text::new(alloc, field.key.as_str())?)?;
    }
    Ok(keys)
}

/// `one of`, with what names fields or texts of a choice.
pub(crate) fn push_choice(into: &mut Vec<u8>, texts: &[Text]) -> Result<(), AllocError>
    ensures { OnOk result (into.new.items ≡ into.old.items ++ choices texts.now) }
{
    into.extend_from_slice(b"one of ")?;
    push_names(into, texts)
}

fn push_field_names(into: &mut Vec<u8>, keys: &[Text]) -> Result<(), AllocError>
    ensures { OnOk result (into.new.items ≡ into.old.items
        ++ (codes "one of the fields " ++ names keys.now)) }
{
    into.extend_from_slice(b"one of the fields ")?;
    push_names(into, keys)
}

#[tactic(auto, using(crate::proofs::Dicts::fields_with, crate::proofs::Dicts::fields_without))]
fn push_keys(into: &mut Vec<u8>, keys: &[Text]) -> Result<(), AllocError>
    ensures { OnOk result (into.new.items ≡ into.old.items ++ fields_words keys.now) }
{
    if keys.is_empty() {
        return into.extend_from_slice(b"a dict without keys");
    }
    push_field_names(into, keys)
}

/// The keys of fields, for one who looks for a key among them.
pub(crate) fn push_fields(
    alloc: Global,
    into: &mut Vec<u8>,
    fields: &[RecordField],
) -> Result<(), AllocError>
    ensures { OnOk result (into.new.items ≡ into.old.items
        ++ fields_words (keys_in (fields_of (all_seen fields.now)))) }
{
    let keys = keys_in(alloc, fields)?;
    push_keys(into, &keys)
}

fn push_dict_names(into: &mut Vec<u8>, keys: &[Text]) -> Result<(), AllocError>
    ensures { OnOk result (into.new.items ≡ into.old.items
        ++ (codes "a dict with " ++ names keys.now)) }
{
    into.extend_from_slice(b"a dict with ")?;
    push_names(into, keys)
}

#[tactic(auto, using(crate::proofs::Dicts::dict_with, crate::proofs::Dicts::dict_without))]
fn push_dict(into: &mut Vec<u8>, keys: &[Text]) -> Result<(), AllocError>
    ensures { OnOk result (into.new.items ≡ into.old.items ++ dict_words keys.now) }
{
    if keys.is_empty() {
        return into.extend_from_slice(b"a dict");
    }
    push_dict_names(into, keys)
}

/// A type as words, without its test.
#[cycle(wording)]
#[tactic(auto, using(type_defs::proofs::Shapes::seen_resolved))]
fn push_words(alloc: Global, into: &mut Vec<u8>, resolved: &Resolved) -> Result<(), AllocError>
    ensures { OnOk result (into.new.items
        ≡ into.old.items ++ words (resolved_seen resolved.now)) }
{
    push_shape(alloc, into, &resolved.shape)
}

#[cycle(wording)]
#[tactic(auto, using(type_defs::proofs::Shapes::shapes))]
fn push_shape(alloc: Global, into: &mut Vec<u8>, shape: &Shape) -> Result<(), AllocError>
    ensures { OnOk result (into.new.items
        ≡ into.old.items ++ shape_words (shape_seen shape.now)) }
{
    match shape {
        Shape::Base(base) => into.extend_from_slice(base_word(*base).as_bytes()),
        Shape::Named(inner) => push_words(alloc, into, inner),
        Shape::Ranged(inner, range) => push_ranged(alloc, into, inner, *range),
        Shape::ListOf(inner, range) => push_many(alloc, into, b"list", inner, *range),
        Shape::DictOf(inner, range) => push_many(alloc, into, b"dict", inner, *range),
        Shape::Link(inner) => push_link(alloc, into, inner),
        Shape::Record {
            extensible: _,
            fields,
        } => push_dict(into, &keys_in(alloc, fields)?),
        Shape::Choice(texts) => push_choice(into, texts),
    }
}

#[cycle(wording)]
fn push_ranged(
    alloc: Global,
    into: &mut Vec<u8>,
    inner: &Resolved,
    range: Range,
) -> Result<(), AllocError>
    ensures { OnOk result (into.new.items
        ≡ into.old.items ++ (words (resolved_seen inner.now) ++ range_text range)) }
{
    push_words(alloc, into, inner)?;
    push_range(into, range)
}

#[cycle(wording)]
fn push_many(
    alloc: Global,
    into: &mut Vec<u8>,
    word: &[u8],
    inner: &Resolved,
    range: Range,
) -> Result<(), AllocError>
    ensures { OnOk result (into.new.items ≡ into.old.items
        ++ (word.now ++ range_text range ++ codes " of " ++ words (resolved_seen inner.now))) }
{
    into.extend_from_slice(word)?;
    push_range(into, range)?;
    into.extend_from_slice(b" of ")?;
    push_words(alloc, into, inner)
}

#[cycle(wording)]
fn push_link(alloc: Global, into: &mut Vec<u8>, inner: &Resolved) -> Result<(), AllocError>
    ensures { OnOk result (into.new.items ≡ into.old.items
        ++ (codes "a link to " ++ words (resolved_seen inner.now)
        ++ test_text (is_tested (resolved_seen inner.now)))) }
{
    into.extend_from_slice(b"a link to ")?;
    push_words(alloc, into, inner)?;
    push_test(into, is_tested(inner))
}

/// Whether a value of a type has to pass a test.
#[cycle(testing)]
#[tactic(auto, using(type_defs::proofs::Shapes::seen_resolved))]
fn is_tested(resolved: &Resolved) -> bool
    ensures { result ≡ is_tested (resolved_seen resolved.now) }
{
    resolved.condition.is_some() || is_shape_tested(&resolved.shape)
}

#[cycle(testing)]
#[tactic(auto, using(type_defs::proofs::Shapes::shapes))]
fn is_shape_tested(shape: &Shape) -> bool
    ensures { result ≡ shape_tested (shape_seen shape.now) }
{
    match shape {
        Shape::Named(inner) => is_tested(inner),
        Shape::Ranged(inner, _) => is_tested(inner),
        Shape::Base(_) => false,
        Shape::ListOf(_, _) => false,
        Shape::DictOf(_, _) => false,
        Shape::Link(_) => false,
        Shape::Record {
            extensible: _,
            fields: _,
        } => false,
        Shape::Choice(_) => false,
    }
}

fn push_test(into: &mut Vec<u8>, tested: bool) -> Result<(), AllocError>
    ensures { OnOk result (into.new.items ≡ into.old.items ++ test_text tested) }
{
    if tested {
        return into.extend_from_slice(b" that passes its test");
    }
    Ok(())
}

/// A type as words.
pub(crate) fn type_text(alloc: Global, resolved: &Resolved) -> Result<Vec<u8>, AllocError>
    ensures { IfOk result (λ text. text.items ≡ type_text (resolved_seen resolved.now)) }
{
    let mut text = Vec::new(alloc);
    push_words(alloc, &mut text, resolved)?;
    push_test(&mut text, is_tested(resolved))?;
    Ok(text)
}
