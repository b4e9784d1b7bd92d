ghost use Rattle.std.specs.Prelude.{◌≡◌, ◌≢◌, ◌-◌, ◌++◌, IfErr, IfOk, None, OnOk, false, length, replicate, string_bytes};
ghost use Rattle.std.specs.Fmt.{digits, sign_text};
ghost use Rattle.std.specs.Int.{is_negative};
ghost use Rattle.std.specs.Str.{chars};
ghost use Rattle.builtins_text.specs.Formats.{decimal_in, hexadecimal_in, number_in, padded, space, text_by, with_zeros, written};
ghost use Rattle.builtins_text.specs.Texts.{text_of_value};
ghost use Rattle.builtins_text.specs.Writing.{Writes};
ghost use Rattle.call_values.specs.Drafts.{Adds};
ghost use Rattle.path_tree.specs.declared.refused.Refused.TheVariants.{BadArgument, Memory};

use crate::forms::{Flag, Form, Letter};
use crate::values::text_of_value;
use call_values::{Draft, char_count};
use itoa::Buffer;
use path_tree::{Refused, Tree};
use std::alloc::{AllocError, Global};

/// Adds what a form writes of a value.
pub(crate) fn write(
    alloc: Global,
    draft: &mut Draft,
    form: Form,
    value: &Tree,
) -> Result<(), Refused>
    ensures ok { OnOk result (Writes (written form value.now) draft.old draft.new) }
    ensures err { IfErr result (λ e. e ≢ Memory → (e ≡ BadArgument)
        × (written form value.now ≡ None)) }
{
    match form.letter {
        Letter::Text => write_text(draft, form, value),
        Letter::Decimal => match value.as_long() {
            Some(number) => Ok(write_decimal(draft, form, number)?),
            None => Err(Refused::BadArgument),
        },
        Letter::Hexadecimal => match value.as_long() {
            Some(number) => write_hexadecimal(alloc, draft, form, number),
            None => Err(Refused::BadArgument),
        },
    }
}

fn write_text(draft: &mut Draft, form: Form, value: &Tree) -> Result<(), Refused>
    ensures ok { OnOk result (Writes (text_by form.flag form value.now) draft.old draft.new) }
    ensures err { IfErr result (λ e. e ≢ Memory → (e ≡ BadArgument)
        × (text_by form.flag form value.now ≡ None)) }
{
    let mut buffer = Buffer::new();
    let Some(text) = text_of_value(value, &mut buffer) else {
        return Err(Refused::BadArgument);
    };
    match form.flag {
        Flag::Zeros => Err(Refused::BadArgument),
        Flag::Unset => Ok(write_padded(draft, form, "", text)?),
        Flag::Left => Ok(write_padded(draft, form, "", text)?),
    }
}

fn write_decimal(draft: &mut Draft, form: Form, number: i64) -> Result<(), AllocError>
    ensures { OnOk result (Adds draft.old draft.new (decimal_in form number)) }
{
    let mut buffer = Buffer::new();
    let digits = buffer.format(number.unsigned_abs());
    write_number(draft, form, sign_text(number), digits)
}

fn sign_text(number: i64) -> &'static str
    ensures { result.now ≡ sign_text (is_negative number) }
{
    if number < 0 { "-" } else { "" }
}

fn write_hexadecimal(
    alloc: Global,
    draft: &mut Draft,
    form: Form,
    number: i64,
) -> Result<(), Refused>
    ensures ok { OnOk result (Writes (hexadecimal_in form number) draft.old draft.new) }
    ensures err { IfErr result (λ e. e ≢ Memory → (e ≡ BadArgument)
        × (hexadecimal_in form number ≡ None)) }
{
    if number < 0 {
        return Err(Refused::BadArgument);
    }
    let digits = hexadecimal(alloc, number.unsigned_abs())?;
    Ok(write_number(draft, form, "", digits.as_str())?)
}

fn hexadecimal(alloc: Global, number: u64) -> Result<String, AllocError>
    ensures { IfOk result (λ s. string_bytes s ≡ digits 16 false number) }
{
    format!(in alloc; "{number:x}")
}

/// Adds digits behind their sign, padded; under `0` with zeros between.
fn write_number(draft: &mut Draft, form: Form, sign: &str, digits: &str) -> Result<(), AllocError>
    ensures { OnOk result (Adds draft.old draft.new (number_in form sign.now digits.now)) }
{
    match form.flag {
        Flag::Zeros => write_zeroed(draft, form.width, sign, digits),
        Flag::Unset => write_padded(draft, form, sign, digits),
        Flag::Left => write_padded(draft, form, sign, digits),
    }
}

/// Adds digits behind their sign and zeros up to the width.
fn write_zeroed(draft: &mut Draft, width: u64, sign: &str, digits: &str) -> Result<(), AllocError>
    ensures { OnOk result (Adds draft.old draft.new
        (sign.now ++ with_zeros (width - length sign.now) digits.now)) }
{
    let zeros = missing(missing(width, sign.len()), digits.len());
    draft.push(sign)?;
    draft.push_times('0', zeros)?;
    draft.push(digits)?;
    Ok(())
}

/// How many are missing to a width.
fn missing(width: u64, count: usize) -> u64
    ensures { result ≡ width - count }
{
    width.saturating_sub(count as u64)
}

/// How many characters a sign and a text behind it are short of a width.
#[tactic(auto, using(crate::proofs::Widths::both_missing))]
fn missing_characters(width: u64, sign: &str, text: &str) -> u64
    ensures { result ≡ width - length (chars (sign.now ++ text.now)) }
{
    if width == 0 {
        return 0;
    }
    missing(missing(width, char_count(sign)), char_count(text))
}

/// Adds a sign and a text behind it, with blanks up to the width.
fn write_padded(draft: &mut Draft, form: Form, sign: &str, text: &str) -> Result<(), AllocError>
    ensures { OnOk result (Adds draft.old draft.new (padded form (sign.now ++ text.now))) }
{
    let blanks = missing_characters(form.width, sign, text);
    match form.flag {
        Flag::Left => write_left(draft, sign, text, blanks),
        Flag::Unset => write_right(draft, blanks, sign, text),
        Flag::Zeros => write_right(draft, blanks, sign, text),
    }
}

fn write_right(draft: &mut Draft, blanks: u64, sign: &str, text: &str) -> Result<(), AllocError>
    ensures { OnOk result (Adds draft.old draft.new
        (replicate blanks space ++ (sign.now ++ text.now))) }
{
    draft.push_times(' ', blanks)?;
    draft.push(sign)?;
    draft.push(text)?;
    Ok(())
}

fn write_left(draft: &mut Draft, sign: &str, text: &str, blanks: u64) -> Result<(), AllocError>
    ensures { OnOk result (Adds draft.old draft.new
        ((sign.now ++ text.now) ++ replicate blanks space)) }
{
    draft.push(sign)?;
    draft.push(text)?;
    draft.push_times(' ', blanks)?;
    Ok(())
}
