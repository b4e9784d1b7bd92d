ghost use Rattle.std.specs.Prelude.{◌≡◌, ◌≢◌, ◌≤◌, ◌∷◌, ℕ, IfErr, IfOk, List, None, length};
ghost use Rattle.std.specs.Str.{IsUtf8};
ghost use Rattle.base.specs.Answers.{Gives, given};
ghost use Rattle.builtins_text.specs.Formats.{before, format_of, formatted, percent_sign};
ghost use Rattle.call_values.specs.Drafts.{Adds};
ghost use Rattle.path_tree.specs.Refusals.{refusal};
ghost use Rattle.path_tree.specs.Values.{text_value};
ghost use Rattle.path_tree.specs.declared.refused.Refused.TheVariants.{BadArgument, Memory};

use crate::forms::{behind_first, form_of};
use crate::writing::write;
use call_values::Draft;
use path_tree::{Refused, Tree};
use std::alloc::Global;

/// A text with its forms replaced by what they write of the other arguments.
pub(crate) fn format(alloc: Global, args: &[Tree]) -> Result<Tree, Refused>
    ensures { Gives (λ t. t) refusal result (format_of args.now) }
{
    let Some((text, values)) = args.split_first() else {
        return Err(Refused::BadArgument);
    };
    let Some(text) = text.as_text() else {
        return Err(Refused::BadArgument);
    };
    format_text(alloc, text, values)
}

/// What is left of the text and of the values behind a form or `%%`.
#[derive(Drop)]
struct Rest<'a> {
    text: &'a str,
    values: &'a [Tree],
}

fn format_text(alloc: Global, text: &str, values: &[Tree]) -> Result<Tree, Refused>
    ensures { Gives (λ t. t) refusal result
        (given BadArgument (formatted text.now values.now) text_value) }
{
    let mut draft = Draft::new(alloc);
    let mut rest = text;
    let mut left = values;
    while let Some((plain, behind)) = rest.split_once('%') {
        draft.push(plain)?;
        let next = match write_next(alloc, &mut draft, behind, left) {
            Ok(next) => next,
            Err(error) => return Err(error),
        };
        rest = next.text;
        left = next.values;
    }
    if !left.is_empty() {
        return Err(Refused::BadArgument);
    }
    draft.push(rest)?;
    draft.finish()
}

/// Adds what stands behind a `%`: `%` again, or what a form writes of the next value.
fn write_next<'a>(
    alloc: Global,
    draft: &mut Draft,
    behind: &'a str,
    values: &'a [Tree],
) -> Result<Rest<'a>, Refused>
    ensures ok { IfOk result (λ next. (t : List ℕ) × Adds draft.old draft.new t
        × (formatted (percent_sign ∷ behind.now) values.now
        ≡ before t (formatted next.text.now next.values.now))) }
    ensures shorter { IfOk result (λ next. length next.text.now ≤ length behind.now) }
    ensures utf8 { IfOk result (λ next. IsUtf8 next.text.now) }
    ensures err { IfErr result (λ e. e ≢ Memory → (e ≡ BadArgument)
        × (formatted (percent_sign ∷ behind.now) values.now ≡ None)) }
{
    if let Some(text) = behind_first(behind, '%') {
        draft.push("%")?;
        return Ok(Rest { text, values });
    }
    let Some((form, text)) = form_of(behind) else {
        return Err(Refused::BadArgument);
    };
    let Some((value, values)) = values.split_first() else {
        return Err(Refused::BadArgument);
    };
    write(alloc, draft, form, value)?;
    Ok(Rest { text, values })
}
