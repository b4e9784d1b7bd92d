ghost use Rattle.std.specs.Prelude.{◌≡◌, ◌++◌, MatchOption, OnOk, map};
ghost use Rattle.std.specs.List.{flat_map, list_all};
ghost use Rattle.base.specs.Answers.{Gives};
ghost use Rattle.builtins_text.specs.Joins.{is_text, join_of, join_texts, joined, joined_values, text_or_nothing};
ghost use Rattle.call_values.specs.Children.{children};
ghost use Rattle.call_values.specs.Drafts.{Adds};
ghost use Rattle.path_tree.specs.Refusals.{refusal};

use call_values::{Arguments, Draft, by_count, copied_children};
use path_tree::{Kind, Refused, Tree};
use std::alloc::{AllocError, Global};

/// Texts joined by a text: those of a list that stands alone behind it, or the other arguments.
pub(crate) fn join(alloc: Global, args: &[Tree]) -> Result<Tree, Refused>
    ensures { Gives (λ t. t) refusal result (join_of args.now) }
{
    let Some((separator, values)) = args.split_first() else {
        return Err(Refused::BadArgument);
    };
    let Some(separator) = separator.as_text() else {
        return Err(Refused::BadArgument);
    };
    join_values(alloc, separator, values)
}

fn join_values(alloc: Global, separator: &str, values: &[Tree]) -> Result<Tree, Refused>
    ensures { Gives (λ t. t) refusal result (join_texts separator.now (joined_values values.now)) }
{
    match list_alone(values) {
        Some(list) => join_items(alloc, separator, list),
        None => join_texts(alloc, separator, values),
    }
}

fn join_items(alloc: Global, separator: &str, list: &Tree) -> Result<Tree, Refused>
    ensures { Gives (λ t. t) refusal result (join_texts separator.now (children list.now)) }
{
    let items = copied_children(alloc, list)?;
    join_texts(alloc, separator, items.as_slice())
}

/// The list that stands alone.
fn list_alone(values: &[Tree]) -> Option<&Tree>
    ensures { MatchOption result (joined_values values.now ≡ values.now)
        (λ list. joined_values values.now ≡ children list.now) }
{
    match by_count(values) {
        Arguments::One(only) => match only.kind() {
            Kind::List => Some(only),
            _ => None,
        },
        Arguments::Zero => None,
        Arguments::Two(_, _) => None,
        Arguments::Three(_, _, _) => None,
        Arguments::Four(_, _, _, _) => None,
        Arguments::More => None,
    }
}

/// Texts joined by a text. What is over `MAX_TEXT_BYTES` bytes is not put together.
#[tactic(auto, using(crate::proofs::Joined::finished_is))]
fn join_texts(alloc: Global, separator: &str, values: &[Tree]) -> Result<Tree, Refused>
    ensures { Gives (λ t. t) refusal result (join_texts separator.now values.now) }
{
    if !are_texts(values) {
        return Err(Refused::BadArgument);
    }
    let mut draft = Draft::new(alloc);
    push_all(&mut draft, separator, values)?;
    draft.finish()
}

/// Adds the texts, each but the first behind the separator.
#[tactic(auto, using(crate::proofs::Joined::first_joined, crate::proofs::Joined::none_joined))]
fn push_all(draft: &mut Draft, separator: &str, values: &[Tree]) -> Result<(), AllocError>
    ensures { OnOk result (Adds draft.old draft.new
        (joined separator.now (map text_or_nothing values.now))) }
{
    let [first, rest @ ..] = values else {
        return Ok(());
    };
    draft.push(text_of(first))?;
    push_rest(draft, separator, rest)?;
    Ok(())
}

fn are_texts(values: &[Tree]) -> bool
    ensures { result ≡ list_all is_text values.now }
{
    values.iter().all(|value| is_text(value))
}

fn is_text(value: &Tree) -> bool
    ensures { result ≡ is_text value.now }
{
    match value.as_text() {
        Some(_) => true,
        None => false,
    }
}

fn text_of(value: &Tree) -> &str
    ensures { result.now ≡ text_or_nothing value.now }
{
    match value.as_text() {
        Some(text) => text,
        None => "",
    }
}

/// Adds the texts, each behind the separator.
fn push_rest(draft: &mut Draft, separator: &str, values: &[Tree]) -> Result<(), AllocError>
    ensures { OnOk result (Adds draft.old draft.new
        (flat_map (λ v. separator.now ++ text_or_nothing v) values.now)) }
{
    for value in values {
        push_one(draft, separator, text_of(value))?;
    }
    Ok(())
}

fn push_one(draft: &mut Draft, separator: &str, text: &str) -> Result<(), AllocError>
    ensures { OnOk result (Adds draft.old draft.new (separator.now ++ text.now)) }
{
    draft.push(separator)?;
    draft.push(text)?;
    Ok(())
}
