ghost use Rattle.std.specs.Prelude.{◌≡◌, ◌+◌, ◌++◌, [], codes, IfOk, IfSome, OnOk, Some, option_and_then, option_copied, option_map};
ghost use Rattle.load_path.specs.Candidates.{candidates};
ghost use Rattle.load_path.specs.FileNames.{is_file_name};
ghost use Rattle.path_tree.specs.Grammar.{is_name};
ghost use Rattle.path_tree.specs.Find.{child_at, text_of};
ghost use Rattle.dml_meaning.specs.Around.{found};
ghost use Rattle.dml_meaning.specs.Lookups.{candidates_of, first_present, load_path, looked_up, tried, with_text};
ghost use Rattle.dml_world.specs.Answers.{IsPresent, IsSeen, present_of};
ghost use Rattle.dml_world.specs.Exits.{Looks};
ghost use Rattle.dml_world.specs.Seen.{around_of};

use crate::frame::Around;
use crate::leaf::{passes, spend_step};
use crate::stop::Stop;
use crate::world::{Seen, World};
use assign_rules::Globals;
use base::{Seq, Steps, Text};
use dml_meaning::Test;
use load_path::{candidates, is_file_name};
use pan_ast::{Place, Work};
use path_tree::{Tree, is_name};
use std::alloc::{AllocError, Global};
use std::sync::ledger::Ledger;

/// A file that is there.
#[derive(Drop)]
pub enum Present {
    /// It has no more bytes than a file may have.
    Whole(Text),
    Long(Text),
}

/// A file that is asked, with its step.
#[tactic(auto, using(crate::proofs::Looking::tries))]
fn try_file<W: World, L: Ledger>(
    alloc: Global,
    place: &Place,
    file: &Text,
    world: &mut W,
    work: &mut Work,
    steps: &mut Steps<L>,
) -> Result<Option<Present>, Stop>
    ensures gives { Looks (option_map (present_of W.answers)) result W.answers work.old
        (W.asked world.old) work.new (W.asked world.new) (tried place.now file.now) }
    ensures there { IfOk result (λ o. IfSome o (λ x. IsPresent x W.answers)) }
    ensures counted { steps.new + work.new.left ≡ steps.old + work.old.left }
{
    spend_step(alloc, place, world, work, steps)?;
    match world.file(alloc, file)? {
        Seen::Missing => Ok(None),
        Seen::There => Ok(Some(Present::Whole(file.share()?))),
        Seen::TooLong => Ok(Some(Present::Long(file.share()?))),
    }
}

/// The first of these files that is there.
#[tactic(auto, using(crate::proofs::Looking::first_more), unfolding(dml_meaning::specs::Lookups::first_present))]
fn first_present<W: World, L: Ledger>(
    alloc: Global,
    place: &Place,
    files: &[Text],
    world: &mut W,
    work: &mut Work,
    steps: &mut Steps<L>,
) -> Result<Option<Present>, Stop>
    ensures gives { Looks (option_map (present_of W.answers)) result W.answers work.old
        (W.asked world.old) work.new (W.asked world.new) (first_present place.now files.now) }
    ensures there { IfOk result (λ o. IfSome o (λ x. IsPresent x W.answers)) }
    ensures counted { steps.new + work.new.left ≡ steps.old + work.old.left }
{
    'files: for file in files {
        if let Some(found) = try_file(alloc, place, file, world, work, steps)? {
            return Ok(Some(found));
        }
    }
    Ok(None)
}

/// The text at a place of a list.
fn text_at(list: &Tree, i: usize) -> Option<&Text>
    ensures { option_copied result ≡ option_and_then text_of (child_at i list.now) }
{
    list.child_at(i)?.text_handle()
}

/// Appends a text, where there is one.
fn push_text(texts: &mut Vec<Text>, text: Option<&Text>) -> Result<(), AllocError>
    ensures { OnOk result (texts.new.items ≡ texts.old.items
        ++ with_text (option_copied text.entry) []) }
{
    if let Some(text) = text {
        texts.push(text.share()?)?;
    }
    Ok(())
}

/// The texts among the items of a list.
#[tactic(auto, using(crate::proofs::Looking::texts))]
fn texts_in(alloc: Global, list: &Tree) -> Result<Vec<Text>, AllocError>
    ensures { IfOk result (λ ts. ts.items ≡ load_path (Some list.now)) }
{
    let mut texts = Vec::new(alloc);
    if !passes(Test::List, list.kind()) {
        return Ok(texts);
    }
    let mut i = 0;
    'items: while i < list.len() {
        push_text(&mut texts, text_at(list, i))?;
        i += 1;
    }
    Ok(texts)
}

/// The prefixes that the variable LOADPATH gives.
fn load_path(alloc: Global, globals: &Globals) -> Result<Vec<Text>, AllocError>
    ensures { IfOk result (λ ts. ts.items ≡ load_path
        (found globals.now.variables (codes "LOADPATH"))) }
{
    match globals.value("LOADPATH") {
        Some(value) => texts_in(alloc, value),
        None => Ok(Vec::new(alloc)),
    }
}

/// The file names under which a name is looked for.
fn candidates_of<W: World>(
    alloc: Global,
    name: &str,
    suffix: &str,
    around: &Around<'_>,
    world: &W,
) -> Result<Seq<Text>, AllocError>
    ensures { IfOk result (λ fs. fs ≡ candidates_of (around_of around.now W.reading W.calls)
        name.now suffix.now) }
{
    let prefixes = load_path(alloc, around.frame.globals)?;
    candidates(alloc, name, suffix, &prefixes, around.frame.dirs)
}

/// The file of a template, by the template's name (Pan Book, "Template Loading"). Each file that is
/// asked costs a step. A text that is no template name has no file, and none is asked.
#[tactic(auto, using(dml_meaning::proofs::Leaving::first_leaves))]
pub fn find_template_file<W: World, L: Ledger>(
    alloc: Global,
    place: &Place,
    name: &str,
    around: &Around<'_>,
    world: &mut W,
    work: &mut Work,
    steps: &mut Steps<L>,
) -> Result<Option<Present>, Stop>
    ensures gives { Looks (option_map (present_of W.answers)) result W.answers work.old
        (W.asked world.old) work.new (W.asked world.new)
        (looked_up (around_of around.now W.reading W.calls) place.now (is_name name.now) name.now
        (codes ".pan")) }
    ensures there { IfOk result (λ o. IfSome o (λ x. IsPresent x W.answers)) }
    ensures counted { steps.new + work.new.left ≡ steps.old + work.old.left }
{
    if !is_name(name.as_bytes()) {
        return Ok(None);
    }
    let files = candidates_of(alloc, name, ".pan", around, world)?;
    first_present(alloc, place, files.as_slice(), world, work, steps)
}

/// A file by its name, looked for as a template is. A text that is no file name has no file, and
/// none is asked.
#[tactic(auto, using(dml_meaning::proofs::Leaving::first_leaves))]
pub fn find_file<W: World, L: Ledger>(
    alloc: Global,
    place: &Place,
    name: &str,
    around: &Around<'_>,
    world: &mut W,
    work: &mut Work,
    steps: &mut Steps<L>,
) -> Result<Option<Present>, Stop>
    ensures gives { Looks (option_map (present_of W.answers)) result W.answers work.old
        (W.asked world.old) work.new (W.asked world.new)
        (looked_up (around_of around.now W.reading W.calls) place.now (is_file_name name.now)
        name.now []) }
    ensures there { IfOk result (λ o. IfSome o (λ x. IsPresent x W.answers)) }
    ensures counted { steps.new + work.new.left ≡ steps.old + work.old.left }
{
    if !is_file_name(name.as_bytes()) {
        return Ok(None);
    }
    let files = candidates_of(alloc, name, "", around, world)?;
    first_present(alloc, place, files.as_slice(), world, work, steps)
}
