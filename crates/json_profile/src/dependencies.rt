ghost use Rattle.std.specs.Prelude.{◌≡◌, ◌++◌, IfOk, OnOk, fold, flat_map, map};
ghost use Rattle.read_sets.specs.Items.{pair_of, pairs_of};
ghost use Rattle.json_profile.specs.Dependencies.{file_word, line_of, with_line, with_feed, lines_of, dep_text_of, AreInOrder};

use base::Text;
use read_sets::{Item, Key, Trace};
use std::alloc::{AllocError, Global};
use std::collections::BTreeSet;

/// How the line of a file with this number begins.
fn file_word(name: &str, number: u64) -> &'static str
    ensures { result.now ≡ file_word name.now number }
{
    if number == 0 {
        return "missing ";
    }
    if name.as_bytes().ends_with(b".pan") {
        return "template ";
    }
    "file "
}

/// The line of an item.
fn line_of(alloc: Global, item: &Item) -> Result<Text, AllocError>
    ensures { IfOk result (λ line. line ≡ line_of (pair_of item.now)) }
{
    match &item.key {
        Key::File(name) => {
            Text::joined(alloc, file_word(name.as_str(), item.number), name.as_str())
        }
        Key::Under { object, .. } => Text::joined(alloc, "object ", object.as_str()),
    }
}

/// Adds the lines of items to lines in byte order.
fn add_lines(alloc: Global, lines: &mut BTreeSet<Text>, items: &[Item]) -> Result<(), AllocError>
    ensures { OnOk result (lines.new.keys ≡ fold with_line lines.old.keys (pairs_of items.now)) }
{
    for item in items {
        lines.insert(line_of(alloc, item)?)?;
    }
    Ok(())
}

/// Lines with their ends.
fn text_of(alloc: Global, lines: BTreeSet<Text>) -> Result<Vec<u8>, AllocError>
    ensures { IfOk result (λ text. text.items ≡ flat_map with_feed lines.keys) }
{
    let mut text = Vec::new(alloc);
    for line in lines {
        text.extend_from_slice(line.as_str().as_bytes())?;
        text.push(b'\n')?;
    }
    Ok(text)
}

/// The text of an object's dependency file, by what its build asked and what was asked later. It has a line for each
/// file and each object that was asked for, in byte order and each once: `template NAME` for a file that is there and
/// whose name ends in `.pan`, `file NAME` for another one that is there, `missing NAME` for one that is not, and
/// `object NAME`.
#[tactic(auto, using(crate::proofs::Ordered::lines_in_order))]
pub fn dep_text(alloc: Global, build: &Trace, later: &Trace) -> Result<Vec<u8>, AllocError>
    ensures text { IfOk result (λ text. text.items ≡ dep_text_of (pairs_of build.now)
        (pairs_of later.now)) }
    ensures order { AreInOrder (lines_of (pairs_of build.now ++ pairs_of later.now))
        (map line_of (pairs_of build.now ++ pairs_of later.now)) }
{
    let mut lines = BTreeSet::new(alloc);
    add_lines(alloc, &mut lines, build.items())?;
    add_lines(alloc, &mut lines, later.items())?;
    text_of(alloc, lines)
}
