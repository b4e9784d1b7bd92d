ghost use Rattle.std.specs.Prelude.{◌≡◌, ◌++◌, IfOk, OnOk, decimal};
ghost use Rattle.end_notes.specs.Notes.{place_name, wrong_text, usage_of, trouble_of, removals_of, bad_rows_of};

use crate::wrong::{Place, Wrong};
use itoa::Buffer;
use std::alloc::{AllocError, Global};

/// How the program is called.
pub const USAGE: &str =
    "\nusage: pan build SOURCE OUT [OPTION..]    compiles the templates below SOURCE into OUT\n       pan watch SOURCE OUT [OPTION..]    the same, asked by lines on standard input\n       pan demo COUNT START [OPTION..]    four builds of a made-up site\n       pan format SOURCE OUT              each template of SOURCE in its one layout\n\noptions: --include LIST       include directories below SOURCE, joined by `:`\n         --max-iteration N    turns of a loop, 1 to 1000000\n         --max-recursion N    open calls of functions, 1 to 200\n         --most-removed N     files of OUT that a build may take away, 0 to 20000\n         --state FILE         a file that keeps rows from run to run, for build and watch\n";

fn place_name(place: Place) -> &'static str
    ensures { result.now ≡ place_name place }
{
    match place {
        Place::Mode => "MODE",
        Place::Source => "SOURCE",
        Place::Out => "OUT",
    }
}

fn push_parts(into: &mut Vec<u8>, first: &str, second: &str) -> Result<(), AllocError>
    ensures { OnOk result (into.new.items ≡ into.old.items ++ (first.now ++ second.now)) }
{
    into.extend_from_slice(first.as_bytes())?;
    into.extend_from_slice(second.as_bytes())
}

fn push_wrong(into: &mut Vec<u8>, wrong: &Wrong) -> Result<(), AllocError>
    ensures { OnOk result (into.new.items ≡ into.old.items ++ wrong_text wrong.now) }
{
    match wrong {
        Wrong::BadOption(word) => push_parts(
            into,
            "no such option, or not with this value: ",
            word.as_str(),
        ),
        Wrong::StateWithoutFile => {
            into.extend_from_slice(b"FILE of --state is missing or empty")
        }
        Wrong::Missing(place) => push_parts(into, place_name(*place), " is missing"),
        Wrong::Extra(word) => push_parts(into, "one word too many: ", word.as_str()),
        Wrong::BadMode(word) => push_parts(into, "no such MODE: ", word.as_str()),
        Wrong::Empty(place) => push_parts(into, place_name(*place), " is empty"),
        Wrong::TakesNoOption => into.extend_from_slice(b"format takes no option"),
        Wrong::TakesNoState => into.extend_from_slice(b"demo takes no --state"),
        Wrong::NotUtf8 => into.extend_from_slice(b"a word is not UTF-8"),
        Wrong::Otherwise => into.extend_from_slice(b"the words are no command"),
    }
}

/// The text for words that are no command: what is wrong, and the usage.
pub fn usage_note(alloc: Global, wrong: &Wrong) -> Result<Vec<u8>, AllocError>
    ensures { IfOk result (λ text. text.items ≡ usage_of wrong.now) }
{
    let mut text = Vec::from_slice(alloc, b"error: ")?;
    push_wrong(&mut text, wrong)?;
    text.extend_from_slice(b"\n")?;
    text.extend_from_slice(USAGE.as_bytes())?;
    Ok(text)
}

/// The text for a call of the system that failed: the path that it was about, and why.
pub fn trouble_note(alloc: Global, path: &str, reason: &str) -> Result<Vec<u8>, AllocError>
    ensures { IfOk result (λ text. text.items ≡ trouble_of path.now reason.now) }
{
    let mut text = Vec::from_slice(alloc, b"error: ")?;
    text.extend_from_slice(path.as_bytes())?;
    text.extend_from_slice(b": ")?;
    text.extend_from_slice(reason.as_bytes())?;
    text.extend_from_slice(b"\n")?;
    Ok(text)
}

fn push_number(into: &mut Vec<u8>, number: u64) -> Result<(), AllocError>
    ensures { OnOk result (into.new.items ≡ into.old.items ++ decimal number) }
{
    let mut buffer = Buffer::new();
    into.extend_from_slice(buffer.format(number).as_bytes())
}

/// The text for a build that was to take away so many files of a folder, more than `most`.
pub fn removals_note(
    alloc: Global,
    folder: &str,
    removals: u64,
    most: u64,
) -> Result<Vec<u8>, AllocError>
    ensures { IfOk result (λ text. text.items ≡ removals_of folder.now removals most) }
{
    let mut text = Vec::from_slice(alloc, b"error: ")?;
    text.extend_from_slice(folder.as_bytes())?;
    text.extend_from_slice(b": ")?;
    push_number(&mut text, removals)?;
    text.extend_from_slice(b" files would have gone, more than the ")?;
    push_number(&mut text, most)?;
    text.extend_from_slice(b" that --most-removed allows; nothing was changed\n")?;
    Ok(text)
}

/// The text for a file whose rows no build can have kept: what is wrong, and what to do.
pub fn bad_rows_note(alloc: Global, file: &str) -> Result<Vec<u8>, AllocError>
    ensures { IfOk result (λ text. text.items ≡ bad_rows_of file.now) }
{
    let mut text = Vec::from_slice(alloc, b"error: ")?;
    text.extend_from_slice(file.as_bytes())?;
    text.extend_from_slice(b": it holds rows that no build has kept; remove it and ")?;
    text.extend_from_slice(file.as_bytes())?;
    text.extend_from_slice(b"-wal: the next build then begins anew, and loses time alone\n")?;
    Ok(text)
}
