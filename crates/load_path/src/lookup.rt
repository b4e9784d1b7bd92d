ghost use Rattle.std.specs.Prelude.{◌≡◌, ◌++◌, [], IfOk, OnOk, fold, map, string_bytes, bytes_eq};
ghost use Rattle.std.specs.List.{list_any};
ghost use Rattle.load_path.specs.Candidates.{with_slash, candidate, with_name, candidates};

use base::{Seq, Text};
use std::alloc::{AllocError, Global};

/// Appends a part of a name and a slash, where the part is not empty.
fn push_part(text: &mut String, part: &str) -> Result<(), AllocError>
    ensures { OnOk result (string_bytes text.new ≡ string_bytes text.old ++ with_slash part.now) }
{
    if part.is_empty() {
        return Ok(());
    }
    text.push_str(part)?;
    text.push_str("/")
}

/// The file name of a template in a directory, below a prefix.
fn candidate(
    alloc: Global,
    name: &str,
    suffix: &str,
    prefix: &str,
    dir: &str,
) -> Result<Text, AllocError>
    ensures { IfOk result (λ text. text ≡ candidate name.now suffix.now prefix.now dir.now) }
{
    let mut text = String::new(alloc);
    push_part(&mut text, dir)?;
    push_part(&mut text, prefix)?;
    text.push_str(name)?;
    text.push_str(suffix)?;
    Text::from_string(text)
}

fn is_among(name: &Text, names: &[Text]) -> bool
    ensures { result ≡ list_any (bytes_eq name.now) names.now }
{
    names.iter().any(|each| name.as_str() == each.as_str())
}

/// Adds a name, where it is new.
fn add_name(names: &mut Vec<Text>, name: Text) -> Result<(), AllocError>
    ensures { OnOk result (names.new.items ≡ with_name names.old.items name) }
{
    if is_among(&name, names) {
        return Ok(());
    }
    names.push(name)?;
    Ok(())
}

/// Adds the names below a prefix, one in each directory.
#[tactic(auto, using(crate::proofs::Adding::dirs_more))]
fn add_below(
    alloc: Global,
    names: &mut Vec<Text>,
    name: &str,
    suffix: &str,
    prefix: &str,
    dirs: &[Text],
) -> Result<(), AllocError>
    ensures { OnOk result (names.new.items ≡ fold with_name names.old.items
        (map (candidate name.now suffix.now prefix.now) dirs.now)) }
{
    for dir in dirs {
        add_name(names, candidate(alloc, name, suffix, prefix, dir.as_str())?)?;
    }
    Ok(())
}

/// The file names under which a template is looked for, in order and each once (Pan Book, "Template Loading"): for
/// the empty prefix and then for each entry of the load path, one in each include directory.
///
/// `suffix` is that of a template's file, `.pan`, or the empty text. The empty directory and the empty prefix stand
/// for themselves.
#[tactic(auto, using(crate::proofs::Adding::prefixes_more))]
pub fn candidates(
    alloc: Global,
    name: &str,
    suffix: &str,
    load: &[Text],
    dirs: &[Text],
) -> Result<Seq<Text>, AllocError>
    ensures { IfOk result (λ names. names ≡ candidates name.now suffix.now load.now dirs.now) }
{
    let mut names = Vec::new(alloc);
    add_below(alloc, &mut names, name, suffix, "", dirs)?;
    for prefix in load {
        add_below(alloc, &mut names, name, suffix, prefix.as_str(), dirs)?;
    }
    Ok(Seq::from_vec(names))
}
