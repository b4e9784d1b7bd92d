//! The objects of a picture: the template names whose first file that is there is an object template.
#![tactic(auto)]

ghost use Rattle.std.specs.Prelude.{◌≡◌, ◌++◌, ◌≤◌, ℕ, List, [], true, Some, slice_get, codes, IfOk, IfSome, OnOk, option_copied, length};
ghost use Rattle.load_path.specs.Candidates.{with_slash};
ghost use Rattle.object_names.specs.Objects.{first_there, is_object_text, is_object_in, are_rising, AreObjects};
ghost use Rattle.object_names.specs.Finding.{place_in, is_same, with_object, with_found, HasFile, Adds};

use base::Text;
use load_path::{Content, Picture, PictureFile, candidates};
use pan_lexer::is_object;
use path_tree::{Name, NameError, is_name};
use std::alloc::{AllocError, Global};

/// The name whose file this is, below a front: a directory and a slash, or nothing.
fn name_in<'a>(front: &str, file: &'a str) -> Option<&'a str>
    ensures named { IfSome result (λ name. front.now ++ (name.now ++ codes ".pan") ≡ file.now) }
    ensures complete { (name : List ℕ) → front.now ++ (name ++ codes ".pan") ≡ file.now
        → option_copied result ≡ Some name }
{
    file.strip_prefix(front)?.strip_suffix(".pan")
}

/// The content of the first of these files that is there.
fn first_there<'a>(picture: &'a Picture, names: &[Text]) -> Option<&'a Content>
    ensures { option_copied result ≡ first_there picture.now names.now }
{
    for name in names {
        if let Some(content) = picture.find(name.as_str()) {
            return Some(content);
        }
    }
    None
}

fn is_object_text(content: &Content) -> bool
    ensures { result ≡ is_object_text content.now }
{
    match content {
        Content::Bytes(text) => is_object(text.as_slice()),
        Content::TooLong => false,
    }
}

/// Whether a name is an object.
fn is_object_in(
    alloc: Global,
    picture: &Picture,
    dirs: &[Text],
    name: &str,
) -> Result<bool, AllocError>
    ensures { IfOk result (λ is. is ≡ is_object_in picture.now dirs.now name.now) }
{
    if !is_name(name.as_bytes()) {
        return Ok(false);
    }
    let names = candidates(alloc, name, ".pan", &[], dirs)?;
    match first_there(picture, names.as_slice()) {
        Some(content) => Ok(is_object_text(content)),
        None => Ok(false),
    }
}

/// How many names stand before the place of a name.
fn place_of(names: &[Name], name: &Name) -> usize
    requires { are_rising names.now ≡ true }
    ensures { result ≡ place_in names.now name.now }
{
    names.partition_point(|each| each.as_str() < name.as_str())
}

fn stands_at(names: &[Name], place: usize, name: &Name) -> bool
    ensures { result ≡ is_same name.now (slice_get names.now place) }
{
    match names.get(place) {
        Some(there) => there == name,
        None => false,
    }
}

/// Adds a name at its place, where it does not stand there.
fn add_name(names: &mut Vec<Name>, name: Name) -> Result<(), AllocError>
    requires { are_rising names.old.items ≡ true }
    ensures { OnOk result (names.new.items ≡ with_object name names.old.items) }
{
    let place = place_of(names, &name);
    if stands_at(names, place, &name) {
        return Ok(());
    }
    names.insert(place, name)?;
    Ok(())
}

/// Adds a name, where it is an object.
fn add_object(
    alloc: Global,
    names: &mut Vec<Name>,
    picture: &Picture,
    dirs: &[Text],
    name: Name,
) -> Result<(), AllocError>
    requires { are_rising names.old.items ≡ true }
    ensures { OnOk result (names.new.items ≡ with_found picture.now dirs.now name names.old.items) }
{
    if is_object_in(alloc, picture, dirs, name.as_str())? {
        return add_name(names, name);
    }
    Ok(())
}

/// Adds the name whose file this is, below a front, where it is an object.
fn add_file(
    alloc: Global,
    names: &mut Vec<Name>,
    picture: &Picture,
    dirs: &[Text],
    front: &str,
    file: &str,
) -> Result<(), AllocError>
    requires { are_rising names.old.items ≡ true }
    ensures { OnOk result (Adds picture.now dirs.now (λ name. front.now ++ (name ++ codes ".pan")
        ≡ file.now) names.old.items names.new.items) }
{
    let Some(name) = name_in(front, file) else {
        return Ok(());
    };
    match Name::parse(alloc, name) {
        Ok(name) => add_object(alloc, names, picture, dirs, name),
        Err(NameError::BadName) => Ok(()),
        Err(NameError::Memory) => Err(AllocError),
    }
}

/// A directory with a slash, or nothing for the empty one.
fn front_of(alloc: Global, dir: &str) -> Result<Text, AllocError>
    ensures { IfOk result (λ front. front ≡ with_slash dir.now) }
{
    if dir.is_empty() {
        return Text::new(alloc, "");
    }
    Text::joined(alloc, dir, "/")
}

/// Adds the objects that have a file below a front.
fn add_files(
    alloc: Global,
    names: &mut Vec<Name>,
    picture: &Picture,
    dirs: &[Text],
    front: &str,
) -> Result<(), AllocError>
    requires { are_rising names.old.items ≡ true }
    ensures { OnOk result (Adds picture.now dirs.now (HasFile picture.now front.now) names.old.items
        names.new.items) }
{
    for file in picture.files() {
        add_file(alloc, names, picture, dirs, front, file.name.as_str())?;
    }
    Ok(())
}

/// Adds the objects that have a file in a directory.
fn add_below(
    alloc: Global,
    names: &mut Vec<Name>,
    picture: &Picture,
    dirs: &[Text],
    dir: &str,
) -> Result<(), AllocError>
    requires { are_rising names.old.items ≡ true }
    ensures { OnOk result (Adds picture.now dirs.now (HasFile picture.now (with_slash dir.now))
        names.old.items names.new.items) }
{
    let front = front_of(alloc, dir)?;
    add_files(alloc, names, picture, dirs, front.as_str())
}

/// The objects of a picture with these include directories, in byte order: the template names whose first file that is
/// there, in the order of the directories, begins as an object template (Pan Book, "Object Templates").
pub fn objects(alloc: Global, picture: &Picture, dirs: &[Text]) -> Result<Vec<Name>, AllocError>
    ensures { IfOk result (λ names. AreObjects picture.now dirs.now names.items) }
{
    let mut names = Vec::new(alloc);
    for dir in dirs {
        add_below(alloc, &mut names, picture, dirs, dir.as_str())?;
    }
    Ok(names)
}
