ghost use Rattle.std.specs.Prelude.{◌≡◌, ◌≤◌, List, [], OnOk, OnErr, IfSome, None, true, option_copied, length};
ghost use Rattle.load_path.specs.Pictures.{is_rising, are_short, has_short_content, content_in, with_file, position_in};
ghost use Rattle.load_path.specs.declared.picture.PictureFile.{PictureFile};

use base::{Bytes, Text};
use std::alloc::{AllocError, Global};
use std::marker::Model;

/// What a file of a picture holds.
#[derive(Drop)]
pub enum Content {
    /// At most `MAX_FILE_BYTES` bytes.
    Bytes(Bytes),
    /// More bytes, which are not kept.
    TooLong,
}

/// A file of a picture.
#[derive(Drop)]
pub struct PictureFile {
    pub name: Text,
    pub content: Content,
}

/// Files by name, in byte order of names.
#[derive(Drop)]
pub struct Picture {
    files: Vec<PictureFile>,
}

impl Model for Picture {
    ghost use Rattle.std.specs.Prelude.{◌≡◌, List, true};
    ghost use Rattle.load_path.specs.Pictures.{is_rising, are_short};
    ghost use Rattle.load_path.specs.declared.picture.PictureFile.{PictureFile};

    ghost Value = { List PictureFile };

    ghost view = { λ p. p.files.items };

    ghost invariant = { λ p. (is_rising p.files.items ≡ true) × (are_short p.files.items ≡ true) };
}

/// How many names are below this one.
fn position_of(files: &[PictureFile], name: &str) -> usize
    requires { is_rising files.now ≡ true }
    ensures { result ≡ position_in files.now name.now }
{
    // Names mostly come in order, so most places are at the end.
    let count = files.len();
    if count > 0 && files[count - 1].name.as_str() < name {
        return count;
    }
    files.partition_point(|file| file.name.as_str() < name)
}

/// The content of the file with this name.
fn content_of<'a>(files: &'a [PictureFile], name: &str) -> Option<&'a Content>
    requires rising { is_rising files.now ≡ true }
    requires short { are_short files.now ≡ true }
    ensures content { option_copied result ≡ content_in files.now name.now }
    ensures short { IfSome result (λ content. has_short_content content.now ≡ true) }
{
    let file = files.get(position_of(files, name))?;
    if file.name.as_str() != name {
        return None;
    }
    Some(&file.content)
}

impl Picture {
    /// A picture without files.
    pub fn new(alloc: Global) -> Picture
        ensures { result ≡ [] }
    {
        Picture {
            files: Vec::new(alloc),
        }
    }

    /// Adds a file with a new name at its place.
    #[tactic(auto, using(crate::proofs::Positions::position_within, crate::proofs::Positions::insert_is, crate::proofs::Positions::rising_with, crate::proofs::Positions::short_with))]
    pub fn add(&mut self, name: Text, content: Content) -> Result<(), AllocError>
        requires new { content_in self.old name ≡ None }
        requires short { has_short_content content ≡ true }
        ensures ok { OnOk result (self.new ≡ with_file name content self.old) }
        ensures err { OnErr result (self.new ≡ self.old) }
    {
        let position = position_of(&self.files, name.as_str());
        self.files.insert(position, PictureFile { name, content })?;
        Ok(())
    }

    /// The content of the file with this name.
    pub fn find(&self, name: &str) -> Option<&Content>
        ensures content { option_copied result ≡ content_in self.now name.now }
        ensures short { IfSome result (λ content. has_short_content content.now ≡ true) }
    {
        content_of(&self.files, name)
    }

    /// All files, in byte order of names.
    pub fn files(&self) -> &[PictureFile]
        ensures files { result.now ≡ self.now }
        ensures rising { is_rising self.now ≡ true }
        ensures short { are_short self.now ≡ true }
    {
        &self.files
    }
}
