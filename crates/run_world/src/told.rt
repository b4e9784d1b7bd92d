ghost use Rattle.std.specs.Prelude.{◌≡◌, ◌≤◌, IfOk, length, option_copied};
ghost use Rattle.dml_world.specs.Answers.{content_of, seen_of, text_read};
ghost use Rattle.base.specs.declared.limits.TheConstants.{MAX_FILE_BYTES};
ghost use Rattle.load_path.specs.Pictures.{content_in};
ghost use Rattle.runner.specs.Words.{file_content, object_content};

use base::Text;
use dml_world::{Foreign, Seen};
use load_path::{Content, Picture};
use path_tree::Tree;
use runner::Told;
use std::alloc::{AllocError, Global};

/// Whether a picture has a file.
pub(crate) fn seen_in(picture: &Picture, name: &Text) -> Seen
    ensures { result ≡ seen_of (file_content (content_in picture.now name.now)) }
{
    match picture.find(name.as_str()) {
        None => Seen::Missing,
        Some(Content::TooLong) => Seen::TooLong,
        Some(Content::Bytes(_)) => Seen::There,
    }
}

/// What is told of an object.
pub(crate) fn foreign_of(told: Told<'_>) -> Result<Foreign, AllocError>
    ensures { IfOk result (λ f. content_of f ≡ object_content told.entry.number
        (option_copied told.entry.value)) }
{
    if told.number == 0 {
        return Ok(Foreign::Absent);
    }
    if told.number == 1 {
        return Ok(Foreign::Failed);
    }
    if told.number == 2 {
        return Ok(Foreign::Circular);
    }
    match told.value {
        None => Ok(Foreign::NoValue),
        Some(value) => Ok(Foreign::Value(value.copy()?)),
    }
}

/// The bytes of a file as a text, where they are UTF-8.
#[tactic(auto, using(crate::proofs::Texts::texts))]
pub(crate) fn text_of(alloc: Global, bytes: &[u8]) -> Result<Option<Tree>, AllocError>
    requires { length bytes.now ≤ MAX_FILE_BYTES }
    ensures { IfOk result (λ t. t ≡ text_read bytes.now) }
{
    let Ok(text) = std::str::from_utf8(bytes) else {
        return Ok(None);
    };
    match Tree::text(alloc, text) {
        Ok(tree) => Ok(Some(tree)),
        Err(_) => Err(AllocError),
    }
}
