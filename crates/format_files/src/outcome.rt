ghost use Rattle.std.specs.Prelude.{◌≡◌, true};
ghost use Rattle.base.specs.Answers.{Gives};
ghost use Rattle.format_files.specs.Layouts.{is_template, layout_of};
ghost use Rattle.load_path.specs.Pictures.{has_short_content};
ghost use Rattle.pan_format.specs.Formatted.{refusal};

use load_path::{Content, PictureFile};
use pan_format::{FormatError, format};
use std::alloc::Global;

/// Whether the file is a template's.
pub(crate) fn is_template(file: &PictureFile) -> bool
    ensures { result ≡ is_template file.now }
{
    file.name.as_str().as_bytes().ends_with(b".pan")
}

/// The layout of a template's file, or why it has none.
#[tactic(auto, unfolding(crate::specs::Layouts::layout_of))]
pub(crate) fn layout_of(alloc: Global, file: &PictureFile) -> Result<Vec<u8>, FormatError>
    requires { has_short_content file.now.content ≡ true }
    ensures { Gives (λ text. text.items) refusal result (layout_of file.now) }
{
    match &file.content {
        Content::Bytes(bytes) => format(alloc, bytes.as_slice(), &file.name),
        Content::TooLong => Err(FormatError::TooLong),
    }
}
