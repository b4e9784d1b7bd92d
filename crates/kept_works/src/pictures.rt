ghost use Rattle.std.specs.Prelude.{◌≡◌, IfOk, OnOk, None, true};
ghost use Rattle.load_path.specs.Pictures.{are_short, content_in, has_short_content, with_file};
ghost use Rattle.object_names.specs.Objects.{are_rising};
ghost use Rattle.engine_turns.specs.Places.{file_names};
ghost use Rattle.engine_turns.specs.States.{pictured};

use engine_turns::FileRow;
use load_path::Picture;
use rebuild::Share;
use std::alloc::{AllocError, Global};

/// Adds a file with a new name to a picture.
fn add_file(picture: &mut Picture, file: &FileRow) -> Result<(), AllocError>
    requires new { content_in picture.old file.now.name ≡ None }
    requires short { has_short_content file.now.content ≡ true }
    ensures { OnOk result (picture.new ≡ with_file file.now.name file.now.content picture.old) }
{
    let name = file.name.share()?;
    let content = file.content.shared()?;
    picture.add(name, content)
}

/// The picture of files, which shares their names and contents.
pub(crate) fn picture_of(alloc: Global, files: &[FileRow]) -> Result<Picture, AllocError>
    requires rising { are_rising (file_names files.now) ≡ true }
    requires short { are_short (pictured files.now) ≡ true }
    ensures { IfOk result (λ picture. picture ≡ pictured files.now) }
{
    let mut picture = Picture::new(alloc);
    for file in files {
        add_file(&mut picture, file)?;
    }
    Ok(picture)
}
