//! The objects of a picture, looked for anew only where the picture has changed.

ghost use Rattle.std.specs.Prelude.{◌≡◌, IfOk, IfSome};
ghost use Rattle.object_names.specs.Objects.{AreObjects};
ghost use Rattle.rebuild.specs.FoundObjects.{AreObjects-prop};

use crate::sharing::{are_same, share_all};
use base::Text;
use load_path::{Picture, PictureFile};
use object_names::objects;
use path_tree::Name;
use std::alloc::{AllocError, Global};

/// The objects that were found last, with the files and the directories that they are those of.
#[derive(Drop)]
pub(crate) struct FoundObjects {
    files: Vec<PictureFile>,
    dirs: Vec<Text>,
    names: Vec<Name>,
    ghost are: { AreObjects files.items dirs.items names.items } by { AreObjects-prop files.items dirs.items names.items },
}

impl FoundObjects {
    fn new(
        alloc: Global,
        files: &[PictureFile],
        dirs: &[Text],
        names: &[Name],
    ) -> Result<FoundObjects, AllocError>
        requires { AreObjects files.now dirs.now names.now }
    {
        let files = share_all(alloc, files)?;
        let dirs = share_all(alloc, dirs)?;
        let names = share_all(alloc, names)?;
        Ok(FoundObjects { files, dirs, names })
    }

    /// The objects, where they are those of these files and directories.
    fn objects_of(&self, files: &[PictureFile], dirs: &[Text]) -> Option<&[Name]>
        ensures { IfSome result (λ names. AreObjects files.now dirs.now names.now) }
    {
        if are_same(&self.dirs, dirs) && are_same(&self.files, files) {
            return Some(&self.names);
        }
        None
    }
}

/// The objects of a picture with these include directories: those that were found last, where they are its objects.
pub(crate) fn objects_again(
    alloc: Global,
    found: &mut Option<FoundObjects>,
    picture: &Picture,
    dirs: &[Text],
) -> Result<Vec<Name>, AllocError>
    ensures { IfOk result (λ names. AreObjects picture.now dirs.now names.items) }
{
    if let Some(last) = found {
        if let Some(names) = last.objects_of(picture.files(), dirs) {
            return share_all(alloc, names);
        }
    }
    let names = objects(alloc, picture, dirs)?;
    *found = Some(FoundObjects::new(alloc, picture.files(), dirs, &names)?);
    Ok(names)
}
