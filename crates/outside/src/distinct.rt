ghost use Rattle.std.specs.Prelude.{◌≡◌, IfOk};
ghost use Rattle.outside.specs.Pictures.{are_distinct};

use crate::source::MemFile;
use std::alloc::{AllocError, Global};
use std::collections::HashSet;

/// Whether no name stands twice among the files: what a source in memory asks of a picture.
pub fn are_distinct(alloc: Global, files: &[MemFile]) -> Result<bool, AllocError>
    ensures { IfOk result (λ distinct. distinct ≡ are_distinct files.now) }
{
    let mut later = HashSet::new(alloc);
    for i in (0..files.len()).rev() {
        if !later.insert(files[i].name.share()?)? {
            return Ok(false);
        }
    }
    Ok(true)
}
