ghost use Rattle.std.specs.Prelude.{◌≡◌, IfOk};

use crate::rising::Named;
use base::{Bytes, Text};
use std::alloc::AllocError;

/// A row: a name, and the bytes under it.
#[derive(Drop)]
pub struct StoredRow {
    pub name: Text,
    pub bytes: Bytes,
}

impl Named for StoredRow {
    ghost use Rattle.stored_rows.specs.Rows.{row_name};

    ghost name_of = { row_name };

    fn name(&self) -> &str {
        self.name.as_str()
    }
}

impl StoredRow {
    /// The same row, its name and bytes shared.
    pub fn share(&self) -> Result<StoredRow, AllocError>
        ensures { IfOk result (λ same. same ≡ self.now) }
    {
        Ok(StoredRow {
            name: self.name.share()?,
            bytes: self.bytes.share()?,
        })
    }
}
