ghost use Rattle.std.specs.Prelude.{◌≡◌, IfOk};

use base::Text;
use std::alloc::AllocError;

/// A place in a file. Lines and columns count from 1, columns in characters. Copies share the file's name.
#[derive(Clone, PartialEq, Eq)]
pub struct Place {
    pub file: Text,
    pub line: u32,
    pub column: u32,
}

// By one call at each exit of who holds one: a derived Drop would let go of each part there.
impl Drop for Place {
    fn drop(self) {
        let Place {
            file: _file,
            line: _line,
            column: _column,
        } = self;
    }
}

impl Place {
    /// The same place, its file's name shared.
    pub fn share(&self) -> Result<Place, AllocError>
        ensures { IfOk result (λ p. p ≡ self.now) }
    {
        Ok(Place {
            file: self.file.share()?,
            line: self.line,
            column: self.column,
        })
    }
}
