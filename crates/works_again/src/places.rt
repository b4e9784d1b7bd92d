ghost use Rattle.std.specs.Prelude.{◌≡◌, ◌++◌, OnOk};
ghost use Rattle.pan_ast.specs.Printed.{place_text};

use itoa::Buffer;
use pan_ast::Place;
use std::alloc::AllocError;

/// Appends `FILE:LINE:COLUMN`.
pub fn push_place(text: &mut Vec<u8>, place: &Place) -> Result<(), AllocError>
    ensures { OnOk result (text.new.items ≡ text.old.items ++ place_text place.now) }
{
    let mut buffer = Buffer::new();
    text.extend_from_slice(place.file.as_str().as_bytes())?;
    text.push(b':')?;
    text.extend_from_slice(buffer.format(place.line).as_bytes())?;
    text.push(b':')?;
    text.extend_from_slice(buffer.format(place.column).as_bytes())
}
