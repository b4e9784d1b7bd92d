use base::Text;
use fault_notes::{column_in, detail_in, file_in, line_in};
use numbers::number_of;
use pan_ast::Place;
use path_tree::Path;
use std::alloc::{AllocError, Global};

/// A line or a column, where its digits are a number of 32 bits.
fn number_in(digits: &[u8]) -> Option<u32> {
    u32::try_from(number_of(digits)?).ok()
}

/// Bytes as a text, where they are UTF-8.
fn text_in(alloc: Global, bytes: &[u8]) -> Result<Option<Text>, AllocError> {
    match str::from_utf8(bytes) {
        Ok(text) => Ok(Some(Text::new(alloc, text)?)),
        Err(_) => Ok(None),
    }
}

/// The place of a fault `CODE FILE:LINE:COLUMN DETAIL`.
pub(crate) fn place_in(alloc: Global, fault: &[u8]) -> Result<Option<Place>, AllocError> {
    let Some(file) = text_in(alloc, file_in(fault))? else {
        return Ok(None);
    };
    let (Some(line), Some(column)) = (number_in(line_in(fault)), number_in(column_in(fault))) else {
        return Ok(None);
    };
    Ok(Some(Place { file, line, column }))
}

/// The path that is the detail of a fault.
pub(crate) fn path_in(alloc: Global, fault: &[u8]) -> Result<Option<Path>, AllocError> {
    let Some(text) = text_in(alloc, detail_in(fault))? else {
        return Ok(None);
    };
    match Path::parse(alloc, &text) {
        Ok(path) => Ok(Some(path)),
        Err(_) => Ok(None),
    }
}
