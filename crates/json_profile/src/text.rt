ghost use Rattle.std.specs.Prelude.{◌≡◌, IfOk, string_bytes};
ghost use Rattle.json_profile.specs.Json.{json_text_of, profile_of};

use crate::writing::write;
use json::Writer;
use path_tree::Tree;
use std::alloc::{AllocError, Global};

/// The room that a profile begins with.
const USUAL_BYTES: usize = 1024;

/// A tree as compact JSON with keys in byte order (RFC 8259), in one line without its end. An undef
/// or a null is written as `null`.
pub fn json_text(alloc: Global, tree: &Tree) -> Result<String, AllocError>
    ensures { IfOk result (λ text. string_bytes text ≡ json_text_of tree.now) }
{
    let mut out = Writer::new(Vec::with_capacity(alloc, USUAL_BYTES)?);
    write(&mut out, tree)?;
    let text = out.into_inner();
    Ok(unsafe { String::from_utf8_unchecked(text) })
}

/// The profile of a tree: its JSON text, and a line feed.
pub fn profile_text(alloc: Global, tree: &Tree) -> Result<Vec<u8>, AllocError>
    ensures { IfOk result (λ text. text.items ≡ profile_of tree.now) }
{
    let mut text = json_text(alloc, tree)?.into_bytes();
    text.push(b'\n')?;
    Ok(text)
}
