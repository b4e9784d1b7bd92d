ghost use Rattle.base.specs.Answers.{Gives};
ghost use Rattle.path_tree.specs.Refusals.{refusal};
ghost use Rattle.builtins_code.specs.Base64Texts.{base64_decode_of, base64_encode_of, utf8_text};

use base64::DecodeAllocError;
use base64::engine::general_purpose::STANDARD;
use call_values::{Arguments, by_count, string_value, text_value};
use path_tree::{Refused, Tree};
use std::alloc::Global;
use std::str;

/// `base64_encode(t)`: the bytes of t in base64, with padding. `BadArgument` where the arguments
/// are not one text, `TooLarge` exactly where the code has over `MAX_TEXT_BYTES` bytes.
pub(crate) fn base64_encode(alloc: Global, arguments: &[Tree]) -> Result<Tree, Refused>
    ensures { Gives (λ t. t) refusal result (base64_encode_of arguments.now) }
{
    let Arguments::One(value) = by_count(arguments) else {
        return Err(Refused::BadArgument);
    };
    let Some(text) = value.as_text() else {
        return Err(Refused::BadArgument);
    };
    let code = STANDARD.encode(alloc, text.as_bytes())?;
    string_value(code)
}

/// `base64_decode(t)`: the text whose bytes t is in base64. `BadArgument` where the arguments are
/// not one text, or it is no base64 with padding, or its bytes are not UTF-8.
pub(crate) fn base64_decode(alloc: Global, arguments: &[Tree]) -> Result<Tree, Refused>
    ensures { Gives (λ t. t) refusal result (base64_decode_of arguments.now) }
{
    let Arguments::One(value) = by_count(arguments) else {
        return Err(Refused::BadArgument);
    };
    let Some(code) = value.as_text() else {
        return Err(Refused::BadArgument);
    };
    match STANDARD.decode(alloc, code.as_bytes()) {
        Ok(bytes) => utf8_text(alloc, bytes.as_slice()),
        Err(DecodeAllocError::OutOfMemory) => Err(Refused::Memory),
        Err(DecodeAllocError::DecodeError(_)) => Err(Refused::BadArgument),
    }
}

// The text of bytes that are one.
#[tactic(auto, using(crate::proofs::Utf8::passes_utf8, crate::proofs::Utf8::fails_utf8))]
fn utf8_text(alloc: Global, bytes: &[u8]) -> Result<Tree, Refused>
    ensures { Gives (λ t. t) refusal result (utf8_text bytes.now) }
{
    match str::from_utf8(bytes) {
        Ok(text) => text_value(alloc, text),
        Err(_) => Err(Refused::BadArgument),
    }
}
