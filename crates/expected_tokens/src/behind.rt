ghost use Rattle.std.specs.Prelude.{◌≡◌, ◌≤◌, IfOk, length, take};
ghost use Rattle.base.specs.declared.limits.TheConstants.{MAX_FILE_BYTES};
ghost use Rattle.pan_ast.specs.Detail.{is_continuation};
ghost use Rattle.pan_lexer.specs.Lexed.{advance, origin, place_after, place_in};
ghost use Rattle.expected_tokens.specs.Expected.{end_of};

use base::Text;
use pan_ast::{Place, Token};
use std::alloc::AllocError;

/// Whether the byte goes on with a character.
fn is_continuation(byte: u8) -> bool
    ensures { result ≡ is_continuation byte }
{
    128 <= byte && byte <= 191
}

/// The place in a file behind some of its bytes.
fn place_after(file: &Text, bytes: &[u8]) -> Result<Place, AllocError>
    requires { length bytes.now ≤ MAX_FILE_BYTES }
    ensures { IfOk result (λ place. place ≡ place_in file.now (place_after origin bytes.now)) }
{
    let mut line = 1;
    let mut column = 1;
    for byte in bytes {
        if *byte == b'\n' {
            line += 1;
            column = 1;
        } else if !is_continuation(*byte) {
            column += 1;
        }
    }
    Ok(Place {
        file: file.share()?,
        line,
        column,
    })
}

/// The byte behind the last token; 0 where there is none.
fn end_of(tokens: &[Token]) -> usize
    ensures { result ≡ end_of tokens.now }
{
    let mut end = 0;
    for token in tokens {
        end = token.end();
    }
    end
}

/// The place behind the last token of a file, or the file's first.
pub(crate) fn place_behind(file: &Text, bytes: &[u8], tokens: &[Token]) -> Result<Place, AllocError>
    requires { length bytes.now ≤ MAX_FILE_BYTES }
    ensures { IfOk result (λ place. place
        ≡ place_in file.now (place_after origin (take (end_of tokens.now) bytes.now))) }
{
    let end = end_of(tokens).min(bytes.len());
    place_after(file, &bytes[..end])
}
