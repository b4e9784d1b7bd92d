ghost use Rattle.std.specs.Prelude.{◌≡◌, IfOk, option_map, string_bytes};
ghost use Rattle.hex.specs.Hex.{encode_lower};
ghost use Rattle.base.specs.Answers.{Gives};
ghost use Rattle.path_tree.specs.Refusals.{refusal};
ghost use Rattle.builtins_code.specs.Digests.{algorithm, digest_of};

use call_values::{Arguments, by_count, string_value};
use md5::Md5;
use path_tree::{Refused, Tree};
use sha1::Sha1;
use sha2::{Digest, Sha224, Sha256, Sha384, Sha512};
use std::alloc::{AllocError, Global};

/// `digest(a, t)`: the digest of the bytes of t by the algorithm a, in lower-case hexadecimal.
/// `BadArgument` where the arguments are not two texts, or a names no algorithm.
pub(crate) fn digest(alloc: Global, arguments: &[Tree]) -> Result<Tree, Refused>
    ensures { Gives (λ t. t) refusal result (digest_of arguments.now) }
{
    let Arguments::Two(name, text) = by_count(arguments) else {
        return Err(Refused::BadArgument);
    };
    let (Some(name), Some(text)) = (name.as_text(), text.as_text()) else {
        return Err(Refused::BadArgument);
    };
    let Some(hex) = digest_by(alloc, name, text.as_bytes())? else {
        return Err(Refused::BadArgument);
    };
    string_value(hex)
}

// The digest by the algorithm of this name, in hexadecimal. `None` where it names none.
fn digest_by(alloc: Global, name: &str, bytes: &[u8]) -> Result<Option<String>, AllocError>
    ensures { IfOk result (λ hex. option_map string_bytes hex
        ≡ option_map (λ f. encode_lower (f bytes.now)) (algorithm name.now)) }
{
    let hex = match name {
        "MD5" => hex::encode(alloc, <Md5 as md5::Digest>::digest(bytes))?,
        "SHA" | "SHA1" | "SHA-1" => hex::encode(alloc, Sha1::digest(bytes))?,
        "SHA-224" => hex::encode(alloc, Sha224::digest(bytes))?,
        "SHA-256" => hex::encode(alloc, Sha256::digest(bytes))?,
        "SHA-384" => hex::encode(alloc, Sha384::digest(bytes))?,
        "SHA-512" => hex::encode(alloc, Sha512::digest(bytes))?,
        _ => return Ok(None),
    };
    Ok(Some(hex))
}
