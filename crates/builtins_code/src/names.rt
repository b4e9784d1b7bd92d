ghost use Rattle.std.specs.Prelude.{◌≡◌};
ghost use Rattle.builtins_code.specs.Calls.{find_of};

/// A built-in function of this crate.
#[derive(Clone, Copy, PartialEq, Eq)]
pub enum Call {
    /// `match`: whether a pattern matches somewhere in a text.
    Match,
    /// `matches`: what the groups of the first match of a pattern matched.
    Matches,
    /// `split`: the texts between the matches of a pattern.
    Split,
    /// `replace`: a text with the matches of a pattern replaced.
    Replace,
    /// `base64_encode`: a text in base64.
    Base64Encode,
    /// `base64_decode`: the text of base64.
    Base64Decode,
    /// `json_encode`: a value as JSON.
    JsonEncode,
    /// `json_decode`: the value of a JSON text.
    JsonDecode,
    /// `digest`: the digest of a text by an algorithm.
    Digest,
}

/// The function of a name. `None` exactly where the name is none of this crate's.
pub fn find(name: &str) -> Option<Call>
    ensures { result ≡ find_of name.now }
{
    match *name.as_bytes().first()? {
        b'b' => match name {
            "base64_decode" => Some(Call::Base64Decode),
            "base64_encode" => Some(Call::Base64Encode),
            _ => None,
        },
        b'd' => match name {
            "digest" => Some(Call::Digest),
            _ => None,
        },
        b'j' => match name {
            "json_decode" => Some(Call::JsonDecode),
            "json_encode" => Some(Call::JsonEncode),
            _ => None,
        },
        b'm' => match name {
            "match" => Some(Call::Match),
            "matches" => Some(Call::Matches),
            _ => None,
        },
        b'r' => match name {
            "replace" => Some(Call::Replace),
            _ => None,
        },
        b's' => match name {
            "split" => Some(Call::Split),
            _ => None,
        },
        _ => None,
    }
}
