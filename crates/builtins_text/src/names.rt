ghost use Rattle.std.specs.Prelude.{◌≡◌};
ghost use Rattle.builtins_text.specs.Calls.{find_of};

/// A built-in function on texts and numbers (Pan Book, "Built-in Functions").
#[derive(Clone, Copy, PartialEq, Eq)]
pub enum Call {
    /// `escape`
    Escape,
    /// `unescape`
    Unescape,
    /// `to_string`
    ToString,
    /// `to_long`
    ToLong,
    /// `to_boolean`
    ToBoolean,
    /// `to_lowercase`
    ToLowercase,
    /// `to_uppercase`
    ToUppercase,
    /// `substr`
    Substr,
    /// `join`
    Join,
    /// `format`
    Format,
    /// `ip4_to_long`
    Ip4ToLong,
    /// `long_to_ip4`
    LongToIp4,
}

/// The function of a name. `None` exactly where the name is none of theirs.
pub fn find(name: &str) -> Option<Call>
    ensures { result ≡ find_of name.now }
{
    match *name.as_bytes().first()? {
        b'e' => match name {
            "escape" => Some(Call::Escape),
            _ => None,
        },
        b'f' => match name {
            "format" => Some(Call::Format),
            _ => None,
        },
        b'i' => match name {
            "ip4_to_long" => Some(Call::Ip4ToLong),
            _ => None,
        },
        b'j' => match name {
            "join" => Some(Call::Join),
            _ => None,
        },
        b'l' => match name {
            "long_to_ip4" => Some(Call::LongToIp4),
            _ => None,
        },
        b's' => match name {
            "substr" => Some(Call::Substr),
            _ => None,
        },
        b't' => match name {
            "to_long" => Some(Call::ToLong),
            "to_string" => Some(Call::ToString),
            "to_boolean" => Some(Call::ToBoolean),
            "to_lowercase" => Some(Call::ToLowercase),
            "to_uppercase" => Some(Call::ToUppercase),
            _ => None,
        },
        b'u' => match name {
            "unescape" => Some(Call::Unescape),
            _ => None,
        },
        _ => None,
    }
}
