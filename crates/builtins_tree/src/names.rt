ghost use Rattle.std.specs.Prelude.{◌≡◌};
ghost use Rattle.builtins_tree.specs.Calls.{find_of};

/// A built-in function on trees (Pan Book, "Built-in Functions").
#[derive(Clone, Copy, PartialEq, Eq)]
pub enum Call {
    /// `list`
    List,
    /// `dict`
    Dict,
    /// `nlist`
    Nlist,
    /// `append`
    Append,
    /// `prepend`
    Prepend,
    /// `splice`
    Splice,
    /// `merge`
    Merge,
    /// `key`
    Key,
    /// `length`
    Length,
    /// `is_defined`
    IsDefined,
    /// `is_boolean`
    IsBoolean,
    /// `is_long`
    IsLong,
    /// `is_string`
    IsString,
    /// `is_number`
    IsNumber,
    /// `is_property`
    IsProperty,
    /// `is_resource`
    IsResource,
    /// `is_list`
    IsList,
    /// `is_dict`
    IsDict,
    /// `is_nlist`
    IsNlist,
    /// `is_null`
    IsNull,
    /// `clone`
    Clone,
    /// `index`
    Index,
}

/// The function of a name. `None` exactly where the name is none of theirs.
pub fn find(name: &str) -> Option<Call>
    ensures { result ≡ find_of name.now }
{
    match *name.as_bytes().first()? {
        b'a' => match name {
            "append" => Some(Call::Append),
            _ => None,
        },
        b'c' => match name {
            "clone" => Some(Call::Clone),
            _ => None,
        },
        b'd' => match name {
            "dict" => Some(Call::Dict),
            _ => None,
        },
        b'i' => match name {
            "index" => Some(Call::Index),
            "is_dict" => Some(Call::IsDict),
            "is_list" => Some(Call::IsList),
            "is_long" => Some(Call::IsLong),
            "is_null" => Some(Call::IsNull),
            "is_nlist" => Some(Call::IsNlist),
            "is_number" => Some(Call::IsNumber),
            "is_string" => Some(Call::IsString),
            "is_boolean" => Some(Call::IsBoolean),
            "is_defined" => Some(Call::IsDefined),
            "is_property" => Some(Call::IsProperty),
            "is_resource" => Some(Call::IsResource),
            _ => None,
        },
        b'k' => match name {
            "key" => Some(Call::Key),
            _ => None,
        },
        b'l' => match name {
            "list" => Some(Call::List),
            "length" => Some(Call::Length),
            _ => None,
        },
        b'm' => match name {
            "merge" => Some(Call::Merge),
            _ => None,
        },
        b'n' => match name {
            "nlist" => Some(Call::Nlist),
            _ => None,
        },
        b'p' => match name {
            "prepend" => Some(Call::Prepend),
            _ => None,
        },
        b's' => match name {
            "splice" => Some(Call::Splice),
            _ => None,
        },
        _ => None,
    }
}
