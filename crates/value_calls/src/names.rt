ghost use Rattle.std.specs.Prelude.{◌≡◌};
ghost use Rattle.value_calls.specs.Calls.{find_of};

/// A built-in function of values, of one of three kinds.
#[derive(Clone, Copy, PartialEq, Eq)]
pub enum ValueCall {
    /// On texts and numbers.
    Text(builtins_text::Call),
    /// On lists and dicts, and on values of any kind.
    Tree(builtins_tree::Call),
    /// On patterns, base64, JSON and digests.
    Code(builtins_code::Call),
}

/// The function of a name. `None` exactly where the name is that of no built-in function of values.
pub fn find(name: &str) -> Option<ValueCall>
    ensures { result ≡ find_of name.now }
{
    if let Some(call) = builtins_text::find(name) {
        return Some(ValueCall::Text(call));
    }
    if let Some(call) = builtins_tree::find(name) {
        return Some(ValueCall::Tree(call));
    }
    match builtins_code::find(name) {
        Some(call) => Some(ValueCall::Code(call)),
        None => None,
    }
}
