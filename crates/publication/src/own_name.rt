ghost use Rattle.std.specs.Prelude.{◌≡◌, IfOk, true};
ghost use Rattle.publication.specs.OwnNames.{is_own, is_file_of};

use base::Text;
use std::alloc::{AllocError, Global};

/// Whether a name of a shelf is the program's own.
pub(crate) fn is_own(name: &str) -> bool
    ensures { result ≡ is_own name.now }
{
    name.as_bytes().ends_with(b".json") || name.as_bytes().ends_with(b".dep")
}

/// The name of an object's file without its suffix.
pub(crate) fn object_of(alloc: Global, name: &str) -> Result<Text, AllocError>
    requires { is_own name.now ≡ true }
    ensures { IfOk result (λ m. is_file_of m name.now ≡ true) }
{
    if let Some(object) = name.strip_suffix(".json") {
        return Text::new(alloc, object);
    }
    let Some(object) = name.strip_suffix(".dep") else {
        unreachable!();
    };
    Text::new(alloc, object)
}
