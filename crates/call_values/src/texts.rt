ghost use Rattle.std.specs.Prelude.{◌≡◌, string_bytes};
ghost use Rattle.base.specs.Answers.{Gives};
ghost use Rattle.path_tree.specs.Refusals.{refusal};
ghost use Rattle.path_tree.specs.Values.{text_value};

use base::Text;
use path_tree::{Refused, Tree};
use std::alloc::Global;

/// A text as a value. `TooLarge` exactly where it has over `MAX_TEXT_BYTES` bytes.
pub fn text_value(alloc: Global, text: &str) -> Result<Tree, Refused>
    ensures { Gives (λ t. t) refusal result (text_value text.now) }
{
    Tree::text(alloc, text)
}

/// The same of a text that was made, which is not copied.
pub fn string_value(text: String) -> Result<Tree, Refused>
    ensures { Gives (λ t. t) refusal result (text_value (string_bytes text)) }
{
    let text = Text::from_string(text)?;
    Tree::shared_text(&text)
}
