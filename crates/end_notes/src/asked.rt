ghost use Rattle.std.specs.Prelude.{◌≡◌, IfOk};
ghost use Rattle.command_words.specs.Commands.{command_of};
ghost use Rattle.end_notes.specs.Asked.{source_of};

use base::Text;
use command_words::{Command, read_command};
use std::alloc::{AllocError, Global};

/// The SOURCE of a build or a watcher that the words are, which the shelf may not be or hold; None where they are another
/// command, or none.
pub fn asked_of(alloc: Global, words: &[Text]) -> Result<Option<Text>, AllocError>
    ensures { IfOk result (λ source. source ≡ source_of (command_of words.now)) }
{
    match read_command(alloc, words)? {
        Some(Command::Build(work)) => Ok(Some(work.source)),
        Some(Command::Watch(work)) => Ok(Some(work.source)),
        Some(Command::Demo(_)) => Ok(None),
        Some(Command::Format(_)) => Ok(None),
        None => Ok(None),
    }
}
