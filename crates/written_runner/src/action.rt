ghost use Rattle.std.specs.Prelude.{◌≡◌, IfOk};
ghost use Rattle.written_runner.specs.Written.{build_action, check_action, letter_text, file_text};

use base::Text;
use std::alloc::{AllocError, Global};

/// What a line does. Each letter is a name: of the object of one letter, or of its file.
#[derive(Clone, Copy, PartialEq, Eq)]
pub enum Action {
    /// A remark.
    Nothing,
    /// Gives the letter as a text.
    Gives(u8),
    /// Fails, with the letter as its detail.
    Fails(u8),
    /// Gives whether the file is there.
    LooksFor(u8),
    /// Gives the tree of the object.
    Reads(u8),
    /// Gives whether the object is there.
    TestsFor(u8),
}

/// A line of the build: `=` gives, `!` fails, `f` looks for a file, `r` reads and `t` tests for an object.
pub fn build_action(operation: u8, letter: u8) -> Action
    ensures { result ≡ build_action operation letter }
{
    match operation {
        b'=' => Action::Gives(letter),
        b'!' => Action::Fails(letter),
        b'f' => Action::LooksFor(letter),
        b'r' => Action::Reads(letter),
        b't' => Action::TestsFor(letter),
        _ => Action::Nothing,
    }
}

/// A line of the check: `X` fails, `F` looks for a file, `R` reads and `T` tests for an object.
pub fn check_action(operation: u8, letter: u8) -> Action
    ensures { result ≡ check_action operation letter }
{
    match operation {
        b'X' => Action::Fails(letter),
        b'F' => Action::LooksFor(letter),
        b'R' => Action::Reads(letter),
        b'T' => Action::TestsFor(letter),
        _ => Action::Nothing,
    }
}

/// A letter as a text; `_` for a byte that is no character.
pub(crate) fn letter_text(alloc: Global, letter: u8) -> Result<Text, AllocError>
    ensures { IfOk result (λ text. text ≡ letter_text letter) }
{
    if letter >= 128 {
        return Text::new(alloc, "_");
    }
    match str::from_utf8(&[letter]) {
        Ok(text) => Text::new(alloc, text),
        Err(_) => unreachable!(),
    }
}

/// The file of the object with this name.
pub(crate) fn file_text(alloc: Global, name: &str) -> Result<Text, AllocError>
    ensures { IfOk result (λ text. text ≡ file_text name.now) }
{
    Text::joined(alloc, name, ".pan")
}
