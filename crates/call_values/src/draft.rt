ghost use Rattle.std.specs.Prelude.{◌≡◌, ◌<◌, ◌++◌, [], OnOk, replicate, string_bytes};
ghost use Rattle.base.specs.Answers.{Gives};
ghost use Rattle.call_values.specs.Drafts.{Adds, drafted, finished};
ghost use Rattle.path_tree.specs.Refusals.{refusal};

use crate::texts::string_value;
use base::limits::MAX_TEXT_BYTES;
use path_tree::{Refused, Tree};
use std::alloc::{AllocError, Global};
use std::marker::Model;

/// A text that is put together piece by piece. Nothing more is kept once it would have over
/// `MAX_TEXT_BYTES` bytes, so that no memory is taken for a text that will be refused.
#[derive(Drop)]
pub struct Draft {
    text: String,
    over: bool,
}

impl Model for Draft {
    ghost use Rattle.std.specs.Prelude.{ℕ, List, Option, None, Some, string_bytes, if◌then◌else◌};

    ghost Value = { Option (List ℕ) };

    ghost view = { λ d. if d.over then None else Some (string_bytes d.text) };
}

impl Draft {
    /// The empty text.
    pub fn new(alloc: Global) -> Draft
        ensures { result ≡ drafted [] }
    {
        Draft {
            text: String::new(alloc),
            over: false,
        }
    }

    /// Adds a piece at the end.
    #[tactic(auto, using(crate::proofs::Drafting::kept_over, crate::proofs::Drafting::passes_over, crate::proofs::Drafting::grows))]
    pub fn push(&mut self, more: &str) -> Result<(), AllocError>
        ensures { OnOk result (Adds self.old self.new more.now) }
    {
        if self.over {
            return Ok(());
        }
        if more.len() > MAX_TEXT_BYTES || self.text.len() > MAX_TEXT_BYTES - more.len() {
            self.over = true;
            return Ok(());
        }
        self.text.push_str(more)?;
        Ok(())
    }

    /// Adds a character so many times at the end.
    #[tactic(auto, using(crate::proofs::Drafting::kept_over, crate::proofs::Drafting::passes_over_times, crate::proofs::Drafting::grows_times))]
    pub fn push_times(&mut self, character: char, count: u64) -> Result<(), AllocError>
        requires { character < 128 }
        ensures { OnOk result (Adds self.old self.new (replicate count character)) }
    {
        if self.over {
            return Ok(());
        }
        let count = count as usize;
        if count > MAX_TEXT_BYTES || self.text.len() > MAX_TEXT_BYTES - count {
            self.over = true;
            return Ok(());
        }
        push_times(&mut self.text, character, count)?;
        Ok(())
    }

    /// The text as a value. `TooLarge` exactly where it has over `MAX_TEXT_BYTES` bytes.
    pub fn finish(self) -> Result<Tree, Refused>
        ensures { Gives (λ t. t) refusal result (finished self) }
    {
        if self.over {
            return Err(Refused::TooLarge);
        }
        string_value(self.text)
    }
}

/// Adds a character so many times.
fn push_times(text: &mut String, character: char, count: usize) -> Result<(), AllocError>
    requires { character < 128 }
    ensures { OnOk result
        (string_bytes text.new ≡ string_bytes text.old ++ replicate count character) }
{
    for _ in 0..count {
        text.push(character)?;
    }
    Ok(())
}
