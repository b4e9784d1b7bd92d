ghost use Rattle.std.specs.Prelude.{◌≡◌, IfOk};
ghost use Rattle.end_notes.specs.Wrongs.{is_mode, wrong_options, wrong_pair, wrong_behind, wrong_places, wrong_word, wrong_of};

use crate::scan::{has_state, names_state, places_in, wrong_option};
use base::Text;
use std::alloc::{AllocError, Global};

/// A place of a command.
#[derive(Clone, Copy, PartialEq, Eq)]
pub enum Place {
    Mode,
    Source,
    Out,
}

/// What is wrong with words that are no command.
#[derive(Drop)]
pub enum Wrong {
    /// A word that looks like an option and is none, or one whose value is missing or not of its form.
    BadOption(Text),
    /// `--state` has no FILE, or an empty one.
    StateWithoutFile,
    /// There are too few places.
    Missing(Place),
    /// The first place too many.
    Extra(Text),
    /// MODE is no mode.
    BadMode(Text),
    /// SOURCE or OUT is the empty word.
    Empty(Place),
    /// An option was given to `format`, which takes none.
    TakesNoOption,
    /// `--state` was given to `demo`, whose rows no file keeps.
    TakesNoState,
    /// A word is not UTF-8, so the words could not be read.
    NotUtf8,
    /// Something else, as an option that is given twice, or a demo of no machines.
    Otherwise,
}

fn is_mode(word: &str) -> bool
    ensures { result ≡ is_mode word.now }
{
    word == "build" || word == "watch" || word == "demo" || word == "format"
}

/// What is wrong with the options, where the places are of their form.
fn wrong_options(words: &[Text], mode: &str) -> Wrong
    ensures { result ≡ wrong_options words.now mode.now }
{
    if mode == "format" {
        return Wrong::TakesNoOption;
    }
    if mode == "demo" && has_state(words) {
        return Wrong::TakesNoState;
    }
    Wrong::Otherwise
}

fn wrong_pair(words: &[Text], mode: &str, source: &str, out: &str) -> Wrong
    ensures { result ≡ wrong_pair words.now mode.now source.now out.now }
{
    if source.is_empty() {
        return Wrong::Empty(Place::Source);
    }
    if out.is_empty() {
        return Wrong::Empty(Place::Out);
    }
    wrong_options(words, mode)
}

fn wrong_behind(words: &[Text], mode: &str, places: &[Text]) -> Result<Wrong, AllocError>
    ensures { IfOk result (λ wrong. wrong ≡ wrong_behind words.now mode.now places.now) }
{
    match places {
        [] => Ok(Wrong::Missing(Place::Source)),
        [_] => Ok(Wrong::Missing(Place::Out)),
        [source, out] => Ok(wrong_pair(words, mode, source.as_str(), out.as_str())),
        [_, _, extra, ..] => Ok(Wrong::Extra(extra.share()?)),
    }
}

fn wrong_places(words: &[Text], places: &[Text]) -> Result<Wrong, AllocError>
    ensures { IfOk result (λ wrong. wrong ≡ wrong_places words.now places.now) }
{
    let [mode, places @ ..] = places else {
        return Ok(Wrong::Missing(Place::Mode));
    };
    if !is_mode(mode.as_str()) {
        return Ok(Wrong::BadMode(mode.share()?));
    }
    wrong_behind(words, mode.as_str(), places)
}

fn wrong_word(word: Text) -> Wrong
    ensures { result ≡ wrong_word word }
{
    if names_state(word.as_str()) {
        return Wrong::StateWithoutFile;
    }
    Wrong::BadOption(word)
}

/// What is wrong with words that are no command: the first word that looks like an option and is none, by itself or
/// with the next word, or `--state` without its FILE; else a place that is missing, no mode, too many or empty, an
/// option of `format`, or `--state` of another command than `build`.
pub fn wrong_of(alloc: Global, words: &[Text]) -> Result<Wrong, AllocError>
    ensures { IfOk result (λ wrong. wrong ≡ wrong_of words.now) }
{
    if let Some(word) = wrong_option(alloc, words)? {
        return Ok(wrong_word(word));
    }
    let places = places_in(alloc, words)?;
    wrong_places(words, &places)
}
