ghost use Rattle.std.specs.Prelude.{◌≡◌, ◌++◌, is_some, map, IfOk, OnOk};
ghost use Rattle.command_words.specs.Commands.{command_of};
ghost use Rattle.end_notes.specs.Scan.{is_end, is_dashed, fits, stands_alone, takes_next, wrong_option, names_state, has_state, behind_option, places_in};

use base::Text;
use command_words::read_command;
use std::alloc::{AllocError, Global};

fn is_end(word: &str) -> bool
    ensures { result ≡ is_end word.now }
{
    word == "--"
}

fn is_dashed(word: &[u8]) -> bool
    ensures { result ≡ is_dashed word.now }
{
    match word {
        [first, _, ..] => *first == b'-',
        _ => false,
    }
}

/// The texts of words.
fn texts_of(alloc: Global, words: &[&str]) -> Result<Vec<Text>, AllocError>
    ensures { IfOk result (λ texts. texts.items ≡ map (λ w. w.now) words.now) }
{
    let mut texts = Vec::with_capacity(alloc, words.len())?;
    for word in words {
        texts.push(Text::new(alloc, word)?)?;
    }
    Ok(texts)
}

fn push_words(into: &mut Vec<Text>, words: &[Text]) -> Result<(), AllocError>
    ensures { OnOk result (into.new.items ≡ into.old.items ++ words.now) }
{
    for word in words {
        into.push(word.share()?)?;
    }
    Ok(())
}

/// Whether the words are a command.
fn is_command(alloc: Global, words: &[Text]) -> Result<bool, AllocError>
    ensures { IfOk result (λ it. it ≡ is_some (command_of words.now)) }
{
    Ok(read_command(alloc, words)?.is_some())
}

/// Whether `build s o` with these words behind it is a command.
fn fits(alloc: Global, words: &[Text]) -> Result<bool, AllocError>
    ensures { IfOk result (λ it. it ≡ fits words.now) }
{
    let mut all = texts_of(alloc, &["build", "s", "o"])?;
    push_words(&mut all, words)?;
    is_command(alloc, &all)
}

fn stands_alone(alloc: Global, words: &[Text]) -> Result<bool, AllocError>
    ensures { IfOk result (λ it. it ≡ stands_alone words.now) }
{
    fits(alloc, &words[..words.len().min(1)])
}

fn takes_next(alloc: Global, words: &[Text]) -> Result<bool, AllocError>
    ensures { IfOk result (λ it. it ≡ takes_next words.now) }
{
    fits(alloc, &words[..words.len().min(2)])
}

/// The first word that looks like an option and is none, by itself or with the next word.
pub(crate) fn wrong_option(alloc: Global, words: &[Text]) -> Result<Option<Text>, AllocError>
    ensures { IfOk result (λ wrong. wrong ≡ wrong_option words.now) }
{
    for i in 0..words.len() {
        let word = words[i].as_str();
        if is_end(word) {
            return Ok(None);
        }
        if is_dashed(word.as_bytes())
            && !stands_alone(alloc, &words[i..])?
            && !takes_next(alloc, &words[i..])?
        {
            return Ok(Some(words[i].share()?));
        }
    }
    Ok(None)
}

/// Whether a word is `--state`, by itself or with its FILE.
pub(crate) fn names_state(word: &str) -> bool
    ensures { result ≡ names_state word.now }
{
    word == "--state" || word.starts_with("--state=")
}

/// Whether `--state` is among the options.
pub(crate) fn has_state(words: &[Text]) -> bool
    ensures { result ≡ has_state words.now }
{
    for word in words {
        if is_end(word.as_str()) {
            return false;
        }
        if names_state(word.as_str()) {
            return true;
        }
    }
    false
}

/// What the next word is.
#[derive(Clone, Copy)]
enum Next {
    /// A word of its own.
    Free,
    /// The value of the option before it.
    Value,
}

fn behind_option(alloc: Global, words: &[Text]) -> Result<Next, AllocError>
    ensures { IfOk result (λ next. next ≡ behind_option words.now) }
{
    if stands_alone(alloc, words)? {
        return Ok(Next::Free);
    }
    Ok(Next::Value)
}

/// The words that are places.
pub(crate) fn places_in(alloc: Global, words: &[Text]) -> Result<Vec<Text>, AllocError>
    ensures { IfOk result (λ places. places.items ≡ places_in words.now) }
{
    let mut places = Vec::new(alloc);
    let mut next = Next::Free;
    for i in 0..words.len() {
        if let Next::Value = next {
            next = Next::Free;
            continue;
        }
        let word = words[i].as_str();
        if is_end(word) {
            push_words(&mut places, &words[i + 1..])?;
            return Ok(places);
        }
        if is_dashed(word.as_bytes()) {
            next = behind_option(alloc, &words[i..])?;
            continue;
        }
        places.push(words[i].share()?)?;
    }
    Ok(places)
}
