ghost use Rattle.std.specs.Prelude.{◌≡◌, IfOk, false, codes, map, option_map};
ghost use Rattle.clap.specs.Words.{app_of, rule_of, found_of, first_value};
ghost use Rattle.command_words.specs.TheCommand.{positional, option, bare, with_places, with_options, the_app, given_of, words_by};

use base::Text;
use clap::error::ErrorKind;
use clap::{Arg, ArgAction, ArgMatches, Command};
use std::alloc::{AllocError, Global};

fn positional<'a>(alloc: Global, id: &'a str) -> Arg<'a>
    ensures rule { rule_of result ≡ positional id.now }
    ensures local { result.global ≡ false }
{
    Arg::new(alloc, id).required(true).action(ArgAction::Set)
}

fn option<'a>(alloc: Global, id: &'a str) -> Arg<'a>
    ensures rule { rule_of result ≡ option id.now }
    ensures local { result.global ≡ false }
{
    Arg::new(alloc, id).long(id).action(ArgAction::Set)
}

fn bare<'a>(alloc: Global) -> Command<'a>
    ensures { app_of result ≡ bare }
{
    Command::new(alloc, "pan")
        .no_binary_name(true)
        .disable_help_flag(true)
        .disable_version_flag(true)
}

fn with_places<'a>(alloc: Global, command: Command<'a>) -> Result<Command<'a>, AllocError>
    ensures { IfOk result (λ c. app_of c ≡ with_places (app_of command.entry)) }
{
    command
        .arg(positional(alloc, "mode"))?
        .arg(positional(alloc, "source"))?
        .arg(positional(alloc, "out"))
}

fn with_options<'a>(alloc: Global, command: Command<'a>) -> Result<Command<'a>, AllocError>
    ensures { IfOk result (λ c. app_of c ≡ with_options (app_of command.entry)) }
{
    command
        .arg(option(alloc, "include"))?
        .arg(option(alloc, "max-iteration"))?
        .arg(option(alloc, "max-recursion"))?
        .arg(option(alloc, "most-removed"))?
        .arg(option(alloc, "state"))
}

/// The one command of the program.
fn the_command<'a>(alloc: Global) -> Result<Command<'a>, AllocError>
    ensures { IfOk result (λ c. app_of c ≡ the_app) }
{
    let command = with_places(alloc, bare(alloc))?;
    with_options(alloc, command)
}

/// The values of the words: what was given for each argument of the command.
#[derive(Drop)]
pub struct Words {
    pub mode: Option<Text>,
    pub source: Option<Text>,
    pub out: Option<Text>,
    pub include: Option<Text>,
    pub iteration: Option<Text>,
    pub recursion: Option<Text>,
    pub most_removed: Option<Text>,
    pub state: Option<Text>,
}

/// The value of an argument.
fn value(alloc: Global, matches: &ArgMatches<'_>, id: &str) -> Result<Option<Text>, AllocError>
    ensures { IfOk result (λ text. text ≡ first_value (found_of matches.now) id.now) }
{
    match matches.get_str(id) {
        Some(text) => Ok(Some(Text::new(alloc, text)?)),
        None => Ok(None),
    }
}

/// The values of two arguments.
fn two_values(
    alloc: Global,
    matches: &ArgMatches<'_>,
    first: &str,
    second: &str,
) -> Result<(Option<Text>, Option<Text>), AllocError>
    ensures { IfOk result (λ both. (both.0 ≡ first_value (found_of matches.now) first.now)
        × (both.1 ≡ first_value (found_of matches.now) second.now)) }
{
    let first = value(alloc, matches, first)?;
    Ok((first, value(alloc, matches, second)?))
}

fn values(alloc: Global, matches: &ArgMatches<'_>) -> Result<Words, AllocError>
    ensures { IfOk result (λ words. words ≡ words_by
        (λ id. first_value (found_of matches.now) id)) }
{
    let (mode, source) = two_values(alloc, matches, "mode", "source")?;
    let (out, include) = two_values(alloc, matches, "out", "include")?;
    let (iteration, recursion) = two_values(alloc, matches, "max-iteration", "max-recursion")?;
    let (most_removed, state) = two_values(alloc, matches, "most-removed", "state")?;
    Ok(Words {
        mode,
        source,
        out,
        include,
        iteration,
        recursion,
        most_removed,
        state,
    })
}

/// The values of the words, or None where they have a fault.
fn read_texts(alloc: Global, words: &[&str]) -> Result<Option<Words>, AllocError>
    ensures { IfOk result (λ given. given ≡ given_of (map (λ w. w.now) words.now)) }
{
    let command = the_command(alloc)?;
    match command.try_get_matches_from(words) {
        Ok(matches) => Ok(Some(values(alloc, &matches)?)),
        Err(error) => match error.kind() {
            ErrorKind::OutOfMemory => Err(AllocError),
            _ => Ok(None),
        },
    }
}

/// The values of the words, or None where they have a fault.
pub fn read(alloc: Global, words: &[Text]) -> Result<Option<Words>, AllocError>
    ensures { IfOk result (λ given. given ≡ given_of words.now) }
{
    let mut texts = Vec::with_capacity(alloc, words.len())?;
    for word in words {
        texts.push(word.as_str())?;
    }
    read_texts(alloc, &texts)
}
