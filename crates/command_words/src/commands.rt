ghost use Rattle.std.specs.Prelude.{◌≡◌, ◌<◌, ◌≤◌, ◌+◌, ◌-◌, ◌*◌, ◌^◌, IfOk, MatchOption, Some, map, option_map};
ghost use Rattle.std.specs.Char.{digit_value};
ghost use Rattle.std.specs.List.{list_all};
ghost use Rattle.base.specs.Integers.{digits_value};
ghost use Rattle.command_words.specs.Commands.{number_within, number_given, limit_of, bound_of, is_part, directory_of, parts_of, are_parts, directories_among, directories_of, filled, within, limits_given, state_given, work_with, work_of, demonstration_of, pair_with, has_option, pair_of, is_word, command_by, command_of};

use crate::limits::{MAX_MACHINES, MAX_MOST_REMOVED, MAX_START};
use crate::words::{Words, read};
use base::ascii::digit_value;
use base::{Seq, Text};
use load_path::is_file_name;
use load_path::limits::{
    DEFAULT_ITERATIONS, DEFAULT_RECURSION, MAX_ITERATIONS, MAX_PARTS, MAX_RECURSION,
};
use numbers::number_of;
use std::alloc::{AllocError, Global};

/// What `build` and `watch` work on.
#[derive(Drop)]
pub struct Work {
    pub source: Text,
    pub out: Text,
    /// The directories in which templates are looked for.
    pub directories: Seq<Text>,
    /// Turns of one loop.
    pub iterations: u64,
    /// Calls inside one another.
    pub recursion: u64,
    /// Names that a publication may remove; any number where there is none.
    pub most_removed: Option<u64>,
    /// The file that keeps rows from run to run; none without `--state`.
    pub state: Option<Text>,
}

/// How far a build may go.
#[derive(Clone, Copy)]
struct Limits {
    iterations: u64,
    recursion: u64,
    most_removed: Option<u64>,
}

/// What `demo` works on.
#[derive(Clone, Copy, PartialEq, Eq)]
pub struct Demonstration {
    /// How many machines the site has.
    pub count: u32,
    /// The number that the site is made from.
    pub start: u64,
    /// Turns of one loop.
    pub iterations: u64,
    /// Calls inside one another.
    pub recursion: u64,
}

/// What `format` works on.
#[derive(Drop)]
pub struct Pair {
    pub source: Text,
    pub out: Text,
}

/// What the words ask for.
#[derive(Drop)]
pub enum Command {
    Build(Work),
    Watch(Work),
    Demo(Demonstration),
    Format(Pair),
}

/// The number of a text, where it is one from `low` to `high`.
fn number_within(low: u64, high: u64, text: &str) -> Option<u64>
    requires { high < 2 ^ 64 - 1 }
    ensures { result ≡ number_within low high text.now }
{
    let Some(number) = number_of(text.as_bytes()) else {
        return None;
    };
    if low <= number && number <= high {
        return Some(number);
    }
    None
}

/// The value of an option that is a number.
fn limit_of(high: u64, default: u64, given: &Option<Text>) -> Option<u64>
    requires { high < 2 ^ 64 - 1 }
    ensures { result ≡ limit_of high default given.now }
{
    match given {
        None => Some(default),
        Some(text) => number_within(1, high, text.as_str()),
    }
}

/// The value of an option that is a bound and may be left out, or None where it is given and no number of its form.
fn bound_of(high: u64, given: &Option<Text>) -> Option<Option<u64>>
    requires { high < 2 ^ 64 - 1 }
    ensures { result ≡ bound_of high given.now }
{
    let Some(text) = given else {
        return Some(None);
    };
    match number_within(0, high, text.as_str()) {
        Some(most) => Some(Some(most)),
        None => None,
    }
}

/// Whether this is a part of LIST: `.`, or a file name.
fn is_part(part: &str) -> bool
    ensures { result ≡ is_part part.now }
{
    part == "." || is_file_name(part.as_bytes())
}

fn directory_of(alloc: Global, part: &str) -> Result<Text, AllocError>
    ensures { IfOk result (λ text. text ≡ directory_of part.now) }
{
    if part == "." {
        return Text::new(alloc, "");
    }
    Text::new(alloc, part)
}

fn are_all_parts(parts: &[&str]) -> bool
    ensures { result ≡ list_all is_part (map (λ p. p.now) parts.now) }
{
    for part in parts {
        if !is_part(part) {
            return false;
        }
    }
    true
}

fn are_parts(parts: &[&str]) -> bool
    ensures { result ≡ are_parts (map (λ p. p.now) parts.now) }
{
    parts.len() <= MAX_PARTS && are_all_parts(parts)
}

/// The directories that parts name, or None where they are no LIST.
fn directories_among(alloc: Global, parts: &[&str]) -> Result<Option<Seq<Text>>, AllocError>
    ensures { IfOk result (λ made. made ≡ directories_among (map (λ p. p.now) parts.now)) }
{
    if !are_parts(parts) {
        return Ok(None);
    }
    let mut made = Vec::with_capacity(alloc, parts.len())?;
    for part in parts {
        made.push(directory_of(alloc, part)?)?;
    }
    Ok(Some(Seq::from_vec(made)))
}

fn parts_of(alloc: Global, text: &str) -> Result<Vec<&str>, AllocError>
    ensures { IfOk result (λ parts. map (λ p. p.now) parts.items ≡ parts_of text.now) }
{
    text.split(':').collect(alloc)
}

/// The directories of `--include LIST`, or None where LIST is none.
fn directories_of(alloc: Global, given: &Option<Text>) -> Result<Option<Seq<Text>>, AllocError>
    ensures { IfOk result (λ made. made ≡ directories_of given.now) }
{
    match given {
        None => directories_among(alloc, &["."]),
        Some(text) => {
            let parts = parts_of(alloc, text.as_str())?;
            directories_among(alloc, &parts)
        }
    }
}

fn filled(text: Option<Text>) -> Option<Text>
    ensures { result ≡ filled text }
{
    let Some(text) = text else {
        return None;
    };
    if text.as_str().is_empty() {
        return None;
    }
    Some(text)
}

/// How far a build may go, or None where a number is not of its form.
fn limits_given(words: &Words) -> Option<Limits>
    ensures { result ≡ limits_given words.now }
{
    match (
        limit_of(MAX_ITERATIONS, DEFAULT_ITERATIONS, &words.iteration),
        limit_of(MAX_RECURSION, DEFAULT_RECURSION, &words.recursion),
        bound_of(MAX_MOST_REMOVED, &words.most_removed),
    ) {
        (Some(iterations), Some(recursion), Some(most_removed)) => Some(Limits {
            iterations,
            recursion,
            most_removed,
        }),
        _ => None,
    }
}

/// The file that keeps rows, which may be left out, or None where it is given and empty.
fn state_given(given: Option<Text>) -> Option<Option<Text>>
    ensures { result ≡ state_given given }
{
    let Some(file) = given else {
        return Some(None);
    };
    if file.as_str().is_empty() {
        return None;
    }
    Some(Some(file))
}

/// What `build` works on, or None where a part of it is none.
fn work_with(
    source: Option<Text>,
    out: Option<Text>,
    directories: Option<Seq<Text>>,
    limits: Option<Limits>,
    state: Option<Option<Text>>,
) -> Option<Work>
    ensures { result ≡ work_with source out directories limits state }
{
    match (source, out, directories, limits, state) {
        (Some(source), Some(out), Some(directories), Some(limits), Some(state)) => Some(Work {
            source,
            out,
            directories,
            iterations: limits.iterations,
            recursion: limits.recursion,
            most_removed: limits.most_removed,
            state,
        }),
        _ => None,
    }
}

/// What `build` works on, by the values of its words, or None where one is not of its form. LIST is 1 to `MAX_PARTS`
/// parts joined by `:`, each `.`, which means the empty directory, or a file name; a number is decimal digits without a
/// leading zero, from 1 to its limit, `--most-removed` from 0; FILE is not empty.
fn read_work(alloc: Global, words: Words) -> Result<Option<Work>, AllocError>
    ensures { IfOk result (λ work. work ≡ work_of words) }
{
    let limits = limits_given(&words);
    let directories = directories_of(alloc, &words.include)?;
    Ok(work_with(
        filled(words.source),
        filled(words.out),
        directories,
        limits,
        state_given(words.state),
    ))
}

/// A number and one more decimal digit, where 64 bits hold it.
fn with_digit(number: u64, digit: u8) -> Option<u64>
    ensures { MatchOption result (2 ^ 64 ≤ number * 10 + digit_value digit)
        (λ more. more ≡ number * 10 + digit_value digit) }
{
    let Some(tens) = number.checked_mul(10) else {
        return None;
    };
    tens.checked_add(u64::from(digit_value(digit)))
}

/// Each number of 64 bits is a start number.
fn start(number: u64) -> Option<u64>
    ensures { result ≡ within 0 MAX_START (Some number) }
{
    Some(number)
}

/// The number that decimal digits spell, where 64 bits hold it.
fn exact_value(digits: &[u8]) -> Option<u64>
    ensures { result ≡ within 0 MAX_START (Some (digits_value 10 digits.now)) }
{
    let mut number = 0u64;
    for digit in digits {
        let Some(more) = with_digit(number, *digit) else {
            return None;
        };
        number = more;
    }
    start(number)
}

/// The start number of a demo.
fn start_of(given: &Option<Text>) -> Option<u64>
    ensures { result ≡ number_given 0 MAX_START given.now }
{
    let Some(text) = given else {
        return None;
    };
    let digits = text.as_str().as_bytes();
    if number_of(digits).is_none() {
        return None;
    }
    exact_value(digits)
}

/// How many machines a demo has.
fn count_of(given: &Option<Text>) -> Option<u32>
    ensures { result ≡ number_given 1 MAX_MACHINES given.now }
{
    let Some(text) = given else {
        return None;
    };
    match number_within(1, MAX_MACHINES, text.as_str()) {
        Some(count) => Some(count as u32),
        None => None,
    }
}

/// What `demo` works on, by the values of its words.
fn read_demonstration(words: &Words) -> Option<Demonstration>
    ensures { result ≡ demonstration_of words.now }
{
    if words.include.is_some() || words.most_removed.is_some() || words.state.is_some() {
        return None;
    }
    match (
        count_of(&words.source),
        start_of(&words.out),
        limit_of(MAX_ITERATIONS, DEFAULT_ITERATIONS, &words.iteration),
        limit_of(MAX_RECURSION, DEFAULT_RECURSION, &words.recursion),
    ) {
        (Some(count), Some(start), Some(iterations), Some(recursion)) => Some(Demonstration {
            count,
            start,
            iterations,
            recursion,
        }),
        _ => None,
    }
}

/// Whether an option is given.
fn has_option(words: &Words) -> bool
    ensures { result ≡ has_option words.now }
{
    words.include.is_some()
        || words.iteration.is_some()
        || words.recursion.is_some()
        || words.most_removed.is_some()
        || words.state.is_some()
}

fn pair_with(source: Option<Text>, out: Option<Text>) -> Option<Pair>
    ensures { result ≡ pair_with source out }
{
    let Some(source) = source else {
        return None;
    };
    let Some(out) = out else {
        return None;
    };
    Some(Pair { source, out })
}

/// What `format` works on, by the values of its words: two folders, and no option.
fn read_pair(words: Words) -> Option<Pair>
    ensures { result ≡ pair_of words }
{
    if has_option(&words) {
        return None;
    }
    pair_with(filled(words.source), filled(words.out))
}

fn is_word(word: &str, given: &Option<Text>) -> bool
    ensures { result ≡ is_word word.now given.now }
{
    match given {
        None => false,
        Some(given) => given.as_str() == word,
    }
}

/// `build`, by the values of its words.
fn read_build(alloc: Global, words: Words) -> Result<Option<Command>, AllocError>
    ensures { IfOk result (λ command. command ≡ option_map Command.Build (work_of words)) }
{
    match read_work(alloc, words)? {
        Some(work) => Ok(Some(Command::Build(work))),
        None => Ok(None),
    }
}

/// `watch`, by the values of its words.
fn read_watch(alloc: Global, words: Words) -> Result<Option<Command>, AllocError>
    ensures { IfOk result (λ command. command ≡ option_map Command.Watch (work_of words)) }
{
    match read_work(alloc, words)? {
        Some(work) => Ok(Some(Command::Watch(work))),
        None => Ok(None),
    }
}

/// `demo`, by the values of its words.
fn read_demo(words: &Words) -> Option<Command>
    ensures { result ≡ option_map Command.Demo (demonstration_of words.now) }
{
    match read_demonstration(words) {
        Some(demonstration) => Some(Command::Demo(demonstration)),
        None => None,
    }
}

/// `format`, by the values of its words.
fn read_format(words: Words) -> Option<Command>
    ensures { result ≡ option_map Command.Format (pair_of words) }
{
    match read_pair(words) {
        Some(pair) => Some(Command::Format(pair)),
        None => None,
    }
}

/// The command, by MODE.
fn command_by(alloc: Global, words: Words) -> Result<Option<Command>, AllocError>
    ensures { IfOk result (λ command. command ≡ command_by words) }
{
    if is_word("build", &words.mode) {
        return read_build(alloc, words);
    }
    if is_word("watch", &words.mode) {
        return read_watch(alloc, words);
    }
    if is_word("demo", &words.mode) {
        return Ok(read_demo(&words));
    }
    if is_word("format", &words.mode) {
        return Ok(read_format(words));
    }
    Ok(None)
}

/// The command that the words are: `build SOURCE OUT` or `watch SOURCE OUT` with the options `--include`,
/// `--max-iteration`, `--max-recursion`, `--most-removed` and `--state`, `demo COUNT START` with the second and the third,
/// or `format SOURCE OUT` with none; None where they are none. The words are read by `clap`.
/// SOURCE, OUT and the FILE of `--state` are not empty. COUNT is a number from 1 to `MAX_MACHINES`, START one from 0 to
/// `MAX_START`.
#[tactic(auto, unfolding(crate::specs::Commands::command_of))]
pub fn read_command(alloc: Global, words: &[Text]) -> Result<Option<Command>, AllocError>
    ensures { IfOk result (λ command. command ≡ command_of words.now) }
{
    match read(alloc, words)? {
        None => Ok(None),
        Some(words) => command_by(alloc, words),
    }
}
