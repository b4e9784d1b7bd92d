//! Builds and watchers of written objects over devices in memory, some calls of which fail: prints the status, the
//! faults, the runs, the text and the shelf.
//!
//! Each line says something of the next run. `file NAME TEXT` is a file of the source, TEXT being all behind NAME, and
//! a line feed; `many COUNT NAME TEXT` are the files `0NAME`, `1NAME` and so on; `then` ends a picture of the source, so that
//! what is said behind it is of the next one. `kept NAME TEXT` stands on the shelf
//! before the run. `line TEXT` is a line of a watcher. The keeper holds the rows that the run before left; `forget` takes
//! them away, and `row NAME HEX` adds one. `fail DEVICE CALL` has a call of the `source`, the `shelf`, the `keeper`, the
//! `lines` or the `sink` fail, the first being 0. The source gives its pictures, and then empty ones.
//! `run WORD ..` calls the compiler with these words, and forgets what was said. Behind `status` stand the faults that
//! the source, the shelf, the keeper and the sink counted, and the runs that were made. Behind the shelf stand the names
//! of the rows that are kept. Any other line is a remark. An object's text
//! is the word `object` and lines of three bytes, as `written_runner` says. The expected output is written by hand.
#![tactic(auto)]

ghost use Rattle.std.specs.Prelude.{◌≡◌, ◌<◌, IfOk, None, true};
ghost use Rattle.outside.specs.Pictures.{are_pictures};

use anyhow::{Result, anyhow};
use base::{Bytes, Seq, Steps, Text};
use keepers::{Keeper, MemKeeper};
use outside::{
    Held, MemFile, MemLines, MemShelf, MemSink, MemSource, Shelf, Sink, Source, are_distinct,
};
use pan_top::{Devices, HandedBack, pan};
use std::alloc::{AllocError, Global};
use std::marker::Brand;
use std::mem;
use std::sync::ledger::{Blank, Ledger};
use stored_rows::{StoredRow, are_rising};
use written_runner::Written;

/// What is said of a run.
#[derive(Drop)]
struct Case {
    /// The pictures that were ended.
    pictures: Vec<Seq<MemFile>>,
    files: Vec<MemFile>,
    held: Vec<Held>,
    lines: Vec<Bytes>,
    rows: Vec<StoredRow>,
    fails: Fails,
    ghost pictured: { are_pictures pictures.items ≡ true },
}

/// The calls of each device that are to fail.
#[derive(Drop)]
struct Fails {
    source: Vec<u64>,
    shelf: Vec<u64>,
    keeper: Vec<u64>,
    lines: Vec<u64>,
    sink: Vec<u64>,
}

fn new_case(alloc: Global) -> Case {
    Case {
        pictures: Vec::new(alloc),
        files: Vec::new(alloc),
        held: Vec::new(alloc),
        lines: Vec::new(alloc),
        rows: Vec::new(alloc),
        fails: no_fails(alloc),
    }
}

fn no_fails(alloc: Global) -> Fails {
    Fails {
        source: Vec::new(alloc),
        shelf: Vec::new(alloc),
        keeper: Vec::new(alloc),
        lines: Vec::new(alloc),
        sink: Vec::new(alloc),
    }
}

fn text_line(alloc: Global, text: &str) -> Result<Bytes, AllocError> {
    let mut bytes = Vec::from_slice(alloc, text.as_bytes())?;
    bytes.push(b'\n')?;
    Bytes::from_vec(bytes)
}

fn file(alloc: Global, case: &mut Case, name: &str, text: &str) -> Result<()> {
    case.files.push(MemFile {
        name: Text::new(alloc, name)?,
        content: Some(text_line(alloc, text)?),
    })?;
    Ok(())
}

fn many(alloc: Global, case: &mut Case, count: &str, rest: &str) -> Result<()> {
    let (name, text) = split(rest);
    for i in 0..count.parse::<u32>()? {
        let name = format!(in alloc; "{i}{name}")?;
        file(alloc, case, name.as_str(), text)?;
    }
    Ok(())
}

/// Adds these files as the next picture.
fn push_picture(alloc: Global, pictures: &mut Vec<Seq<MemFile>>, files: Vec<MemFile>) -> Result<()>
    requires { are_pictures pictures.old.items ≡ true }
    ensures { are_pictures pictures.new.items ≡ true }
{
    if !are_distinct(alloc, &files)? {
        return Err(anyhow!("two files of one name"));
    }
    pictures.push(Seq::from_vec(files))?;
    Ok(())
}

/// Ends a picture.
fn end_picture(alloc: Global, case: &mut Case) -> Result<()> {
    let files = mem::replace(&mut case.files, Vec::new(alloc));
    push_picture(alloc, &mut case.pictures, files)
}

fn kept(alloc: Global, case: &mut Case, name: &str, text: &str) -> Result<()> {
    case.held.push(Held {
        name: Text::new(alloc, name)?,
        bytes: text_line(alloc, text)?,
    })?;
    Ok(())
}

/// A row of the keeper, behind those that it has.
fn row(alloc: Global, case: &mut Case, name: &str, bytes: &str) -> Result<()> {
    case.rows.push(StoredRow {
        name: Text::new(alloc, name)?,
        bytes: Bytes::from_vec(hex::decode(alloc, bytes)?)?,
    })?;
    Ok(())
}

fn watched_line(alloc: Global, case: &mut Case, text: &str) -> Result<()> {
    case.lines.push(Bytes::from_slice(alloc, text.as_bytes())?)?;
    Ok(())
}

fn fail(case: &mut Case, device: &str, call: &str) -> Result<()> {
    let call = call.parse::<u64>()?;
    match device {
        "source" => case.fails.source.push(call)?,
        "shelf" => case.fails.shelf.push(call)?,
        "keeper" => case.fails.keeper.push(call)?,
        "lines" => case.fails.lines.push(call)?,
        "sink" => case.fails.sink.push(call)?,
        _ => return Err(anyhow!("no device")),
    }
    Ok(())
}

fn words_of(alloc: Global, text: &str) -> Result<Vec<Text>, AllocError> {
    let mut words = Vec::new(alloc);
    for word in text.split(' ') {
        words.push(Text::new(alloc, word)?)?;
    }
    Ok(words)
}

fn print_shelf(rt: &HostRuntime, held: &[Held]) -> Result<()> {
    for each in held {
        let text = str::from_utf8(each.bytes.as_slice())?;
        print!(rt; "-- {} {}", each.name.as_str(), text)?;
    }
    Ok(())
}

fn print_rows(rt: &HostRuntime, rows: &[StoredRow]) -> Result<()> {
    for row in rows {
        println!(rt; "== {}", row.name.as_str())?;
    }
    Ok(())
}

/// The devices of a case.
fn devices_of(alloc: Global, case: Case) -> Devices<MemSource, MemShelf, MemLines, MemSink>
    ensures source { result.source.source.root ≡ None }
    ensures shelf { result.shelf.shelf.root ≡ None }
{
    let Case {
        pictures,
        held,
        lines,
        fails,
        ..
    } = case;
    let Fails {
        source,
        shelf,
        lines: lines_fails,
        sink,
        ..
    } = fails;
    Devices {
        source: MemSource::new(alloc, pictures, source),
        shelf: MemShelf::new(alloc, held, shelf),
        lines: MemLines::new(lines, lines_fails),
        out: MemSink::new(alloc, sink),
    }
}

/// The keeper of a case.
fn keeper_of(alloc: Global, rows: Vec<StoredRow>, fails: Vec<u64>) -> Result<MemKeeper>
    ensures { IfOk result (λ keeper. keeper.keeper.opened ≡ None) }
{
    if !are_rising(&rows) {
        return Err(anyhow!("rows that do not rise"));
    }
    Ok(MemKeeper::new(alloc, rows, fails))
}

/// What a call handed back.
type Ended = HandedBack<Written, MemSource, MemShelf, MemKeeper, MemLines, MemSink>;

fn print_ended(rt: &HostRuntime, ended: &Ended) -> Result<()> {
    let devices = &ended.devices;
    print!(rt;
        "status {} faults {} {} {} {} runs {}\n{}",
        ended.status.exit_code(),
        devices.source.faults(),
        devices.shelf.faults(),
        ended.keeper.faults(),
        devices.out.faults(),
        ended.works.runner.runs(),
        str::from_utf8(devices.out.written())?
    )?;
    print_shelf(rt, devices.shelf.held())?;
    print_rows(rt, ended.keeper.rows())
}

/// Calls the compiler. What it promises is of no use behind this call, so no clause hands it on.
fn ended<L: Ledger>(
    alloc: Global,
    words: &[Text],
    devices: Devices<MemSource, MemShelf, MemLines, MemSink>,
    keeper: MemKeeper,
    steps: &mut Steps<L>,
) -> Ended
    requires source { devices.source.source.root ≡ None }
    requires shelf { devices.shelf.shelf.root ≡ None }
    requires keeper { keeper.keeper.opened ≡ None }
{
    pan(alloc, words, Written::new(alloc), devices, keeper, steps)
}

/// What a call came to is printed, and the rows that are kept then are given.
fn rows_after(rt: &HostRuntime, ended: &Ended) -> Result<Vec<StoredRow>> {
    print_ended(rt, ended)?;
    copies(rt.alloc(), ended.keeper.rows())
}

/// Calls the compiler over the devices of a case, and gives the rows that are kept then. Each exit of the function
/// that owns the devices has to let them go, so it has one.
fn played<L: Ledger>(
    rt: &HostRuntime,
    case: Case,
    keeper: MemKeeper,
    words: &[Text],
    steps: &mut Steps<L>,
) -> Result<Vec<StoredRow>>
    requires keeper { keeper.keeper.opened ≡ None }
{
    let devices = devices_of(rt.alloc(), case);
    let ended = ended(rt.alloc(), words, devices, keeper, steps);
    rows_after(rt, &ended)
}

/// Calls the compiler for what was said, and forgets that but for the rows that are kept then.
fn run<L: Ledger>(
    rt: &HostRuntime,
    case: &mut Case,
    words: &str,
    steps: &mut Steps<L>,
) -> Result<()> {
    let alloc = rt.alloc();
    end_picture(alloc, case)?;
    let words = words_of(alloc, words)?;
    let mut said = mem::replace(case, new_case(alloc));
    let rows = mem::replace(&mut said.rows, Vec::new(alloc));
    let fails = mem::replace(&mut said.fails.keeper, Vec::new(alloc));
    let keeper = keeper_of(alloc, rows, fails)?;
    case.rows = played(rt, said, keeper, &words, steps)?;
    Ok(())
}

/// The same rows, shared.
fn copies(alloc: Global, rows: &[StoredRow]) -> Result<Vec<StoredRow>> {
    let mut same = Vec::with_capacity(alloc, rows.len())?;
    for row in rows {
        same.push(row.share()?)?;
    }
    Ok(same)
}

/// A line's first word, and what stands behind the blank that follows it.
fn split(line: &str) -> (&str, &str) {
    line.split_once(' ').unwrap_or((line, ""))
}

fn say<L: Ledger>(
    rt: &HostRuntime,
    case: &mut Case,
    line: &str,
    steps: &mut Steps<L>,
) -> Result<()> {
    let alloc = rt.alloc();
    let (what, rest) = split(line);
    let (name, text) = split(rest);
    match what {
        "file" => file(alloc, case, name, text),
        "many" => many(alloc, case, name, text),
        "then" => end_picture(alloc, case),
        "kept" => kept(alloc, case, name, text),
        "line" => watched_line(alloc, case, rest),
        "row" => row(alloc, case, name, text),
        "forget" => {
            case.rows.clear();
            Ok(())
        }
        "fail" => fail(case, name, text),
        "run" => run(rt, case, rest, steps),
        _ => Ok(()),
    }
}

/// The lines, one after the other.
fn obey<L: Ledger>(rt: &HostRuntime, blank: Blank) -> Result<()>
    requires name { blank.name ≡ L.name }
    requires parts { blank.parts ≡ L.parts }
    requires some { 0 < blank.parts }
{
    let mut steps = Steps::<L>::new(blank);
    let mut case = new_case(rt.alloc());
    for line in rt.lines(rt.alloc()) {
        let line = line?;
        println!(rt; "> {line}")?;
        say(rt, &mut case, line.as_str(), &mut steps)?;
    }
    Ok(())
}

fn main(rt: HostRuntime) -> Result<()> {
    obey::<Brand>(&rt, Blank::new(1))
}
