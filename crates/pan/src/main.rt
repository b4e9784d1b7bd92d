//! The compiler as a program. It makes a runner of objects and the host's devices, calls `pan_top::pan`, has notes for a
//! reader written to standard error, with what the engine knows of each fault (`causes`), and ends with the call's status.
#![tactic(auto)]

ghost use Rattle.std.specs.Prelude.{◌≡◌, ◌<◌};

mod causes;

use crate::causes::EngineCauses;
use base::{Steps, Text};
use call_status::Status;
use dml_call::DmlEvaluator;
use end_notes::asked_of;
use host_keeper::HostKeeper;
use host_notes::{Aside, Told, write_notes};
use object_run::Library;
use outside::{HostLines, HostShelf, HostSink, HostSource, KeepingSink};
use pan_top::{Devices, HandedBack, pan};
use std::alloc::AllocError;
use std::marker::Brand;
use std::process::ExitCode;
use std::sync::ledger::{Blank, Ledger};
use std::{env, io};

/// The program's words, without its name.
fn words(rt: &HostRuntime) -> io::Result<Vec<Text>> {
    let mut words = Vec::new(rt.alloc());
    for word in env::args(rt)?.skip(1) {
        words.push(Text::new(rt.alloc(), word.as_str())?)?;
    }
    Ok(words)
}

/// The words, or None where one of them is not UTF-8.
fn read_words(rt: &HostRuntime) -> Result<Option<Vec<Text>>, AllocError> {
    match words(rt) {
        Ok(words) => Ok(Some(words)),
        Err(error) if error.kind() == io::ErrorKind::OutOfMemory => Err(AllocError),
        Err(_) => Ok(None),
    }
}

fn run<L: Ledger>(rt: &HostRuntime, blank: Blank) -> Result<Status, AllocError>
    requires name { blank.name ≡ L.name }
    requires parts { blank.parts ≡ L.parts }
    requires some { 0 < blank.parts }
{
    let read = read_words(rt)?;
    let none = Vec::new(rt.alloc());
    // Words of which one is not UTF-8 are no command.
    let words = read.as_ref().unwrap_or(&none);
    // (what can fail comes before what is large: each exit lets go of all that is there)
    let asked = asked_of(rt.alloc(), words)?;
    let for_source = rt.clone()?;
    let for_shelf = rt.clone()?;
    let for_keeper = rt.clone()?;
    let runner = Library::<DmlEvaluator>::new(rt.alloc());
    let devices = Devices {
        source: HostSource::new(for_source),
        shelf: HostShelf::new(for_shelf, asked),
        lines: HostLines::new(rt.reader()),
        out: KeepingSink::new(rt.alloc(), HostSink::new(rt.stdout(), Aside::new(rt))),
    };
    let mut steps = Steps::<L>::new(blank);
    let keeper = HostKeeper::new(for_keeper);
    let HandedBack {
        status,
        mut works,
        devices,
        keeper,
    } = pan(rt.alloc(), words, runner, devices, keeper, &mut steps);
    let told = Told {
        words: read.as_ref(),
        source: devices.source.trouble(),
        shelf: devices.shelf.trouble(),
        faults: devices.out.fault_lines(),
    };
    let mut causes = EngineCauses {
        alloc: rt.alloc(),
        works: &mut works,
        steps: &mut steps,
    };
    write_notes(rt, status, &told, keeper.trouble(), &mut causes);
    // What is not copied back stays in the log beside the file, which the next opening reads.
    let _ = keeper.close();
    Ok(status)
}

fn main(rt: HostRuntime) -> ExitCode {
    match run::<Brand>(&rt, Blank::new(1)) {
        Ok(status) => ExitCode::from(status.exit_code()),
        Err(AllocError) => ExitCode::from(Status::Memory.exit_code()),
    }
}
