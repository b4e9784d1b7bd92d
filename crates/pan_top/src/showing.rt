ghost use Rattle.std.specs.Prelude.{◌≡◌, ◌≤◌, ℕ, List, Option};
ghost use Rattle.engine_session.specs.Standing.{Counts, counts};
ghost use Rattle.outside.specs.Causes.{Counted};
ghost use Rattle.pan_top.specs.Demos.{Shows, limits_given, shown_by};
ghost use Rattle.site_build.specs.Scenes.{Scene};
ghost use Rattle.call_status.specs.declared.status.Status.{Status};

use crate::closing::say;
use base::Steps;
use call_status::Status;
use command_words::Demonstration;
use demo::{End, Plan, demo};
use engine_session::Works;
use outside::Sink;
use pan_ast::Limits;
use runner::Runner;
use session::Ended;
use std::alloc::Global;
use std::sync::ledger::Ledger;

/// The limits of a demo's runs.
fn limits_given(demonstration: &Demonstration) -> Limits
    ensures { result ≡ limits_given demonstration.now }
{
    Limits {
        max_iteration: demonstration.iterations,
        max_recursion: demonstration.recursion,
    }
}

/// A demo, as `demo::demo` says, with the line of its end behind it.
pub fn show<R: Runner, O: Sink, L: Ledger>(
    alloc: Global,
    demonstration: &Demonstration,
    works: &mut Works<R>,
    out: &mut O,
    steps: &mut Steps<L>,
) -> Status
    ensures shows { Shows (shown_by R.meaning demonstration.now) result (O.held out.old)
        (O.held out.new) (counts (R.runs_of works.old.runner) steps.old)
        (counts (R.runs_of works.new.runner) steps.new) }
    ensures count { Counted (result ≡ Status.OutFault) (O.fault_count out.old)
        (O.fault_count out.new) }
{
    let limits = limits_given(demonstration);
    let plan = Plan {
        count: demonstration.count,
        start: demonstration.start,
        limits,
    };
    match demo(alloc, plan, works, out, steps) {
        Ok(Ended::NumbersSpent) => say(out, b"numbers spent\n", Status::NumbersSpent),
        Ok(Ended::TooMuch) => say(out, b"too much\n", Status::TooMuch),
        Ok(Ended::Clean) => Status::Clean,
        Ok(Ended::SomeFaults) => Status::SomeFaults,
        Ok(Ended::TooManyRemovals(_)) => unreachable!(),
        Err(End::Out) => Status::OutFault,
        Err(End::Memory) => Status::Memory,
    }
}
