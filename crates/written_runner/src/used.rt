ghost use Rattle.std.specs.Prelude.{◌≡◌, ◌-◌, not, nat_eq, OnOk};
ghost use Rattle.written_runner.specs.Traces.{with_item};

use pan_ast::Fault;
use path_tree::{Name, Tree};
use questions::Key;
use read_sets::{Item, Trace};
use std::alloc::AllocError;

/// What a run has so far: the value of its last line, the steps that it has left, and what it asked.
#[derive(Drop)]
pub(crate) struct Used {
    pub value: Tree,
    pub left: u64,
    pub trace: Trace,
}

/// How a line came out: it is done, it is a fault, or it waits for an object.
#[derive(Drop)]
pub(crate) enum Came {
    Done,
    Failed(Fault),
    Waits(Name),
}

/// One step, where one is left.
pub(crate) fn step(left: &mut u64) -> bool
    ensures stepped { result ≡ not (nat_eq left.old 0) }
    ensures left { left.new ≡ left.old - 1 }
{
    if *left == 0 {
        return false;
    }
    *left -= 1;
    true
}

/// A key with its number, kept where it is new.
pub(crate) fn note(trace: &mut Trace, key: Key, number: u64) -> Result<(), AllocError>
    ensures { OnOk result (trace.new ≡ with_item key number trace.old) }
{
    if trace.has(&key) {
        return Ok(());
    }
    trace.push(Item { key, number })
}
