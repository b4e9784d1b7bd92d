//! One turn.

ghost use Rattle.std.specs.Prelude.{◌≡◌, IfErr, OnOk, OnErr, [], Some, true, option_copied, slice_get};
ghost use Rattle.engine_laws.specs.Engine.{is_among};
ghost use Rattle.engine_turns.specs.Places.{names};
ghost use Rattle.engine_turns.specs.States.{pictured};
ghost use Rattle.engine_turns.specs.Calm.{IsCalm};
ghost use Rattle.engine_turns.specs.Ready.{IsReady, StaysReady, core_state, none_before, is_open, is_unchecked};
ghost use Rattle.engine_turns.specs.Turning.{open_state, turned};
ghost use Rattle.engine_turns.specs.Spent.{IsTurnRefused, Spends, core_work};
ghost use Rattle.engine_turns.specs.declared.turned.TurnError.TheVariants.{Memory};
ghost use Rattle.engine_turns.specs.Opening.{IsTop, first_open_build, first_open_check, turned_by};

use crate::building::{build_top, push_build};
use crate::checking::check_top;
use crate::core_data::Core;
use crate::rows::{Row, row_near};
use crate::turned::{TurnError, Turned};
use base::Steps;
use foreign_values::Part;
use path_tree::Name;
use runner::Runner;
use std::alloc::Global;
use std::sync::ledger::Ledger;

/// The part on top of the chain, with the place of its object's row.
#[derive(Clone, Copy)]
pub enum Top {
    Nothing,
    Build(usize),
    Check(usize),
}

/// The part on top of the chain.
fn find_top<T: Drop>(core: &Core<T>) -> Top
    requires { IsReady core.now }
    ensures { IsTop core.now result }
{
    match core.chain.top() {
        None => Top::Nothing,
        Some(Part::Build(name)) => match row_near(&core.rows, core.first_build, name) {
            Some(at) => Top::Build(at),
            None => unreachable!(),
        },
        Some(Part::Check(name)) => match row_near(&core.rows, core.first_check, name) {
            Some(at) => Top::Check(at),
            None => unreachable!(),
        },
    }
}

/// The place of the first unsettled build part, of rows none of which is so before a place.
fn first_open_build<T>(rows: &[Row<T>], from: usize) -> usize
    requires { none_before is_open from rows.now ≡ true }
    ensures first { slice_get rows.now result ≡ first_open_build rows.now }
    ensures before { none_before is_open result rows.now ≡ true }
{
    let mut at = from;
    while at < rows.len() && !rows[at].open_build {
        at += 1;
    }
    at
}

/// The place of the first unsettled check part, of rows none of which is so before a place.
fn first_open_check<T>(rows: &[Row<T>], from: usize) -> usize
    requires { none_before is_unchecked from rows.now ≡ true }
    ensures first { slice_get rows.now result ≡ first_open_check rows.now }
    ensures before { none_before is_unchecked result rows.now ≡ true }
{
    let mut at = from;
    while at < rows.len() && !rows[at].open_check {
        at += 1;
    }
    at
}

/// A check part comes on top of an empty chain.
fn push_check<T: Drop>(core: &mut Core<T>, name: Name) -> Result<(), TurnError>
    requires ready { IsReady core.old }
    requires empty { core.old.chain ≡ [] }
    requires known { is_among name (names core.old.rows.items) ≡ true }
    ensures state { OnOk result (core_state core.new
        ≡ record (core_state core.old) { checking = Some name }) }
    ensures ready { OnOk result (StaysReady core.old core.new) }
    ensures rows { OnOk result (core.new.rows ≡ core.old.rows) }
    ensures refused { IfErr result (λ e. e ≡ Memory) }
    ensures before { OnErr result (core.new ≡ core.old) }
{
    core.chain.push(Part::Check(name))?;
    Ok(())
}

/// A turn with no part on the chain.
fn open_part<T: Drop>(core: &mut Core<T>) -> Result<(), TurnError>
    requires ready { IsReady core.old }
    requires empty { core.old.chain ≡ [] }
    ensures state { OnOk result (core_state core.new ≡ open_state core.old) }
    ensures ready { OnOk result (StaysReady core.old core.new) }
    ensures refused { IfErr result (λ e. e ≡ Memory) }
    ensures before { OnErr result (core.new ≡ core.old) }
{
    let build = first_open_build(&core.rows, core.first_build);
    if let Some(row) = core.rows.get(build) {
        let name = row.name.share()?;
        push_build(core, name)?;
        core.first_build = build;
        return Ok(());
    }
    let check = first_open_check(&core.rows, core.first_check);
    if let Some(row) = core.rows.get(check) {
        let name = row.name.share()?;
        push_check(core, name)?;
        core.first_build = build;
        core.first_check = check;
        return Ok(());
    }
    Ok(())
}

/// What a turn does to the part on top, or to the first unsettled one: of a calm engine the machine's turn.
pub fn step<R: Runner, L: Ledger>(
    alloc: Global,
    core: &mut Core<R::Rest>,
    runner: &mut R,
    steps: &mut Steps<L>,
) -> Result<(), TurnError>
    requires ready { IsReady core.old }
    requires picture { R.files_of runner.old ≡ pictured core.old.files.items }
    ensures state { IsCalm core.old → OnOk result (core_state core.new
        ≡ turned (R.meaning (R.dirs_of runner.old) core.old.limits).build
        (R.meaning (R.dirs_of runner.old) core.old.limits).check core.old) }
    ensures ready { OnOk result (StaysReady core.old core.new) }
    ensures refused { IsCalm core.old → IfErr result (λ e. IsTurnRefused e
        (turned (R.meaning (R.dirs_of runner.old) core.old.limits).build
        (R.meaning (R.dirs_of runner.old) core.old.limits).check core.old).counter) }
    ensures spent { IsCalm core.old → Spends result (core_work
        (R.meaning (R.dirs_of runner.old) core.old.limits) core.old) steps.old steps.new
        (R.runs_of runner.old) (R.runs_of runner.new) }
    ensures files { R.files_of runner.new ≡ R.files_of runner.old }
    ensures dirs { R.dirs_of runner.new ≡ R.dirs_of runner.old }
    ensures before { OnErr result (core.new ≡ core.old) }
{
    match find_top(core) {
        Top::Nothing => open_part(core),
        Top::Build(at) => build_top(alloc, core, at, runner, steps),
        Top::Check(at) => check_top(alloc, core, at, runner, steps),
    }
}

/// What a turn did, by the parts on the chain before it and after it.
pub fn turned_by(before: usize, after: usize) -> Turned
    ensures { result ≡ turned_by before after }
{
    if after < before {
        Turned::Settled
    } else if after == before {
        Turned::Idle
    } else if before == 0 {
        Turned::Opened
    } else {
        Turned::Demanded
    }
}
