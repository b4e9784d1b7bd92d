//! The engine.

ghost use Rattle.std.specs.Prelude.{◌≡◌, ◌↔◌, [], ◌≤◌, ◌+◌, ◌-◌, false, true, IfOk, IfErr, OnOk, OnErr, length};
ghost use Rattle.asking.specs.declared.limits.TheConstants.{END_OF_NUMBERS};
ghost use Rattle.base.specs.declared.limits.TheConstants.{MAX_OBJECTS};
ghost use Rattle.rebuild.specs.Engines.{is_ready};

use crate::answers::{
    Answer, Reads, Why, answer_in, forget_rows, names_in, reads_in, runs_in, touched_in,
    turns_left, why_in,
};
use crate::found_objects::FoundObjects;
use crate::renewing::take_picture;
use crate::sharing::shared_texts;
use crate::taking::TakeError;
use base::{Seq, Steps, Text};
use engine_turns::{Core, TurnError, Turned, step, turned_by};
use foreign_values::Chain;
use load_path::Picture;
use pan_ast::Limits;
use path_tree::Name;
use read_index::Index;
use runner::Runner;
use std::alloc::{AllocError, Global};
use std::sync::ledger::Ledger;

/// The incremental engine, over a runner that it does not keep.
///
/// What its calls do is told of a sound engine: one that takes and turns lead to, from a new engine or from rows that an
/// engine has kept. Of another one it is told that they are safe, and what they leave as it was.
#[derive(Drop)]
pub struct Engine<R: Runner> {
    core: Core<R::Rest>,
    /// Who asks for what, of the objects that are not touched.
    index: Index,
    /// The objects of the last picture.
    found: Option<FoundObjects>,
    ghost ready: { is_ready core ≡ true },
    ghost low: { core.counter ≤ END_OF_NUMBERS },
    ghost few: { length core.rows.items ≤ MAX_OBJECTS },
}

impl<R: Runner> Engine<R> {
    ghost use Rattle.object_names.specs.Objects.{AreObjects};
    ghost use Rattle.questions.specs.declared.key.Key.{Key};
    ghost use Rattle.read_index.specs.Readers.{asks};
    ghost use Rattle.rebuild.specs.Answers.{seen_answer, answer_at, answer_of, seen_why, why_at, seen_reads, reads_at, runs_at, touched_names};
    ghost use Rattle.rebuild.specs.Sound.{IsSound};
    ghost use Rattle.rebuild.specs.Engines.{situation_of, value_of, new_situation, after_take, after_turn, after_forget, turn_work_of, IsTakeAllowed, IsForgetAllowed, IsTrue, AreKept, AreSpared, objects_of, parts_of, turns_left_of};
    ghost use Rattle.engine_turns.specs.Opening.{turned_by};
    ghost use Rattle.engine_turns.specs.Spent.{Spends, IsTurnRefused};
    ghost use Rattle.engine_turns.specs.declared.turned.Turned.TheVariants.{Idle};
    ghost use Rattle.rebuild.specs.Refused.{IsRefused};
    ghost use Rattle.engine_turns.specs.States.{pictured};

    /// An engine with an empty picture and no records.
    pub fn new(alloc: Global, limits: Limits, dirs: Seq<Text>) -> Engine<R>
        ensures fresh { situation_of result.core ≡ new_situation }
        ensures limits { result.core.limits ≡ limits }
        ensures dirs { result.core.dirs ≡ dirs }
        ensures files { result.core.files.items ≡ [] }
        ensures sound { IsSound R.meaning result.core (asks result.index) }
    {
        Engine {
            core: Core {
                limits,
                dirs,
                counter: 3,
                files: Vec::new(alloc),
                rows: Vec::new(alloc),
                chain: Chain::new(alloc),
                first_build: 0,
                first_check: 0,
            },
            index: Index::new(alloc),
            found: None,
        }
    }

    /// An engine with this data, of which nobody is known to read anything.
    pub fn with_core(alloc: Global, core: Core<R::Rest>) -> Engine<R>
        requires ready { is_ready core ≡ true }
        requires low { core.counter ≤ END_OF_NUMBERS }
        requires few { length core.rows.items ≤ MAX_OBJECTS }
        ensures core { result.core ≡ core }
        ensures asks { (r k : Key) → asks result.index r k ≡ false }
    {
        Engine {
            core,
            index: Index::new(alloc),
            found: None,
        }
    }

    /// Its data.
    pub fn core(&self) -> &Core<R::Rest>
        ensures { result.now ≡ self.now.core }
    {
        &self.core
    }

    /// Takes a picture: its objects are those of the engine from now on, and all of them are unsettled. The runner gets
    /// the picture and the engine's directories.
    ///
    /// `steps` rises by one for each file. `TooManyObjects` where the picture has over [MAX_OBJECTS], else `NumbersSpent`
    /// where the numbers that its files need pass [END_OF_NUMBERS]. A refused take leaves engine and runner as before.
    pub fn take<L: Ledger>(
        &mut self,
        alloc: Global,
        picture: Picture,
        runner: &mut R,
        steps: &mut Steps<L>,
    ) -> Result<(), TakeError>
        ensures objects { OnOk result (AreObjects picture self.old.core.dirs
            (objects_of self.new.core)) }
        ensures few { OnOk result (length (objects_of self.new.core) ≤ MAX_OBJECTS) }
        ensures state { IsSound R.meaning self.old.core (asks self.old.index)
            → OnOk result (situation_of self.new.core
            ≡ after_take R.meaning (value_of self.old.core) picture (objects_of self.new.core)) }
        ensures allowed { IsSound R.meaning self.old.core (asks self.old.index)
            → OnOk result (∥ IsTakeAllowed R.meaning (value_of self.old.core) picture
            (objects_of self.new.core) ∥₁) }
        ensures files { OnOk result (pictured self.new.core.files.items ≡ picture) }
        ensures dirs { self.new.core.dirs ≡ self.old.core.dirs }
        ensures limits { self.new.core.limits ≡ self.old.core.limits }
        ensures steps { OnOk result (steps.new ≡ steps.old + length picture) }
        ensures given { OnOk result (R.files_of runner.new ≡ picture) }
        ensures given_dirs { OnOk result (R.dirs_of runner.new ≡ self.old.core.dirs) }
        ensures runs { R.runs_of runner.new ≡ R.runs_of runner.old }
        ensures refused { IfErr result (IsRefused self.old.core.files.items self.old.core.counter
            picture self.old.core.dirs) }
        ensures before { OnErr result (self.new.core ≡ self.old.core) }
        ensures runner_before { OnErr result (runner.new ≡ runner.old) }
        ensures refused_steps { OnErr result (steps.new ≤ steps.old + length picture) }
        ensures sound { IsSound R.meaning self.old.core (asks self.old.index)
            → IsSound R.meaning self.new.core (asks self.new.index) }
        ensures scratch { IsSound R.meaning self.old.core (asks self.old.index)
            → ∥ IsTrue R.meaning (value_of self.new.core) ∥₁ }
        ensures numbers { IsSound R.meaning self.old.core (asks self.old.index)
            → ∥ AreKept R.meaning (value_of self.old.core) ∥₁ }
        ensures spared { IsSound R.meaning self.old.core (asks self.old.index)
            → ∥ AreSpared R.meaning (value_of self.new.core) ∥₁ }
    {
        let dirs = shared_texts(alloc, self.core.dirs.as_slice())?;
        take_picture(
            alloc,
            &mut self.core,
            &mut self.index,
            &mut self.found,
            &picture,
            steps,
        )?;
        runner.set_picture(picture, dirs);
        Ok(())
    }

    /// One turn.
    ///
    /// The runner's count rises by the runs of the turn, at most two, and `steps` by its work; where the turn is refused,
    /// by no more. `Idle` exactly where no part is unsettled. `NumbersSpent` exactly where a number is drawn and the
    /// counter stands at [END_OF_NUMBERS]. A refused turn leaves the engine as before.
    pub fn turn<L: Ledger>(
        &mut self,
        alloc: Global,
        runner: &mut R,
        steps: &mut Steps<L>,
    ) -> Result<Turned, TurnError>
        requires picture { R.files_of runner.old ≡ pictured self.old.core.files.items }
        requires dirs { R.dirs_of runner.old ≡ self.old.core.dirs }
        ensures state { IsSound R.meaning self.old.core (asks self.old.index)
            → OnOk result (situation_of self.new.core
            ≡ after_turn R.meaning (value_of self.old.core)) }
        ensures turned { IfOk result (λ did. did ≡ turned_by (parts_of self.old.core)
            (parts_of self.new.core)) }
        ensures idle { IsSound R.meaning self.old.core (asks self.old.index)
            → IfOk result (λ did. did ≡ Idle ↔ turns_left_of self.old.core ≡ 0) }
        ensures fewer { IsSound R.meaning self.old.core (asks self.old.index)
            → OnOk result (turns_left_of self.new.core ≡ turns_left_of self.old.core - 1) }
        ensures spent { IsSound R.meaning self.old.core (asks self.old.index)
            → Spends result (turn_work_of R.meaning (value_of self.old.core)) steps.old
            steps.new (R.runs_of runner.old) (R.runs_of runner.new) }
        ensures few_runs { (turn_work_of R.meaning (value_of self.old.core)).0 ≤ 2 }
        ensures refused { IsSound R.meaning self.old.core (asks self.old.index)
            → IfErr result (λ e. IsTurnRefused e
            (after_turn R.meaning (value_of self.old.core)).state.counter) }
        ensures within { OnOk result ((situation_of self.new.core).state.counter
            ≤ END_OF_NUMBERS) }
        ensures files { OnOk result (self.new.core.files.items ≡ self.old.core.files.items) }
        ensures dirs { self.new.core.dirs ≡ self.old.core.dirs }
        ensures limits { self.new.core.limits ≡ self.old.core.limits }
        ensures before { OnErr result (self.new.core ≡ self.old.core) }
        ensures runner_files { R.files_of runner.new ≡ R.files_of runner.old }
        ensures runner_dirs { R.dirs_of runner.new ≡ R.dirs_of runner.old }
        ensures sound { IsSound R.meaning self.old.core (asks self.old.index)
            → IsSound R.meaning self.new.core (asks self.new.index) }
        ensures scratch { IsSound R.meaning self.old.core (asks self.old.index)
            → ∥ IsTrue R.meaning (value_of self.new.core) ∥₁ }
        ensures numbers { IsSound R.meaning self.old.core (asks self.old.index)
            → ∥ AreKept R.meaning (value_of self.old.core) ∥₁ }
        ensures spared { IsSound R.meaning self.old.core (asks self.old.index)
            → ∥ AreSpared R.meaning (value_of self.old.core) ∥₁ }
    {
        let before = self.core.chain.len();
        step(alloc, &mut self.core, runner, steps)?;
        Ok(turned_by(before, self.core.chain.len()))
    }

    /// How many turns are left until all is settled: twice the unsettled parts, less those on the chain.
    pub fn turns_left(&self) -> u64
        ensures { result ≡ turns_left_of self.now.core }
    {
        turns_left(&self.core)
    }

    /// Forgets which objects were run, of an engine in which all is settled.
    pub fn forget_runs(&mut self)
        requires { turns_left_of self.old.core ≡ 0 }
        ensures state { situation_of self.new.core
            ≡ after_forget R.meaning (value_of self.old.core) }
        ensures allowed { IsSound R.meaning self.old.core (asks self.old.index)
            → ∥ IsForgetAllowed R.meaning (value_of self.old.core) ∥₁ }
        ensures files { self.new.core.files.items ≡ self.old.core.files.items }
        ensures dirs { self.new.core.dirs ≡ self.old.core.dirs }
        ensures limits { self.new.core.limits ≡ self.old.core.limits }
        ensures sound { IsSound R.meaning self.old.core (asks self.old.index)
            → IsSound R.meaning self.new.core (asks self.new.index) }
    {
        forget_rows(&mut self.core.rows);
    }

    /// The answer for a name: that it is no object of the last picture (or there was no take), that it has an unsettled
    /// part, or its last result, a profile's tree or a fault, which of a sound engine is what compiling the whole picture
    /// from scratch gives.
    pub fn answer(&self, name: &str) -> Answer<'_>
        ensures exact { seen_answer result ≡ answer_at (situation_of self.now.core) name.now }
        ensures scratch { IsSound R.meaning self.now.core (asks self.now.index)
            → seen_answer result ≡ answer_of R.meaning (value_of self.now.core) name.now }
    {
        answer_in(&self.core.rows, name)
    }

    /// Why a name was run last: it was not run since it became an object, it had no whole record, or the first item of
    /// its record that had changed.
    pub fn why(&self, name: &str) -> Why<'_>
        ensures { seen_why result ≡ why_at (situation_of self.now.core) name.now }
    {
        why_in(&self.core.rows, name)
    }

    /// What an object asked for. None where its answer is `Pending` or `NoObject`.
    pub fn reads(&self, name: &str) -> Option<Reads<'_>>
        ensures exact { seen_reads result ≡ reads_at (situation_of self.now.core) name.now }
        ensures scratch { IsSound R.meaning self.now.core (asks self.now.index)
            → ∥ IsTrue R.meaning (value_of self.now.core) ∥₁ }
    {
        reads_in(&self.core.rows, name)
    }

    /// The objects, in byte order.
    pub fn objects(&self, alloc: Global) -> Result<Vec<Name>, AllocError>
        ensures { IfOk result (λ made. made.items ≡ objects_of self.now.core) }
    {
        names_in(alloc, &self.core.rows)
    }

    /// The objects that were run, in byte order.
    pub fn runs(&self, alloc: Global) -> Result<Vec<Name>, AllocError>
        ensures { IfOk result (λ made. made.items ≡ runs_at (situation_of self.now.core)) }
    {
        runs_in(alloc, &self.core.rows)
    }

    /// The objects that the last take may have reached, in byte order. The runs of all others stand.
    pub fn touched(&self, alloc: Global) -> Result<Vec<Name>, AllocError>
        ensures { IfOk result (λ made. made.items ≡ touched_names self.now.core.rows.items) }
    {
        touched_in(alloc, &self.core.rows)
    }
}
