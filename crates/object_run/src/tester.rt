ghost use Rattle.std.specs.Prelude.{◌≡◌, ◌+◌, IfOk, None};
ghost use Rattle.questions.specs.declared.key.Key.TheVariants.{Under};
ghost use Rattle.object_run.specs.Testing.{IsStopOf, case_means, case_of, case_site};
ghost use Rattle.object_meaning.proofs.BothLawful.{tests_leave};
ghost use Rattle.dml_meaning.specs.declared.limits.TheConstants.{MAX_INCLUDES};
ghost use Rattle.dml_world.specs.Answers.{looked_of};
ghost use Rattle.validate.specs.Means.{value_there};
ghost use Rattle.object_run.specs.TestingSets.{IsCase-prop};

use crate::rest::Rest;
use base::{Steps, Text};
use dml_meaning::limits::MAX_INCLUDES;
use dml_runner::DmlRunner;
use dml_world::paths::{Looked, look_at};
use dml_world::{Around, Frame, Question, SelfUse, World};
use pan_ast::{Item, Place, Work};
use path_tree::{Name, Path, Tree};
use plain_statements::Site;
use questions::Key;
use runner::Built;
use std::alloc::{AllocError, Global};
use std::marker::{Brand, PhantomData};
use std::sync::ledger::Ledger;
use validate::{Evaluator, Stop};

/// Of which object a check is, and over what was built.
pub(crate) trait Tested {
    ghost use Rattle.object_run.specs.Testing.{Case};

    ghost case: { Case };
}

impl Tested for Brand {
    ghost use Rattle.object_run.specs.Testing.{no_case};

    ghost case = { no_case };
}

/// What evaluates the tests of a check, in a world.
#[derive(Drop)]
pub(crate) struct Tester<'a, D: DmlRunner, W: World, T: Tested> {
    pub site: &'a Site<'a>,
    pub built: &'a Built<Rest>,
    pub world: W,
    pub dml: PhantomData<D>,
    pub of: PhantomData<T>,
    ghost is: { case_of site.now built.now ≡ T.case } by { IsCase-prop (case_of site.now built.now) T.case },
}

/// The key of a question.
fn key_of(alloc: Global, question: Box<Question>) -> Result<Box<Key>, AllocError>
    ensures { IfOk result (λ k. k.value ≡ Under question.value.object question.value.terms) }
{
    let Question { object, terms } = Box::into_inner(question);
    Ok(Box::new(alloc, Key::Under { object, terms })?)
}

/// An early end of an evaluation, as one of the check.
fn stop_of(alloc: Global, stop: dml_world::Stop) -> Stop
    ensures { IsStopOf stop result }
{
    match stop {
        dml_world::Stop::Fault(fault) => Stop::Fault(fault),
        dml_world::Stop::Need(question) => match key_of(alloc, question) {
            Ok(key) => Stop::Need(key),
            Err(AllocError) => Stop::Memory,
        },
        dml_world::Stop::Memory => Stop::Memory,
    }
}

/// What stands around a test, which is in no call of a function.
fn around_in<'a>(frame: &'a Frame<'a>, self_use: SelfUse, max_recursion: u64) -> Around<'a>
    ensures { result ≡ record {
      frame = frame.entry;
      self_use = self_use;
      called = None;
      calls_left = max_recursion;
      includes_left = MAX_INCLUDES;
    } }
{
    Around {
        frame,
        self_use,
        called: None,
        calls_left: max_recursion,
        includes_left: MAX_INCLUDES,
    }
}

/// The value that was seen at a path, where there is one.
fn value_of(looked: Looked) -> Option<Tree>
    ensures { result ≡ value_there (looked_of looked) }
{
    match looked {
        Looked::There(value) => Some(value),
        Looked::Nothing | Looked::NoObject(_) => None,
    }
}

impl<'a, D: DmlRunner, W: World, T: Tested> Evaluator for Tester<'a, D, W, T> {
    ghost means = { case_means T.case W.reading W.calls };

    ghost answers = { W.answers };

    ghost asked = { λ t. W.asked t.world };

    ghost leaves = { tests_leave (case_site T.case W.reading W.calls) W.plain T.case.built };

    #[tactic(auto, using(crate::proofs::Stopping::stops), unfolding(dml_meaning::specs::Structures::dml_run))]
    fn value<L: Ledger>(
        &mut self,
        alloc: Global,
        template: &Name,
        item: &Item,
        self_value: &Tree,
        work: &mut Work,
        steps: &mut Steps<L>,
    ) -> Result<Tree, Stop> {
        let built = self.built;
        let frame = Frame {
            globals: &built.rest.globals,
            functions: &built.rest.functions,
            root: &built.tree,
            object: self.site.object,
            template: template.share()?,
            dirs: self.site.dirs,
            max_iteration: self.site.limits.max_iteration,
        };
        let around = around_in(&frame, SelfUse::Fixed, self.site.limits.max_recursion);
        let value = self_value.copy()?;
        match D::run_dml(alloc, item, value, &around, &mut self.world, work, steps) {
            Ok(value) => Ok(value),
            Err(stop) => Err(stop_of(alloc, stop)),
        }
    }

    #[tactic(auto, using(crate::proofs::Stopping::stops), unfolding(validate::specs::Means::found_run))]
    fn look(
        &mut self,
        alloc: Global,
        place: &Place,
        path: &Path,
        work: &Work,
    ) -> Result<Option<Tree>, Stop> {
        let text = Text::from_string(path.text(alloc)?)?;
        let built = self.built;
        let frame = Frame {
            globals: &built.rest.globals,
            functions: &built.rest.functions,
            root: &built.tree,
            object: self.site.object,
            template: self.site.object.share()?,
            dirs: self.site.dirs,
            max_iteration: self.site.limits.max_iteration,
        };
        let around = around_in(&frame, SelfUse::Changeable, self.site.limits.max_recursion);
        match look_at(
            alloc,
            place,
            text.as_str(),
            path,
            &around,
            &mut self.world,
            work,
        ) {
            Ok(looked) => Ok(value_of(looked)),
            Err(stop) => Err(stop_of(alloc, stop)),
        }
    }
}
