ghost use Rattle.std.specs.Prelude.{◌≡◌, ◌+◌};
ghost use Rattle.dml_world.specs.Seen.{meter};
ghost use Rattle.object_meaning.specs.Checks.{check_run};
ghost use Rattle.object_run.specs.Testing.{case_of, case_site};
ghost use Rattle.plain_statements.specs.Seen.{site_of};
ghost use Rattle.validate.specs.Exits.{Gives};

use crate::rest::Rest;
use crate::tester::{Tested, Tester};
use base::Steps;
use dml_runner::DmlRunner;
use dml_world::World;
use pan_ast::Work;
use plain_statements::Site;
use runner::Built;
use std::alloc::Global;
use std::marker::PhantomData;
use std::sync::ledger::Ledger;
use validate::{Stop, Subject, check};

/// How a check ended, and the world that it leaves.
#[derive(Drop)]
pub(crate) struct Tests<W> {
    pub end: Result<(), Stop>,
    pub world: W,
}

/// Checks what was built, in a world.
#[tactic(auto, unfolding(object_meaning::specs::Checks::check_run))]
pub(crate) fn check_object<D: DmlRunner, T: Tested, W: World, L: Ledger>(
    alloc: Global,
    site: &Site<'_>,
    built: &Built<Rest>,
    world: W,
    work: &mut Work,
    steps: &mut Steps<L>,
) -> Tests<W>
    requires case { case_of site.now built.now ≡ T.case }
    ensures gives { Gives (λ x. x) result.end W.answers work.old (W.asked world) work.new
        (W.asked result.world) (check_run (site_of site.now W.reading W.calls) built.now) }
    ensures counted { steps.new + work.new.left ≡ steps.old + work.old.left }
{
    let rest = &built.rest;
    let mut tester: Tester<'_, D, W, T> = Tester {
        site,
        built,
        world,
        dml: PhantomData,
        of: PhantomData,
    };
    let subject = Subject {
        root: &built.tree,
        bindings: &rest.bindings,
        valids: &rest.valids,
        header: &rest.header,
    };
    let end = check(alloc, subject, &mut tester, work, steps);
    Tests {
        end,
        world: tester.world,
    }
}
