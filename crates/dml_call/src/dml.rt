use assign_rules::Variables;
use base::Steps;
use dml_eval::{Here, open_item};
use dml_meaning::limits::MAX_OPEN_ITEMS;
use dml_runner::DmlRunner;
use dml_world::{Around, Evaluation, Exit, Live, Stop, World};
use pan_ast::{Item, Work};
use path_tree::Tree;
use std::alloc::Global;
use std::sync::ledger::Ledger;

/// The evaluator, for whoever runs DML.
pub struct DmlEvaluator;

impl DmlRunner for DmlEvaluator {
    #[tactic(auto, using(dml_meaning::proofs::Leaving::leaving), unfolding(dml_meaning::specs::Structures::dml_run))]
    fn run_dml<W: World, L: Ledger>(
        alloc: Global,
        item: &Item,
        self_value: Tree,
        around: &Around<'_>,
        world: &mut W,
        work: &mut Work,
        steps: &mut Steps<L>,
    ) -> Result<Tree, Stop> {
        let mut evaluation = Evaluation {
            alloc,
            live: Live {
                locals: Variables::new(alloc),
                self_value,
                work: *work,
            },
            world,
            steps,
        };
        let here = Here {
            around,
            room: MAX_OPEN_ITEMS,
        };
        let end = open_item(item, here, &mut evaluation);
        let Evaluation {
            alloc: _,
            live,
            world: lent_world,
            steps: lent_steps,
        } = evaluation;
        // (each loan ends by itself, so that what stands behind it is known)
        let _world = lent_world;
        let _steps = lent_steps;
        *work = live.work;
        match end {
            Ok(value) => Ok(value),
            Err(Exit::Return(value)) => Ok(Box::into_inner(value)),
            Err(Exit::Fault(fault)) => Err(Stop::Fault(fault)),
            Err(Exit::Need(question)) => Err(Stop::Need(question)),
            Err(Exit::Memory) => Err(Stop::Memory),
        }
    }
}
