use base::Steps;
use pan_ast::Work;
use std::alloc::Global;
use std::sync::ledger::Ledger;

/// A check of an object under way: what evaluates and looks for it, the work that is left, and the
/// steps that it counts. Evaluator and steps are lent by who began it.
#[derive(Drop)]
pub(crate) struct Validation<'e, 's, E, L: Ledger> {
    pub alloc: Global,
    pub evaluator: &'e mut E,
    pub work: Work,
    pub steps: &'s mut Steps<L>,
}
