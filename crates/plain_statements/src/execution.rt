use crate::program::Program;
use base::Steps;
use dml_runner::DmlRunner;
use pan_ast::Work;
use std::alloc::Global;
use std::marker::PhantomData;
use std::sync::ledger::Ledger;

/// The statements of an object under way: what they change, the world that they ask, the work that
/// is left, the steps that they count, and who runs their DML. World, work and steps are lent by who began it.
#[derive(Drop)]
pub struct Execution<'w, 'k, 's, D: DmlRunner, W, L: Ledger> {
    pub alloc: Global,
    pub dml: PhantomData<D>,
    pub program: Program,
    pub world: &'w mut W,
    pub work: &'k mut Work,
    pub steps: &'s mut Steps<L>,
}
