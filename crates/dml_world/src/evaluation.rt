use crate::frame::Live;
use base::Steps;
use std::alloc::Global;
use std::sync::ledger::Ledger;

/// An evaluation under way: what it changes, the world that it asks, and the steps that it counts.
/// World and steps are lent by who began it.
#[derive(Drop)]
pub struct Evaluation<'w, 's, W, L: Ledger> {
    pub alloc: Global,
    pub live: Live,
    pub world: &'w mut W,
    pub steps: &'s mut Steps<L>,
}
