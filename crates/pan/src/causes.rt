use base::Steps;
use dml_call::DmlEvaluator;
use engine_session::Works;
use fault_notes::Cause;
use host_notes::CauseSource;
use known_causes::cause_in;
use object_run::Library;
use std::alloc::Global;
use std::sync::ledger::Ledger;

/// The engine that has made a build: what is known of a fault comes of another run of its object's build there.
#[derive(Drop)]
pub struct EngineCauses<'w, 's, L: Ledger> {
    pub alloc: Global,
    pub works: &'w mut Works<Library<DmlEvaluator>>,
    /// The work of these runs.
    pub steps: &'s mut Steps<L>,
}

impl<L: Ledger> CauseSource for EngineCauses<'_, '_, L> {
    fn cause_in(&mut self, object: &[u8], fault: &[u8]) -> Cause {
        cause_in(
            self.alloc,
            &mut *self.works,
            object,
            fault,
            &mut *self.steps,
        )
    }
}
