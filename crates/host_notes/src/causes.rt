use fault_notes::Cause;

/// Who knows what a fault of a build is about.
pub trait CauseSource {
    /// What is known beside its line of a fault of an object.
    fn cause_in(&mut self, object: &[u8], fault: &[u8]) -> Cause;
}
