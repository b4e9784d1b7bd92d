/// How far a run may go: the turns of one loop, and the calls that are open at once.
#[derive(Clone, Copy, PartialEq, Eq)]
pub struct Limits {
    pub max_iteration: u64,
    pub max_recursion: u64,
}

/// The steps that a run has left.
#[derive(Clone, Copy, PartialEq, Eq)]
pub struct Work {
    pub left: u64,
}
