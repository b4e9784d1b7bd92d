//! The limits of the work on files: how many include directories there are, and how far their templates run.

/// Include directories in which templates are looked for.
pub const MAX_PARTS: usize = 100;
/// Turns of a loop that may be allowed.
pub const MAX_ITERATIONS: u64 = 1_000_000;
/// Turns of a loop, unless given.
pub const DEFAULT_ITERATIONS: u64 = 10_000;
/// Calls inside one another that may be allowed.
pub const MAX_RECURSION: u64 = 200;
/// Calls inside one another, unless given.
pub const DEFAULT_RECURSION: u64 = 50;
