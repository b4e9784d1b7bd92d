//! The limits of runs and of the numbers that stand for what they read, each named once.

/// Steps of work of one part of an object, its build or its check.
pub const MAX_WORK: u64 = 2_000_000;
/// The numbers that an engine draws end below this one.
pub const END_OF_NUMBERS: u64 = 4_611_686_018_427_387_904;
