//! The limits of what is kept of numbers and of what runs ask. Those of runs, of directories and of files stand where the
//! words and the files are read.

/// The first number that an engine draws: 0 stands for what is absent, 1 for what failed and 2 for what
/// is circular.
pub const FIRST_NUMBER: u64 = 3;
/// Keys that one run asks.
pub const MAX_ITEMS: usize = 2_000_000;
/// Terms of a key.
pub const MAX_TERMS: usize = 4096;
/// An index of a term.
pub const MAX_INDEX: u32 = 999_999;
/// Bytes of the name of a file that a run asks for or a fault names.
pub const MAX_ASKED_BYTES: usize = 2000;
