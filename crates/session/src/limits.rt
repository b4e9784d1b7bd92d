//! The limits of a session that no other crate knows.

/// Bytes of a watcher's line, without its line feed.
pub const MAX_LINE_BYTES: usize = 1000;
/// Turns that one line of a watcher may ask for.
pub const MAX_TURNS_OF_A_LINE: u64 = 1_000_000;
