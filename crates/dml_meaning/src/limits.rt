//! The limits of what may be open in a run, each named once.

/// Items, and operators before their operands, that are open at once.
pub const MAX_OPEN_ITEMS: u64 = 1000;
/// Includes that are open at once.
pub const MAX_INCLUDES: u64 = 50;
