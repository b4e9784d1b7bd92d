//! The limits of the statements of a template.

/// Prefixes of a `LOADPATH`.
pub const MAX_LOAD_PATHS: u64 = 100;
