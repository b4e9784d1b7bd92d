//! The limits of the words of the program. Those of the work that they name are `load_path::limits`.

/// Names that `--most-removed` may allow a publication to remove.
pub const MAX_MOST_REMOVED: u64 = 20_000;
/// Machines of a demo.
pub const MAX_MACHINES: u64 = 2_000;
/// The start number of a demo.
pub const MAX_START: u64 = 18_446_744_073_709_551_615;
