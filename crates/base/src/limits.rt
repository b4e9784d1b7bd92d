//! The limits that many crates share, each named once. Clauses and definitions cite these names.
//! Limits of one subject stand with it: of the work of a run in `asking` and `dml_meaning`, of load
//! paths in `template_meaning`, of types in `type_defs`, of forms and patterns in `builtins_text`
//! and `builtins_patterns`, of command lines in `command_words`, of a watcher in `session` and
//! `watch`, of what is kept in `kept_state`, of what is reported in `outside`, `fault_notes` and
//! `wanted_types`.

/// Bytes of a file that is read.
pub const MAX_FILE_BYTES: usize = 1_000_000;
/// Bytes of a text as a value.
pub const MAX_TEXT_BYTES: usize = 1_000_000;
/// The size of a tree.
pub const MAX_TREE_SIZE: u64 = 1_000_000;
/// The height of a tree.
pub const MAX_TREE_HEIGHT: u64 = 100;
/// Bytes of a key of a dict.
pub const MAX_KEY_BYTES: usize = 1000;
/// Bytes of a template name.
pub const MAX_NAME_BYTES: usize = 200;
/// Bytes of a file name.
pub const MAX_FILE_NAME_BYTES: usize = 400;
/// Bytes of a path.
pub const MAX_PATH_BYTES: usize = 4096;
/// Constructs of a template that hold one another.
pub const MAX_NESTING: usize = 100;
/// Characters of a fault's detail that are kept.
pub const MAX_DETAIL_CHARACTERS: usize = 200;
/// Names of files in one scan.
pub const MAX_SCAN_FILES: usize = 50_000;
/// Bytes that one scan reads.
pub const MAX_SCAN_BYTES: usize = 268_435_456;
/// Objects of one picture.
pub const MAX_OBJECTS: usize = 10_000;
