//! What lies outside: where files are read from, where files are put, and where text is written. Each is
//! a trait with a meaning, what the object holds where it tells that, and a count of its faults.
//!
//! In reading order: `error`; the traits `source`, `shelf`, `lines` and `sink`; `distinct` (a test of a
//! picture's names); the forms in memory that never fail, `sure_source`, `sure_shelf`, `sure_lines`, `sure_sink`; those
//! with a list of the calls that are to fail (`calls`), `mem_source`, `mem_shelf`, `mem_lines`, `mem_sink`; and
//! those of the host, `faults`, `troubles`, `folder`, `host_source`, `host_shelf`, `host_lines`, `host_sink`. Last a sink
//! that keeps what is told of faults, `fault_lines`, `keeping_sink`.
#![tactic(auto)]

mod calls;
mod distinct;
mod error;
mod fault_lines;
mod faults;
mod folder;
mod host_lines;
mod host_shelf;
mod host_sink;
mod host_source;
mod keeping_sink;
mod lines;
mod mem_lines;
mod mem_shelf;
mod mem_sink;
mod mem_source;
mod shelf;
mod sink;
mod source;
mod sure_lines;
mod sure_shelf;
mod sure_sink;
mod sure_source;
mod troubles;

pub use calls::Calls;
pub use distinct::are_distinct;
pub use error::StoreError;
pub use fault_lines::MAX_FAULT_LINES;
pub use faults::Faults;
pub use host_lines::HostLines;
pub use host_shelf::HostShelf;
pub use host_sink::HostSink;
pub use host_source::HostSource;
pub use keeping_sink::KeepingSink;
pub use lines::Lines;
pub use mem_lines::MemLines;
pub use mem_shelf::MemShelf;
pub use mem_sink::MemSink;
pub use mem_source::MemSource;
pub use shelf::{Change, Shelf};
pub use sink::Sink;
pub use source::{Got, MemFile, Source};
pub use sure_lines::SureLines;
pub use sure_shelf::{Held, SureShelf};
pub use sure_sink::SureSink;
pub use sure_source::SureSource;
pub use troubles::Trouble;
