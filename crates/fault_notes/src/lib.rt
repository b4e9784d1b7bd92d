//! Notes for a reader on the faults of a report: what each means, and where it stands in its file.
//!
//! In reading order: `fault` (the parts of a line of the report), `meanings` (what a code means), `report` (the different
//! faults of the lines, each with its objects), `excerpt` (a line of a file, with a mark below it), `cause` (what is
//! known of the value that a fault is about), `note` (the text for one fault), `printed` (the faults for other programs).
#![tactic(auto)]

mod cause;
mod excerpt;
mod fault;
mod meanings;
mod note;
mod printed;
mod report;

pub use cause::{Cause, MAX_VALUE_CHARS, Setter, has_cause, misses_file, setter_file, shown_value};
pub use fault::{column_in, detail_in, fault_in, file_in, line_in, object_in};
pub use meanings::meaning;
pub use note::{Colours, note_of, rest_of};
pub use printed::{Explained, compiler_lines, json_lines};
pub use report::{MAX_NOTES, Repeated, Report, report_of};
