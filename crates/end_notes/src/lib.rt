//! Notes for a reader on a call that ended early: the word that was wrong, or the path and the reason.
//!
//! In reading order: `scan` (the words one by one), `wrong` (what is wrong with them), `notes` (the texts), `asked` (the
//! source that the words name).
#![tactic(auto)]

mod asked;
mod notes;
mod scan;
mod wrong;

pub use asked::asked_of;
pub use notes::{bad_rows_note, removals_note, trouble_note, usage_note};
pub use wrong::{Place, Wrong, wrong_of};
