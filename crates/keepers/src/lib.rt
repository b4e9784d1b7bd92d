//! What keeps rows from run to run: a trait with a meaning, what it holds where it tells that, and
//! a count of its faults; and its forms in memory.
//!
//! In reading order: `keeper`, the trait; `sorted` (rows in byte order), and the forms in memory,
//! `sure_keeper`, which never fails, and `mem_keeper`, with a list of the calls that are to fail.
#![tactic(auto)]

mod keeper;
mod mem_keeper;
mod sorted;
mod sure_keeper;

pub use keeper::Keeper;
pub use mem_keeper::MemKeeper;
pub use sure_keeper::SureKeeper;
