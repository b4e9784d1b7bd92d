//! Files by name: pictures of a source, and where templates are looked for.
//!
//! In reading order: `limits` (of the work on them), `file_name` (the grammar of their names), `picture` (files in byte
//! order of names, as a scan collects them), `lookup` (the file names of a template by a load path and include
//! directories).
#![tactic(auto)]

mod file_name;
pub mod limits;
mod lookup;
mod picture;

pub use file_name::is_file_name;
pub use lookup::candidates;
pub use picture::{Content, Picture, PictureFile};
