use base::{Bytes, Text};

/// The two files of an object.
#[derive(Drop)]
pub struct Profile {
    pub name: Text,
    pub json: Bytes,
    pub dep: Bytes,
}
