use dml_world::Around;

/// Where an item is opened: what stands around it, and how many more may be open.
#[derive(Clone, Copy)]
pub struct Here<'a> {
    pub around: &'a Around<'a>,
    pub room: u64,
}
