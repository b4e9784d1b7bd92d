use pan_ast::{Change, Place};

/// How the tree of a build was made: from an empty dict, which is the header's, by changes, in order.
#[derive(Clone, Copy)]
pub struct Log<'a> {
    pub header: &'a Place,
    pub changes: &'a [Change],
}
