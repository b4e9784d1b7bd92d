use base::Text;
use pan_ast::{Limits, TemplateKind};
use path_tree::Name;

/// What a run is about: the object, the include directories and the limits.
#[derive(Drop)]
pub struct Site<'a> {
    pub object: &'a Name,
    pub dirs: &'a [Text],
    pub limits: Limits,
}

/// The template whose statements run: what the run is about, and how many includes may still be
/// opened.
#[derive(Drop)]
pub struct Inside<'a> {
    pub site: &'a Site<'a>,
    pub kind: TemplateKind,
    pub template: Name,
    pub includes_left: u64,
}
