use base::Text;
use path_tree::Tree;

/// A name with its value.
#[derive(Drop)]
pub struct Local {
    pub name: Text,
    pub value: Tree,
}
