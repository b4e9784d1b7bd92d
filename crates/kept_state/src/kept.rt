use base::Text;
use load_path::Content;
use pan_ast::{Fault, Limits};
use path_tree::{Name, Tree};
use read_sets::Trace;
use stored_rows::Named;

/// A file of the last picture, with its number.
#[derive(Drop)]
pub struct KeptFile {
    pub name: Text,
    pub number: u64,
    pub content: Content,
}

impl Named for KeptFile {
    ghost use Rattle.kept_state.specs.Stored.{file_name};

    ghost name_of = { file_name };

    fn name(&self) -> &str {
        self.name.as_str()
    }
}

/// An object of the last picture: what its build gave, with its number, what its build and its check
/// read, and the fault of its check.
#[derive(Drop)]
pub struct KeptObject {
    pub name: Name,
    pub number: u64,
    pub built: Result<Tree, Fault>,
    pub build_reads: Trace,
    pub verdict: Option<Fault>,
    pub check_reads: Trace,
}

impl Named for KeptObject {
    ghost use Rattle.kept_state.specs.Stored.{object_name};

    ghost name_of = { object_name };

    fn name(&self) -> &str {
        self.name.as_str()
    }
}

/// What an engine keeps, with the limits and directories under which it was made. Files and objects
/// stand in byte order of names.
#[derive(Drop)]
pub struct Kept {
    pub counter: u64,
    pub limits: Limits,
    pub dirs: Vec<Text>,
    pub files: Vec<KeptFile>,
    pub objects: Vec<KeptObject>,
}
