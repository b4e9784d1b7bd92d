ghost use Rattle.std.specs.Prelude.{◌≡◌};
ghost use Rattle.runner.specs.Words.{seen_told};

use path_tree::{Name, Term, Tree};

/// What is known of an object at some terms: a number, and from 3 on the value there, if there is one. 0 stands for no
/// object, 1 for one whose build failed, 2 for one whose chain of reads never ends.
#[derive(Clone, Copy)]
pub struct Told<'a> {
    pub number: u64,
    pub value: Option<&'a Tree>,
}

/// What is known of files and of objects.
pub trait Known {
    ghost use Rattle.std.specs.Prelude.{ℕ, List, Option};
    ghost use Rattle.path_tree.specs.Plain.{Plain};
    ghost use Rattle.path_tree.specs.declared.path.Term.{Term};

    /// The numbers of files.
    ghost numbers: { Self → List ℕ → ℕ };

    /// The numbers and values of objects at terms, where they are known.
    ghost objects: { Self → List ℕ → List Term → Option (ℕ × Option Plain) };

    /// The number of a file.
    fn file_number(&self, name: &str) -> u64
        ensures { result ≡ numbers self.now name.now };

    /// What is known of an object at some terms; None for an object that is not known yet.
    fn built(&self, object: &Name, terms: &[Term]) -> Option<Told<'_>>
        ensures { seen_told result ≡ objects self.now object.now terms.now };
}
