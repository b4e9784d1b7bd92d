ghost use Rattle.std.specs.Prelude.{◌≡◌, IfOk};
ghost use Rattle.template_meaning.specs.Program.{no_program};
ghost use Rattle.plain_statements.specs.Seen.{program_of};

use assign_rules::{Globals, Profile};
use dml_world::Functions;
use path_tree::Name;
use std::alloc::{AllocError, Global};
use type_defs::{Bindings, Types, Valid};

/// What the statements of an object change.
#[derive(Drop)]
pub struct Program {
    pub profile: Profile,
    pub globals: Globals,
    pub functions: Functions,
    pub types: Types,
    pub bindings: Bindings,
    /// What is to hold at paths, in the order of execution.
    pub valids: Vec<Valid>,
    /// The unique and declaration templates that have run.
    pub ran: Vec<Name>,
}

impl Program {
    /// An empty dict, and nothing else.
    #[tactic(auto, using(crate::proofs::Programs::fresh))]
    pub fn new(alloc: Global) -> Result<Program, AllocError>
        ensures { IfOk result (λ p. program_of p ≡ no_program) }
    {
        Ok(Program {
            profile: Profile::new(alloc)?,
            globals: Globals::new(alloc),
            functions: Functions::new(alloc),
            types: Types::new(alloc),
            bindings: Bindings::new(alloc),
            valids: Vec::new(alloc),
            ran: Vec::new(alloc),
        })
    }
}
