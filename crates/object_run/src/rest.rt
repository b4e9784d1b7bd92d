ghost use Rattle.std.specs.Prelude.{◌≡◌};
ghost use Rattle.type_defs.specs.BindingsSeen.{bindings_seen};

use assign_rules::Globals;
use dml_world::Functions;
use pan_ast::{Change, Place};
use std::marker::Model;
use type_defs::{Bindings, Valid};

/// What a build makes besides the tree of its object: all that a check looks at, and the log of the
/// changes that made the tree.
#[derive(Drop)]
pub struct Rest {
    pub(crate) header: Place,
    pub(crate) globals: Globals,
    pub(crate) functions: Functions,
    pub(crate) bindings: Bindings,
    pub(crate) valids: Vec<Valid>,
    pub(crate) log: Vec<Change>,
}

impl Model for Rest {
    ghost use Rattle.std.specs.Prelude.{map};
    ghost use Rattle.std.specs.Coded.{codes};
    ghost use Rattle.path_tree.specs.Code.{plain_code};
    ghost use Rattle.dml_world.specs.Seen.{functions_of};
    ghost use Rattle.type_defs.specs.BindingsSeen.{bindings_seen, valid_seen};
    ghost use Rattle.object_meaning.specs.Rest.{Rest};
    ghost use Rattle.object_run.specs.SyntaxCode.{item_code};
    ghost use Rattle.object_run.specs.TypeCode.{type_code};

    ghost Value = { Rest };

    ghost coded = { Prim.hlevel (codes, plain_code, item_code, type_code) };

    ghost view = { λ r. record {
      header = r.header;
      globals = r.globals;
      functions = functions_of r.functions;
      bindings = bindings_seen r.bindings;
      valids = map valid_seen r.valids.items;
      log = r.log.items;
    } };
}

impl Rest {
    /// The types that the build binds to paths.
    pub fn bindings(&self) -> &Bindings
        ensures { bindings_seen result.now ≡ self.now.bindings }
    {
        &self.bindings
    }
}
