ghost use Rattle.std.specs.Prelude.{◌≡◌, ℕ, List, IfOk, map, true};
ghost use Rattle.pan_ast.specs.declared.work.Limits.{Limits};
ghost use Rattle.stored_rows.specs.Rows.{row_name, are_rising};
ghost use Rattle.engine_session.specs.Compiler.{Compiled};
ghost use Rattle.engine_session.specs.Standing.{IsIn};
ghost use Rattle.kept_works.specs.Kept.{rows_by};

use engine_rows::kept;
use engine_session::Works;
use record_rows::encode;
use runner::Runner;
use std::alloc::{AllocError, Global};
use stored_rows::StoredRow;

/// The rows of what is kept of an engine, in byte order of names. What has no rows is refused as want of memory.
pub fn rows<R: Runner>(alloc: Global, works: &Works<R>) -> Result<Vec<StoredRow>, AllocError>
    ensures rows { (dirs : List (List ℕ)) (limits : Limits) (e : Compiled R.Rest)
        → IsIn dirs limits works.now.engine.core e
        → IfOk result (λ rows. rows.items ≡ rows_by dirs limits e) }
    ensures rising { IfOk result (λ rows. are_rising (map row_name rows.items) ≡ true) }
{
    let kept = kept(alloc, works.engine.core())?;
    encode(alloc, &kept)
}
