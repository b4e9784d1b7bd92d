ghost use Rattle.std.specs.Prelude.{◌≡◌, ◌++◌, ◌∷◌, [], true, IfOk, OnOk, option_map, vec_items};
ghost use Rattle.engine_laws.specs.Engine.{is_among};
ghost use Rattle.engine_turns.specs.States.{pictured};
ghost use Rattle.rebuild.specs.Engines.{objects_of, turns_left_of};
ghost use Rattle.session.specs.Sessions.{touched_of, unused_of};
ghost use Rattle.engine_session.specs.Looking.{entry_of, register_in};
ghost use Rattle.engine_session.specs.Registers.{seen_entry, seen_in};
ghost use Rattle.engine_session.specs.Standing.{IsFaithful, compiled_in, machine_in};

use crate::works::Works;
use base::Text;
use pan_impact::Register;
use path_tree::Name;
use runner::Runner;
use std::alloc::{AllocError, Global};

/// Adds an object with what its build and its check read.
fn add_object<R: Runner>(
    register: &mut Register,
    works: &Works<R>,
    name: &Name,
) -> Result<(), AllocError>
    requires settled { turns_left_of works.now.engine.core ≡ 0 }
    requires object { is_among name.now (objects_of works.now.engine.core) ≡ true }
    ensures { IsFaithful R.meaning works.now → OnOk result (seen_in register.new
        ≡ seen_in register.old ++ seen_entry (entry_of (R.meaning works.now.engine.core.dirs
        works.now.engine.core.limits) (pictured works.now.engine.core.files.items)
        (objects_of works.now.engine.core) name.now) ∷ []) }
{
    // Of an engine that is not faithful an object may have no record.
    let Some(reads) = works.engine.reads(name.as_str()) else {
        return Ok(());
    };
    register.add(name, reads.build, reads.check)
}

/// All objects with what their builds and their checks read.
fn register_of<R: Runner>(alloc: Global, works: &Works<R>) -> Result<Register, AllocError>
    requires settled { turns_left_of works.now.engine.core ≡ 0 }
    ensures { IsFaithful R.meaning works.now → IfOk result (λ register. seen_in register ≡ seen_in
        (register_in (R.meaning works.now.engine.core.dirs works.now.engine.core.limits) (pictured
        works.now.engine.core.files.items) (objects_of works.now.engine.core))) }
{
    let names = works.engine.objects(alloc)?;
    let mut register = Register::new(alloc);
    for name in &names {
        add_object(&mut register, works, name)?;
    }
    Ok(register)
}

/// The objects that an edit of the file may change, in byte order. None while turns are left.
pub fn touched<R: Runner>(
    alloc: Global,
    works: &Works<R>,
    file: &str,
) -> Result<Option<Vec<Name>>, AllocError>
    ensures { IsFaithful R.meaning works.now → IfOk result (λ found. option_map vec_items found
        ≡ touched_of (machine_in R.meaning works.now.engine.core) file.now
        (compiled_in works.now.engine.core)) }
{
    let left = works.engine.turns_left();
    if left > 0 {
        return Ok(None);
    }
    let register = register_of(alloc, works)?;
    let names = register.touched(file, works.directories.as_slice())?;
    Ok(Some(names))
}

/// The templates of the picture that no object reads or looks for, in byte order. None while turns are left.
pub fn unused<R: Runner>(alloc: Global, works: &Works<R>) -> Result<Option<Vec<Text>>, AllocError>
    ensures { IsFaithful R.meaning works.now → IfOk result (λ found. option_map vec_items found
        ≡ unused_of (machine_in R.meaning works.now.engine.core)
        (compiled_in works.now.engine.core)) }
{
    let left = works.engine.turns_left();
    if left > 0 {
        return Ok(None);
    }
    let register = register_of(alloc, works)?;
    let names = register.unused(works.runner.picture(), works.directories.as_slice())?;
    Ok(Some(names))
}
