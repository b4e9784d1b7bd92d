ghost use Rattle.std.specs.Prelude.{◌≡◌, IfOk, OnOk};
ghost use Rattle.engine_turns.specs.States.{pictured};
ghost use Rattle.read_index.specs.Readers.{asks};
ghost use Rattle.rebuild.specs.Sound.{IsSound};
ghost use Rattle.engine_session.specs.Compiler.{nothing};
ghost use Rattle.engine_session.specs.Standing.{IsFaithful, IsIn, IsKept};

use crate::works::Works;
use base::{Seq, Text};
use load_path::Picture;
use pan_ast::Limits;
use rebuild::{Engine, shared_texts};
use runner::Runner;
use std::alloc::{AllocError, Global};

/// An engine without directories, which has taken no picture, and its runner.
pub fn new_works<R: Runner>(alloc: Global, runner: R) -> Works<R>
    ensures faithful { IsFaithful R.meaning result }
    ensures runs { R.runs_of result.runner ≡ R.runs_of runner }
{
    let mut runner = runner;
    let limits = Limits {
        max_iteration: 0,
        max_recursion: 0,
    };
    runner.set_picture(Picture::new(alloc), Seq::from_vec(Vec::new(alloc)));
    let engine = Engine::new(alloc, limits, Seq::from_vec(Vec::new(alloc)));
    Works {
        engine,
        runner,
        directories: Seq::from_vec(Vec::new(alloc)),
    }
}

/// Makes the engine one that has taken no picture, with these limits and directories, and gives the runner an empty one.
fn renew<R: Runner>(
    alloc: Global,
    engine: &mut Engine<R>,
    runner: &mut R,
    limits: Limits,
    of_engine: Seq<Text>,
    of_runner: Seq<Text>,
)
    requires same { of_runner ≡ of_engine }
    ensures at { IsIn of_engine limits engine.new.core nothing }
    ensures kept { IsKept engine.new.core }
    ensures sound { IsSound R.meaning engine.new.core (asks engine.new.index) }
    ensures files { R.files_of runner.new ≡ pictured engine.new.core.files.items }
    ensures dirs { R.dirs_of runner.new ≡ engine.new.core.dirs }
    ensures known { engine.new.core.dirs ≡ of_engine }
    ensures runs { R.runs_of runner.new ≡ R.runs_of runner.old }
{
    runner.set_picture(Picture::new(alloc), of_runner);
    *engine = Engine::new(alloc, limits, of_engine);
}

/// Makes the engine one that has taken no picture, with these limits and directories. The runner has an empty picture
/// then.
pub fn start<R: Runner>(
    alloc: Global,
    works: &mut Works<R>,
    limits: Limits,
    dirs: &[Text],
) -> Result<(), AllocError>
    ensures at { OnOk result (IsIn dirs.now limits works.new.engine.core nothing) }
    ensures faithful { OnOk result (IsFaithful R.meaning works.new) }
    ensures runs { R.runs_of works.new.runner ≡ R.runs_of works.old.runner }
{
    let of_engine = shared_texts(alloc, dirs)?;
    let of_runner = shared_texts(alloc, dirs)?;
    let directories = shared_texts(alloc, dirs)?;
    renew(
        alloc,
        &mut works.engine,
        &mut works.runner,
        limits,
        of_engine,
        of_runner,
    );
    works.directories = directories;
    Ok(())
}
