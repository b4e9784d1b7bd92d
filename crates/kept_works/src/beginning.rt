ghost use Rattle.std.specs.Prelude.{◌≡◌, IfOk, OnOk, Some, option_map, true};
ghost use Rattle.kept_state.specs.Stored.{stored};
ghost use Rattle.load_path.specs.Pictures.{are_short};
ghost use Rattle.object_names.specs.Objects.{are_rising};
ghost use Rattle.engine_turns.specs.Places.{file_names};
ghost use Rattle.engine_turns.specs.States.{pictured};
ghost use Rattle.engine_session.specs.Standing.{IsBegun, IsIn};
ghost use Rattle.kept_works.specs.Kept.{is_under, begun_with, IsSoundFor};

use crate::pictures::picture_of;
use base::{Seq, Text};
use engine_rows::{RestoreError, restore};
use engine_session::{Works, start};
use engine_turns::Core;
use kept_state::Kept;
use load_path::Picture;
use pan_ast::Limits;
use rebuild::{Engine, shared_texts};
use runner::Runner;
use std::alloc::{AllocError, Global};

/// Whether it was kept under these limits and directories.
fn is_under(kept: &Kept, limits: Limits, dirs: &[Text]) -> bool
    ensures { result ≡ is_under dirs.now limits (stored kept.now) }
{
    kept.dirs.as_slice() == dirs && kept.limits == limits
}

/// The engine becomes this one, and the runner gets its picture and its directories.
fn replace<R: Runner>(
    engine: &mut Engine<R>,
    runner: &mut R,
    new: Engine<R>,
    picture: Picture,
    dirs: Seq<Text>,
)
    ensures engine { engine.new ≡ new }
    ensures files { R.files_of runner.new ≡ picture }
    ensures dirs { R.dirs_of runner.new ≡ dirs }
    ensures runs { R.runs_of runner.new ≡ R.runs_of runner.old }
{
    runner.set_picture(picture, dirs);
    *engine = new;
}

/// What is shared of an engine that goes on: its picture, and its directories for the runner and for its works.
#[derive(Drop)]
struct Shared {
    picture: Picture,
    of_runner: Seq<Text>,
    directories: Seq<Text>,
}

/// Shares the picture and the directories of an engine's data.
fn shared_of<T>(alloc: Global, core: &Core<T>) -> Result<Shared, AllocError>
    requires rising { are_rising (file_names core.now.files.items) ≡ true }
    requires short { are_short (pictured core.now.files.items) ≡ true }
    ensures picture { IfOk result (λ shared. shared.picture ≡ pictured core.now.files.items) }
    ensures of_runner { IfOk result (λ shared. shared.of_runner ≡ core.now.dirs) }
    ensures directories { IfOk result (λ shared. shared.directories ≡ core.now.dirs) }
{
    let picture = picture_of(alloc, &core.files)?;
    let of_runner = shared_texts(alloc, core.dirs.as_slice())?;
    let directories = shared_texts(alloc, core.dirs.as_slice())?;
    Ok(Shared {
        picture,
        of_runner,
        directories,
    })
}

/// Makes the engine this one, and gives the runner its files and its directories.
fn resume<R: Runner>(
    alloc: Global,
    works: &mut Works<R>,
    engine: Engine<R>,
) -> Result<(), AllocError>
    requires short { are_short (pictured engine.core.files.items) ≡ true }
    ensures engine { OnOk result (works.new.engine ≡ engine) }
    ensures runs { R.runs_of works.new.runner ≡ R.runs_of works.old.runner }
{
    let Shared {
        picture,
        of_runner,
        directories,
    } = shared_of(alloc, engine.core())?;
    replace(
        &mut works.engine,
        &mut works.runner,
        engine,
        picture,
        of_runner,
    );
    works.directories = directories;
    Ok(())
}

/// Makes the engine one that goes on from what was kept, where that fits these limits and directories; else one that
/// has taken no picture.
fn begin_from<R: Runner>(
    alloc: Global,
    works: &mut Works<R>,
    limits: Limits,
    dirs: &[Text],
    kept: Kept,
) -> Result<(), AllocError>
    ensures at { OnOk result (IsIn dirs.now limits works.new.engine.core
        (begun_with dirs.now limits (Some (stored kept)))) }
    ensures begun { OnOk result (IsSoundFor R.meaning dirs.now limits (Some (stored kept))
        → IsBegun R.meaning works.new) }
    ensures runs { R.runs_of works.new.runner ≡ R.runs_of works.old.runner }
{
    if !is_under(&kept, limits, dirs) {
        return start(alloc, works, limits, dirs);
    }
    match restore(alloc, kept) {
        Ok(engine) => resume(alloc, works, engine),
        Err(RestoreError::Unfit) => start(alloc, works, limits, dirs),
        Err(RestoreError::Memory) => Err(AllocError),
    }
}

/// Makes the engine one that goes on from what was kept, where that fits these limits and directories: with its files,
/// its objects and their records, all of them touched. Else, or where nothing was kept, makes it one that has taken no
/// picture. The runner gets the files of the engine.
pub fn begin<R: Runner>(
    alloc: Global,
    works: &mut Works<R>,
    limits: Limits,
    dirs: &[Text],
    kept: Option<Kept>,
) -> Result<(), AllocError>
    ensures at { OnOk result (IsIn dirs.now limits works.new.engine.core
        (begun_with dirs.now limits (option_map stored kept))) }
    ensures begun { OnOk result (IsSoundFor R.meaning dirs.now limits (option_map stored kept)
        → IsBegun R.meaning works.new) }
    ensures runs { R.runs_of works.new.runner ≡ R.runs_of works.old.runner }
{
    match kept {
        None => start(alloc, works, limits, dirs),
        Some(kept) => begin_from(alloc, works, limits, dirs, kept),
    }
}
