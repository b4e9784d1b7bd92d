ghost use Rattle.std.specs.Prelude.{◌≤◌, ℕ, List, [], Some, length, ◌≡◌, None};
ghost use Rattle.asking.specs.declared.limits.TheConstants.{MAX_WORK};
ghost use Rattle.command_words.specs.Commands.{command_of};
ghost use Rattle.command_words.specs.declared.commands.Command.TheVariants.{Build};
ghost use Rattle.command_words.specs.declared.commands.Work.{Work};
ghost use Rattle.kept_build.specs.Kept.{IsSoundStart};
ghost use Rattle.kept_build.specs.Stores.{store_of};
ghost use Rattle.kept_state.specs.Stored.{Stored};
ghost use Rattle.record_rows.specs.Rows.{Give};
ghost use Rattle.blamed_works.specs.Profiles.{TellsProfiles};
ghost use Rattle.engine_session.specs.Rounds.{HasRounds};
ghost use Rattle.engine_session.specs.Untouched.{LeavesRest};
ghost use Rattle.engine_laws.specs.Circles.{AreCircles};
ghost use Rattle.engine_laws.specs.Names.{Name};
ghost use Rattle.engine_machine.specs.Machine.{runner_of};
ghost use Rattle.engine_machine.specs.Pictures.{picture_in};
ghost use Rattle.load_path.specs.declared.picture.PictureFile.{PictureFile};
ghost use Rattle.pan_ast.specs.declared.work.Limits.{Limits};
ghost use Rattle.site_build.specs.Scenes.{scene};
ghost use Rattle.pan_top.specs.Calls.{CallOf};
ghost use Rattle.pan_top.specs.Layouts.{LayoutsKeep, LayoutsSettle};
ghost use Rattle.pan_top.specs.Profiles.{AreKept};

use crate::building::build;
use crate::closing::say;
use crate::formatting::format_templates;
use crate::handed_back::{HandedBack, beside, hand_back, hand_back_kept};
use crate::keeping::build_with_rows;
use crate::showing::show;
use crate::watching::watch;
use base::{Steps, Text};
use call_status::Status;
use command_words::{Command, Work, read_command};
use engine_session::{Works, new_works};
use keepers::Keeper;
use kept_build::{KeptDevices, KeptWork};
use outside::{Lines, Shelf, Sink, Source};
use runner::Runner;
use site_build::Devices;
use std::alloc::{AllocError, Global};
use std::sync::ledger::Ledger;

/// A build, with a keeper where its words name a file of rows.
fn carry_out_build<R: Runner, S: Source, H: Shelf, K: Keeper, N: Lines, O: Sink, L: Ledger>(
    alloc: Global,
    work: &Work,
    works: Works<R>,
    devices: Devices<S, H, N, O>,
    keeper: K,
    steps: &mut Steps<L>,
) -> HandedBack<R, S, H, K, N, O>
    requires source_closed { S.opened devices.source ≡ None }
    requires shelf_closed { H.opened devices.shelf ≡ None }
    requires store_closed { K.opened keeper ≡ None }
    ensures { CallOf R.meaning (Some (Build work.now)) result.status
        (scene R.Runner S.Source H.Shelf N.Lines O.Sink works.runner devices steps.old)
        (scene R.Runner S.Source H.Shelf N.Lines O.Sink result.works.runner result.devices
        steps.new)
        (store_of K.Keeper keeper) (store_of K.Keeper result.keeper) }
{
    let mut works = works;
    let Some(file) = &work.state else {
        let mut devices = devices;
        let status = build(alloc, work, &mut works, &mut devices, steps);
        return beside(hand_back(status, works, devices), keeper);
    };
    let request = KeptWork {
        work,
        file: file.as_str(),
    };
    let mut kept = KeptDevices { devices, keeper };
    let status = build_with_rows(alloc, &request, &mut works, &mut kept, steps);
    hand_back_kept(status, works, kept)
}

/// Carries out the command that the words are.
fn carry_out<R: Runner, S: Source, H: Shelf, K: Keeper, N: Lines, O: Sink, L: Ledger>(
    alloc: Global,
    words: &[Text],
    runner: R,
    devices: Devices<S, H, N, O>,
    keeper: K,
    steps: &mut Steps<L>,
) -> HandedBack<R, S, H, K, N, O>
    requires source_closed { S.opened devices.source ≡ None }
    requires shelf_closed { H.opened devices.shelf ≡ None }
    requires store_closed { K.opened keeper ≡ None }
    ensures { CallOf R.meaning (command_of words.now) result.status
        (scene R.Runner S.Source H.Shelf N.Lines O.Sink runner devices steps.old)
        (scene R.Runner S.Source H.Shelf N.Lines O.Sink result.works.runner result.devices
        steps.new)
        (store_of K.Keeper keeper) (store_of K.Keeper result.keeper) }
{
    let mut works = new_works(alloc, runner);
    let mut devices = devices;
    match read_command(alloc, words) {
        Ok(Some(Command::Build(work))) => {
            carry_out_build(alloc, &work, works, devices, keeper, steps)
        }
        Ok(Some(Command::Watch(work))) => watch(alloc, &work, works, devices, keeper, steps),
        Ok(Some(Command::Demo(demonstration))) => {
            let status = show(alloc, &demonstration, &mut works, &mut devices.out, steps);
            beside(hand_back(status, works, devices), keeper)
        }
        Ok(Some(Command::Format(pair))) => {
            let status = format_templates(alloc, &pair, &mut devices);
            beside(hand_back(status, works, devices), keeper)
        }
        Ok(None) => {
            let status = say(&mut devices.out, b"usage fault\n", Status::Usage);
            beside(hand_back(status, works, devices), keeper)
        }
        Err(AllocError) => beside(hand_back(Status::Memory, works, devices), keeper),
    }
}

/// The compiler: compiles the templates of a source into profiles on a shelf and writes a report, once or as lines ask
/// for it, shows a demo, or puts the layout of the templates on the shelf.
///
/// The words are the program's, without its name. Objects are built and checked by the runner, each where the engine
/// wants it. What the call writes, what it leaves on the shelf and its status are those of the words' session with the
/// pictures that the source has to give, by what the runner means; a fault of a device, and want of memory, end it early.
/// Each profile keeps what the runner's checks promise (`profiles`), and an edit of one file changes no answer but those
/// of the objects that a watcher's `impact` names (`edits`). The leaves that its `blame` tells are those of the profile
/// (`leaves`). What a round runs is what had changed, and its turns cost at most what the records and those runs may cost,
/// those of a session at most the sum (`rounds`). An object is circular exactly where its chain of reads never ends (`circles`). A layout keeps the template,
/// its comments and its annotations (`layouts`), and has itself as its layout (`settled`).
///
/// Where the words name a file of rows, the keeper is opened there: a build and a watcher go on from the rows of an
/// earlier run, and keep their own behind each publication. What is said of them stands on the rows at the beginning being
/// sound, as those are that a build has kept, and as none are (`unkept`); no other command does anything with the keeper.
///
/// The source and the shelf are new: neither was opened yet. The call opens each once, before it asks anything of it; a
/// command that needs neither leaves them closed. The devices and the keeper are handed back with the status, and so is the
/// runner, with the engine that it ended with. `steps` rises by the session's steps: one for each file that is taken, for
/// each item that is compared, and the work of each run.
pub fn pan<R: Runner, S: Source, H: Shelf, K: Keeper, N: Lines, O: Sink, L: Ledger>(
    alloc: Global,
    words: &[Text],
    runner: R,
    devices: Devices<S, H, N, O>,
    keeper: K,
    steps: &mut Steps<L>,
) -> HandedBack<R, S, H, K, N, O>
    requires source_closed { S.opened devices.source ≡ None }
    requires shelf_closed { H.opened devices.shelf ≡ None }
    requires store_closed { K.opened keeper ≡ None }
    ensures call { CallOf R.meaning (command_of words.now) result.status
        (scene R.Runner S.Source H.Shelf N.Lines O.Sink runner devices steps.old)
        (scene R.Runner S.Source H.Shelf N.Lines O.Sink result.works.runner result.devices
        steps.new)
        (store_of K.Keeper keeper) (store_of K.Keeper result.keeper) }
    ensures unkept { (work : Work) (found : Stored) → Give [] found
        → IsSoundStart R.meaning work found }
    ensures profiles { AreKept R.meaning R.promises }
    ensures edits { (dirs : List (List ℕ)) (limits : Limits) → length dirs ≤ MAX_WORK
        → LeavesRest (R.meaning dirs limits) dirs }
    ensures leaves { (dirs : List (List ℕ)) (limits : Limits)
        → TellsProfiles (R.meaning dirs limits) }
    ensures rounds { (dirs : List (List ℕ)) (limits : Limits)
        → HasRounds (R.meaning dirs limits) dirs }
    ensures circles { (dirs : List (List ℕ)) (limits : Limits) (files : List PictureFile)
        (objects : List Name) → AreCircles (runner_of (R.meaning dirs limits).build)
        (picture_in files objects) }
    ensures layouts { LayoutsKeep }
    ensures settled { LayoutsSettle }
{
    carry_out(alloc, words, runner, devices, keeper, steps)
}
