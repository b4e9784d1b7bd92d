ghost use Rattle.std.specs.Prelude.{◌≡◌, ◌⊎◌, ◌++◌, ℕ, List, IfOk, Option, codes};
ghost use Rattle.outside.specs.Causes.{Counted};
ghost use Rattle.site_build.specs.Ends.{IsFailureOf};
ghost use Rattle.site_build.specs.Session.{WritesEarly};
ghost use Rattle.site_build.specs.declared.ends.Device.TheVariants as device;
ghost use Rattle.pan_top.specs.Builds.{Wrote};
ghost use Rattle.kept_build.specs.Ends.{IsFailure};
ghost use Rattle.pan_top.specs.KeptBuilds.{Closes};
ghost use Rattle.pan_top.specs.Statuses.{IsCut, Says, status_of, status_of_kept};
ghost use Rattle.call_status.specs.declared.status.Status.{Status};

use base::Text;
use call_status::Status;
use kept_build::End as KeptEnd;
use outside::Sink;
use site_build::{End, write};
use std::alloc::{AllocError, Global};

/// The status of a build that ended early.
fn status_of(end: &End) -> Status
    ensures { result ≡ status_of end.now }
{
    match end {
        End::Source => Status::SourceFault,
        End::Shelf | End::Publishing(_) => Status::ShelfFault,
        End::Out => Status::OutFault,
        End::Memory => Status::Memory,
    }
}

/// Writes a line, and gives the status that goes with it, or that of the write that failed.
pub fn say<O: Sink>(out: &mut O, line: &[u8], status: Status) -> Status
    requires { status ≡ Status.OutFault → ⊥ }
    ensures line { Says status line.now result (O.held out.old) (O.held out.new) }
    ensures count { Counted (result ≡ Status.OutFault) (O.fault_count out.old)
        (O.fault_count out.new) }
{
    match write(out, line) {
        Ok(()) => status,
        Err(refused) => status_of(&refused),
    }
}

/// The line of a call that failed on a file of an object.
fn name_line(alloc: Global, object: &Text) -> Result<Vec<u8>, AllocError>
    ensures { IfOk result
        (λ line. line.items ≡ codes "shelf fault " ++ object.now ++ codes "\n") }
{
    let mut line = Vec::new(alloc);
    line.extend_from_slice(b"shelf fault ")?;
    line.extend_from_slice(object.as_str().as_bytes())?;
    line.extend_from_slice(b"\n")?;
    Ok(line)
}

/// Writes that line.
fn say_name<O: Sink>(alloc: Global, object: &Text, out: &mut O) -> Status
    ensures line { Says Status.ShelfFault (codes "shelf fault " ++ object.now ++ codes "\n") result
        (O.held out.old) (O.held out.new) }
    ensures count { Counted (result ≡ Status.OutFault) (O.fault_count out.old)
        (O.fault_count out.new) }
{
    let Ok(line) = name_line(alloc, object) else {
        return Status::Memory;
    };
    say(out, &line, Status::ShelfFault)
}

/// Writes the line of a build's end that came early, and gives the status.
pub fn close_build<O: Sink>(alloc: Global, end: &End, out: &mut O) -> Status
    ensures status { (result ≡ status_of end.now) ⊎ IsCut result }
    ensures text { (text : List ℕ) (old : Option (List ℕ)) → WritesEarly text end.now old
        (O.held out.old) → Wrote text end.now result old (O.held out.new) }
    ensures count { (before : ℕ) → Counted (IsFailureOf device.Out end.now) before
        (O.fault_count out.old) → Counted (result ≡ Status.OutFault) before
        (O.fault_count out.new) }
{
    match end {
        End::Source => say(out, b"source fault\n", Status::SourceFault),
        End::Shelf => say(out, b"shelf fault\n", Status::ShelfFault),
        End::Publishing(object) => say_name(alloc, object, out),
        End::Out => Status::OutFault,
        End::Memory => Status::Memory,
    }
}

/// Writes the line of an end of a build with a keeper that came early, and gives the status.
pub fn close_kept<O: Sink>(alloc: Global, end: &KeptEnd, out: &mut O) -> Status
    ensures status { (result ≡ status_of_kept end.now) ⊎ IsCut result }
    ensures closes { Closes end.now result (O.held out.old) (O.held out.new) }
    ensures count { (before : ℕ) → Counted (IsFailure device.Out end.now) before
        (O.fault_count out.old) → Counted (result ≡ Status.OutFault) before
        (O.fault_count out.new) }
{
    match end {
        KeptEnd::Build(end) => close_build(alloc, end, out),
        KeptEnd::Keeper => say(out, b"keeper fault\n", Status::KeeperFault),
        KeptEnd::Saving => say(out, b"keeper fault\n", Status::KeeperFault),
        KeptEnd::BadRows => say(out, b"bad rows\n", Status::BadRows),
    }
}
