ghost use Rattle.std.specs.Prelude.{◌≡◌, ◌++◌, OnOk, codes, if◌then◌else◌};
ghost use Rattle.engine_session.specs.Compiler.{cause_text};
ghost use Rattle.engine_session.specs.Standing.{compiled_in, machine_in};
ghost use Rattle.rebuild.specs.Answers.{why_at};
ghost use Rattle.rebuild.specs.Engines.{situation_of};
ghost use Rattle.session.specs.Sessions.{deps_of, shown_of, touched_of, unused_of};
ghost use Rattle.session.specs.Texts.{about, outcome_text, deps_text, touched_text, unused_text};
ghost use Rattle.watch.specs.Sites.{IsReady};

use crate::site::Site;
use crate::texts::{push_deps, push_shown, push_touched, push_unused};
use engine_session::{deps, push_cause, shown, touched, unused};
use runner::Runner;
use std::alloc::{AllocError, Global};

/// `show NAME`
pub(crate) fn show_line<R: Runner, S, H, K>(
    alloc: Global,
    site: &Site<R, S, H, K>,
    name: &str,
    text: &mut Vec<u8>,
) -> Result<(), AllocError>
    ensures { IsReady R.meaning site.now → OnOk result (text.new.items ≡ text.old.items
        ++ (if site.now.has_taken then about outcome_text (shown_of
        (machine_in R.meaning
        site.now.works.engine.core) name.now (compiled_in site.now.works.engine.core)) else codes "no object\n")) }
{
    if !site.has_taken {
        return text.extend_from_slice(b"no object\n");
    }
    push_shown(text, &shown(alloc, &site.works, name)?)
}

/// `why NAME`
pub(crate) fn why_line<R: Runner, S, H, K>(
    site: &Site<R, S, H, K>,
    name: &str,
    text: &mut Vec<u8>,
) -> Result<(), AllocError>
    ensures { IsReady R.meaning site.now → OnOk result (text.new.items ≡ text.old.items
        ++ (if site.now.has_taken then cause_text (why_at (situation_of
        site.now.works.engine.core) name.now) else codes "no object\n")) }
{
    if !site.has_taken {
        return text.extend_from_slice(b"no object\n");
    }
    push_cause(text, &site.works, name)
}

/// `deps NAME`
pub(crate) fn deps_line<R: Runner, S, H, K>(
    alloc: Global,
    site: &Site<R, S, H, K>,
    name: &str,
    text: &mut Vec<u8>,
) -> Result<(), AllocError>
    ensures { IsReady R.meaning site.now → OnOk result (text.new.items ≡ text.old.items
        ++ (if site.now.has_taken then about deps_text (deps_of
        (machine_in R.meaning
        site.now.works.engine.core) name.now (compiled_in site.now.works.engine.core)) else codes "no object\n")) }
{
    if !site.has_taken {
        return text.extend_from_slice(b"no object\n");
    }
    push_deps(text, &deps(alloc, &site.works, name)?)
}

/// `impact FILE`
pub(crate) fn impact_line<R: Runner, S, H, K>(
    alloc: Global,
    site: &Site<R, S, H, K>,
    file: &str,
    text: &mut Vec<u8>,
) -> Result<(), AllocError>
    ensures { IsReady R.meaning site.now → OnOk result (text.new.items ≡ text.old.items
        ++ (if site.now.has_taken then touched_text (touched_of
        (machine_in R.meaning
        site.now.works.engine.core) file.now (compiled_in site.now.works.engine.core)) else codes "end\n")) }
{
    if !site.has_taken {
        return text.extend_from_slice(b"end\n");
    }
    push_touched(text, &touched(alloc, &site.works, file)?)
}

/// `unused`
pub(crate) fn unused_line<R: Runner, S, H, K>(
    alloc: Global,
    site: &Site<R, S, H, K>,
    text: &mut Vec<u8>,
) -> Result<(), AllocError>
    ensures { IsReady R.meaning site.now → OnOk result (text.new.items ≡ text.old.items
        ++ (if site.now.has_taken then unused_text (unused_of
        (machine_in R.meaning
        site.now.works.engine.core) (compiled_in site.now.works.engine.core)) else codes "end\n")) }
{
    if !site.has_taken {
        return text.extend_from_slice(b"end\n");
    }
    push_unused(text, &unused(alloc, &site.works)?)
}

/// A line that is no order of a watcher.
pub(crate) fn bad_line(text: &mut Vec<u8>) -> Result<(), AllocError>
    ensures { OnOk result (text.new.items ≡ text.old.items ++ codes "bad line\n") }
{
    text.extend_from_slice(b"bad line\n")
}
