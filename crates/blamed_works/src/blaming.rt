ghost use Rattle.std.specs.Prelude.{◌≡◌, List, ℕ, OnOk, OnErr, [], true};
ghost use Rattle.pan_ast.specs.declared.work.Limits.{Limits};
ghost use Rattle.session.specs.Sessions.{blamed_in, state_in};
ghost use Rattle.engine_session.specs.Compiler.{compiler};
ghost use Rattle.engine_session.specs.Standing.{IsFaithful, Here, Counts, counts, IsAt, HasSpentAtMost};
ghost use Rattle.blamed_works.specs.Lines.{Blames};

use crate::built::{build_again, push_built};
use crate::texts::push_fault;
use base::Steps;
use engine_session::Works;
use path_tree::Term;
use rebuild::Answer;
use runner::Runner;
use std::alloc::{AllocError, Global};
use std::sync::ledger::Ledger;

/// Writes who set the leaves at and below the terms in the profile of an object, as a line that asks for it is
/// answered in a session that has taken a picture: that turns are left, that there is no such object, its fault, that
/// nothing is at the terms, or a line for each leaf and the end. Only where the object has a profile its build is run
/// again, once. The engine stays as it is.
pub fn blame<R: Runner, L: Ledger>(
    alloc: Global,
    text: &mut Vec<u8>,
    works: &mut Works<R>,
    name: &str,
    terms: &[Term],
    steps: &mut Steps<L>,
) -> Result<(), AllocError>
    requires text { text.old.items ≡ [] }
    ensures told { IsFaithful R.meaning works.old → OnOk result ((dirs : List (List ℕ))
        (limits : Limits) (s : Here R.Rest) (start : Counts) → IsAt dirs limits s
        works.old.engine.core start (counts (R.runs_of works.old.runner) steps.old)
        → s.has_taken ≡ true → Blames (compiler (R.meaning dirs limits) dirs) dirs limits name.now
        terms.now s text.new.items works.new.engine.core start
        (counts (R.runs_of works.new.runner) steps.new)) }
    ensures cut { IsFaithful R.meaning works.old → OnErr result ((dirs : List (List ℕ))
        (limits : Limits) (s : Here R.Rest) (start : Counts) → IsAt dirs limits s
        works.old.engine.core start (counts (R.runs_of works.old.runner) steps.old)
        → s.has_taken ≡ true → HasSpentAtMost (state_in (blamed_in (compiler (R.meaning dirs limits)
        dirs) name.now terms.now s)) start (counts (R.runs_of works.new.runner) steps.new)) }
    ensures faithful { IsFaithful R.meaning works.old → IsFaithful R.meaning works.new }
    ensures engine { works.new.engine ≡ works.old.engine }
{
    let left = works.engine.turns_left();
    if left > 0 {
        return text.extend_from_slice(b"pending\n");
    }
    match works.engine.answer(name) {
        Answer::NoObject => text.extend_from_slice(b"no object\n"),
        Answer::Fault(fault) => push_fault(alloc, text, fault),
        // Only an engine that is not faithful says so where all is settled.
        Answer::Pending => Err(AllocError),
        Answer::Profile(_tree) => {
            let built = build_again(works, name, steps)?;
            push_built::<R>(alloc, text, &built, terms)
        }
    }
}
