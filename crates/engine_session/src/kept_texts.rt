//! Texts of profiles, each with the number of the tree that it was made of, so that it is made anew only where that has
//! changed.

ghost use Rattle.std.specs.Prelude.{◌≡◌, ◌⊎◌, ℕ, [], IfOk, IfSome, OnOk, Ok};
ghost use Rattle.json_profile.specs.Dependencies.{dep_text_of};
ghost use Rattle.json_profile.specs.Json.{profile_of};
ghost use Rattle.path_tree.specs.Plain.{Plain};
ghost use Rattle.read_sets.specs.Items.{pairs_of};
ghost use Rattle.engine_session.specs.Compiler.{outcome_by};
ghost use Rattle.engine_session.specs.KeptTexts.{IsAdded, Serve};

use crate::kept_deps::{Dep, dep_again, dep_of};
use base::{Bytes, Text};
use json_profile::profile_text;
use path_tree::Tree;
use rebuild::Reads;
use session::Outcome;
use std::alloc::{AllocError, Global};
use std::cmp::Ordering;
use std::mem;
use std::rc::Rc;

/// A tree, and the number that the engine has given it.
#[derive(Clone, Copy)]
pub(crate) struct Numbered<'a> {
    pub number: u64,
    pub tree: &'a Tree,
}

/// The two texts of an object, and the number of the tree that its profile was made of.
#[derive(Drop)]
struct Entry {
    name: Text,
    number: u64,
    json: Bytes,
    dep: Rc<Dep>,
}

/// The texts of the profiles of one report, each with what it was made of. While a report is made, those of the last one
/// serve where they are made of the same; what it did not ask for is dropped at its end. A tree that has the number of
/// before is the tree of before, as the engine gives no number twice: so no tree is kept here, and none compared.
#[derive(Drop)]
pub struct KeptTexts {
    entries: Vec<Entry>,
    /// Those of the last report, from `place` on, while one is made.
    before: Vec<Entry>,
    place: usize,
    /// Whether texts are kept for a next report.
    are_kept: bool,
}

/// Where a name stands among entries, and where the next one is looked for.
#[derive(Clone, Copy)]
struct Sought {
    found: Option<usize>,
    next: usize,
}

/// The text of a tree.
fn json_of(alloc: Global, tree: &Tree) -> Result<Bytes, AllocError>
    ensures { IfOk result (λ text. text ≡ profile_of tree.now) }
{
    Bytes::from_vec(profile_text(alloc, tree)?)
}

impl Entry {
    fn new(
        alloc: Global,
        name: &str,
        made: Numbered<'_>,
        reads: Reads<'_>,
    ) -> Result<Entry, AllocError>
        ensures name { IfOk result (λ e. e.name ≡ name.now) }
        ensures number { IfOk result (λ e. e.number ≡ made.entry.number) }
        ensures json { IfOk result (λ e. e.json ≡ profile_of made.entry.tree.now) }
        ensures dep { IfOk result (λ e. e.dep.value.text ≡ dep_text_of
            (pairs_of reads.entry.build.now) (pairs_of reads.entry.check.now)) }
    {
        Ok(Entry {
            name: Text::new(alloc, name)?,
            number: made.number,
            json: json_of(alloc, made.tree)?,
            dep: Dep::new(alloc, reads)?,
        })
    }

    /// The profile of a tree: that which was made before, where the tree has the number of before.
    fn json_again(&self, alloc: Global, made: Numbered<'_>) -> Result<Bytes, AllocError>
        ensures { (self.now.number ≡ made.entry.number → self.now.json
            ≡ profile_of made.entry.tree.now)
            → IfOk result (λ text. text ≡ profile_of made.entry.tree.now) }
    {
        if self.number == made.number {
            return self.json.share();
        }
        json_of(alloc, made.tree)
    }

    /// The same with what has changed made anew.
    fn renewed(
        &self,
        alloc: Global,
        made: Numbered<'_>,
        reads: Reads<'_>,
    ) -> Result<Entry, AllocError>
        ensures name { IfOk result (λ e. e.name ≡ self.now.name) }
        ensures number { IfOk result (λ e. e.number ≡ made.entry.number) }
        ensures json { (self.now.number ≡ made.entry.number → self.now.json
            ≡ profile_of made.entry.tree.now)
            → IfOk result (λ e. e.json ≡ profile_of made.entry.tree.now) }
        ensures dep { IfOk result (λ e. e.dep.value.text ≡ dep_text_of
            (pairs_of reads.entry.build.now) (pairs_of reads.entry.check.now)) }
    {
        Ok(Entry {
            name: self.name.share()?,
            number: made.number,
            json: self.json_again(alloc, made)?,
            dep: dep_again(alloc, &self.dep, reads)?,
        })
    }

    fn outcome(&self) -> Result<Outcome, AllocError>
        ensures { IfOk result (λ o. o ≡ Outcome.Profile self.now.json self.now.dep.value.text) }
    {
        Ok(Outcome::Profile {
            json: self.json.share()?,
            dep: self.dep.text.share()?,
        })
    }
}

/// The outcome of a tree, whose texts are made.
fn made_outcome(alloc: Global, tree: &Tree, reads: Reads<'_>) -> Result<Outcome, AllocError>
    ensures { IfOk result (λ o. o ≡ outcome_by (Ok tree.now) (dep_text_of
        (pairs_of reads.entry.build.now) (pairs_of reads.entry.check.now))) }
{
    Ok(Outcome::Profile {
        json: json_of(alloc, tree)?,
        dep: dep_of(alloc, reads)?,
    })
}

/// Looks for a name from a place on. Names are asked for in the same order in each report; one that is not is not found.
fn look_for(entries: &[Entry], from: usize, name: &str) -> Sought {
    for at in from..entries.len() {
        match entries[at].name.as_str().cmp(name) {
            Ordering::Less => {}
            Ordering::Equal => {
                return Sought {
                    found: Some(at),
                    next: at + 1,
                };
            }
            Ordering::Greater => {
                return Sought {
                    found: None,
                    next: at,
                };
            }
        }
    }
    Sought {
        found: None,
        next: entries.len(),
    }
}

/// The entry at a place, where it is that of the name.
fn entry_named<'a>(entries: &'a [Entry], at: usize, name: &str) -> Option<&'a Entry>
    ensures name { IfSome result (λ e. e.now.name ≡ name.now) }
    ensures serves { (number : ℕ) (tree : Plain) → Serve name.now number tree entries.now
        → IfSome result (λ e. e.now.number ≡ number → e.now.json ≡ profile_of tree) }
{
    let entry = entries.get(at)?;
    if entry.name.as_str() != name {
        return None;
    }
    Some(entry)
}

impl KeptTexts {
    /// No texts yet. Those of each report are kept for the next one.
    pub fn new(alloc: Global) -> KeptTexts
        ensures entries { result.entries.items ≡ [] }
        ensures before { result.before.items ≡ [] }
    {
        KeptTexts {
            entries: Vec::new(alloc),
            before: Vec::new(alloc),
            place: 0,
            are_kept: true,
        }
    }

    /// For one report: its texts are made and not kept.
    pub(crate) fn unkept(alloc: Global) -> KeptTexts
        ensures entries { result.entries.items ≡ [] }
        ensures before { result.before.items ≡ [] }
    {
        KeptTexts {
            entries: Vec::new(alloc),
            before: Vec::new(alloc),
            place: 0,
            are_kept: false,
        }
    }

    /// A report begins.
    pub(crate) fn begin(&mut self, alloc: Global)
        ensures before { self.new.before.items ≡ self.old.entries.items }
        ensures entries { self.new.entries.items ≡ [] }
    {
        self.before = mem::replace(&mut self.entries, Vec::new(alloc));
        self.place = 0;
    }

    /// It ends: what was kept before and was not asked for is dropped.
    pub(crate) fn end(&mut self, alloc: Global)
        ensures before { self.new.before.items ≡ [] }
        ensures entries { self.new.entries.items ≡ self.old.entries.items }
    {
        self.before = Vec::new(alloc);
        self.place = 0;
    }

    /// Where the texts of a name stand among those of the last report, which are passed.
    fn seek(&mut self, name: &str) -> Option<usize>
        ensures before { self.new.before.items ≡ self.old.before.items }
        ensures entries { self.new.entries.items ≡ self.old.entries.items }
    {
        let sought = look_for(&self.before, self.place, name);
        self.place = sought.next;
        sought.found
    }

    /// The texts of an object, with what has changed made anew.
    fn entry(
        &mut self,
        alloc: Global,
        name: &str,
        made: Numbered<'_>,
        reads: Reads<'_>,
    ) -> Result<Entry, AllocError>
        ensures name { IfOk result (λ e. e.name ≡ name.now) }
        ensures number { IfOk result (λ e. e.number ≡ made.entry.number) }
        ensures json { Serve name.now made.entry.number made.entry.tree.now self.old.before.items
            → IfOk result (λ e. e.json ≡ profile_of made.entry.tree.now) }
        ensures dep { IfOk result (λ e. e.dep.value.text ≡ dep_text_of
            (pairs_of reads.entry.build.now) (pairs_of reads.entry.check.now)) }
        ensures before { self.new.before.items ≡ self.old.before.items }
        ensures entries { self.new.entries.items ≡ self.old.entries.items }
    {
        let Some(at) = self.seek(name) else {
            return Entry::new(alloc, name, made, reads);
        };
        match entry_named(&self.before, at, name) {
            Some(entry) => entry.renewed(alloc, made, reads),
            None => Entry::new(alloc, name, made, reads),
        }
    }

    /// The outcome of an object whose build gives this tree and which has read this.
    pub(crate) fn outcome(
        &mut self,
        alloc: Global,
        name: &str,
        made: Numbered<'_>,
        reads: Reads<'_>,
    ) -> Result<Outcome, AllocError>
        ensures outcome { Serve name.now made.entry.number made.entry.tree.now
            self.old.before.items → IfOk result (λ o. o ≡ outcome_by (Ok made.entry.tree.now)
            (dep_text_of (pairs_of reads.entry.build.now) (pairs_of reads.entry.check.now))) }
        ensures before { self.new.before.items ≡ self.old.before.items }
        ensures entries { Serve name.now made.entry.number made.entry.tree.now
            self.old.before.items → OnOk result ((self.new.entries.items
            ≡ self.old.entries.items) ⊎ IsAdded name.now made.entry.number made.entry.tree.now
            self.old.entries.items self.new.entries.items) }
    {
        if !self.are_kept {
            return made_outcome(alloc, made.tree, reads);
        }
        let entry = self.entry(alloc, name, made, reads)?;
        let outcome = entry.outcome()?;
        self.entries.push(entry)?;
        Ok(outcome)
    }
}
