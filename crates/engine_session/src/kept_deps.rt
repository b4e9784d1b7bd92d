//! Texts of dependency files, each with what it was made of, so that it is made anew only where that has changed.

ghost use Rattle.std.specs.Prelude.{◌≡◌, ◌++◌, IfOk, true, map};
ghost use Rattle.json_profile.specs.Dependencies.{dep_text_of};
ghost use Rattle.read_sets.specs.Items.{pairs_of};
ghost use Rattle.engine_session.specs.KeptDeps.{asked_line, asked_lines, item_line, item_lines, lines_text};

use base::{Bytes, Text};
use json_profile::dep_text;
use path_tree::Name;
use questions::Key;
use read_sets::Item;
use rebuild::Reads;
use std::alloc::{AllocError, Global};
use std::rc::Rc;

/// What was asked for, as far as a dependency file tells of it.
#[derive(Drop)]
enum Asked {
    File { name: Text, is_there: bool },
    Object(Name),
}

/// The bytes of a dependency file, and what was asked for in the build and in the check.
#[derive(Drop)]
pub(crate) struct Dep {
    build: Vec<Asked>,
    check: Vec<Asked>,
    pub text: Bytes,
    ghost is: { text ≡ lines_text (asked_lines build.items ++ asked_lines check.items) },
}

/// The text of what an object looked at.
pub(crate) fn dep_of(alloc: Global, reads: Reads<'_>) -> Result<Bytes, AllocError>
    ensures { IfOk result (λ text. text ≡ dep_text_of (pairs_of reads.entry.build.now)
        (pairs_of reads.entry.check.now)) }
{
    Bytes::from_vec(dep_text(alloc, reads.build, reads.check)?)
}

/// What an item asked for.
fn asked_by(item: &Item) -> Result<Asked, AllocError>
    ensures { IfOk result (λ asked. asked_line asked ≡ item_line item.now) }
{
    match &item.key {
        Key::File(name) => Ok(Asked::File {
            name: name.share()?,
            is_there: item.number > 0,
        }),
        Key::Under { object, .. } => Ok(Asked::Object(object.share()?)),
    }
}

/// What items asked for.
fn all_asked(alloc: Global, items: &[Item]) -> Result<Vec<Asked>, AllocError>
    ensures { IfOk result (λ made. asked_lines made.items ≡ item_lines items.now) }
{
    let mut made = Vec::with_capacity(alloc, items.len())?;
    for item in items {
        made.push(asked_by(item)?)?;
    }
    Ok(made)
}

/// Whether an item has asked for this.
fn is_asked(asked: &Asked, item: &Item) -> bool
    ensures { result ≡ true → asked_line asked.now ≡ item_line item.now }
{
    match (asked, &item.key) {
        (Asked::File { name, is_there }, Key::File(file)) => {
            *is_there == (item.number > 0) && name.as_str() == file.as_str()
        }
        (Asked::Object(name), Key::Under { object, .. }) => name.as_str() == object.as_str(),
        _ => false,
    }
}

/// Whether items have asked for these, in this order.
fn are_asked(asked: &[Asked], items: &[Item]) -> bool
    ensures { result ≡ true → asked_lines asked.now ≡ item_lines items.now }
{
    if asked.len() != items.len() {
        return false;
    }
    for i in 0..items.len() {
        if !is_asked(&asked[i], &items[i]) {
            return false;
        }
    }
    true
}

impl Dep {
    #[tactic(auto, using(crate::proofs::DepLines::dep_by_lines))]
    pub(crate) fn new(alloc: Global, reads: Reads<'_>) -> Result<Rc<Dep>, AllocError>
        ensures { IfOk result (λ dep. dep.value.text ≡ dep_text_of
            (pairs_of reads.entry.build.now) (pairs_of reads.entry.check.now)) }
    {
        let text = dep_of(alloc, reads)?;
        let build = all_asked(alloc, reads.build.items())?;
        let check = all_asked(alloc, reads.check.items())?;
        Ok(Rc::new(alloc, Dep { build, check, text })?)
    }

    /// Whether it was made of this.
    #[tactic(auto, using(crate::proofs::DepLines::dep_by_lines))]
    fn is_of(&self, reads: Reads<'_>) -> bool
        ensures { result ≡ true → self.now.text ≡ dep_text_of
            (pairs_of reads.entry.build.now) (pairs_of reads.entry.check.now) }
    {
        are_asked(&self.build, reads.build.items()) && are_asked(&self.check, reads.check.items())
    }
}

/// The text of what was read: that which was made before, where the same was asked for.
pub(crate) fn dep_again(
    alloc: Global,
    dep: &Rc<Dep>,
    reads: Reads<'_>,
) -> Result<Rc<Dep>, AllocError>
    ensures { IfOk result (λ dep. dep.value.text ≡ dep_text_of (pairs_of reads.entry.build.now)
        (pairs_of reads.entry.check.now)) }
{
    if dep.is_of(reads) {
        return Ok(dep.clone()?);
    }
    Dep::new(alloc, reads)
}
