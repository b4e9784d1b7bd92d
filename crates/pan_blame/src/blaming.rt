ghost use Rattle.std.specs.Prelude.{◌≡◌, IfOk, IfSome, false, is_ok, is_some, map, option_map};
ghost use Rattle.pan_blame.specs.Blamed.{blamed, blames, leaf_seen};
ghost use Rattle.assign_rules.specs.Profiles.{replayed};
ghost use Rattle.pan_blame.specs.Marks.{all_marks, tag_in};
ghost use Rattle.pan_blame.specs.Tags.{Tag, nothing};
ghost use Rattle.pan_blame.specs.Underway.{AreValues, IsDone, tags_by};

use crate::leaves::push_leaves;
use crate::marks::newest;
use crate::replaying::{Replay, change};
use assign_rules::share_terms;
use base::Seq;
use pan_ast::{Change, Place};
use path_tree::{Name, Term, Tree};
use std::alloc::{AllocError, Global};
use std::collections::HashMap;

/// A property, or an empty container, with the statement or binding that last set it, and whether that was the
/// default of a type.
#[derive(Drop)]
pub struct Leaf {
    pub terms: Seq<Term>,
    pub place: Place,
    pub default: bool,
}

/// The changes of a log, from an empty dict on; none where one is refused.
fn replay_log(alloc: Global, object: &Name, log: &[Change]) -> Result<Option<Replay>, AllocError>
    requires { AreValues log.now }
    ensures some { IfOk result (λ r. IfSome r (λ s. (header : Tag) → IsDone header log.now s.tree
        (all_marks s.top object.now s.layers.items))) }
    ensures none { IfOk result (λ r. is_some r ≡ false → is_ok (replayed log.now nothing) ≡ false) }
{
    let tree = Tree::empty_dict(alloc)?;
    let top = HashMap::new(alloc);
    let layers = Vec::new(alloc);
    let mut replay = Replay { tree, top, layers };
    for i in 0..log.len() {
        let done = change(alloc, object, &mut replay, &log[i], i + 1)?;
        if !done {
            return Ok(None);
        }
    }
    Ok(Some(replay))
}

/// The leaf at a path, of the change with this number.
fn leaf_at(
    header: &Place,
    log: &[Change],
    terms: Seq<Term>,
    number: usize,
) -> Result<Leaf, AllocError>
    ensures { IfOk result (λ l. leaf_seen l ≡ record {
      terms = terms;
      tag = tag_in log.now (record { place = header.now; default = false }) number;
    }) }
{
    if number > 0 {
        if let Some(change) = log.get(number - 1) {
            return Ok(Leaf {
                terms,
                place: change.place.share()?,
                default: change.default,
            });
        }
    }
    Ok(Leaf {
        terms,
        place: header.share()?,
        default: false,
    })
}

/// The leaves at these paths, by the marks of a replay.
fn tag_all(
    alloc: Global,
    object: &Name,
    header: &Place,
    log: &[Change],
    replay: &Replay,
    paths: &[Seq<Term>],
) -> Result<Vec<Leaf>, AllocError>
    ensures { IfOk result (λ leaves. map leaf_seen leaves.items
        ≡ blames (tags_by log.now (record { place = header.now; default = false })
        (all_marks replay.now.top object.now replay.now.layers.items)) paths.now) }
{
    let mut leaves = Vec::new(alloc);
    for path in paths {
        let number = newest(alloc, &replay.top, &replay.layers, object, path.as_slice())?;
        let terms = share_terms(alloc, path.as_slice())?;
        leaves.push(leaf_at(header, log, terms, number)?)?;
    }
    Ok(leaves)
}

/// The leaves at and below the terms in the tree of an object, which the log gives, each with the statement or binding
/// that last set it. None where nothing is at the terms.
#[tactic(auto, using(crate::proofs::Blamed::refused_none))]
pub fn blame(
    alloc: Global,
    object: &Name,
    header: &Place,
    log: &[Change],
    terms: &[Term],
) -> Result<Option<Vec<Leaf>>, AllocError>
    requires { AreValues log.now }
    ensures { IfOk result (λ r. option_map (λ v. map leaf_seen v.items) r
        ≡ blamed header.now log.now terms.now) }
{
    let Some(replay) = replay_log(alloc, object, log)? else {
        return Ok(None);
    };
    let Some(tree) = replay.tree.get(terms) else {
        return Ok(None);
    };
    let mut paths = Vec::new(alloc);
    push_leaves(alloc, terms, tree, &mut paths)?;
    let leaves = tag_all(alloc, object, header, log, &replay, &paths)?;
    Ok(Some(leaves))
}
