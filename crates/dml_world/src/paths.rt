ghost use Rattle.std.specs.Prelude.{◌≡◌, IfOk};
ghost use Rattle.dml_meaning.specs.Lookups.{look, look_at, look_other, looked_in, looked_under};
ghost use Rattle.path_tree.specs.Find.{get};
ghost use Rattle.path_tree.specs.Paths.{path_of};
ghost use Rattle.dml_world.specs.Answers.{looked_of};
ghost use Rattle.dml_world.specs.Exits.{Looks};
ghost use Rattle.dml_world.specs.Seen.{around_of};

use crate::frame::Around;
use crate::leaf::stop_on;
use crate::stop::{Question, Stop};
use crate::world::{Foreign, World, WorldStop};
use assign_rules::share_terms;
use base::Text;
use pan_ast::{Code, Place, Work};
use path_tree::{Anchor, Name, Path, PathError, Term, Tree};
use std::alloc::{AllocError, Global};

/// What stands at a path of this object, or of another one.
#[derive(Drop)]
pub enum Looked {
    NoObject(Name),
    Nothing,
    There(Tree),
}

/// What terms find in the own tree.
fn look_here(root: &Tree, terms: &[Term]) -> Result<Looked, AllocError>
    ensures { IfOk result (λ x. looked_of x ≡ looked_in (get terms.now root.now)) }
{
    match root.get(terms) {
        Some(value) => Ok(Looked::There(value.copy()?)),
        None => Ok(Looked::Nothing),
    }
}

/// What a run has to know before it can go on.
fn need(alloc: Global, object: &Name, terms: &[Term]) -> Result<Box<Question>, AllocError>
    ensures { IfOk result (λ q. (q.value.object ≡ object.now) × (q.value.terms ≡ terms.now)) }
{
    let question = Question {
        object: object.share()?,
        terms: share_terms(alloc, terms)?,
    };
    Ok(Box::new(alloc, question)?)
}

/// What terms find in the tree of another object.
#[tactic(auto, using(crate::proofs::Looking::tells))]
fn look_other<W: World>(
    alloc: Global,
    place: &Place,
    object: &Name,
    terms: &[Term],
    world: &mut W,
    work: &Work,
) -> Result<Looked, Stop>
    ensures { Looks looked_of result W.answers work.now (W.asked world.old) work.now
        (W.asked world.new) (look_other place.now object.now terms.now) }
{
    match world.foreign(alloc, object, terms) {
        Ok(Foreign::Absent) => Ok(Looked::NoObject(object.share()?)),
        Ok(Foreign::Failed) => Err(stop_on(alloc, Code::ForeignFailed, place, object.as_str())),
        Ok(Foreign::Circular) => Err(stop_on(alloc, Code::Circular, place, object.as_str())),
        Ok(Foreign::NoValue) => Ok(Looked::Nothing),
        Ok(Foreign::Value(value)) => Ok(Looked::There(value)),
        Err(WorldStop::Need) => Err(Stop::Need(need(alloc, object, terms)?)),
        Err(WorldStop::Memory) => Err(Stop::Memory),
    }
}

/// What stands at a path, written as `text` (Pan Book, "Paths"): an absolute one of this object, or
/// one of another object, which the world is asked for. A path of the object itself is read in its
/// own tree; a relative one is no path here.
pub fn look_at<W: World>(
    alloc: Global,
    place: &Place,
    text: &str,
    path: &Path,
    around: &Around<'_>,
    world: &mut W,
    work: &Work,
) -> Result<Looked, Stop>
    ensures { Looks looked_of result W.answers work.now (W.asked world.old) work.now
        (W.asked world.new) (look_at (around_of around.now W.reading W.calls) place.now text.now
        path.now.anchor path.now.terms) }
{
    let terms = path.terms.as_slice();
    match &path.anchor {
        Anchor::Absolute => Ok(look_here(around.frame.root, terms)?),
        Anchor::External(object) => {
            if object.as_str() == around.frame.object.as_str() {
                return Ok(look_here(around.frame.root, terms)?);
            }
            look_other(alloc, place, object, terms, world, work)
        }
        Anchor::Relative => Err(stop_on(alloc, Code::BadPath, place, text)),
    }
}

/// What stands at the path that a text is.
#[tactic(auto, unfolding(dml_meaning::specs::Lookups::look))]
pub fn look<W: World>(
    alloc: Global,
    place: &Place,
    text: &Text,
    around: &Around<'_>,
    world: &mut W,
    work: &Work,
) -> Result<Looked, Stop>
    ensures { Looks looked_of result W.answers work.now (W.asked world.old) work.now
        (W.asked world.new) (look (around_of around.now W.reading W.calls) place.now text.now) }
{
    match Path::parse(alloc, text) {
        Ok(path) => look_at(alloc, place, text.as_str(), &path, around, world, work),
        Err(PathError::Memory) => Err(Stop::Memory),
        Err(_) => Err(stop_on(alloc, Code::BadPath, place, text.as_str())),
    }
}
