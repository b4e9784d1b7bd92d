ghost use Rattle.std.specs.Prelude.{◌≡◌, IfOk};
ghost use Rattle.path_tree.specs.declared.path.Anchor.TheVariants as anchor;
ghost use Rattle.watch.specs.Notes.{another_value};

use crate::reading::{Order, read_order};
use crate::site::Site;
use assign_rules::share_terms;
use outside::Sink;
use path_tree::{Anchor, Name, Path, Term};
use questions::Key;
use rebuild::Why;
use runner::Runner;
use std::alloc::{AllocError, Global};

/// The path of what stands at terms in an object.
fn path_in(alloc: Global, object: &Name, terms: &[Term]) -> Result<Path, AllocError>
    ensures { IfOk result (λ path. path ≡ record {
      anchor = anchor.External object.now;
      terms = terms.now;
    }) }
{
    Ok(Path {
        anchor: Anchor::External(object.share()?),
        terms: share_terms(alloc, terms)?,
    })
}

/// `NAME read OBJECT:PATH, where another value stands now`
fn another_value(alloc: Global, name: &str, path: &Path) -> Result<Vec<u8>, AllocError>
    ensures { IfOk result (λ note. note.items ≡ another_value name.now path.now) }
{
    let mut note = Vec::from_slice(alloc, name.as_bytes())?;
    note.extend_from_slice(b" read ")?;
    note.extend_from_slice(path.text(alloc)?.as_str().as_bytes())?;
    note.extend_from_slice(b", where another value stands now\n")?;
    Ok(note)
}

/// What a reader is told behind the answer to a line: of `why NAME` the path of another object whose value had changed;
/// of other lines, and where something else was the cause, nothing.
fn note_on<R: Runner, S, H, K>(
    alloc: Global,
    line: &[u8],
    site: &Site<R, S, H, K>,
) -> Result<Option<Vec<u8>>, AllocError> {
    let Order::Why(name) = read_order(alloc, line)? else {
        return Ok(None);
    };
    match site.works.engine.why(name) {
        Why::Changed(Key::Under { object, terms }) if site.has_taken => {
            let path = path_in(alloc, object, terms.as_slice())?;
            Ok(Some(another_value(alloc, name, &path)?))
        }
        _ => Ok(None),
    }
}

/// Tells a reader, behind the answer to a line, what the answer leaves out; nothing where memory is wanting.
pub(crate) fn note<R: Runner, S, H, K, O: Sink>(
    alloc: Global,
    line: &[u8],
    site: &Site<R, S, H, K>,
    out: &O,
) {
    if let Ok(Some(note)) = note_on(alloc, line, site) {
        out.note(&note);
    }
}
