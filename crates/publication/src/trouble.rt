ghost use Rattle.std.specs.Prelude.{◌≡◌, ◌++◌, ℕ, List, [], IfOk, OnOk, true, bytes_eq, cond, if◌then◌else◌};
ghost use Rattle.std.specs.HashSet.{contains};
ghost use Rattle.publication.specs.OwnNames.{is_own};
ghost use Rattle.publication.specs.Troubles.{called, name_of, fault_line, trouble_lines};

use base::Text;
use std::alloc::{AllocError, Global};
use std::collections::HashSet;

/// A file of an object.
#[derive(Clone, Copy, PartialEq, Eq)]
pub enum Which {
    /// `NAME.json`
    Json,
    /// `NAME.dep`
    Dep,
}

/// A call on a name of a shelf.
#[derive(Clone, Copy, PartialEq, Eq)]
pub enum Call {
    Remove,
    Read,
    Put,
}

/// A call of a publication that failed: on which file of which object.
#[derive(Drop)]
pub struct Trouble {
    pub object: Text,
    pub which: Which,
    pub call: Call,
}

/// A failed removal of an object's file.
fn not_removed_of(alloc: Global, object: &str, which: Which) -> Result<Trouble, AllocError>
    ensures { IfOk result (λ t. (called t ≡ name_of which object.now) × (t.call ≡ Call.Remove)) }
{
    Ok(Trouble {
        object: Text::new(alloc, object)?,
        which,
        call: Call::Remove,
    })
}

/// The failed removal of an own name.
pub(crate) fn not_removed(alloc: Global, name: &str) -> Result<Trouble, AllocError>
    requires { is_own name.now ≡ true }
    ensures { IfOk result (λ t. (called t ≡ name.now) × (t.call ≡ Call.Remove)) }
{
    if let Some(object) = name.strip_suffix(".json") {
        return not_removed_of(alloc, object, Which::Json);
    }
    let Some(object) = name.strip_suffix(".dep") else {
        unreachable!();
    };
    not_removed_of(alloc, object, Which::Dep)
}

/// A text between two others.
fn push_between(
    text: &mut Vec<u8>,
    before: &[u8],
    object: &[u8],
    after: &[u8],
) -> Result<(), AllocError>
    ensures { OnOk result (text.new.items ≡ text.old.items
        ++ (before.now ++ object.now ++ after.now)) }
{
    text.extend_from_slice(before)?;
    text.extend_from_slice(object)?;
    text.extend_from_slice(after)
}

fn push_fault(text: &mut Vec<u8>, object: &Text) -> Result<(), AllocError>
    ensures { OnOk result (text.new.items ≡ text.old.items ++ fault_line object.now) }
{
    push_between(text, b"shelf fault ", object.as_str().as_bytes(), b"\n")
}

/// Writes the line of an object, where it was not written yet.
fn push_line(text: &mut Vec<u8>, written: bool, object: &Text) -> Result<(), AllocError>
    ensures { OnOk result (text.new.items ≡ text.old.items
        ++ (if written then [] else fault_line object.now)) }
{
    if written {
        return Ok(());
    }
    push_fault(text, object)
}

/// Writes the line of a trouble's object, where it is not among these.
fn push_once(
    text: &mut Vec<u8>,
    seen: &mut HashSet<Text>,
    trouble: &Trouble,
) -> Result<(), AllocError>
    ensures seen { OnOk result ((n : List ℕ) → contains bytes_eq seen.new n
        ≡ cond (bytes_eq trouble.now.object n) true (contains bytes_eq seen.old n)) }
    ensures text { OnOk result (text.new.items ≡ text.old.items
        ++ (if contains bytes_eq seen.old trouble.now.object then []
        else fault_line trouble.now.object)) }
{
    push_line(text, seen.contains(&trouble.object), &trouble.object)?;
    seen.insert(trouble.object.share()?)?;
    Ok(())
}

/// Writes a line for each object with a trouble, at its first one.
pub fn push_lines(alloc: Global, text: &mut Vec<u8>, troubles: &[Trouble]) -> Result<(), AllocError>
    ensures { OnOk result (text.new.items ≡ text.old.items ++ trouble_lines troubles.now) }
{
    let mut seen = HashSet::new(alloc);
    for trouble in troubles {
        push_once(text, &mut seen, trouble)?;
    }
    Ok(())
}
