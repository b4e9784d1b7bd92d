ghost use Rattle.std.specs.Prelude.{◌≡◌, ◌++◌, [], OnOk, codes, map};
ghost use Rattle.pan_ast.specs.Printed.{line_of};
ghost use Rattle.pan_blame.specs.Blamed.{leaf_seen};
ghost use Rattle.session.specs.Texts.{name_lines};
ghost use Rattle.engine_session.specs.Blaming.{default_text, leaf_text};

use pan_ast::{Fault, fault_line};
use pan_blame::Leaf;
use path_tree::{Anchor, Path};
use std::alloc::{AllocError, Global};
use works_again::push_place;

/// ` default`, where it is one.
fn push_default(text: &mut Vec<u8>, default: bool) -> Result<(), AllocError>
    ensures { OnOk result (text.new.items ≡ text.old.items ++ default_text default) }
{
    if default {
        return text.extend_from_slice(b" default");
    }
    Ok(())
}

/// The path of a leaf, and the place that set it, a line.
fn push_leaf(alloc: Global, text: &mut Vec<u8>, leaf: Leaf) -> Result<(), AllocError>
    ensures { OnOk result (text.new.items
        ≡ text.old.items ++ (leaf_text (leaf_seen leaf) ++ codes "\n")) }
{
    let Leaf {
        terms,
        place,
        default,
    } = leaf;
    let path = Path {
        anchor: Anchor::Absolute,
        terms,
    };
    let path = path.text(alloc)?;
    text.extend_from_slice(path.as_bytes())?;
    text.extend_from_slice(b" ")?;
    push_place(text, &place)?;
    push_default(text, default)?;
    text.extend_from_slice(b"\n")
}

/// A line for each leaf.
pub(crate) fn push_leaves(
    alloc: Global,
    text: &mut Vec<u8>,
    leaves: Vec<Leaf>,
) -> Result<(), AllocError>
    ensures { OnOk result (text.new.items
        ≡ text.old.items ++ name_lines [] (map leaf_text (map leaf_seen leaves.items))) }
{
    for leaf in leaves {
        push_leaf(alloc, text, leaf)?;
    }
    Ok(())
}

/// `fault` with the printed fault, a line.
pub(crate) fn push_fault(alloc: Global, text: &mut Vec<u8>, fault: &Fault) -> Result<(), AllocError>
    ensures { OnOk result (text.new.items
        ≡ text.old.items ++ (codes "fault " ++ line_of fault.now ++ codes "\n")) }
{
    let line = fault_line(alloc, fault)?;
    text.extend_from_slice(b"fault ")?;
    text.extend_from_slice(&line)?;
    text.extend_from_slice(b"\n")
}
