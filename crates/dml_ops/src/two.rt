ghost use Rattle.std.specs.Prelude.{◌≡◌};
ghost use Rattle.base.specs.Answers.{Gives};
ghost use Rattle.path_tree.specs.Refusals.{refusal};
ghost use Rattle.dml_ops.specs.Operators.{binary_of, of_booleans, with_boolean, with_long, with_text};

use crate::longs::of_longs;
use crate::texts::of_texts;
use path_tree::{BinaryOp, Refused, Tree};
use std::alloc::Global;

/// An operator of two operands. `+` takes two longs or two texts; `- * / %` two longs; `& | ^` two
/// longs or two booleans; `==` and `!=` two longs, texts or booleans; `< <= > >=` two longs, or two
/// texts by their bytes. Other operands are `TypeClash`. A number past 64 bits is `Overflow`, a
/// zero divisor `ZeroDivisor`, and a joined text of over `MAX_TEXT_BYTES` bytes `TooLarge`.
#[inline(always)]
pub fn binary(alloc: Global, op: BinaryOp, a: &Tree, b: &Tree) -> Result<Tree, Refused>
    ensures { Gives (λ t. t) refusal result (binary_of op a.now b.now) }
{
    if let Some(x) = a.as_long() {
        return with_long(op, x, b);
    }
    if let Some(x) = a.as_text() {
        return with_text(alloc, op, x, b);
    }
    if let Some(x) = a.as_boolean() {
        return with_boolean(op, x, b);
    }
    Err(Refused::TypeClash)
}

#[inline(always)]
fn with_long(op: BinaryOp, x: i64, b: &Tree) -> Result<Tree, Refused>
    ensures { result ≡ with_long op x b.now }
{
    match b.as_long() {
        Some(y) => of_longs(op, x, y),
        None => Err(Refused::TypeClash),
    }
}

fn with_text(alloc: Global, op: BinaryOp, x: &str, b: &Tree) -> Result<Tree, Refused>
    ensures { Gives (λ t. t) refusal result (with_text op x.now b.now) }
{
    match b.as_text() {
        Some(y) => of_texts(alloc, op, x, y),
        None => Err(Refused::TypeClash),
    }
}

fn with_boolean(op: BinaryOp, x: bool, b: &Tree) -> Result<Tree, Refused>
    ensures { result ≡ with_boolean op x b.now }
{
    match b.as_boolean() {
        Some(y) => of_booleans(op, x, y),
        None => Err(Refused::TypeClash),
    }
}

fn of_booleans(op: BinaryOp, x: bool, y: bool) -> Result<Tree, Refused>
    ensures { result ≡ of_booleans op x y }
{
    let value = match op {
        BinaryOp::BitAnd => x && y,
        BinaryOp::BitOr => x || y,
        BinaryOp::BitXor => x ^ y,
        BinaryOp::Equal => x == y,
        BinaryOp::NotEqual => x != y,
        BinaryOp::Add
        | BinaryOp::Subtract
        | BinaryOp::Multiply
        | BinaryOp::Divide
        | BinaryOp::Rest => {
            return Err(Refused::TypeClash);
        }
        BinaryOp::Less | BinaryOp::LessEqual | BinaryOp::More | BinaryOp::MoreEqual => {
            return Err(Refused::TypeClash);
        }
    };
    Ok(Tree::boolean(value))
}
