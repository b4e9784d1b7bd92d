ghost use Rattle.std.specs.Prelude.{◌≡◌};
ghost use Rattle.dml_ops.specs.Operators.{of_longs, of_number};
ghost use Rattle.path_tree.specs.declared.operators.BinaryOp.TheVariants as binary;

use path_tree::{BinaryOp, Refused, Tree};

/// An operator of two longs.
#[inline(always)]
pub(crate) fn of_longs(op: BinaryOp, x: i64, y: i64) -> Result<Tree, Refused>
    ensures { result ≡ of_longs op x y }
{
    match op {
        BinaryOp::Add => within(x.checked_add(y)),
        BinaryOp::Subtract => within(x.checked_sub(y)),
        BinaryOp::Multiply => within(x.checked_mul(y)),
        BinaryOp::Divide => divided(x, y),
        BinaryOp::Rest => rest(x, y),
        BinaryOp::BitAnd => Ok(Tree::long(x & y)),
        BinaryOp::BitOr => Ok(Tree::long(x | y)),
        BinaryOp::BitXor => Ok(Tree::long(x ^ y)),
        BinaryOp::Equal => Ok(Tree::boolean(x == y)),
        BinaryOp::NotEqual => Ok(Tree::boolean(x != y)),
        BinaryOp::Less => Ok(Tree::boolean(x < y)),
        BinaryOp::LessEqual => Ok(Tree::boolean(x <= y)),
        BinaryOp::More => Ok(Tree::boolean(x > y)),
        BinaryOp::MoreEqual => Ok(Tree::boolean(x >= y)),
    }
}

// The number where there is one; there is none past 64 bits.
fn within(number: Option<i64>) -> Result<Tree, Refused>
    ensures { result ≡ of_number number }
{
    match number {
        Some(value) => Ok(Tree::long(value)),
        None => Err(Refused::Overflow),
    }
}

fn divided(x: i64, y: i64) -> Result<Tree, Refused>
    ensures { result ≡ of_longs binary.Divide x y }
{
    if y == 0 {
        return Err(Refused::ZeroDivisor);
    }
    within(x.checked_div(y))
}

fn rest(x: i64, y: i64) -> Result<Tree, Refused>
    ensures { result ≡ of_longs binary.Rest x y }
{
    if y == 0 {
        return Err(Refused::ZeroDivisor);
    }
    if y == -1 {
        return Ok(Tree::long(0));
    }
    Ok(Tree::long(x % y))
}
