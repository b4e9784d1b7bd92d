ghost use Rattle.std.specs.Prelude.{◌≡◌, Err, Ok};
ghost use Rattle.dml_ops.specs.Operators.{unary_of};

use path_tree::{Refused, Tree, UnaryOp};

/// An operator of one operand. `+`, `-` and `~` (each bit turned) take a long and `!` a boolean;
/// another operand is `TypeClash`. `Overflow` exactly for `-` of -2^63. It takes no memory.
pub fn unary(op: UnaryOp, a: &Tree) -> Result<Tree, Refused>
    ensures { result ≡ unary_of op a.now }
{
    match op {
        UnaryOp::Plus => match a.as_long() {
            Some(value) => Ok(Tree::long(value)),
            None => Err(Refused::TypeClash),
        },
        UnaryOp::Minus => match a.as_long() {
            Some(value) => match value.checked_neg() {
                Some(negated) => Ok(Tree::long(negated)),
                None => Err(Refused::Overflow),
            },
            None => Err(Refused::TypeClash),
        },
        UnaryOp::Flip => match a.as_long() {
            Some(value) => Ok(Tree::long(!value)),
            None => Err(Refused::TypeClash),
        },
        UnaryOp::Not => match a.as_boolean() {
            Some(value) => Ok(Tree::boolean(!value)),
            None => Err(Refused::TypeClash),
        },
    }
}
