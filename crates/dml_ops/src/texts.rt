ghost use Rattle.std.specs.Prelude.{◌≡◌, ◌≢◌};
ghost use Rattle.base.specs.Answers.{Gives};
ghost use Rattle.path_tree.specs.Refusals.{refusal};
ghost use Rattle.dml_ops.specs.Operators.{of_texts};
ghost use Rattle.path_tree.specs.declared.operators.BinaryOp.TheVariants as binary;

use base::Text;
use base::limits::MAX_TEXT_BYTES;
use path_tree::{BinaryOp, Refused, Tree};
use std::alloc::Global;

/// An operator of two texts.
pub(crate) fn of_texts(alloc: Global, op: BinaryOp, x: &str, y: &str) -> Result<Tree, Refused>
    ensures { Gives (λ t. t) refusal result (of_texts op x.now y.now) }
{
    match op {
        BinaryOp::Add => joined(alloc, x, y),
        _ => compared(op, x, y),
    }
}

fn joined(alloc: Global, x: &str, y: &str) -> Result<Tree, Refused>
    ensures { Gives (λ t. t) refusal result (of_texts binary.Add x.now y.now) }
{
    if x.len() > MAX_TEXT_BYTES || y.len() > MAX_TEXT_BYTES - x.len() {
        return Err(Refused::TooLarge);
    }
    let text = Text::joined(alloc, x, y)?;
    Tree::shared_text(&text)
}

fn compared(op: BinaryOp, x: &str, y: &str) -> Result<Tree, Refused>
    requires { op ≢ binary.Add }
    ensures { result ≡ of_texts op x.now y.now }
{
    let value = match op {
        BinaryOp::Equal => x == y,
        BinaryOp::NotEqual => x != y,
        BinaryOp::Less => x.cmp(y).is_lt(),
        BinaryOp::LessEqual => x.cmp(y).is_le(),
        BinaryOp::More => x.cmp(y).is_gt(),
        BinaryOp::MoreEqual => x.cmp(y).is_ge(),
        _ => return Err(Refused::TypeClash),
    };
    Ok(Tree::boolean(value))
}
