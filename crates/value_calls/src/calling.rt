ghost use Rattle.base.specs.Answers.{Gives};
ghost use Rattle.path_tree.specs.Refusals.{refusal};
ghost use Rattle.value_calls.specs.Calls.{call_of};

use crate::names::ValueCall;
use builtins_code::Patterns;
use path_tree::{Refused, Tree};
use std::alloc::Global;

/// What a function gives of the values of its arguments. Refused in this order: a wrong count of
/// arguments, the first argument of a wrong kind, and then by the function's own rule. The answer
/// does not depend on the patterns, which are those that were compiled before.
pub fn call(
    alloc: Global,
    patterns: &mut Patterns,
    call: ValueCall,
    arguments: &[Tree],
) -> Result<Tree, Refused>
    ensures { Gives (λ t. t) refusal result (call_of call arguments.now) }
{
    match call {
        ValueCall::Text(call) => builtins_text::call(alloc, call, arguments),
        ValueCall::Tree(call) => builtins_tree::call(alloc, call, arguments),
        ValueCall::Code(call) => builtins_code::call(alloc, patterns, call, arguments),
    }
}
