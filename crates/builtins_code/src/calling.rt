ghost use Rattle.base.specs.Answers.{Gives};
ghost use Rattle.path_tree.specs.Refusals.{refusal};
ghost use Rattle.builtins_code.specs.Calls.{call_of};

use crate::base64_texts::{base64_decode, base64_encode};
use crate::digests::digest;
use crate::json_reading::json_decode;
use crate::json_writing::json_encode;
use crate::names::Call;
use builtins_patterns::{Patterns, match_call, matches, replace, split};
use path_tree::{Refused, Tree};
use std::alloc::Global;

/// What a function gives of its arguments, or why it gives nothing: first a wrong count of them,
/// then a wrong kind, then what the function itself refuses. The answer does not depend on the
/// patterns, which are those that were compiled before. A pattern that takes more room than the
/// crate `regex` allows is want of memory.
pub fn call(
    alloc: Global,
    patterns: &mut Patterns,
    call: Call,
    arguments: &[Tree],
) -> Result<Tree, Refused>
    ensures { Gives (λ t. t) refusal result (call_of call arguments.now) }
{
    match call {
        Call::Match => match_call(alloc, patterns, arguments),
        Call::Matches => matches(alloc, patterns, arguments),
        Call::Split => split(alloc, patterns, arguments),
        Call::Replace => replace(alloc, patterns, arguments),
        Call::Base64Encode => base64_encode(alloc, arguments),
        Call::Base64Decode => base64_decode(alloc, arguments),
        Call::JsonEncode => json_encode(alloc, arguments),
        Call::JsonDecode => json_decode(alloc, arguments),
        Call::Digest => digest(alloc, arguments),
    }
}
