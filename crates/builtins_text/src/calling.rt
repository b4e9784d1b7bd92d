ghost use Rattle.base.specs.Answers.{Gives};
ghost use Rattle.builtins_text.specs.Calls.{call_of};
ghost use Rattle.path_tree.specs.Refusals.{refusal};

use crate::addresses::{ip4_to_long, long_to_ip4};
use crate::formatting::format;
use crate::joining::join;
use crate::names::Call;
use crate::parts::substr;
use crate::to_numbers::to_long;
use crate::values::{escape, to_boolean, to_lowercase, to_string, to_uppercase, unescape};
use path_tree::{Refused, Tree};
use std::alloc::Global;

/// What a function gives of its arguments, or why it gives nothing: `BadArgument` where their count
/// or a kind is wrong, or where the function's own rule says so; then `BadIndex` for a position
/// outside of a text, `Overflow` for a number past 64 bits, `TooLarge` for a text of over
/// `MAX_TEXT_BYTES` bytes. No such text is put together before it is refused.
pub fn call(alloc: Global, call: Call, args: &[Tree]) -> Result<Tree, Refused>
    ensures { Gives (λ t. t) refusal result (call_of call args.now) }
{
    match call {
        Call::Escape => escape(alloc, args),
        Call::Unescape => unescape(alloc, args),
        Call::ToString => to_string(alloc, args),
        Call::ToLong => to_long(args),
        Call::ToBoolean => to_boolean(args),
        Call::ToLowercase => to_lowercase(alloc, args),
        Call::ToUppercase => to_uppercase(alloc, args),
        Call::Substr => substr(alloc, args),
        Call::Join => join(alloc, args),
        Call::Format => format(alloc, args),
        Call::Ip4ToLong => ip4_to_long(alloc, args),
        Call::LongToIp4 => long_to_ip4(alloc, args),
    }
}
