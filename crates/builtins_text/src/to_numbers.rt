ghost use Rattle.std.specs.Prelude.{◌≡◌, ◌^◌};
ghost use Rattle.base.specs.Answers.{Gives, given};
ghost use Rattle.builtins_text.specs.Numbers.{signed_of, to_long_of};
ghost use Rattle.builtins_text.specs.Saturated.{above, below};
ghost use Rattle.path_tree.specs.Refusals.{refusal};
ghost use Rattle.path_tree.specs.Values.{within_64_bits};
ghost use Rattle.path_tree.specs.declared.refused.Refused.TheVariants.{BadArgument};

use base::integers::integer_of;
use call_values::{Arguments, by_count};
use path_tree::{Refused, Tree};

/// A long as it is, 1 or 0 for a boolean, the number of a text.
pub(crate) fn to_long(args: &[Tree]) -> Result<Tree, Refused>
    ensures { Gives (λ t. t) refusal result (to_long_of args.now) }
{
    let Arguments::One(value) = by_count(args) else {
        return Err(Refused::BadArgument);
    };
    if let Some(text) = value.as_text() {
        return text_to_long(text.as_bytes());
    }
    if let Some(number) = value.as_long() {
        return Ok(Tree::long(number));
    }
    match value.as_boolean() {
        Some(value) => Ok(Tree::long(if value { 1 } else { 0 })),
        None => Err(Refused::BadArgument),
    }
}

/// The number of an integer behind an optional sign.
#[tactic(auto, using(crate::proofs::Capped::minus_is, crate::proofs::Capped::plus_is, crate::proofs::Capped::unsigned_is))]
fn text_to_long(text: &[u8]) -> Result<Tree, Refused>
    ensures { result ≡ given BadArgument (signed_of text.now) within_64_bits }
{
    let Some((sign, digits)) = text.split_first() else {
        return Err(Refused::BadArgument);
    };
    if *sign == b'-' {
        return below_zero(integer_of(digits));
    }
    if *sign == b'+' {
        return from_zero(integer_of(digits));
    }
    from_zero(integer_of(text))
}

fn below_zero(number: Option<u64>) -> Result<Tree, Refused>
    ensures { result ≡ below number }
{
    match number {
        None => Err(Refused::BadArgument),
        Some(n) if n < 1 << 63 => Ok(Tree::long(-(n as i64))),
        Some(n) if n == 1 << 63 => Ok(Tree::long(i64::MIN)),
        Some(_) => Err(Refused::Overflow),
    }
}

fn from_zero(number: Option<u64>) -> Result<Tree, Refused>
    ensures { result ≡ above number }
{
    match number {
        None => Err(Refused::BadArgument),
        Some(n) if n < 1 << 63 => Ok(Tree::long(n as i64)),
        Some(_) => Err(Refused::Overflow),
    }
}
