ghost use Rattle.std.specs.Prelude.{◌≡◌, ◌≢◌, [], IfErr, IfOk, false, true, unwrap_or};
ghost use Rattle.std.specs.List.{list_all};
ghost use Rattle.base.specs.Answers.{Gives};
ghost use Rattle.builtins_tree.specs.Dicts.{are_pairs, dict_of, has_key, pairs_in};
ghost use Rattle.builtins_tree.specs.Pairs.{has_value};
ghost use Rattle.path_tree.specs.Find.{text_of};
ghost use Rattle.path_tree.specs.Grammar.{is_key};
ghost use Rattle.path_tree.specs.Refusals.{refusal};
ghost use Rattle.path_tree.specs.declared.refused.Refused.TheVariants.{BadIndex, Memory};

use crate::pairs::{Pair, dict_of_pairs};
use path_tree::{Key, KeyError, Refused, Tree};
use std::alloc::Global;

/// The dict of keys and values in turn, in which a later pair replaces one before it with its key.
pub(crate) fn dict(alloc: Global, args: &[Tree]) -> Result<Tree, Refused>
    ensures { Gives (λ t. t) refusal result (dict_of args.now) }
{
    if !are_pairs(args) {
        return Err(Refused::BadArgument);
    }
    match pairs_in(alloc, args) {
        Ok(pairs) => dict_of_pairs(alloc, pairs.as_slice()),
        Err(error) => Err(error),
    }
}

/// Whether they are texts and values in turn, of which no value is null.
fn are_pairs(args: &[Tree]) -> bool
    ensures { result ≡ are_pairs args.now }
{
    let mut rest = args;
    while let Some((key, others)) = rest.split_first() {
        let Some((value, others)) = others.split_first() else {
            return false;
        };
        if key.as_text().is_none() || value.is_null() {
            return false;
        }
        rest = others;
    }
    true
}

/// Each text with the value behind it. `BadIndex` where a text is no key.
fn pairs_in(alloc: Global, args: &[Tree]) -> Result<Vec<Pair>, Refused>
    requires { are_pairs args.now ≡ true }
    ensures pairs { IfOk result (λ pairs. pairs.items ≡ pairs_in args.now) }
    ensures keys { IfOk result (λ pairs. list_all has_key (pairs_in args.now) ≡ true) }
    ensures values { IfOk result (λ pairs. list_all has_value pairs.items ≡ true) }
    ensures err { IfErr result (λ e. e ≢ Memory → (e ≡ BadIndex)
        × (list_all has_key (pairs_in args.now) ≡ false)) }
{
    let mut pairs = Vec::with_capacity(alloc, args.len() / 2)?;
    let mut rest = args;
    while let Some((key, others)) = rest.split_first() {
        let Some((value, others)) = others.split_first() else {
            unreachable!();
        };
        let key = match key_of(key) {
            Ok(key) => key,
            Err(error) => return Err(error),
        };
        let value = value.copy()?;
        pairs.push(Pair { key, value })?;
        rest = others;
    }
    Ok(pairs)
}

/// A text as a key.
fn key_of(value: &Tree) -> Result<Key, Refused>
    ensures ok { IfOk result (λ key. key ≡ unwrap_or (text_of value.now) []) }
    ensures key { IfOk result (λ key. is_key key ≡ true) }
    ensures err { IfErr result (λ e. e ≢ Memory → (e ≡ BadIndex)
        × (is_key (unwrap_or (text_of value.now) []) ≡ false)) }
{
    let Some(text) = value.text_handle() else {
        return Err(Refused::BadIndex);
    };
    match Key::of_text(text) {
        Ok(key) => Ok(key),
        Err(KeyError::BadKey) => Err(Refused::BadIndex),
        Err(KeyError::Memory) => Err(Refused::Memory),
    }
}
