ghost use Rattle.std.specs.Prelude.{◌≡◌, ◌≢◌, true, false};
ghost use Rattle.std.specs.List.{list_all};
ghost use Rattle.base.specs.Answers.{Gives};
ghost use Rattle.builtins_tree.specs.Dicts.{dict_of_pairs, put_new};
ghost use Rattle.builtins_tree.specs.Merges.{dict_in_turn};
ghost use Rattle.builtins_tree.specs.Pairs.{has_value};
ghost use Rattle.path_tree.specs.Lists.{is_too_large, within_limits};
ghost use Rattle.path_tree.specs.Plain.{Fields};
ghost use Rattle.path_tree.specs.Plain as plain;
ghost use Rattle.path_tree.specs.Refusals.{refusal};

use path_tree::{Key, Refused, Tree};
use std::alloc::Global;

/// A key and its value.
#[derive(Drop)]
pub(crate) struct Pair {
    pub(crate) key: Key,
    pub(crate) value: Tree,
}

/// The dict of pairs, in which a later pair replaces one before it with its key. The last is put
/// first, so that each dict on the way is a part of the whole. `TooLarge` exactly where the whole
/// is larger than `MAX_TREE_SIZE` or higher than `MAX_TREE_HEIGHT`.
pub(crate) fn dict_of_pairs(alloc: Global, pairs: &[Pair]) -> Result<Tree, Refused>
    requires { list_all has_value pairs.now ≡ true }
    ensures { Gives (λ t. t) refusal result (dict_of_pairs pairs.now) }
{
    let mut dict = Tree::dict_with_room(alloc, pairs.len())?;
    for i in (0..pairs.len()).rev() {
        match put_new(alloc, &mut dict, &pairs[i]) {
            Ok(()) => (),
            Err(error) => return Err(error),
        }
    }
    Ok(dict)
}

/// The dict of pairs of which no key stands twice. Keys in byte order go to the end of the dict, so
/// the first is put first. `TooLarge` as above.
pub(crate) fn dict_in_turn(alloc: Global, pairs: &[Pair]) -> Result<Tree, Refused>
    requires { list_all has_value pairs.now ≡ true }
    ensures { Gives (λ t. t) refusal result (dict_in_turn pairs.now) }
{
    let mut dict = Tree::dict_with_room(alloc, pairs.len())?;
    for pair in pairs {
        match put_new(alloc, &mut dict, pair) {
            Ok(()) => (),
            Err(error) => return Err(error),
        }
    }
    Ok(dict)
}

/// Puts a pair where its key is not there.
fn put_new(alloc: Global, dict: &mut Tree, pair: &Pair) -> Result<(), Refused>
    requires value { pair.now.value ≢ plain.null }
    requires within { is_too_large dict.old ≡ false }
    ensures { (fs : Fields) → dict.old ≡ plain.dict fs → Gives (λ _. dict.new) refusal result
        (within_limits (plain.dict (put_new pair.now fs))) }
{
    dict.put_new(alloc, &pair.key, &pair.value)
}
