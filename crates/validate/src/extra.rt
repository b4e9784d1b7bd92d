ghost use Rattle.std.specs.HashSet.{contains};
ghost use Rattle.std.specs.Prelude.{◌≡◌, IfOk, bytes_eq, option_copied};
ghost use Rattle.path_tree.specs.Children.{child_fields};
ghost use Rattle.path_tree.specs.Find.{key_at, kind_of};
ghost use Rattle.path_tree.specs.declared.kind.Kind.TheVariants as kind;
ghost use Rattle.type_defs.specs.Resolved.{Fields, fields_of};
ghost use Rattle.type_defs.specs.Tables.{all_seen};
ghost use Rattle.validate.specs.Check.{has_key, other_key};
ghost use Rattle.validate.specs.Keys.{AreKeys, HasKeys};
ghost use Rattle.validate.specs.Walks.{extra_key};

use base::Text;
use path_tree::{Key, Tree};
use std::alloc::{AllocError, Global};
use std::collections::HashSet;
use type_defs::RecordField;

/// How many fields are looked through for each key of a value. Of more fields a set of their keys
/// is made first.
const MAX_SCANNED_FIELDS: usize = 32;

/// The fields of a record, to look for keys among them.
#[derive(Drop)]
enum Keys<'a> {
    Few(&'a [RecordField]),
    Many(HashSet<Text>),
}

#[tactic(auto, using(crate::proofs::Walking::has_more, type_defs::proofs::Shapes::seen_field))]
fn has_key(fields: &[RecordField], key: &Key) -> bool
    ensures { result ≡ has_key key.now (fields_of (all_seen fields.now)) }
{
    for field in fields {
        if field.key == *key {
            return true;
        }
    }
    false
}

#[inline(never)]
fn set_of(alloc: Global, fields: &[RecordField]) -> Result<HashSet<Text>, AllocError>
    ensures { IfOk result (λ keys. AreKeys keys (fields_of (all_seen fields.now))) }
{
    let mut keys = HashSet::with_capacity(alloc, fields.len())?;
    for field in fields {
        keys.insert(field.key.text_handle().share()?)?;
    }
    Ok(keys)
}

fn keys_of(alloc: Global, fields: &[RecordField]) -> Result<Keys<'_>, AllocError>
    ensures { IfOk result (λ keys. HasKeys keys (fields_of (all_seen fields.now))) }
{
    if fields.len() <= MAX_SCANNED_FIELDS {
        return Ok(Keys::Few(fields));
    }
    Ok(Keys::Many(set_of(alloc, fields)?))
}

/// Whether a key is one of a set, which is seldom made: apart, it takes no room where it is not.
#[inline(never)]
fn is_in(keys: &HashSet<Text>, key: &Key) -> bool
    ensures { result ≡ contains bytes_eq keys.now key.now }
{
    keys.contains(key.text_handle())
}

/// Whether a key is that of a field.
fn is_among(keys: &Keys<'_>, key: &Key) -> bool
    ensures { (fs : Fields) → HasKeys keys.now fs → result ≡ has_key key.now fs }
{
    match keys {
        Keys::Few(fields) => has_key(fields, key),
        Keys::Many(keys) => is_in(keys, key),
    }
}

/// The i-th key of a dict, where no field has it.
fn extra_key<'a>(keys: &Keys<'_>, value: &'a Tree, i: usize) -> Option<&'a Key>
    ensures { (fs : Fields) → HasKeys keys.now fs
        → option_copied result ≡ extra_key fs (key_at i value.now) }
{
    let key = value.key_handle(i)?;
    if is_among(keys, key) { None } else { Some(key) }
}

/// The least key of a dict that no field has.
#[tactic(auto, using(crate::proofs::Walking::other_more, crate::proofs::Walking::other_end, crate::proofs::Walking::fields_start))]
pub(crate) fn other_key<'a>(
    alloc: Global,
    fields: &[RecordField],
    value: &'a Tree,
) -> Result<Option<&'a Key>, AllocError>
    requires { kind_of value.now ≡ kind.Dict }
    ensures { IfOk result (λ k. option_copied k
        ≡ other_key (fields_of (all_seen fields.now)) (child_fields value.now)) }
{
    let keys = keys_of(alloc, fields)?;
    for i in 0..value.len() {
        let extra = extra_key(&keys, value, i);
        if extra.is_some() {
            return Ok(extra);
        }
    }
    Ok(None)
}
