ghost use Rattle.std.specs.Prelude.{◌≡◌, ◌+◌, max, IfOk, map};
ghost use Rattle.pan_ast.specs.Types.{Choice, Formed, Full, Include, Named, Own, Record};
ghost use Rattle.pan_ast.specs.Seen.{item_seen, option_seen};
ghost use Rattle.pan_ast.specs.TypesSeen.{field_seen, fields_seen, full_seen, head_seen, type_seen};
ghost use Rattle.pan_ast.specs.Pointers.{field_pointers, fields_pointers, full_pointers, head_pointers, option_pointers, test_pointers, type_pointers};

use crate::place::Place;
use crate::syntax::Item;
use crate::types::{Bounds, Field, FullType, Head, RecordForm, Suffix, TypeForm};
use base::Text;
use path_tree::Key;
use std::alloc::{AllocError, Global};
use std::rc::Rc;

/// The range of numbers from `low` to `high`, each where it is given.
pub fn make_bounds(place: &Place, low: Option<i64>, high: Option<i64>) -> Result<Bounds, AllocError>
    ensures { IfOk result (λ b. b ≡ record { place = place.now; low = low; high = high }) }
{
    Ok(Bounds {
        place: place.share()?,
        low,
        high,
    })
}

/// `name` or `name(bounds)`
#[tactic(auto, using(crate::proofs::TypeForms::types, crate::proofs::Pointers::types))]
pub fn make_named(place: &Place, name: &Text, bounds: Option<Bounds>) -> Result<Head, AllocError>
    ensures seen { IfOk result (λ h. head_seen h ≡ Named name.now place.now bounds) }
    ensures pointers { IfOk result (λ h. head_pointers h ≡ 0) }
{
    Ok(Head::Named {
        name: name.share()?,
        place: place.share()?,
        bounds,
    })
}

/// `{ field field .. }`, extensible or not.
#[tactic(auto, using(crate::proofs::TypeForms::types, crate::proofs::Pointers::types))]
pub fn make_record(extensible: bool, fields: Vec<Field>) -> Head
    ensures seen { head_seen result ≡ Record extensible (fields_seen fields.items) }
    ensures pointers { head_pointers result ≡ 1 + fields_pointers fields.items }
{
    Head::Record(RecordForm { extensible, fields })
}

/// `choice("text", "text", ..)`
#[tactic(auto, using(crate::proofs::TypeForms::types, crate::proofs::Pointers::types))]
pub fn make_choice(texts: Vec<Text>) -> Head
    ensures seen { head_seen result ≡ Choice texts.items }
    ensures pointers { head_pointers result ≡ 1 }
{
    Head::Choice(texts)
}

/// A head and its suffixes.
#[tactic(auto, using(crate::proofs::TypeForms::types, crate::proofs::Pointers::types))]
pub fn make_type(head: Head, suffixes: Vec<Suffix>) -> TypeForm
    ensures seen { type_seen result ≡ Formed (head_seen head) suffixes.items }
    ensures pointers { type_pointers result ≡ max 1 (head_pointers head) }
{
    TypeForm { head, suffixes }
}

/// A type with its default and its test, each of the two where it is given.
#[tactic(auto, using(crate::proofs::TypeForms::types, crate::proofs::Pointers::types))]
pub fn make_full(
    alloc: Global,
    form: TypeForm,
    default: Option<Item>,
    with: Option<Item>,
) -> Result<FullType, AllocError>
    ensures seen { IfOk result (λ f. full_seen f ≡ Full (type_seen form) (option_seen default)
        (option_seen with)) }
    ensures pointers { IfOk result (λ f. full_pointers f ≡ max (type_pointers form)
        (max (option_pointers default) (test_pointers with))) }
{
    let with = match with {
        None => None,
        Some(test) => Some(Rc::new(alloc, test)?),
    };
    Ok(FullType {
        form,
        default,
        with,
    })
}

/// `"key" : type` where it is required, else `"key" ? type`.
#[tactic(auto, using(crate::proofs::TypeForms::types, crate::proofs::Pointers::types))]
pub fn make_field(
    place: &Place,
    key: Key,
    required: bool,
    full: FullType,
) -> Result<Field, AllocError>
    ensures seen { IfOk result (λ f. field_seen f ≡ Own key place.now required (full_seen full)) }
    ensures pointers { IfOk result (λ f. field_pointers f ≡ full_pointers full) }
{
    Ok(Field::Own {
        key,
        place: place.share()?,
        required,
        full,
    })
}

/// `include name` among fields: the place of the word, the name and its place.
#[tactic(auto, using(crate::proofs::TypeForms::types, crate::proofs::Pointers::types))]
pub fn make_include(place: &Place, name: &Text, name_place: &Place) -> Result<Field, AllocError>
    ensures seen { IfOk result (λ f. field_seen f ≡ Include place.now name.now name_place.now) }
    ensures pointers { IfOk result (λ f. field_pointers f ≡ 0) }
{
    Ok(Field::Include {
        place: place.share()?,
        name: name.share()?,
        name_place: name_place.share()?,
    })
}
