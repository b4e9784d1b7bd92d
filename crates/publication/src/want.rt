ghost use Rattle.std.specs.Prelude.{◌≡◌, ◌++◌, ◌∷◌, [], IfOk, OnOk};
ghost use Rattle.publication.specs.Wants.{json_want, dep_want, wants_of};

use crate::profile::Profile;
use base::{Bytes, Text};
use std::alloc::{AllocError, Global};

/// Bytes that are to stand on the shelf.
#[derive(Drop)]
pub struct Want {
    pub name: Text,
    pub bytes: Bytes,
}

fn add_wants(alloc: Global, made: &mut Vec<Want>, profile: &Profile) -> Result<(), AllocError>
    ensures { OnOk result
        (made.new.items ≡ made.old.items ++ (json_want profile.now ∷ dep_want profile.now ∷ [])) }
{
    made.push(Want {
        name: Text::joined(alloc, profile.name.as_str(), ".json")?,
        bytes: profile.json.share()?,
    })?;
    made.push(Want {
        name: Text::joined(alloc, profile.name.as_str(), ".dep")?,
        bytes: profile.dep.share()?,
    })?;
    Ok(())
}

/// What profiles want on the shelf: of each its two files, in the order of the list.
pub(crate) fn wants(alloc: Global, profiles: &[Profile]) -> Result<Vec<Want>, AllocError>
    ensures { IfOk result (λ made. made.items ≡ wants_of profiles.now) }
{
    let mut made = Vec::with_capacity(alloc, profiles.len())?;
    for profile in profiles {
        add_wants(alloc, &mut made, profile)?;
    }
    Ok(made)
}
