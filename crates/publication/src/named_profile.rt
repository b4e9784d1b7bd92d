ghost use Rattle.std.specs.Prelude.{◌≡◌, IfOk};
ghost use Rattle.publication.specs.Troubles.{name_of};
ghost use Rattle.publication.specs.Wants.{bytes_of};

use crate::profile::Profile;
use crate::trouble::Which;
use base::{Bytes, Text};
use std::alloc::{AllocError, Global};
use std::marker::Model;

/// A profile beside the names of its two files. Contracts see the profile.
#[derive(Drop)]
pub(crate) struct NamedProfile<'p> {
    profile: &'p Profile,
    json: Text,
    dep: Text,
}

impl<'p> Model for NamedProfile<'p> {
    ghost use Rattle.std.specs.Prelude.{◌≡◌};
    ghost use Rattle.publication.specs.declared.profile.Profile.{Profile};
    ghost use Rattle.publication.specs.OwnNames.{json_name, dep_name};

    ghost Value = { Profile };

    ghost view = { λ n. n.profile.now };

    ghost invariant = { λ n. (n.json ≡ json_name n.profile.now.name)
        × (n.dep ≡ dep_name n.profile.now.name) };
}

impl<'p> NamedProfile<'p> {
    fn new(alloc: Global, profile: &'p Profile) -> Result<NamedProfile<'p>, AllocError>
        ensures { IfOk result (λ named. named ≡ profile.now) }
    {
        let json = Text::joined(alloc, profile.name.as_str(), ".json")?;
        let dep = Text::joined(alloc, profile.name.as_str(), ".dep")?;
        Ok(NamedProfile { profile, json, dep })
    }

    /// The object's name.
    pub(crate) fn object(&self) -> &Text
        ensures { result.now ≡ self.now.name }
    {
        &self.profile.name
    }

    /// The name of one of its files.
    pub(crate) fn file_name(&self, which: Which) -> &Text
        ensures { result.now ≡ name_of which self.now.name }
    {
        match which {
            Which::Json => &self.json,
            Which::Dep => &self.dep,
        }
    }

    /// The bytes of one of its files.
    pub(crate) fn bytes(&self, which: Which) -> &Bytes
        ensures { result.now ≡ bytes_of which self.now }
    {
        match which {
            Which::Json => &self.profile.json,
            Which::Dep => &self.profile.dep,
        }
    }
}

/// Profiles with the names of their files, each made once.
pub(crate) fn named<'p>(
    alloc: Global,
    profiles: &'p [Profile],
) -> Result<Vec<NamedProfile<'p>>, AllocError>
    ensures { IfOk result (λ made. made.items ≡ profiles.now) }
{
    let mut made = Vec::with_capacity(alloc, profiles.len())?;
    for profile in profiles {
        made.push(NamedProfile::new(alloc, profile)?)?;
    }
    Ok(made)
}
