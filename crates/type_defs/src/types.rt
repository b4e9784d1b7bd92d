ghost use Rattle.std.specs.Prelude.{◌≡◌, ◌↔◌, ℕ, List, None, true, option_map, IfOk, OnOk, OnErr, IsErrOf};
ghost use Rattle.type_defs.specs.Names.{base_of, is_taken, with_type};
ghost use Rattle.type_defs.specs.Tables.{known};
ghost use Rattle.type_defs.specs.ResolvedSeen.{resolved_seen};
ghost use Rattle.type_defs.specs.declared.types.DefineError.TheVariants.{Memory};

use crate::measured::SharedType;
use crate::resolved::Base;
use base::Text;
use std::alloc::{AllocError, AllocFailed, Global};
use std::collections::BTreeMap;

/// The types that have names (Pan Book, "Types").
#[derive(Drop)]
pub struct Types {
    by_name: BTreeMap<Text, SharedType>,
}

/// Why a name takes no type.
#[derive(Clone, Copy)]
pub enum DefineError {
    /// The name is taken.
    Redefined,
    /// There was no memory for the name.
    Memory,
}

impl From<AllocError> for DefineError {
    ghost from_gives = { λ _ e. e ≡ Memory };

    fn from(_e: AllocError) -> DefineError {
        DefineError::Memory
    }
}

impl<T: Drop> From<AllocFailed<T>> for DefineError {
    ghost from_gives = { λ _ e. e ≡ Memory };

    fn from(_e: AllocFailed<T>) -> DefineError {
        DefineError::Memory
    }
}

/// The base type of a name.
pub(crate) fn base_of(name: &str) -> Option<Base>
    ensures { result ≡ base_of name.now }
{
    match name {
        "string" => Some(Base::Text),
        "long" => Some(Base::Long),
        "boolean" => Some(Base::Boolean),
        "number" => Some(Base::Number),
        "property" => Some(Base::Property),
        "resource" => Some(Base::Resource),
        "element" => Some(Base::Element),
        "list" => Some(Base::List),
        "dict" | "nlist" => Some(Base::Dict),
        _ => None,
    }
}

impl Types {
    /// No names.
    pub fn new(alloc: Global) -> Types
        ensures { (name : List ℕ) → known result name ≡ None }
    {
        Types {
            by_name: BTreeMap::new(alloc),
        }
    }

    /// The definition of a name.
    pub(crate) fn find(&self, name: &Text) -> Option<&SharedType>
        ensures { option_map (λ t. resolved_seen t.now) result ≡ known self.now name.now }
    {
        self.by_name.get(name)
    }

    /// Whether no definition may take the name: it is that of a base type, or `choice`, or defined.
    pub fn taken(&self, name: &Text) -> bool
        ensures { result ≡ is_taken (known self.now) name.now }
    {
        base_of(name.as_str()).is_some() || name.as_str() == "choice" || self.find(name).is_some()
    }

    /// Gives a type a name. `Redefined` exactly where the name is taken. After a refusal all is as
    /// before.
    pub fn define(&mut self, name: &Text, resolved: SharedType) -> Result<(), DefineError>
        ensures ok { OnOk result ((n : List ℕ) → known self.new n
            ≡ with_type name.now (resolved_seen resolved) (known self.old) n) }
        ensures taken { IsErrOf result DefineError.Redefined
            ↔ (is_taken (known self.old) name.now ≡ true) }
        ensures before { OnErr result ((n : List ℕ) → known self.new n ≡ known self.old n) }
    {
        if self.taken(name) {
            return Err(DefineError::Redefined);
        }
        self.by_name.insert(name.share()?, resolved)?;
        Ok(())
    }
}
