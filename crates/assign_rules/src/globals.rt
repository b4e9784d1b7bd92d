ghost use Rattle.std.specs.Prelude.{◌≡◌, OnErr, OnOk, bytes_eq, option_copied};
ghost use Rattle.std.specs.List.{list_any};
ghost use Rattle.base.specs.Answers.{Gives};
ghost use Rattle.dml_meaning.specs.Around.{found};
ghost use Rattle.assign_rules.specs.Globals.{changed, may_set, no_globals, set_refusal, with_global};

use crate::variables::Variables;
use base::Text;
use dml_meaning::automatic_name;
use path_tree::Tree;
use std::alloc::{AllocError, AllocFailed, Global};
use std::marker::Model;

/// Why a variable is not set.
#[derive(Clone, Copy, PartialEq, Eq)]
pub enum SetError {
    /// The name is one of those whose values are not set by statements, as `SELF`.
    Automatic,
    /// The variable is final.
    Final,
    /// Memory is wanting.
    Memory,
}

impl From<AllocError> for SetError {
    ghost from_gives = { λ _ e. e ≡ Memory };

    ghost use Rattle.assign_rules.specs.declared.globals.SetError.TheVariants.{Memory};

    fn from(_e: AllocError) -> SetError {
        SetError::Memory
    }
}

impl<T: Drop> From<AllocFailed<T>> for SetError {
    ghost from_gives = { λ _ e. e ≡ Memory };

    ghost use Rattle.assign_rules.specs.declared.globals.SetError.TheVariants.{Memory};

    fn from(_e: AllocFailed<T>) -> SetError {
        SetError::Memory
    }
}

/// The variables of a program, and the names of those that are final (Pan Book, "Variables").
#[derive(Drop)]
pub struct Globals {
    variables: Variables,
    finals: Vec<Text>,
}

impl Model for Globals {
    ghost use Rattle.path_tree.specs.Code.{plain_code};
    ghost use Rattle.std.specs.Coded.{codes};
    ghost use Rattle.assign_rules.specs.Globals.{GlobalsValue};

    ghost Value = { GlobalsValue };

    ghost coded = { Prim.hlevel (codes, plain_code) };

    ghost view = { λ g. record { variables = g.variables; finals = g.finals.items } };
}

impl Globals {
    /// No variable is set.
    pub fn new(alloc: Global) -> Globals
        ensures { result ≡ no_globals }
    {
        Globals {
            variables: Variables::new(alloc),
            finals: Vec::new(alloc),
        }
    }

    /// The value of a variable.
    pub fn value(&self, name: &str) -> Option<&Tree>
        ensures { option_copied result ≡ found self.now.variables name.now }
    {
        self.variables.find(name)
    }

    /// Whether a statement may set a variable.
    pub fn may_set(&self, name: &str) -> bool
        ensures { result ≡ may_set self.now name.now }
    {
        automatic_name(name).is_none() && !is_among(name, &self.finals)
    }

    /// Sets a variable, and makes it final where `last` says so. Null removes it.
    pub fn set(&mut self, name: &Text, last: bool, value: Tree) -> Result<(), SetError>
        ensures gives { Gives (λ _. self.new) set_refusal result
            (with_global name.now last value self.old) }
        ensures before { OnErr result (self.new ≡ self.old) }
    {
        if automatic_name(name.as_str()).is_some() {
            return Err(SetError::Automatic);
        }
        if is_among(name.as_str(), &self.finals) {
            return Err(SetError::Final);
        }
        self.change(name, last, value)?;
        Ok(())
    }

    // Sets a variable that may be set.
    fn change(&mut self, name: &Text, last: bool, value: Tree) -> Result<(), AllocError>
        ensures ok { OnOk result (self.new ≡ changed name.now last value self.old) }
        ensures before { OnErr result (self.new ≡ self.old) }
    {
        self.finals.reserve(1)?;
        let mark = if last { Some(name.share()?) } else { None };
        if value.is_null() {
            self.variables.remove(name.as_str());
        } else {
            self.variables.set(name, value)?;
        }
        if let Some(name) = mark {
            self.finals.push(name).unwrap();
        }
        Ok(())
    }
}

fn is_among(name: &str, names: &[Text]) -> bool
    ensures { result ≡ list_any (bytes_eq name.now) names.now }
{
    names.iter().any(|other| other.as_str() == name)
}
