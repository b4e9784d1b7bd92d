ghost use Rattle.std.specs.Prelude.{◌≡◌, ◌≤◌, IfOk, None};
ghost use Rattle.base.specs.Answers.{Gives};
ghost use Rattle.pan_ast.specs.TypesSeen.{body_seen};
ghost use Rattle.type_defs.specs.declared.measured.TheConstants.{MAX_TYPE_DEPTH};
ghost use Rattle.type_defs.specs.Depth.{shape_depth, type_depth};
ghost use Rattle.type_defs.specs.Refusals.{type_refusal};
ghost use Rattle.type_defs.specs.Resolved.{Known, default_of};
ghost use Rattle.type_defs.specs.ResolvedSeen.{resolved_seen, shape_seen};
ghost use Rattle.type_defs.specs.Resolving.{completed, within};

use crate::resolved::{DefaultValue, Resolved, Shape};
use crate::type_error::TypeError;
use pan_ast::{Item, Place};
use path_tree::Name;
use std::alloc::{AllocError, Global};
use std::marker::Model;
use std::rc::Rc;

/// How deep a type may be: a base type or a choice is 1 deep, and each name, range, suffix and
/// record around a type makes 1 more. What goes down a type goes no deeper on the stack.
pub const MAX_TYPE_DEPTH: u32 = 1000;

/// A type that is being made, and how deep it is. Contracts see the type.
#[derive(Drop)]
pub(crate) struct Measured {
    resolved: Resolved,
    depth: u32,
}

impl Model for Measured {
    ghost use Rattle.std.specs.Prelude.{◌≡◌, ◌≤◌};
    ghost use Rattle.type_defs.specs.declared.resolved.Resolved.{Resolved};
    ghost use Rattle.type_defs.specs.declared.measured.TheConstants.{MAX_TYPE_DEPTH};
    ghost use Rattle.type_defs.specs.Depth.{type_depth};
    ghost use Rattle.type_defs.specs.ResolvedSeen.{resolved_seen};
    ghost use Rattle.type_defs.specs.contracts.resolved.Resolved as in_memory;
    ghost use Rattle.std.specs.Coded.{codes};

    ghost Value = { Resolved };

    ghost coded = { Prim.hlevel (codes, in_memory.the_row.coded) };

    ghost view = { λ m. m.resolved };

    ghost invariant = { λ m. (m.depth ≡ type_depth (resolved_seen m.resolved))
        × (m.depth ≤ MAX_TYPE_DEPTH) };
}

/// A type that many may hold, at most [MAX_TYPE_DEPTH] deep. Contracts see the type.
#[derive(Drop)]
pub struct SharedType {
    resolved: Rc<Resolved>,
    depth: u32,
}

impl Model for SharedType {
    ghost use Rattle.std.specs.Prelude.{◌≡◌, ◌≤◌};
    ghost use Rattle.type_defs.specs.declared.resolved.Resolved.{Resolved};
    ghost use Rattle.type_defs.specs.declared.measured.TheConstants.{MAX_TYPE_DEPTH};
    ghost use Rattle.type_defs.specs.Depth.{type_depth};
    ghost use Rattle.type_defs.specs.ResolvedSeen.{resolved_seen};
    ghost use Rattle.type_defs.specs.contracts.resolved.Resolved as in_memory;
    ghost use Rattle.std.specs.Coded.{codes};

    ghost Value = { Resolved };

    ghost coded = { Prim.hlevel (codes, in_memory.the_row.coded) };

    ghost view = { λ t. t.resolved.value };

    ghost invariant = { λ t. (t.depth ≡ type_depth (resolved_seen t.resolved.value))
        × (t.depth ≤ MAX_TYPE_DEPTH) };
}

impl Measured {
    /// A type of this shape, where the types in it are so deep at most. `TooDeep` at the place
    /// where the type is deeper than the limit.
    #[tactic(auto, using(crate::proofs::Shapes::shapes), unfolding(crate::specs::Resolving::within))]
    pub(crate) fn around(
        place: &Place,
        template: &Name,
        shape: Shape,
        default: Option<DefaultValue>,
        inner: u32,
    ) -> Result<Measured, TypeError>
        requires inner { inner ≡ shape_depth (shape_seen shape) }
        ensures { Gives resolved_seen type_refusal result (within place.now
            (Known (shape_seen shape) None template.now default)) }
    {
        if MAX_TYPE_DEPTH <= inner {
            return Err(TypeError::TooDeep(place.share()?));
        }
        let resolved = Resolved {
            shape,
            condition: None,
            template: template.share()?,
            default,
        };
        Ok(Measured {
            resolved,
            depth: inner + 1,
        })
    }

    /// Its default, shared.
    #[tactic(auto, using(crate::proofs::Shapes::shapes))]
    pub(crate) fn default(&self) -> Result<Option<DefaultValue>, AllocError>
        ensures { IfOk result (λ d. d ≡ default_of (resolved_seen self.now)) }
    {
        shared_default(&self.resolved)
    }

    /// The type with its test, and with its own default where it has one.
    #[tactic(auto, using(crate::proofs::Shapes::shapes))]
    pub(crate) fn completed(
        self,
        test: &Option<Rc<Item>>,
        own: Option<DefaultValue>,
    ) -> Result<Measured, AllocError>
        ensures { IfOk result (λ t. resolved_seen t
            ≡ completed (body_seen test.now) own (resolved_seen self)) }
    {
        let Measured { resolved, depth } = self;
        let Resolved {
            shape,
            condition: _condition,
            template,
            default,
        } = resolved;
        let resolved = Resolved {
            shape,
            condition: shared_test(test)?,
            template,
            default: own.or(default),
        };
        Ok(Measured { resolved, depth })
    }

    /// The type, for many to hold.
    pub(crate) fn shared(self, alloc: Global) -> Result<SharedType, AllocError>
        ensures { IfOk result (λ t. t ≡ self) }
    {
        let Measured { resolved, depth } = self;
        Ok(SharedType {
            resolved: Rc::new(alloc, resolved)?,
            depth,
        })
    }
}

impl SharedType {
    /// The type.
    pub fn as_resolved(&self) -> &Resolved
        ensures value { result.now ≡ self.now }
        ensures limit { type_depth (resolved_seen self.now) ≤ MAX_TYPE_DEPTH }
    {
        &self.resolved
    }

    /// The same type, shared.
    pub fn share(&self) -> Result<SharedType, AllocError>
        ensures { IfOk result (λ t. t ≡ self.now) }
    {
        Ok(SharedType {
            resolved: self.resolved.clone()?,
            depth: self.depth,
        })
    }

    /// The type as a part of another one.
    pub(crate) fn as_part(&self) -> Result<Rc<Resolved>, AllocError>
        ensures { IfOk result (λ t. t.value ≡ self.now) }
    {
        self.resolved.clone()
    }

    /// How deep it is.
    pub(crate) fn depth(&self) -> u32
        ensures depth { result ≡ type_depth (resolved_seen self.now) }
        ensures limit { result ≤ MAX_TYPE_DEPTH }
    {
        self.depth
    }

    /// Its default, shared.
    pub(crate) fn default(&self) -> Result<Option<DefaultValue>, AllocError>
        ensures { IfOk result (λ d. d ≡ default_of (resolved_seen self.now)) }
    {
        shared_default(&self.resolved)
    }
}

#[tactic(auto, using(crate::proofs::Shapes::shapes))]
fn shared_default(resolved: &Resolved) -> Result<Option<DefaultValue>, AllocError>
    ensures { IfOk result (λ d. d ≡ default_of (resolved_seen resolved.now)) }
{
    match &resolved.default {
        Some(default) => Ok(Some(default.share()?)),
        None => Ok(None),
    }
}

fn shared_test(test: &Option<Rc<Item>>) -> Result<Option<Rc<Item>>, AllocError>
    ensures { IfOk result (λ t. body_seen t ≡ body_seen test.now) }
{
    match test {
        Some(item) => Ok(Some(item.clone()?)),
        None => Ok(None),
    }
}
