ghost use Rattle.std.specs.Prelude.{◌≡◌, ◌+◌, IfSome, option_map};
ghost use Rattle.pan_ast.specs.TemplatesSeen.{template_seen};
ghost use Rattle.dml_meaning.specs.Lookups.{is_structure, named_so, of_kind, on_bytes, or_fault, structure_named, template_named};
ghost use Rattle.dml_world.specs.Answers.{IsPresent, IsSeen, bytes_of, present_of};
ghost use Rattle.dml_world.specs.Exits.{Looks};
ghost use Rattle.dml_world.specs.Seen.{around_of};

use crate::files::{Present, find_template_file};
use crate::frame::Around;
use crate::leaf::stop_on;
use crate::stop::Stop;
use crate::world::{Seen, TemplateStop, World};
use base::{Steps, Text};
use pan_ast::{Code, Place, Template, TemplateKind, Work};
use std::alloc::Global;
use std::rc::Rc;
use std::sync::ledger::Ledger;

/// The template of a file that is there, or the file's first fault.
fn read_file<W: World>(
    alloc: Global,
    file: &Text,
    world: &mut W,
    work: &Work,
) -> Result<Rc<Template>, Stop>
    requires there { IsSeen file.now Seen.There W.answers }
    ensures { Looks (λ t. template_seen t.value) result W.answers work.now (W.asked world.old)
        work.now (W.asked world.new) (or_fault (W.reading file.now (bytes_of file.now W.answers))) }
{
    match world.template(alloc, file) {
        Ok(template) => Ok(template),
        Err(TemplateStop::Fault(fault)) => Err(Stop::Fault(Box::new(alloc, fault)?)),
        Err(TemplateStop::Memory) => Err(Stop::Memory),
    }
}

/// The template of what was found by a name.
fn read_found<W: World>(
    alloc: Global,
    place: &Place,
    name: &str,
    found: Option<Present>,
    world: &mut W,
    work: &Work,
) -> Result<Rc<Template>, Stop>
    requires there { IfSome found (λ x. IsPresent x W.answers) }
    ensures { Looks (λ t. template_seen t.value) result W.answers work.now (W.asked world.old)
        work.now (W.asked world.new) (on_bytes place.now name.now
        (λ f bs. or_fault (W.reading f bs)) (option_map (present_of W.answers) found)) }
{
    match found {
        None => Err(stop_on(alloc, Code::NoTemplate, place, name)),
        Some(Present::Long(file)) => Err(stop_on(alloc, Code::FileTooLong, place, file.as_str())),
        Some(Present::Whole(file)) => read_file(alloc, &file, world, work),
    }
}

/// The template, where its header has this name.
fn named_so<W: World>(
    alloc: Global,
    name: &str,
    template: Rc<Template>,
    world: &W,
    work: &Work,
) -> Result<Rc<Template>, Stop>
    ensures { Looks (λ t. template_seen t.value) result W.answers work.now (W.asked world.now)
        work.now (W.asked world.now) (named_so name.now (template_seen template.value)) }
{
    if template.name.as_str() == name {
        return Ok(template);
    }
    Err(stop_on(alloc, Code::WrongTemplate, &template.name_place, name))
}

/// The template of a name (Pan Book, "Template Loading"): looked for below the entries of LOADPATH,
/// each file that is asked costing a step. Refused in this order: a name that finds nothing, a file
/// that is too long, the first fault of the file, a header with another name.
#[tactic(auto, unfolding(dml_meaning::specs::Lookups::template_named))]
pub fn template_named<W: World, L: Ledger>(
    alloc: Global,
    place: &Place,
    name: &str,
    around: &Around<'_>,
    world: &mut W,
    work: &mut Work,
    steps: &mut Steps<L>,
) -> Result<Rc<Template>, Stop>
    ensures gives { Looks (λ t. template_seen t.value) result W.answers work.old
        (W.asked world.old) work.new (W.asked world.new)
        (template_named (around_of around.now W.reading W.calls) place.now name.now) }
    ensures counted { steps.new + work.new.left ≡ steps.old + work.old.left }
{
    let found = find_template_file(alloc, place, name, around, world, work, steps)?;
    let template = read_found(alloc, place, name, found, world, work)?;
    named_so(alloc, name, template, world, work)
}

fn is_structure(kind: TemplateKind) -> bool
    ensures { result ≡ is_structure kind }
{
    match kind {
        TemplateKind::Structure => true,
        TemplateKind::Ordinary
        | TemplateKind::Object
        | TemplateKind::Unique
        | TemplateKind::Declaration => false,
    }
}

/// The structure template of a name: `template_named`, and then refused where it is of another
/// kind.
#[tactic(auto, unfolding(dml_meaning::specs::Lookups::structure_named))]
pub fn structure_named<W: World, L: Ledger>(
    alloc: Global,
    place: &Place,
    name: &str,
    around: &Around<'_>,
    world: &mut W,
    work: &mut Work,
    steps: &mut Steps<L>,
) -> Result<Rc<Template>, Stop>
    ensures gives { Looks (λ t. template_seen t.value) result W.answers work.old
        (W.asked world.old) work.new (W.asked world.new)
        (structure_named (around_of around.now W.reading W.calls) place.now name.now) }
    ensures counted { steps.new + work.new.left ≡ steps.old + work.old.left }
{
    let template = template_named(alloc, place, name, around, world, work, steps)?;
    if is_structure(template.kind) {
        return Ok(template);
    }
    Err(stop_on(alloc, Code::WrongKind, place, name))
}
