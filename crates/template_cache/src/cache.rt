ghost use Rattle.std.specs.Prelude.{◌≡◌, ◌≤◌, ◌&&◌, length, bytes_eq, IfOk, IfErr, IfSome};
ghost use Rattle.base.specs.Answers.{Gives};
ghost use Rattle.base.specs.declared.limits.TheConstants.{MAX_FILE_BYTES};
ghost use Rattle.pan_ast.specs.Failures.{fault_of};
ghost use Rattle.pan_ast.specs.TemplatesSeen.{template_seen};
ghost use Rattle.pan_template.specs.TemplateOf.{template_of};
ghost use Rattle.template_cache.specs.Parsed.{parsed_seen, IsParsed, IsParsed-prop};

use crate::reading::read_template;
use base::{Bytes, Text};
use pan_ast::{Failure, Fault, Template};
use std::alloc::{AllocError, Global};
use std::collections::BTreeMap;
use std::rc::Rc;

/// What a file spells: a template, or its first fault.
#[derive(Drop)]
pub(crate) enum Parsed {
    Template(Rc<Template>),
    Fault(Fault),
}

/// A file that was read. It says itself which bytes it was read from.
#[derive(Drop)]
struct Entry {
    file: Text,
    bytes: Bytes,
    parsed: Parsed,
    ghost is: { IsParsed file bytes parsed } by { IsParsed-prop file bytes parsed },
}

/// Templates that were read, the last of each file name. A file is read again where it holds other
/// bytes.
#[derive(Drop)]
pub struct TemplateCache {
    entries: BTreeMap<Text, Entry>,
}

fn parse_file(alloc: Global, file: &Text, bytes: &[u8]) -> Result<Parsed, AllocError>
    requires { length bytes.now ≤ MAX_FILE_BYTES }
    ensures { IfOk result (λ p. template_of file.now bytes.now ≡ parsed_seen p) }
{
    match read_template(alloc, file, bytes) {
        Ok(template) => Ok(Parsed::Template(Rc::new(alloc, template)?)),
        Err(Failure::Fault(fault)) => Ok(Parsed::Fault(fault)),
        Err(Failure::Memory) => Err(AllocError),
    }
}

// What was read, shared.
fn shared(parsed: &Parsed) -> Result<Rc<Template>, Failure>
    ensures { Gives (λ t. template_seen t.value) fault_of result (parsed_seen parsed.now) }
{
    match parsed {
        Parsed::Template(template) => Ok(template.clone()?),
        Parsed::Fault(fault) => Err(Failure::Fault(fault.share()?)),
    }
}

impl Entry {
    fn read(alloc: Global, file: &Text, bytes: &Bytes) -> Result<Entry, AllocError>
        requires { length bytes.now ≤ MAX_FILE_BYTES }
        ensures file { IfOk result (λ e. e.file ≡ file.now) }
        ensures bytes { IfOk result (λ e. e.bytes ≡ bytes.now) }
    {
        let parsed = parse_file(alloc, file, bytes.as_slice())?;
        Ok(Entry {
            file: file.share()?,
            bytes: bytes.share()?,
            parsed,
        })
    }

    fn template(&self) -> Result<Rc<Template>, Failure>
        ensures { Gives (λ t. template_seen t.value) fault_of result
            (template_of self.now.file self.now.bytes) }
    {
        shared(&self.parsed)
    }

    fn is_of(&self, file: &Text, bytes: &Bytes) -> bool
        ensures { result ≡ (bytes_eq self.now.file file.now && bytes_eq self.now.bytes bytes.now) }
    {
        self.file.as_str() == file.as_str() && self.bytes.as_slice() == bytes.as_slice()
    }
}

impl TemplateCache {
    /// Nothing was read yet.
    pub fn new(alloc: Global) -> TemplateCache {
        TemplateCache {
            entries: BTreeMap::new(alloc),
        }
    }

    // The entry of a file with these bytes.
    fn find(&self, file: &Text, bytes: &Bytes) -> Option<&Entry>
        ensures { IfSome result (λ e. (e.now.file ≡ file.now) × (e.now.bytes ≡ bytes.now)) }
    {
        let entry = self.entries.get(file)?;
        if entry.is_of(file, bytes) {
            Some(entry)
        } else {
            None
        }
    }

    /// The template that a file with these bytes spells, or its first fault; it is read where it was
    /// not read before.
    pub fn template(
        &mut self,
        alloc: Global,
        file: &Text,
        bytes: &Bytes,
    ) -> Result<Rc<Template>, Failure>
        requires { length bytes.now ≤ MAX_FILE_BYTES }
        ensures { Gives (λ t. template_seen t.value) fault_of result
            (template_of file.now bytes.now) }
    {
        if let Some(entry) = self.find(file, bytes) {
            return entry.template();
        }
        let entry = Entry::read(alloc, file, bytes)?;
        let template = entry.template();
        self.entries.insert(file.share()?, entry)?;
        template
    }
}
