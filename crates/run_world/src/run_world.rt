ghost use Rattle.std.specs.Prelude.{◌≡◌, ℕ, List, Option, IfOk};
ghost use Rattle.pan_template.specs.TemplateOf.{template_of};
ghost use Rattle.pan_template.proofs.Files.{not_circular};
ghost use Rattle.questions.specs.Told.{answers_of};
ghost use Rattle.read_sets.specs.Items.{keys_in};
ghost use Rattle.runner.specs.Words.{words};
ghost use Rattle.value_calls.specs.Calls.{call_of, value_calls};
ghost use Rattle.run_world.specs.Noted.{AreNumbered, AreWords};
ghost use Rattle.run_world.specs.NotedSets.{AreNumbered-prop, AreWords-prop};

use crate::notes::Notes;
use crate::rooms::Rooms;
use crate::told::{foreign_of, seen_in, text_of};
use crate::trails::Trails;
use crate::words::Words;
use base::Text;
use dml_world::{Foreign, Seen, TemplateStop, World, WorldStop};
use load_path::{Content, Picture};
use pan_ast::{Failure, Place, Template};
use path_tree::{Name, Refused, Term, Tree};
use runner::Known;
use std::alloc::{AllocError, Global};
use std::marker::PhantomData;
use std::rc::Rc;
use template_cache::TemplateCache;
use value_calls::{Patterns, ValueCall, call, find};

/// What is kept from one run to the next, so that nothing is read or compiled twice. No answer
/// depends on it.
#[derive(Drop)]
pub struct Kept {
    pub templates: TemplateCache,
    pub patterns: Patterns,
    pub trails: Trails,
    pub rooms: Rooms,
}

impl Kept {
    /// Nothing was read yet.
    pub fn new(alloc: Global) -> Kept {
        Kept {
            templates: TemplateCache::new(alloc),
            patterns: Patterns::new(alloc),
            trails: Trails::new(alloc),
            rooms: Rooms::new(alloc),
        }
    }
}

/// The world of a run in which the keys tell what T says.
#[derive(Drop)]
pub struct RunWorld<'a, K: Known, T: Words> {
    pub picture: &'a Picture,
    pub known: &'a K,
    pub kept: Kept,
    pub notes: Notes,
    pub of: PhantomData<T>,
    ghost told: { AreWords (words picture.now (K.numbers known.now) (K.objects known.now)) T.tells } by { AreWords-prop (words picture.now (K.numbers known.now) (K.objects known.now)) T.tells },
    ghost numbered: { AreNumbered T.tells notes } by { AreNumbered-prop T.tells notes },
}

impl<'a, K: Known, T: Words> World for RunWorld<'a, K, T> {
    type Call = ValueCall;

    ghost asked = { λ w. keys_in w.notes };

    ghost answers = { answers_of T.tells };

    ghost reading = { template_of };

    ghost calls = { value_calls };

    ghost call_of = { call_of };

    ghost plain = { record { plain = not_circular } };

    fn file(&mut self, alloc: Global, name: &Text) -> Result<Seen, AllocError> {
        let number = self.known.file_number(name.as_str());
        self.notes.note_file(alloc, name, number)?;
        Ok(seen_in(self.picture, name))
    }

    fn template(&mut self, alloc: Global, file: &Text) -> Result<Rc<Template>, TemplateStop> {
        let Some(Content::Bytes(bytes)) = self.picture.find(file.as_str()) else {
            return Err(TemplateStop::Memory);
        };
        match self.kept.templates.template(alloc, file, bytes) {
            Ok(template) => Ok(template),
            Err(Failure::Fault(fault)) => Err(TemplateStop::Fault(fault)),
            Err(Failure::Memory) => Err(TemplateStop::Memory),
        }
    }

    fn text(&mut self, alloc: Global, file: &Text) -> Result<Option<Tree>, AllocError> {
        let Some(Content::Bytes(bytes)) = self.picture.find(file.as_str()) else {
            return Err(AllocError);
        };
        text_of(alloc, bytes.as_slice())
    }

    fn foreign(
        &mut self,
        alloc: Global,
        object: &Name,
        terms: &[Term],
    ) -> Result<Foreign, WorldStop> {
        let Some(told) = self.known.built(object, terms) else {
            return Err(WorldStop::Need);
        };
        let number = told.number;
        let Ok(foreign) = foreign_of(told) else {
            return Err(WorldStop::Memory);
        };
        match self.notes.note_object(alloc, object, terms, number) {
            Ok(()) => Ok(foreign),
            Err(AllocError) => Err(WorldStop::Memory),
        }
    }

    fn note_passed(&self, place: &Place) {
        self.kept.trails.note(place);
    }

    fn find(&self, name: &str) -> Option<ValueCall> {
        find(name)
    }

    fn room(&mut self, alloc: Global) -> Vec<Tree> {
        self.kept.rooms.take(alloc)
    }

    fn call(
        &mut self,
        alloc: Global,
        function: ValueCall,
        arguments: Vec<Tree>,
    ) -> Result<Tree, Refused> {
        let result = call(alloc, &mut self.kept.patterns, function, &arguments);
        self.kept.rooms.give_back(arguments);
        result
    }
}
