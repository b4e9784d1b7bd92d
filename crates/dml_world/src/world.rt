ghost use Rattle.std.specs.Prelude.{◌≡◌, [], ℕ, List, Option, Result, Ok, IfOk, IfErr, OnOk, OnErr, option_map};
ghost use Rattle.base.specs.Answers.{Gives};
ghost use Rattle.path_tree.specs.Plain.{Plain};
ghost use Rattle.path_tree.specs.Refusals.{refusal};
ghost use Rattle.path_tree.specs.declared.refused.Refused.{Refused};
ghost use Rattle.pan_ast.specs.declared.fault.Fault.{Fault};
ghost use Rattle.pan_ast.specs.Templates.{Template};
ghost use Rattle.questions.specs.declared.key.Key.{Key};
ghost use Rattle.questions.specs.declared.key.Key.TheVariants.{File};
ghost use Rattle.questions.specs.Contents.{Answers, with_key};
ghost use Rattle.dml_meaning.specs.Laws.{IsReading};
ghost use Rattle.dml_world.specs.Answers.{IsFileFault, IsSeen, TellsValue, bytes_of, text_read};
ghost use Rattle.pan_ast.specs.TemplatesSeen.{template_seen};

use base::Text;
use pan_ast::{Fault, Place, Template};
use path_tree::{Name, Refused, Term, Tree};
use std::alloc::{AllocError, Global};
use std::rc::Rc;

/// Whether a file is there.
#[derive(Clone, Copy, PartialEq, Eq)]
pub enum Seen {
    Missing,
    There,
    /// It is there, with more bytes than a file may have.
    TooLong,
}

/// Why a file gives no template.
#[derive(Drop)]
pub enum TemplateStop {
    /// The first fault of the file: of its characters, its words, its grammar or its nesting.
    Fault(Fault),
    Memory,
}

/// What a world tells of the value at a path of another object.
#[derive(Drop)]
pub enum Foreign {
    /// There is no such object.
    Absent,
    /// Its build failed.
    Failed,
    /// Its chain of reads never ends.
    Circular,
    NoValue,
    Value(Tree),
}

/// Why a world tells nothing.
#[derive(Clone, Copy, PartialEq, Eq)]
pub enum WorldStop {
    /// It does not know the object.
    Need,
    Memory,
}

/// What an evaluation asks, and the built-in functions of values that it calls. The answers belong
/// to the type, what was asked to the value.
pub trait World {
    /// A built-in function of values.
    type Call: Copy;

    /// The keys asked so far, each once.
    ghost asked: { Self → List Key };

    /// The contents of the keys that it knows.
    ghost answers: { Answers };

    /// How a file's bytes are read as a template.
    ghost reading: { List ℕ → List ℕ → Result Template Fault };

    /// The built-in functions of values by their names, and what one gives of its arguments.
    ghost calls: { List ℕ → Option (List Plain → Result Plain Refused) };

    ghost call_of: { Self.Call → List Plain → Result Plain Refused };

    /// No file reads as the fault of a circular object.
    ghost plain: { IsReading reading };

    /// Whether a file is there.
    fn file(&mut self, alloc: Global, name: &Text) -> Result<Seen, AllocError>
        ensures seen { IfOk result (λ s. IsSeen name.now s answers) }
        ensures asked { OnOk result (asked self.new ≡ with_key (File name.now) (asked self.old)) }
        ensures unasked { OnErr result (asked self.new ≡ asked self.old) };

    /// The template that a file's bytes spell, or their first fault.
    fn template(&mut self, alloc: Global, file: &Text) -> Result<Rc<Template>, TemplateStop>
        requires there { IsSeen file.now Seen.There answers }
        ensures template { IfOk result (λ t. reading file.now (bytes_of file.now answers)
            ≡ Ok (template_seen t.value)) }
        ensures fault { IfErr result (λ e. IsFileFault e
            (reading file.now (bytes_of file.now answers))) }
        ensures asked { asked self.new ≡ asked self.old };

    /// A file's bytes as a text, where they are UTF-8.
    fn text(&mut self, alloc: Global, file: &Text) -> Result<Option<Tree>, AllocError>
        requires there { IsSeen file.now Seen.There answers }
        ensures text { IfOk result (λ t. t ≡ text_read (bytes_of file.now answers)) }
        ensures asked { asked self.new ≡ asked self.old };

    /// What stands at a path of another object.
    fn foreign(
        &mut self,
        alloc: Global,
        object: &Name,
        terms: &[Term],
    ) -> Result<Foreign, WorldStop>
        ensures { TellsValue result (asked self.old) (asked self.new) object.now terms.now
            answers };

    /// Notes, for a reader, that a run ends early inside the call or include at a place. No answer
    /// depends on it.
    fn note_passed(&self, place: &Place);

    /// The built-in function of values of a name.
    fn find(&self, name: &str) -> Option<Self::Call>
        ensures { option_map call_of result ≡ calls name.now };

    /// Room for the values of arguments, which `call` may keep for a next call.
    fn room(&mut self, alloc: Global) -> Vec<Tree>
        ensures empty { result.items ≡ [] }
        ensures asked { asked self.new ≡ asked self.old };

    /// What a built-in function gives of the values of its arguments.
    fn call(
        &mut self,
        alloc: Global,
        call: Self::Call,
        arguments: Vec<Tree>,
    ) -> Result<Tree, Refused>
        ensures gives { Gives (λ t. t) refusal result (call_of call arguments.items) }
        ensures asked { asked self.new ≡ asked self.old };
}
