ghost use Rattle.std.specs.Prelude.{◌≡◌, [], ◌∷◌, ◌+◌, IfOk, MatchOption, false, true, unwrap_or};
ghost use Rattle.path_tree.specs.Find.{get};
ghost use Rattle.path_tree.specs.Paths.{path_of};
ghost use Rattle.path_tree.specs.Plain as plain;
ghost use Rattle.path_tree.specs.Put.{put};
ghost use Rattle.dml_meaning.specs.Lookups.{structure_named};
ghost use Rattle.dml_meaning.specs.Leaves.{on_text};
ghost use Rattle.dml_meaning.specs.Structures.{are_pairs, assigned_at, is_set, put_fault, relative_terms, set_key, set_keys};
ghost use Rattle.dml_meaning.specs.Values.{is_nothing};
ghost use Rattle.questions.specs.Run.{still};
ghost use Rattle.dml_world.specs.Evaluations.{Evaluates, KeepsLoans, total};
ghost use Rattle.dml_world.specs.Seen.{around_of};
ghost use Rattle.dml_leaves.specs.Changes.{IsUnputAt, is_short};
ghost use Rattle.dml_leaves.specs.Statements.{IsStructureForm};
ghost use Rattle.pan_ast.specs.TemplatesSeen.{form_seen, template_seen};

use crate::indexes::remove_found;
use base::{Seq, Text};
use dml_meaning::Test;
use dml_world::leaf::{fault, fault_on, passes};
use dml_world::{Around, Evaluation, Exit, World, templates};
use pan_ast::{Code, Item, Place, StatementForm, Template};
use path_tree::{Anchor, Key, KeyError, Kind, Path, PathError, PutError, Term, Tree};
use std::alloc::{AllocError, Global};
use std::rc::Rc;
use std::sync::ledger::Ledger;

/// The structure template of a name.
#[tactic(auto, using(dml_world::proofs::Ends::stops))]
pub fn structure_named<W: World, L: Ledger>(
    place: &Place,
    name: &Text,
    around: &Around<'_>,
    evaluation: &mut Evaluation<'_, '_, W, L>,
) -> Result<Rc<Template>, Exit>
    ensures gives { Evaluates (λ t. template_seen t.value) result W.World evaluation.old
        evaluation.new (still (structure_named (around_of around.now W.reading W.calls) place.now name.now)) }
    ensures counted { total evaluation.new ≡ total evaluation.old }
    ensures lent { KeepsLoans evaluation.old evaluation.new }
{
    let template = templates::structure_named(
        evaluation.alloc,
        place,
        name.as_str(),
        around,
        &mut *evaluation.world,
        &mut evaluation.live.work,
        &mut *evaluation.steps,
    )?;
    Ok(template)
}

/// What a statement can be in a structure template.
#[derive(Drop)]
pub enum StructureForm<'a> {
    Assign {
        path: &'a Text,
        conditional: bool,
        item: &'a Item,
    },
    Include(&'a Item),
    /// No structure template has such a statement.
    Wrong,
}

/// What a statement is in a structure template.
pub fn structure_form(form: &StatementForm) -> StructureForm<'_>
    ensures { IsStructureForm (form_seen form.now) result }
{
    match form {
        StatementForm::Assign {
            last: false,
            path,
            conditional,
            item,
        } => StructureForm::Assign {
            path,
            conditional: *conditional,
            item,
        },
        StatementForm::Assign { last: true, .. } => StructureForm::Wrong,
        StatementForm::Include { item } => StructureForm::Include(item),
        StatementForm::Variable { .. } => StructureForm::Wrong,
        StatementForm::Function { .. } => StructureForm::Wrong,
        StatementForm::Define { .. } => StructureForm::Wrong,
        StatementForm::Bind { .. } => StructureForm::Wrong,
        StatementForm::Valid { .. } => StructureForm::Wrong,
        StatementForm::Prefix { .. } => StructureForm::Wrong,
    }
}

/// The terms of a relative path, which is the only one that a structure template assigns to.
pub fn relative_terms<W: World, L: Ledger>(
    place: &Place,
    text: &Text,
    evaluation: &Evaluation<'_, '_, W, L>,
) -> Result<Seq<Term>, Exit>
    ensures { Evaluates (λ ms. ms) result W.World evaluation.now evaluation.now
        (relative_terms place.now text.now (path_of text.now)) }
{
    let path = match Path::parse(evaluation.alloc, text) {
        Ok(path) => path,
        Err(PathError::Memory) => return Err(Exit::Memory),
        Err(_) => return Err(fault_on(evaluation.alloc, Code::BadPath, place, text.as_str())),
    };
    match path.anchor {
        Anchor::Relative => Ok(path.terms),
        Anchor::Absolute => Err(fault(evaluation.alloc, Code::WrongStatement, place)),
        Anchor::External(_) => Err(fault_on(evaluation.alloc, Code::BadPath, place, text.as_str())),
    }
}

/// Whether a path has a value other than undef.
pub fn is_set(tree: &Tree, terms: &[Term]) -> bool
    ensures { result ≡ is_set (get terms.now tree.now) }
{
    match tree.get(terms) {
        Some(value) => value.kind() != Kind::Undef,
        None => false,
    }
}

/// What stands at a path, or undef.
pub fn value_or_undef(tree: &Tree, terms: &[Term]) -> Result<Tree, AllocError>
    ensures { IfOk result (λ t. t ≡ unwrap_or (get terms.now tree.now) plain.undef) }
{
    match tree.get(terms) {
        Some(value) => value.copy(),
        None => Ok(Tree::undef()),
    }
}

/// The fault of a put that is refused, or want of memory.
fn put_fault(alloc: Global, place: &Place, text: &Text, error: PutError) -> Exit
    ensures { IsUnputAt error result place.now text.now }
{
    match error {
        PutError::TooLarge | PutError::TooHigh => fault(alloc, Code::TooLarge, place),
        PutError::ThroughProperty(_) | PutError::KeyInList | PutError::IndexInDict => {
            fault_on(alloc, Code::BadPath, place, text.as_str())
        }
        PutError::Memory => Exit::Memory,
    }
}

fn put_at<W: World, L: Ledger>(
    place: &Place,
    text: &Text,
    terms: &[Term],
    made: Tree,
    value: Tree,
    evaluation: &Evaluation<'_, '_, W, L>,
) -> Result<Tree, Exit>
    requires value { is_nothing value ≡ false }
    ensures { Evaluates (λ t. t) result W.World evaluation.now evaluation.now
        (put_fault (put terms.now value made) place.now text.now) }
{
    let mut made = made;
    match made.put(evaluation.alloc, terms, value) {
        Ok(()) => Ok(made),
        Err(error) => Err(put_fault(evaluation.alloc, place, text, error)),
    }
}

/// A value is put at a path, written as `text`, of what is made; null removes.
pub fn assign_at<W: World, L: Ledger>(
    place: &Place,
    text: &Text,
    terms: &[Term],
    made: Tree,
    value: Tree,
    evaluation: &Evaluation<'_, '_, W, L>,
) -> Result<Tree, Exit>
    ensures { Evaluates (λ t. t) result W.World evaluation.now evaluation.now
        (assigned_at place.now text.now terms.now made value) }
{
    if passes(Test::Null, value.kind()) {
        let mut made = made;
        remove_found(evaluation.alloc, terms, &mut made)?;
        return Ok(made);
    }
    put_at(place, text, terms, made, value, evaluation)
}

/// A key is set in what is made; null removes it.
fn set_key<W: World, L: Ledger>(
    place: &Place,
    key: &Text,
    value: &Tree,
    made: Tree,
    evaluation: &Evaluation<'_, '_, W, L>,
) -> Result<Tree, Exit>
    ensures { Evaluates (λ t. t) result W.World evaluation.now evaluation.now
        (set_key place.now value.now made key.now) }
{
    match Key::of_text(key) {
        Ok(term) => {
            let terms = [Term::Key(term)];
            let value = value.copy()?;
            assign_at(place, key, &terms, made, value, evaluation)
        }
        Err(KeyError::BadKey) => Err(fault(evaluation.alloc, Code::BadIndex, place)),
        Err(KeyError::Memory) => Err(Exit::Memory),
    }
}

/// A value that has to be a key is set in what is made.
fn set_by<W: World, L: Ledger>(
    place: &Place,
    key: &Tree,
    value: &Tree,
    made: Tree,
    evaluation: &Evaluation<'_, '_, W, L>,
) -> Result<Tree, Exit>
    ensures { Evaluates (λ t. t) result W.World evaluation.now evaluation.now
        (on_text place.now (set_key place.now value.now made) key.now) }
{
    match key.text_handle() {
        Some(text) => set_key(place, text, value, made, evaluation),
        None => Err(fault(evaluation.alloc, Code::BadArgument, place)),
    }
}

/// The first value, and those behind it.
pub fn cut(values: &[Tree]) -> Option<(&Tree, &[Tree])>
    ensures { MatchOption result (values.now ≡ []) (λ r. values.now ≡ r.0.now ∷ r.1.now) }
{
    match values {
        [] => None,
        [first, rest @ ..] => Some((first, rest)),
    }
}

/// The first two values, and those behind them.
fn cut_pair(values: &[Tree]) -> Option<(&Tree, &Tree, &[Tree])>
    ensures { MatchOption result (is_short values.now ≡ true)
        (λ r. values.now ≡ r.0.now ∷ r.1.now ∷ r.2.now) }
{
    let (first, rest) = cut(values)?;
    let (second, rest) = cut(rest)?;
    Some((first, second, rest))
}

/// Whether values are keys, each with its value behind it.
pub fn are_pairs(values: &[Tree]) -> bool
    ensures { result ≡ are_pairs values.now }
{
    let mut rest = values;
    'pairs: while let Some((key, _, behind)) = cut_pair(rest) {
        if key.as_text().is_none() {
            return false;
        }
        rest = behind;
    }
    rest.is_empty()
}

/// Each key of such pairs is set in turn.
#[tactic(auto, using(crate::proofs::KeyValues::pairs), unfolding(dml_meaning::specs::Structures::set_keys))]
pub fn set_keys<W: World, L: Ledger>(
    place: &Place,
    pairs: &[Tree],
    made: Tree,
    evaluation: &Evaluation<'_, '_, W, L>,
) -> Result<Tree, Exit>
    ensures { Evaluates (λ t. t) result W.World evaluation.now evaluation.now
        (set_keys place.now pairs.now made) }
{
    let mut made = made;
    let mut rest = pairs;
    'pairs: while let Some((key, value, behind)) = cut_pair(rest) {
        made = set_by(place, key, value, made, evaluation)?;
        rest = behind;
    }
    Ok(made)
}
