ghost use Rattle.std.specs.Prelude.{◌≡◌, ◌-◌, ◌<◌, None, map};
ghost use Rattle.std.specs.List.{list_any};
ghost use Rattle.std.specs.Str.{bytes_eq};
ghost use Rattle.pan_ast.specs.Seen.{item_seen};
ghost use Rattle.pan_ast.specs.TemplatesSeen.{form_seen, statement_seen, template_seen};
ghost use Rattle.template_meaning.specs.Statements.{form_run, include_run, include_value, included, may_include, may_stand, runs_once, starts, statement_run, statements_run, template_run};
ghost use Rattle.plain_statements.specs.Executions.{Executes, KeepsLoans, total};
ghost use Rattle.plain_statements.specs.Seen.{inside_of, site_in};
ghost use Rattle.template_run.specs.Includes.{includes_in};

use dml_meaning::Test;
use dml_runner::DmlRunner;
use dml_world::leaf::{passed, passes, spend_step, stop_on};
use dml_world::{SelfUse, Stop, World};
use pan_ast::{Code, Item, Place, Statement, StatementForm, Template, TemplateKind};
use path_tree::{Name, Tree};
use plain_statements::assignments::{Assignment, assign};
use plain_statements::definitions::{add_valid, bind, define_function, define_type};
use plain_statements::dml::{find_named, run_in};
use plain_statements::paths::{Prefix, run_prefix};
use plain_statements::variables::run_variable;
use plain_statements::{Execution, Inside};
use std::sync::ledger::Ledger;

/// Whether a statement may stand in a template of a kind.
fn may_stand(kind: TemplateKind, form: &StatementForm) -> bool
    ensures { result ≡ may_stand kind (form_seen form.now) }
{
    match (kind, form) {
        (TemplateKind::Declaration, StatementForm::Assign { .. } | StatementForm::Prefix { .. }) =>
            false,
        _ => true,
    }
}

/// Whether a template of a kind may include one of another.
fn may_include(outer: TemplateKind, inner: TemplateKind) -> bool
    ensures { result ≡ may_include outer inner }
{
    match (outer, inner) {
        (_, TemplateKind::Object | TemplateKind::Structure) => false,
        (_, TemplateKind::Declaration) => true,
        (TemplateKind::Declaration, _) => false,
        _ => true,
    }
}

/// Whether a template of a kind runs once in an object.
fn runs_once(kind: TemplateKind) -> bool
    ensures { result ≡ runs_once kind }
{
    match kind {
        TemplateKind::Unique | TemplateKind::Declaration => true,
        TemplateKind::Ordinary | TemplateKind::Object | TemplateKind::Structure => false,
    }
}

/// Whether a name is among those of a list.
fn is_among(name: &str, names: &[Name]) -> bool
    ensures { result ≡ list_any (bytes_eq name.now) names.now }
{
    names.iter().any(|other| other.as_str() == name)
}

/// The statements of a template, in order, from no prefix on.
#[cycle(statements)]
#[tactic(auto, using(crate::proofs::Items::statements_more, template_meaning::proofs::Leaving::leaving), unfolding(template_meaning::specs::Statements::statements_run))]
pub(crate) fn run_statements<D: DmlRunner, W: World, L: Ledger>(
    statements: &[Statement],
    inside: &Inside<'_>,
    execution: &mut Execution<'_, '_, '_, D, W, L>,
) -> Result<(), Stop>
    ensures gives { Executes (λ u. u) result W.World execution.old execution.new
        (statements_run (includes_in W.World inside.now) (site_in W.World inside.now)
        (inside_of inside.now) None (map statement_seen statements.now)) }
    ensures counted { total execution.new ≡ total execution.old }
    ensures lent { KeepsLoans execution.old execution.new }
{
    let mut prefix = None;
    'statements: for statement in statements {
        prefix = run_statement(statement, prefix, inside, execution)?;
    }
    Ok(())
}

/// A statement behind a prefix, and the prefix that holds after it.
#[cycle(statements)]
#[tactic(auto, using(template_meaning::proofs::Leaving::leaving), unfolding(template_meaning::specs::Statements::statement_run))]
fn run_statement<D: DmlRunner, W: World, L: Ledger>(
    statement: &Statement,
    prefix: Prefix,
    inside: &Inside<'_>,
    execution: &mut Execution<'_, '_, '_, D, W, L>,
) -> Result<Prefix, Stop>
    ensures gives { Executes (λ q. q) result W.World execution.old execution.new
        (statement_run (includes_in W.World inside.now) (site_in W.World inside.now)
        (inside_of inside.now) prefix (statement_seen statement.now)) }
    ensures counted { total execution.new ≡ total execution.old }
    ensures lent { KeepsLoans execution.old execution.new }
{
    let place = &statement.place;
    spend_step(
        execution.alloc,
        place,
        &*execution.world,
        &mut *execution.work,
        &mut *execution.steps,
    )?;
    if !may_stand(inside.kind, &statement.form) {
        return Err(stop_on(execution.alloc, Code::WrongStatement, place, ""));
    }
    run_form(place, &statement.form, prefix, inside, execution)
}

/// A statement that may stand where it does.
#[cycle(statements)]
#[tactic(auto, using(template_meaning::proofs::Leaving::leaving), unfolding(template_meaning::specs::Statements::form_run))]
fn run_form<D: DmlRunner, W: World, L: Ledger>(
    place: &Place,
    form: &StatementForm,
    prefix: Prefix,
    inside: &Inside<'_>,
    execution: &mut Execution<'_, '_, '_, D, W, L>,
) -> Result<Prefix, Stop>
    ensures gives { Executes (λ q. q) result W.World execution.old execution.new
        (form_run (includes_in W.World inside.now) (site_in W.World inside.now)
        (inside_of inside.now) prefix place.now (form_seen form.now)) }
    ensures counted { total execution.new ≡ total execution.old }
    ensures lent { KeepsLoans execution.old execution.new }
{
    match form {
        StatementForm::Assign {
            last,
            path,
            conditional,
            item,
        } => {
            let assignment = Assignment::new(place, *last, path, *conditional, item);
            assign(assignment, &prefix, inside, execution)?;
        }
        StatementForm::Variable {
            last,
            name,
            conditional,
            item,
        } => {
            let assignment = Assignment::new(place, *last, name, *conditional, item);
            run_variable(assignment, inside, execution)?;
        }
        StatementForm::Function { name, body } => define_function(
            place, name, body, inside, execution,
        )?,
        StatementForm::Define { name, full } => define_type(place, name, full, inside, execution)?,
        StatementForm::Bind { path, full } => bind(place, path, full, &prefix, inside, execution)?,
        StatementForm::Valid { path, body } => add_valid(
            place, path, body, &prefix, inside, execution,
        )?,
        StatementForm::Include { item } => run_include(place, item, inside, execution)?,
        StatementForm::Prefix { path } => return run_prefix(place, path, execution),
    }
    Ok(prefix)
}

/// An include statement (Pan Book, "Include Statements"): its DML gives the name.
#[cycle(statements)]
#[tactic(auto, using(template_meaning::proofs::Leaving::leaving), unfolding(template_meaning::specs::Statements::include_run))]
fn run_include<D: DmlRunner, W: World, L: Ledger>(
    place: &Place,
    item: &Item,
    inside: &Inside<'_>,
    execution: &mut Execution<'_, '_, '_, D, W, L>,
) -> Result<(), Stop>
    ensures gives { Executes (λ u. u) result W.World execution.old execution.new
        (include_run (includes_in W.World inside.now) (site_in W.World inside.now)
        (inside_of inside.now) place.now (item_seen item.now)) }
    ensures counted { total execution.new ≡ total execution.old }
    ensures lent { KeepsLoans execution.old execution.new }
{
    let value = run_in(item, SelfUse::Fixed, Tree::undef(), inside, execution)?;
    include_value(place, &value, inside, execution)
}

/// Includes the template that a value names; undef and null include nothing.
#[cycle(statements)]
fn include_value<D: DmlRunner, W: World, L: Ledger>(
    place: &Place,
    value: &Tree,
    inside: &Inside<'_>,
    execution: &mut Execution<'_, '_, '_, D, W, L>,
) -> Result<(), Stop>
    ensures gives { Executes (λ u. u) result W.World execution.old execution.new
        (include_value (includes_in W.World inside.now) (inside_of inside.now) place.now
        value.now) }
    ensures counted { total execution.new ≡ total execution.old }
    ensures lent { KeepsLoans execution.old execution.new }
{
    if let Some(name) = value.as_text() {
        let end = include(place, name, inside, execution);
        return passed(place, end, &*execution.world);
    }
    if passes(Test::Defined, value.kind()) {
        return Err(stop_on(execution.alloc, Code::BadArgument, place, ""));
    }
    Ok(())
}

/// Includes the template of a name, where an include may still be opened.
#[cycle(statements)]
#[tactic(auto, using(crate::proofs::Items::included_more, template_meaning::proofs::Leaving::leaving), unfolding(template_meaning::specs::Statements::included))]
fn include<D: DmlRunner, W: World, L: Ledger>(
    place: &Place,
    name: &str,
    inside: &Inside<'_>,
    execution: &mut Execution<'_, '_, '_, D, W, L>,
) -> Result<(), Stop>
    ensures gives { Executes (λ u. u) result W.World execution.old execution.new
        (includes_in W.World inside.now (inside_of inside.now) place.now name.now) }
    ensures counted { total execution.new ≡ total execution.old }
    ensures lent { KeepsLoans execution.old execution.new }
{
    if inside.includes_left == 0 {
        return Err(stop_on(execution.alloc, Code::IncludeDepth, place, ""));
    }
    let template = find_named(place, name, inside, execution)?;
    run_template(place, name, &template, inside, execution)
}

/// Whether a template runs now; one of a kind that runs once is marked as run.
#[tactic(auto, using(template_meaning::proofs::Leaving::leaving), unfolding(template_meaning::specs::Statements::starts))]
fn starts<D: DmlRunner, W: World, L: Ledger>(
    template: &Template,
    execution: &mut Execution<'_, '_, '_, D, W, L>,
) -> Result<bool, Stop>
    ensures gives { Executes (λ b. b) result W.World execution.old execution.new
        (starts template.now.kind template.now.name) }
    ensures counted { total execution.new ≡ total execution.old }
    ensures lent { KeepsLoans execution.old execution.new }
{
    if !runs_once(template.kind) {
        return Ok(true);
    }
    if is_among(template.name.as_str(), &execution.program.ran) {
        return Ok(false);
    }
    execution.program.ran.push(template.name.share()?)?;
    Ok(true)
}

/// Runs the statements of a template that is included under a name, where its kind fits.
#[cycle(statements)]
#[tactic(auto, using(template_meaning::proofs::Leaving::leaving), unfolding(template_meaning::specs::Statements::template_run))]
fn run_template<D: DmlRunner, W: World, L: Ledger>(
    place: &Place,
    name: &str,
    template: &Template,
    inside: &Inside<'_>,
    execution: &mut Execution<'_, '_, '_, D, W, L>,
) -> Result<(), Stop>
    requires open { 0 < inside.now.includes_left }
    ensures gives { Executes (λ u. u) result W.World execution.old execution.new
        (template_run (included (inside.now.includes_left - 1) (site_in W.World inside.now))
        (site_in W.World inside.now) (inside_of inside.now) place.now name.now
        (template_seen template.now)) }
    ensures counted { total execution.new ≡ total execution.old }
    ensures lent { KeepsLoans execution.old execution.new }
{
    if !may_include(inside.kind, template.kind) {
        return Err(stop_on(execution.alloc, Code::WrongKind, place, name));
    }
    if !starts(template, execution)? {
        return Ok(());
    }
    let within = Inside {
        site: inside.site,
        kind: template.kind,
        template: template.name.share()?,
        includes_left: inside.includes_left - 1,
    };
    run_statements(&template.statements, &within, execution)
}
