ghost use Rattle.std.specs.Prelude.{◌≡◌, ◌≢◌, ◌≤◌, ◌+◌, ◌*◌, ◌&&◌, [], Err, IfErr, IfOk, IfSome, Ok};
ghost use Rattle.pan_ast.specs.declared.token.Token.{Token};
ghost use Rattle.pan_ast.specs.Sorts.{EndsInEnd, at, sort};
ghost use Rattle.pan_ast.specs.declared.sort.Sort.TheVariants as sorts;
ghost use Rattle.pan_ast.specs.TemplatesSeen.{template_seen};
ghost use Rattle.pan_grammar.specs.Faults.{DeepInLast, IsFault, Parses, ParsesWhere};
ghost use Rattle.pan_grammar.specs.Machine.{name_wanted, run};
ghost use Rattle.pan_grammar.specs.States.{Done, Start, State};
ghost use Rattle.pan_grammar.specs.Templates.{kind_of};
ghost use Rattle.path_tree.specs.Grammar.{is_name};
ghost use Rattle.pan_parser.specs.Answers.{Goes, Wants};
ghost use Rattle.pan_parser.specs.Room.{Within};
ghost use Rattle.pan_grammar.specs.Parsed.{fault_on, parsed};
ghost use Rattle.base.specs.Answers.{Gives};
ghost use Rattle.base.specs.declared.limits.TheConstants.{MAX_NESTING};
ghost use Rattle.pan_ast.specs.Detail.{fault_at};
ghost use Rattle.pan_ast.specs.Failures.{fault_of};
ghost use Rattle.pan_ast.specs.Pointers.{template_pointers};

use crate::errors::ParseError;
use crate::statements::statements;
use crate::stopped::Stopped;
use crate::tokens::{Expected, cut, expect};
use pan_ast::{Code, Failure, Fault, Place, Sort, Template, TemplateKind, Token};
use path_tree::{Name, NameError};
use std::alloc::{AllocError, Global};

/// The kind that the word before `template` says.
fn kind_of(sort: Sort) -> Option<TemplateKind>
    ensures { result ≡ kind_of sort }
{
    match sort {
        Sort::Object => Some(TemplateKind::Object),
        Sort::Structure => Some(TemplateKind::Structure),
        Sort::Unique => Some(TemplateKind::Unique),
        Sort::Declaration => Some(TemplateKind::Declaration),
        _ => None,
    }
}

/// The token of a template's name, and the tokens after it.
fn expect_name(alloc: Global, tokens: &[Token]) -> Result<(Name, &Token, &[Token]), Stopped<'_>>
    ensures read { (s : State) (next : Token → State) → Wants s
        (λ t. at sorts.Name (sort t) && is_name t.value) next → Goes result
        (λ r. run r.2.now (next r.1.now)) (run tokens.now s) }
    ensures name { IfOk result (λ r. r.0 ≡ r.1.now.value) }
{
    let Some((first, rest)) = cut(tokens) else {
        return Err(Stopped::Bad(tokens));
    };
    if !Sort::Name.is(first.sort()) {
        return Err(Stopped::Bad(tokens));
    }
    match Name::parse(alloc, first.value().as_str()) {
        Ok(name) => Ok((name, first, rest)),
        Err(NameError::BadName) => Err(Stopped::Bad(tokens)),
        Err(NameError::Memory) => Err(Stopped::Memory),
    }
}

/// After `template`: the name, and the statements to the End.
fn named_template<'a>(
    alloc: Global,
    kind: TemplateKind,
    place: &Place,
    tokens: &'a [Token],
) -> Result<(Template, &'a [Token]), Stopped<'a>>
    ensures read { Goes result (λ r. run r.1.now (Done (template_seen r.0)))
        (run tokens.now (name_wanted kind place.now)) }
    ensures pointers { IfOk result (λ r. Within 3 0 (template_pointers r.0)) }
{
    let (name, token, rest) = expect_name(alloc, tokens)?;
    let (_, rest) = expect(Expected::Sort(Sort::Semicolon), rest)?;
    let (statements, rest) = statements(alloc, rest)?;
    let name_place = token.place().share()?;
    let place = place.share()?;
    Ok((
        Template {
            kind,
            name,
            name_place,
            place,
            statements,
        },
        rest,
    ))
}

/// A template, and the tokens after its End.
fn template(alloc: Global, tokens: &[Token]) -> Result<(Template, &[Token]), Stopped<'_>>
    ensures read { Goes result (λ r. run r.1.now (Done (template_seen r.0)))
        (run tokens.now Start) }
    ensures pointers { IfOk result (λ r. Within 3 0 (template_pointers r.0)) }
{
    let Some((first, rest)) = cut(tokens) else {
        return Err(Stopped::Bad(tokens));
    };
    if Sort::Template.is(first.sort()) {
        return named_template(alloc, TemplateKind::Ordinary, first.place(), rest);
    }
    let Some(kind) = kind_of(first.sort()) else {
        return Err(Stopped::Bad(tokens));
    };
    let (_, rest) = expect(Expected::Sort(Sort::Template), rest)?;
    named_template(alloc, kind, first.place(), rest)
}

/// The template that all the tokens are.
pub(crate) fn read_all(alloc: Global, tokens: &[Token]) -> Result<Template, Stopped<'_>>
    ensures read { Goes result (λ z. Ok (template_seen z)) (run tokens.now Start) }
    ensures pointers { IfOk result (λ z. Within 3 0 (template_pointers z)) }
{
    let (whole, rest) = template(alloc, tokens)?;
    match cut(rest) {
        None => Ok(whole),
        Some(_) => Err(Stopped::Bad(rest)),
    }
}

fn fault(alloc: Global, code: Code, place: &Place) -> Result<Fault, AllocError>
    ensures { IfOk result (λ f. f ≡ fault_at code place.now) }
{
    Fault::at(alloc, code, place.share()?)
}

/// The fault of a code at the first of the tokens.
fn fault_on(alloc: Global, code: Code, tokens: &[Token]) -> Failure
    requires { tokens.now ≢ [] }
    ensures { IfSome (fault_of result) (λ f. f ≡ fault_on code tokens.now) }
{
    let Some((first, _)) = cut(tokens) else {
        unreachable!();
    };
    match fault(alloc, code, first.place()) {
        Ok(fault) => Failure::Fault(fault),
        Err(_) => Failure::Memory,
    }
}

/// The template that the tokens of a file spell. The last token has to be an End, as the lexer's is.
///
/// F06 stands at the first token with which no template goes on. F07 stands at the first token of the first construct
/// that more than [MAX_NESTING] others hold. Where both are in a text, the one that comes first is answered. No way
/// in the template's memory is longer than the limit of nesting allows, however long the text.
pub fn parse(alloc: Global, tokens: &[Token]) -> Result<Template, ParseError>
    requires ended { EndsInEnd tokens.now }
    ensures exact { Gives template_seen fault_of result (parsed tokens.now) }
    ensures found { IfOk result (λ z. Parses tokens.now (template_seen z)) }
    ensures low { IfOk result (λ z. ParsesWhere (DeepInLast 0) tokens.now (template_seen z)) }
    ensures fault { IfErr result (λ e. IfSome (fault_of e) (IsFault tokens.now)) }
    ensures pointers { IfOk result (λ z. template_pointers z ≤ 11 * MAX_NESTING + 3) }
{
    match read_all(alloc, tokens) {
        Ok(template) => Ok(template),
        Err(Stopped::Memory) => Err(Failure::Memory),
        Err(Stopped::Bad(rest)) => Err(fault_on(alloc, Code::BadSyntax, rest)),
        Err(Stopped::Deep(rest)) => Err(fault_on(alloc, Code::TooDeep, rest)),
    }
}
