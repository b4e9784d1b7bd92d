ghost use Rattle.std.specs.Prelude.{◌≡◌, bytes_eq};
ghost use Rattle.std.specs.List.{find};
ghost use Rattle.pan_ast.specs.Codes.{code_text};
ghost use Rattle.fault_notes.specs.Meanings.{meaning_of};

use pan_ast::Code;

/// Every code that a report may have.
const CODES: [Code; 46] = [
    Code::BadCharacter,
    Code::NotUtf8,
    Code::OpenText,
    Code::Double,
    Code::IntegerTooLarge,
    Code::BadSyntax,
    Code::TooDeep,
    Code::TypeClash,
    Code::Overflow,
    Code::ZeroDivisor,
    Code::BadArgument,
    Code::BadPattern,
    Code::BadIndex,
    Code::TooLarge,
    Code::Final,
    Code::BadPath,
    Code::GlobalChange,
    Code::NoVariable,
    Code::NoFunction,
    Code::Iterations,
    Code::CallDepth,
    Code::WorkSpent,
    Code::UserError,
    Code::NotBoolean,
    Code::SelfChange,
    Code::NoPath,
    Code::NoObject,
    Code::ForeignFailed,
    Code::Circular,
    Code::NoType,
    Code::Redefined,
    Code::BadRange,
    Code::WrongType,
    Code::OutOfRange,
    Code::MissingField,
    Code::ExtraField,
    Code::FalseTest,
    Code::FalseValid,
    Code::UndefLeft,
    Code::NoBoundPath,
    Code::NoTemplate,
    Code::WrongKind,
    Code::WrongStatement,
    Code::WrongTemplate,
    Code::IncludeDepth,
    Code::FileTooLong,
];

/// The first of these codes that is printed so.
pub(crate) fn first_of(among: &[Code], text: &[u8]) -> Option<Code>
    ensures { result ≡ find (λ code. bytes_eq (code_text code) text.now) among.now }
{
    for code in among {
        if code.text().as_bytes() == text {
            return Some(*code);
        }
    }
    None
}

/// The code that is printed so.
pub(crate) fn code_of(text: &[u8]) -> Option<Code>
    ensures { result ≡ find (λ code. bytes_eq (code_text code) text.now) CODES }
{
    first_of(&CODES, text)
}

/// What a code means, in the words of docs/FAULTS.md.
pub fn meaning(code: Code) -> &'static str
    ensures { result.now ≡ meaning_of code }
{
    match code {
        Code::BadCharacter => "bad character",
        Code::NotUtf8 => "not UTF-8",
        Code::OpenText => "not closed",
        Code::Double => "a fraction or an exponent",
        Code::IntegerTooLarge => "whole number past 64 bits",
        Code::BadSyntax => "syntax",
        Code::TooDeep => "nested too deep",
        Code::TypeClash => "operands of the wrong kind",
        Code::Overflow => "overflow",
        Code::ZeroDivisor => "division by zero",
        Code::BadArgument => "bad argument",
        Code::BadPattern => "bad pattern",
        Code::BadIndex => "bad index or key",
        Code::TooLarge => "too large",
        Code::Final => "final",
        Code::BadPath => "bad path",
        Code::GlobalChange => "a global or automatic name changed",
        Code::NoVariable => "no such variable",
        Code::NoFunction => "no such function",
        Code::Iterations => "too many turns",
        Code::CallDepth => "calls or items too deep",
        Code::WorkSpent => "out of work",
        Code::UserError => "error",
        Code::NotBoolean => "not a boolean",
        Code::SelfChange => "change of SELF",
        Code::NoPath => "nothing at a path",
        Code::NoObject => "no such object",
        Code::ForeignFailed => "another object failed",
        Code::Circular => "circular reads",
        Code::NoType => "no such type",
        Code::Redefined => "name or key taken",
        Code::BadRange => "empty range",
        Code::WrongType => "value of the wrong type",
        Code::OutOfRange => "out of range",
        Code::MissingField => "required field missing",
        Code::ExtraField => "extra field",
        Code::FalseTest => "a with is false",
        Code::FalseValid => "a valid is false",
        Code::UndefLeft => "undef left",
        Code::NoBoundPath => "nothing to check",
        Code::NoTemplate => "no such template or file",
        Code::WrongKind => "template of the wrong kind",
        Code::WrongStatement => "statement in the wrong template",
        Code::WrongTemplate => "template of another name",
        Code::IncludeDepth => "includes too deep",
        Code::FileTooLong => "file too long",
    }
}
