ghost use Rattle.std.specs.Prelude.{◌≡◌, IfOk, bytes_eq};
ghost use Rattle.std.specs.List.{list_any};
ghost use Rattle.expected_tokens.specs.Candidates.{is_among, kind_of, sample, spelling, tells_as_much, words};

use base::Text;
use pan_ast::{Place, Token, TokenKind};
use std::alloc::{AllocError, Global};

/// A token that may be expected: a sign or a word of the language, or one that stands for all that may stand where it
/// may.
#[derive(Clone, Copy, PartialEq, Eq)]
pub enum Candidate {
    /// `!`, with which an item may begin and nothing else.
    Value,
    /// `valid`, with which a statement may begin.
    Statement,
    /// `object`, with which a header may begin.
    Header,
    /// `*`, which stands between two values alone.
    Operator,
    Word,
    /// The name of a template in its header.
    Name,
    Text,
    Number,
    /// `include`
    Include,
    /// `variable`
    Variable,
    /// `template`
    Template,
    /// `else`
    Else,
    /// `with`
    With,
    /// `;`
    Semicolon,
    /// `,`
    Comma,
    /// `:`
    Colon,
    /// `?`
    Question,
    /// `=`
    Assign,
    /// `?=`
    ConditionalAssign,
    /// `..`
    Range,
    /// `(`
    Open,
    /// `)`
    Close,
    /// `[`
    OpenBracket,
    /// `]`
    CloseBracket,
    /// `{`
    OpenBrace,
    /// `}`
    CloseBrace,
    /// What stands behind the last token.
    End,
}

/// All of them, in the order in which they are told.
pub const CANDIDATES: [Candidate; 27] = [
    Candidate::Statement,
    Candidate::Header,
    Candidate::Value,
    Candidate::Word,
    Candidate::Name,
    Candidate::Text,
    Candidate::Number,
    Candidate::Template,
    Candidate::Include,
    Candidate::Variable,
    Candidate::Else,
    Candidate::With,
    Candidate::Semicolon,
    Candidate::Comma,
    Candidate::Colon,
    Candidate::Question,
    Candidate::Assign,
    Candidate::ConditionalAssign,
    Candidate::Range,
    Candidate::Open,
    Candidate::Close,
    Candidate::OpenBracket,
    Candidate::CloseBracket,
    Candidate::OpenBrace,
    Candidate::CloseBrace,
    Candidate::Operator,
    Candidate::End,
];

impl Candidate {
    fn kind(self) -> TokenKind
        ensures { result ≡ kind_of self }
    {
        match self {
            Candidate::Name => TokenKind::Name,
            Candidate::Text => TokenKind::Text,
            Candidate::Number => TokenKind::Int,
            Candidate::End => TokenKind::End,
            Candidate::Statement | Candidate::Header | Candidate::Word => TokenKind::Word,
            Candidate::Include | Candidate::Variable | Candidate::Template => TokenKind::Word,
            Candidate::Else | Candidate::With => TokenKind::Word,
            _ => TokenKind::Sign,
        }
    }

    /// A text that the token may have; no other candidate has it.
    fn spelling(self) -> &'static str
        ensures { result.now ≡ spelling self }
    {
        match self {
            Candidate::Value => "!",
            Candidate::Statement => "valid",
            Candidate::Header => "object",
            Candidate::Operator => "*",
            Candidate::Word => "word",
            Candidate::Name => "name",
            Candidate::Text => "text",
            Candidate::Number => "1",
            Candidate::Include => "include",
            Candidate::Variable => "variable",
            Candidate::Template => "template",
            Candidate::Else => "else",
            Candidate::With => "with",
            Candidate::Semicolon => ";",
            Candidate::Comma => ",",
            Candidate::Colon => ":",
            Candidate::Question => "?",
            Candidate::Assign => "=",
            Candidate::ConditionalAssign => "?=",
            Candidate::Range => "..",
            Candidate::Open => "(",
            Candidate::Close => ")",
            Candidate::OpenBracket => "[",
            Candidate::CloseBracket => "]",
            Candidate::OpenBrace => "{",
            Candidate::CloseBrace => "}",
            Candidate::End => "",
        }
    }

    /// What a reader is told where it may stand.
    pub(crate) fn words(self) -> &'static str
        ensures { result.now ≡ words self }
    {
        match self {
            Candidate::Value => "a value",
            Candidate::Statement => "a statement",
            Candidate::Header => "a header",
            Candidate::Operator => "an operator",
            Candidate::Word | Candidate::Name => "a name",
            Candidate::Text => "a text",
            Candidate::Number => "a number",
            Candidate::Include => "'include'",
            Candidate::Variable => "'variable'",
            Candidate::Template => "'template'",
            Candidate::Else => "'else'",
            Candidate::With => "'with'",
            Candidate::Semicolon => "';'",
            Candidate::Comma => "','",
            Candidate::Colon => "':'",
            Candidate::Question => "'?'",
            Candidate::Assign => "'='",
            Candidate::ConditionalAssign => "'?='",
            Candidate::Range => "'..'",
            Candidate::Open => "'('",
            Candidate::Close => "')'",
            Candidate::OpenBracket => "'['",
            Candidate::CloseBracket => "']'",
            Candidate::OpenBrace => "'{'",
            Candidate::CloseBrace => "'}'",
            Candidate::End => "the end of the file",
        }
    }

    /// Those where it need not be told where one of them may stand: a word of the language may stand wherever any word
    /// may, and a value or a statement may begin with each of several tokens.
    pub(crate) fn tells_as_much(self) -> &'static [Candidate]
        ensures { result.now ≡ tells_as_much self }
    {
        match self {
            Candidate::Statement | Candidate::Header => &[Candidate::Word],
            Candidate::Else | Candidate::With => &[Candidate::Word],
            Candidate::Text => &[Candidate::Value, Candidate::Statement],
            Candidate::Include | Candidate::Variable => &[Candidate::Word, Candidate::Statement],
            Candidate::Template => &[Candidate::Word, Candidate::Header],
            Candidate::Word | Candidate::Number => &[Candidate::Value],
            Candidate::Open | Candidate::OpenBrace => &[Candidate::Value],
            Candidate::OpenBracket => &[Candidate::Operator],
            _ => &[],
        }
    }

    /// Whether it is one of these.
    pub(crate) fn is_among(self, candidates: &[Candidate]) -> bool
        ensures { result ≡ is_among self candidates.now }
    {
        candidates
            .iter()
            .any(|other| other.spelling() == self.spelling())
    }

    /// Such a token at a place, of no bytes.
    pub(crate) fn token(self, alloc: Global, place: &Place) -> Result<Token, AllocError>
        ensures { IfOk result (λ token. token ≡ sample place.now self) }
    {
        let value = Text::new(alloc, self.spelling())?;
        Ok(Token::new(self.kind(), 0, 0, place.share()?, value))
    }
}
