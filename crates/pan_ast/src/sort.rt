ghost use Rattle.std.specs.Prelude.{◌≡◌, ◌∷◌, ◌≤◌, ◌<◌, ◌↔◌, [], length, true};
ghost use Rattle.pan_ast.specs.Signs.{equals_sign};
ghost use Rattle.pan_ast.specs.Sorts.{at, code, is_one_of, is_plain, is_type_name, is_word, look_up, quoted, signs, sort_of, type_words, words};
ghost use Rattle.pan_ast.specs.declared.sort.Sort.TheVariants.{Word, NoSign};

use crate::token::TokenKind;

/// What a token is to the grammar: its kind, and which word or sign of the language it is.
#[derive(Clone, Copy)]
pub enum Sort {
    Int,
    Text,
    Name,
    End,
    If,
    Else,
    While,
    For,
    Foreach,
    True,
    False,
    Undef,
    Null,
    With,
    Extensible,
    Include,
    Choice,
    Object,
    Structure,
    Unique,
    Declaration,
    Template,
    Final,
    Variable,
    Function,
    Type,
    Bind,
    Valid,
    Prefix,
    /// Any other word.
    Word,
    /// `{`
    OpenBrace,
    /// `}`
    CloseBrace,
    /// `(`
    Open,
    /// `)`
    Close,
    /// `[`
    OpenBracket,
    /// `]`
    CloseBracket,
    /// `;`
    Semicolon,
    /// `,`
    Comma,
    /// `:`
    Colon,
    /// `?`
    Question,
    /// `?=`
    ConditionalAssign,
    /// `=`
    Assign,
    /// `==`
    Equal,
    /// `!=`
    NotEqual,
    /// `<`
    Less,
    /// `<=`
    LessEqual,
    /// `>`
    More,
    /// `>=`
    MoreEqual,
    /// `+`
    Plus,
    /// `-`
    Minus,
    /// `*`
    Star,
    /// `/`
    Slash,
    /// `%`
    Percent,
    /// `!`
    Not,
    /// `~`
    Flip,
    /// `&`
    BitAnd,
    /// `&&`
    And,
    /// `|`
    BitOr,
    /// `||`
    Or,
    /// `^`
    BitXor,
    /// `..`
    Range,
    /// No sign of the language; no token of the lexer is one.
    NoSign,
}

impl Sort {
    fn code(self) -> u8
        ensures { result ≡ code self }
    {
        self as u8
    }

    /// Whether the two sorts are the same.
    #[tactic(auto, using(crate::proofs::SortTests::same_sort))]
    pub fn is(self, other: Sort) -> bool
        ensures test { result ≡ at self other }
        ensures same { (result ≡ true) ↔ (self ≡ other) }
    {
        self.code() == other.code()
    }

    /// Whether it is a word, one of the language or any other.
    pub fn is_word(self) -> bool
        ensures { result ≡ is_word self }
    {
        match self {
            Sort::If | Sort::Else | Sort::While | Sort::For | Sort::Foreach => true,
            Sort::True | Sort::False | Sort::Undef | Sort::Null => true,
            Sort::With | Sort::Extensible | Sort::Include | Sort::Choice => true,
            Sort::Object | Sort::Structure | Sort::Unique | Sort::Declaration => true,
            Sort::Template | Sort::Final | Sort::Variable | Sort::Function | Sort::Type => true,
            Sort::Bind | Sort::Valid | Sort::Prefix | Sort::Word => true,
            _ => false,
        }
    }

    /// Whether it is a word that cannot be a name in an item.
    fn is_quoted(self) -> bool
        ensures { result ≡ is_one_of quoted self }
    {
        match self {
            Sort::If | Sort::Else | Sort::While | Sort::For | Sort::Foreach => true,
            Sort::True | Sort::False | Sort::Undef | Sort::Null => true,
            _ => false,
        }
    }

    /// Whether it is a word that cannot be the name of a type.
    fn is_of_types(self) -> bool
        ensures { result ≡ is_one_of type_words self }
    {
        match self {
            Sort::With | Sort::Extensible | Sort::Include | Sort::Choice => true,
            _ => false,
        }
    }

    /// Whether it is a word that may be a name in an item.
    pub fn is_plain(self) -> bool
        ensures { result ≡ is_plain self }
    {
        self.is_word() && !self.is_quoted()
    }

    /// Whether it is a word that may be the name of a type.
    pub fn is_type_name(self) -> bool
        ensures { result ≡ is_type_name self }
    {
        self.is_word() && !self.is_of_types()
    }
}

fn short_word(word: &str) -> Sort
    requires { length word.now ≤ 4 }
    ensures { result ≡ look_up Word word.now words }
{
    match word {
        "if" => Sort::If,
        "for" => Sort::For,
        "else" => Sort::Else,
        "true" => Sort::True,
        "null" => Sort::Null,
        "with" => Sort::With,
        "type" => Sort::Type,
        "bind" => Sort::Bind,
        _ => Sort::Word,
    }
}

fn middle_word(word: &str) -> Sort
    requires over { 4 < length word.now }
    requires under { length word.now ≤ 6 }
    ensures { result ≡ look_up Word word.now words }
{
    match word {
        "while" => Sort::While,
        "false" => Sort::False,
        "undef" => Sort::Undef,
        "final" => Sort::Final,
        "valid" => Sort::Valid,
        "object" => Sort::Object,
        "unique" => Sort::Unique,
        "choice" => Sort::Choice,
        "prefix" => Sort::Prefix,
        _ => Sort::Word,
    }
}

fn long_word(word: &str) -> Sort
    requires { 6 < length word.now }
    ensures { result ≡ look_up Word word.now words }
{
    match word {
        "foreach" => Sort::Foreach,
        "include" => Sort::Include,
        "template" => Sort::Template,
        "variable" => Sort::Variable,
        "function" => Sort::Function,
        "structure" => Sort::Structure,
        "extensible" => Sort::Extensible,
        "declaration" => Sort::Declaration,
        _ => Sort::Word,
    }
}

/// The sort of a word. Most words are names, so the text is compared with few others.
fn word_sort(word: &str) -> Sort
    ensures { result ≡ look_up Word word.now words }
{
    if word.len() <= 4 {
        short_word(word)
    } else if word.len() <= 6 {
        middle_word(word)
    } else {
        long_word(word)
    }
}

fn single_sign(byte: u8) -> Sort
    ensures { result ≡ look_up NoSign (byte ∷ []) signs }
{
    match byte {
        b'{' => Sort::OpenBrace,
        b'}' => Sort::CloseBrace,
        b'(' => Sort::Open,
        b')' => Sort::Close,
        b'[' => Sort::OpenBracket,
        b']' => Sort::CloseBracket,
        b';' => Sort::Semicolon,
        b',' => Sort::Comma,
        b':' => Sort::Colon,
        b'?' => Sort::Question,
        b'=' => Sort::Assign,
        b'<' => Sort::Less,
        b'>' => Sort::More,
        b'+' => Sort::Plus,
        b'-' => Sort::Minus,
        b'*' => Sort::Star,
        b'/' => Sort::Slash,
        b'%' => Sort::Percent,
        b'!' => Sort::Not,
        b'~' => Sort::Flip,
        b'&' => Sort::BitAnd,
        b'|' => Sort::BitOr,
        b'^' => Sort::BitXor,
        _ => Sort::NoSign,
    }
}

fn with_equals(first: u8) -> Sort
    ensures { result ≡ look_up NoSign (first ∷ equals_sign ∷ []) signs }
{
    match first {
        b'?' => Sort::ConditionalAssign,
        b'=' => Sort::Equal,
        b'!' => Sort::NotEqual,
        b'<' => Sort::LessEqual,
        b'>' => Sort::MoreEqual,
        _ => Sort::NoSign,
    }
}

fn double_sign(first: u8, second: u8) -> Sort
    ensures { result ≡ look_up NoSign (first ∷ second ∷ []) signs }
{
    match second {
        b'=' => with_equals(first),
        b'&' if first == b'&' => Sort::And,
        b'|' if first == b'|' => Sort::Or,
        b'.' if first == b'.' => Sort::Range,
        _ => Sort::NoSign,
    }
}

fn sign_sort(bytes: &[u8]) -> Sort
    ensures { result ≡ look_up NoSign bytes.now signs }
{
    match bytes {
        [byte] => single_sign(*byte),
        [first, second] => double_sign(*first, *second),
        _ => Sort::NoSign,
    }
}

/// The sort of a token by its kind and value.
pub(crate) fn sort_of(kind: TokenKind, value: &str) -> Sort
    ensures { result ≡ sort_of kind value.now }
{
    match kind {
        TokenKind::Word => word_sort(value),
        TokenKind::Name => Sort::Name,
        TokenKind::Int => Sort::Int,
        TokenKind::Text => Sort::Text,
        TokenKind::Sign => sign_sort(value.as_bytes()),
        TokenKind::End => Sort::End,
    }
}
