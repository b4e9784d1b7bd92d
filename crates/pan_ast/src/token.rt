ghost use Rattle.std.specs.Prelude.{◌≡◌};
ghost use Rattle.pan_ast.specs.Sorts.{sort};

use crate::place::Place;
use crate::sort::{Sort, sort_of};
use base::Text;
use std::marker::Model;

/// The kinds of tokens. A Name is the name of a template in its header; an End stands after the last token.
#[derive(Clone, Copy, PartialEq, Eq)]
pub enum TokenKind {
    Word,
    Name,
    Int,
    Text,
    Sign,
    End,
}

/// A token of a file: the bytes from `start` to before `end`, the place of the first of them, and a value.
///
/// The value is a Word, Name or Sign as written, the value of a Text, an Int in decimal, and empty for End.
#[derive(Drop)]
pub struct Token {
    kind: TokenKind,
    // What it is to the grammar, as readers of tokens ask often.
    sort: Sort,
    start: usize,
    end: usize,
    place: Place,
    value: Text,
}

impl Model for Token {
    ghost use Rattle.std.specs.Prelude.{◌≡◌};
    ghost use Rattle.pan_ast.specs.Tokens.{TokenSeen};

    ghost Value = { TokenSeen };

    ghost use Rattle.pan_ast.specs.Sorts.{sort_of};

    ghost view = { λ t. record {
      kind = t.kind;
      start = t.start;
      end = t.end;
      place = t.place;
      value = t.value;
    } };

    ghost invariant = { λ t. t.sort ≡ sort_of t.kind t.value };
}

impl Token {
    /// A token of these parts.
    pub fn new(kind: TokenKind, start: usize, end: usize, place: Place, value: Text) -> Token
        ensures { result ≡ record {
          kind = kind;
          start = start;
          end = end;
          place = place;
          value =
              value;
        } }
    {
        let sort = sort_of(kind, value.as_str());
        Token {
            kind,
            sort,
            start,
            end,
            place,
            value,
        }
    }

    /// What kind of token it is.
    pub fn kind(&self) -> TokenKind
        ensures { result ≡ self.now.kind }
    {
        self.kind
    }

    /// The first of its bytes.
    pub fn start(&self) -> usize
        ensures { result ≡ self.now.start }
    {
        self.start
    }

    /// The byte behind its last.
    pub fn end(&self) -> usize
        ensures { result ≡ self.now.end }
    {
        self.end
    }

    /// The place of its first byte.
    pub fn place(&self) -> &Place
        ensures { result.now ≡ self.now.place }
    {
        &self.place
    }

    /// Its value.
    pub fn value(&self) -> &Text
        ensures { result.now ≡ self.now.value }
    {
        &self.value
    }

    /// What this token is to the grammar.
    pub fn sort(&self) -> Sort
        ensures { result ≡ sort self.now }
    {
        self.sort
    }
}
