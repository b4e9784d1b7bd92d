ghost use Rattle.std.specs.Prelude.{◌≡◌, ℕ, List, Ok, map};
ghost use Rattle.std.specs.List.{All, Contains};
ghost use Rattle.pan_ast.specs.declared.token.Token.{Token};
ghost use Rattle.pan_ast.specs.Templates.{Template};
ghost use Rattle.pan_lexer.specs.Skipped.{kept};
ghost use Rattle.pan_lexer.specs.Spelled.{Piece, SpelledWith};
ghost use Rattle.pan_grammar.specs.Faults.{DeepInLast, ParsesWhere};
ghost use Rattle.pan_format.specs.Formatted.{formatted};
ghost use Rattle.pan_format.specs.Layout.{layout};
ghost use Rattle.pan_format.specs.Notes.{Note, notes};
ghost use Rattle.format_laws.specs.Again.{IsReadBack, Keeps};

/// A law: the layout of each template of a file, with any of the file's comments and annotations
/// and wherever its statements are said to end, is UTF-8 text whose tokens parse to the same
/// template but for places, that has just these comments and annotations in this order, and that
/// has itself as its layout.
pub fn templates_read_back()
    ensures { (file bytes : List ℕ) (tokens : List Token) (pieces : List Piece) (z : Template)
        (ends : List ℕ) (noted : List Note) → SpelledWith file bytes tokens pieces
        → ParsesWhere (DeepInLast 0) tokens z → All (Contains (notes bytes (kept pieces))) noted
        → IsReadBack file (layout z ends noted) z (map (λ n. n.text) noted) }
{}

/// A law: what a file is formatted to is UTF-8 text whose tokens parse to the file's template but
/// for places, with all comments and annotations of the file in the same order, each as the layout
/// leaves it.
pub fn formatting_keeps()
    ensures { (file bytes text : List ℕ) → formatted file bytes ≡ Ok text
        → Keeps file bytes text }
{}

/// A law: what a file is formatted to is formatted to itself.
pub fn formatting_settles()
    ensures { (file bytes text : List ℕ) → formatted file bytes ≡ Ok text
        → formatted file text ≡ Ok text }
{}
