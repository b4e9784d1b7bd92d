ghost use Rattle.std.specs.Prelude.{◌≡◌, ◌↔◌, Err, List, Ok};
ghost use Rattle.pan_ast.specs.declared.fault.Fault.{Fault};
ghost use Rattle.pan_ast.specs.declared.token.Token.{Token};
ghost use Rattle.pan_ast.specs.Sorts.{EndsInEnd};
ghost use Rattle.pan_ast.specs.Templates.{Template};
ghost use Rattle.pan_grammar.specs.Faults.{DeepInLast, IsFault, Parses, ParsesWhere};
ghost use Rattle.pan_grammar.specs.Parsed.{parsed};

/// For all tokens, whether or not they were read: `parsed`, by which definitions speak of their template, is what
/// the grammar says. They spell a template where they parse and nothing in them is nested over the limit, and one
/// at most; else they have the one fault that the grammar names.
pub fn parsed_tokens()
    ensures template { (tokens : List Token) (z : Template) → (parsed tokens ≡ Ok z) ↔ ParsesWhere
        (DeepInLast 0) tokens z }
    ensures one { (tokens : List Token) (y z : Template) → Parses tokens y → Parses tokens z → y ≡
        z }
    ensures faults { (tokens : List Token) (f : Fault) → EndsInEnd tokens →
        (parsed tokens ≡ Err f) ↔ IsFault tokens f }
{}
