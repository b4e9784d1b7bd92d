ghost use Rattle.std.specs.Prelude.{◌≡◌, ◌≢◌, ◌≤◌, true, Err, List, Ok, ℕ};
ghost use Rattle.pan_ast.specs.Codes.{code_number};
ghost use Rattle.pan_ast.specs.declared.fault.Code.TheVariants.{Circular};
ghost use Rattle.pan_ast.specs.declared.fault.Fault.{Fault};
ghost use Rattle.pan_ast.specs.declared.template.TemplateKind.TheVariants.{Object};
ghost use Rattle.pan_ast.specs.Templates.{Template};
ghost use Rattle.pan_lexer.specs.Objects.{is_object};
ghost use Rattle.pan_template.specs.TemplateOf.{template_of};

/// For all files: the fault of a file is one of F01 to F07, so it is never that of objects that read each other; and
/// the template of an object's file is an object template.
pub fn template_files()
    ensures faults { (file bytes : List ℕ) (f : Fault) → template_of file bytes ≡ Err f
        → code_number f.code ≤ 7 }
    ensures not_circular { (file bytes : List ℕ) (f : Fault) → template_of file bytes ≡ Err f
        → f.code ≢ Circular }
    ensures objects { (file bytes : List ℕ) (z : Template) → is_object bytes ≡ true
        → template_of file bytes ≡ Ok z → z.kind ≡ Object }
{}
