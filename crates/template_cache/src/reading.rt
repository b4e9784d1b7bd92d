ghost use Rattle.std.specs.Prelude.{◌≤◌, length};
ghost use Rattle.base.specs.Answers.{Gives};
ghost use Rattle.base.specs.declared.limits.TheConstants.{MAX_FILE_BYTES};
ghost use Rattle.pan_ast.specs.Failures.{fault_of};
ghost use Rattle.pan_ast.specs.TemplatesSeen.{template_seen};
ghost use Rattle.pan_template.specs.TemplateOf.{template_of};

use base::Text;
use pan_ast::{Failure, Template};
use pan_lexer::lex;
use pan_parser::parse;
use std::alloc::Global;

/// The template that the bytes of a file spell, or its first fault: F01 to F05 for its bytes, else
/// F06 or F07 for its tokens. `file` is the file's name, for the places.
pub fn read_template(alloc: Global, file: &Text, bytes: &[u8]) -> Result<Template, Failure>
    requires { length bytes.now ≤ MAX_FILE_BYTES }
    ensures { Gives template_seen fault_of result (template_of file.now bytes.now) }
{
    let tokens = match lex(alloc, bytes, file) {
        Ok(tokens) => tokens,
        Err(failure) => return Err(failure),
    };
    parse(alloc, tokens.as_slice())
}
