use pan_ast::Failure;

/// Why tokens are no template: F06 at the first token that no template goes on with, or F07 at the one that begins
/// the first construct over the limit of nesting; or it was out of memory.
pub type ParseError = Failure;
