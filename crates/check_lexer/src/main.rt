//! Prints, for each line of its input, the tokens that the line spells, or its fault.
//!
//! An input line is percent-encoded, so that it can hold line ends and bytes that are no UTF-8. A line that
//! begins an object template is marked `(object)`. The expected output is written by hand from the lexical rules.
#![tactic(auto)]

use anyhow::Result;
use base::Text;
use pan_ast::{Fault, Token, TokenKind};
use pan_lexer::{LexError, is_object, lex};
use percent_encoding::percent_decode;
use std::alloc::{AllocError, Global};

fn kind_text(kind: TokenKind) -> &'static str {
    match kind {
        TokenKind::Word => "Word",
        TokenKind::Name => "Name",
        TokenKind::Int => "Int",
        TokenKind::Text => "Text",
        TokenKind::Sign => "Sign",
        TokenKind::End => "End",
    }
}

fn decoded(alloc: Global, line: &str) -> Result<Vec<u8>, AllocError> {
    let mut bytes = Vec::new(alloc);
    percent_decode(line.as_bytes()).append_to(&mut bytes)?;
    Ok(bytes)
}

fn print_tokens(rt: &HostRuntime, tokens: &[Token]) -> Result<()> {
    let mut between = "  ";
    for token in tokens {
        print!(rt;
            "{}{} {}:{} {}..{} {:?}",
            between,
            kind_text(token.kind()),
            token.place().line,
            token.place().column,
            token.start(),
            token.end(),
            token.value().as_str()
        )?;
        between = " | ";
    }
    Ok(())
}

fn print_fault(rt: &HostRuntime, fault: &Fault) -> Result<()> {
    print!(rt;
        "  {} {}:{}",
        fault.code.text(),
        fault.place.line,
        fault.place.column
    )?;
    Ok(())
}

fn print_line(rt: &HostRuntime, file: &Text, line: &str) -> Result<()> {
    let bytes = decoded(rt.alloc(), line)?;
    println!(rt; "{}", line)?;
    if bytes.len() > 1000000 {
        return Ok(());
    }
    match lex(rt.alloc(), &bytes, file) {
        Ok(tokens) => print_tokens(rt, tokens.as_slice())?,
        Err(LexError::Fault(fault)) => print_fault(rt, &fault)?,
        Err(LexError::Memory) => print!(rt; "  memory")?,
    }
    println!(rt; "{}", if is_object(&bytes) { " (object)" } else { "" })?;
    Ok(())
}

fn main(rt: HostRuntime) -> Result<()> {
    let file = Text::new(rt.alloc(), "vectors")?;
    for line in rt.lines(rt.alloc()) {
        print_line(&rt, &file, line?.as_str())?;
    }
    Ok(())
}
