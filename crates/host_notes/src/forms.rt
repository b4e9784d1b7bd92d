use fault_notes::Colours;
use std::alloc::AllocError;
use std::env;
use std::env::VarError;
use std::io::IsTerminal;

/// How the faults of a build are told.
#[derive(Clone, Copy, PartialEq, Eq)]
pub(crate) enum Form {
    /// For a reader, each different fault with its line.
    Notes,
    /// A line each, as compilers print one.
    CompilerLines,
    /// A line each, as an object of JSON.
    Json,
}

/// The value of a variable of the environment; nothing where it is not set.
fn variable(rt: &HostRuntime, name: &str) -> Result<String, AllocError> {
    match env::var(rt, name) {
        Ok(value) => Ok(value),
        Err(VarError::OutOfMemory) => Err(AllocError),
        Err(_) => Ok(String::new(rt.alloc())),
    }
}

/// What the variable PAN_NOTES asks for; none where it is `off`, or where memory is wanting.
pub(crate) fn form_in(rt: &HostRuntime) -> Option<Form> {
    let Ok(value) = variable(rt, "PAN_NOTES") else {
        return None;
    };
    match value.as_str() {
        "off" => None,
        "gcc" => Some(Form::CompilerLines),
        "json" => Some(Form::Json),
        _ => Some(Form::Notes),
    }
}

/// Colours where standard error is a terminal and NO_COLOR is not set.
pub(crate) fn colours(rt: &HostRuntime) -> Result<Colours, AllocError> {
    if rt.stderr().is_terminal() && variable(rt, "NO_COLOR")?.is_empty() {
        return Ok(Colours::On);
    }
    Ok(Colours::Off)
}
