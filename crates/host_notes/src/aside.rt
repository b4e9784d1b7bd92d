use crate::forms::form_in;
use std::io;
use std::io::{Stderr, Write};

/// Standard error, where notes are wanted; else nothing is written.
#[derive(Clone, Copy)]
pub struct Aside {
    to: Option<Stderr>,
}

impl Aside {
    /// Standard error, but where the variable PAN_NOTES is `off`.
    pub fn new(rt: &HostRuntime) -> Aside {
        if form_in(rt).is_none() {
            return Aside { to: None };
        }
        Aside {
            to: Some(rt.stderr()),
        }
    }
}

impl Write for Aside {
    fn write(&mut self, bytes: &[u8]) -> io::Result<usize> {
        match &mut self.to {
            Some(stderr) => stderr.write(bytes),
            None => Ok(bytes.len()),
        }
    }

    fn flush(&mut self) -> io::Result<()> {
        Ok(())
    }
}
