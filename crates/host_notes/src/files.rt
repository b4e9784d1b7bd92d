use base::limits::MAX_FILE_BYTES;
use fault_notes::{Cause, setter_file};
use std::fs::File;
use std::io;
use std::io::Read;

/// The bytes of a file below a folder.
fn read_below(rt: &HostRuntime, folder: &str, name: &[u8]) -> io::Result<Vec<u8>> {
    let mut path = String::from_str(rt.alloc(), folder)?;
    path.push('/')?;
    path.push_str(str::from_utf8(name).unwrap_or(""))?;
    let mut bytes = Vec::new(rt.alloc());
    File::open(rt, path.as_str())?
        .take(MAX_FILE_BYTES as u64)
        .read_to_end(&mut bytes)?;
    Ok(bytes)
}

/// The bytes of a file below a folder, where it can be read.
pub(crate) fn source_in(rt: &HostRuntime, folder: &str, name: &[u8]) -> Option<Vec<u8>> {
    read_below(rt, folder, name).ok()
}

/// The bytes of the file in which a value was set, where that is known and the file can be read.
pub(crate) fn setter_source(rt: &HostRuntime, folder: &str, cause: &Cause) -> Option<Vec<u8>> {
    let setter = cause.set_by.as_ref()?;
    source_in(rt, folder, setter_file(setter))
}
