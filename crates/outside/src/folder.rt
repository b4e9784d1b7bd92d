ghost use Rattle.std.specs.Prelude.{◌≡◌, ◌≤◌, ◌<◌, ◌+◌, ◌++◌, ◌∷◌, [], IfOk, IfErr, OnOk, IsErrAnd, IfSome, MatchOption, Some, None, Ok, Err, true, false, string_bytes, codes, length, IsTrue, ◌↔◌};
ghost use Rattle.std.specs.Path.{PathStartsWith};
ghost use Rattle.base.specs.declared.limits.TheConstants.{MAX_FILE_BYTES};
ghost use Rattle.outside.specs.declared.folder.TheConstants.{MOST_HIDDEN};
ghost use Rattle.outside.specs.Pictures.{got_of, read_of};
ghost use Rattle.std.specs.IoError.{error_kind};
ghost use Rattle.outside.specs.Absent.{says_absent};

use crate::source::Got;
use base::Text;
use base::limits::MAX_FILE_BYTES;
use std::alloc::{AllocError, Global};
use std::fs::{DirEntry, File, ReadDir};
use std::io::{ErrorKind, Read, Write};
use std::path::Path;
use std::rt::Files;
use std::{fs, io};

/// The most entries that a listing passes over.
const MOST_ENTRIES: u64 = 1_000_000;

/// The root of a device; the empty text before it is opened, where no folder is.
pub(crate) fn root_of(root: &Option<Text>) -> &str {
    match root {
        Some(root) => root.as_str(),
        None => "",
    }
}

/// The path of a name below a folder.
pub(crate) fn path_below(alloc: Global, root: &str, name: &str) -> Result<String, AllocError>
    ensures { IfOk result (λ path. string_bytes path ≡ root.now ++ codes "/" ++ name.now) }
{
    let room = root.len().saturating_add(name.len()).saturating_add(1);
    let mut path = String::with_capacity(alloc, room)?;
    path.push_str(root)?;
    path.push('/')?;
    path.push_str(name)?;
    Ok(path)
}

/// None where the error says that no file is there: none has the name, or a folder has it, or one of the
/// folders on the way to it is a file.
fn unless_absent<T>(outcome: io::Result<T>) -> io::Result<Option<T>>
    ensures ok { IfOk result (λ found. MatchOption found
        (IsErrAnd outcome (λ e. says_absent (error_kind e) ≡ true)) (λ value. outcome ≡ Ok value)) }
    ensures err { IfErr result (λ e. (outcome ≡ Err e) × (says_absent (error_kind e) ≡ false)) }
{
    match outcome {
        Ok(value) => Ok(Some(value)),
        Err(error) => match error.kind() {
            ErrorKind::NotFound | ErrorKind::NotADirectory | ErrorKind::IsADirectory => Ok(None),
            _ => Err(error),
        },
    }
}

/// The path of an entry from the root, where it is a regular file or a folder. Everything else is left out, links
/// among it.
fn path_of<R: Files>(
    alloc: Global,
    folder: &str,
    entry: &DirEntry<R, Global>,
) -> io::Result<Option<Text>> {
    let Some(kind) = unless_absent(entry.file_type())? else {
        return Ok(None);
    };
    let name = entry.file_name();
    if kind.is_file() {
        return Ok(Some(Text::joined(alloc, folder, name)?));
    }
    if !kind.is_dir() {
        return Ok(None);
    }
    let mut path = String::from_str(alloc, folder)?;
    path.push_str(name)?;
    path.push_str("/")?;
    Ok(Some(Text::from_string(path)?))
}

/// A walk through a folder and all folders below it, in byte order of their paths from it.
#[derive(Drop)]
struct Walk {
    alloc: Global,
    /// The regular files so far, by their paths from the root.
    names: Vec<Text>,
    /// The files and folders still to come, the next of them last. A folder has a slash at its end, so that
    /// all that lies below it stands where it stands itself.
    pending: Vec<Text>,
    entries: u64,
}

impl Walk {
    fn new(alloc: Global) -> Walk {
        Walk {
            alloc,
            names: Vec::new(alloc),
            pending: Vec::new(alloc),
            entries: 0,
        }
    }

    /// Takes the entries of the folder with this path from the root.
    fn list<R: Files + AllocGlobal + Clone + Drop>(
        &mut self,
        folder: &str,
        entries: ReadDir<R, Global>,
    ) -> io::Result<()> {
        let mut found = Vec::new(self.alloc);
        for entry in entries {
            if self.entries >= MOST_ENTRIES {
                return Err(io::Error::other("too many entries"));
            }
            self.entries += 1;
            let path = path_of(self.alloc, folder, &entry?)?;
            if let Some(path) = path {
                found.push(path)?;
            }
        }
        found.sort_by(|a, b| b.cmp(a))?;
        self.pending.append(&mut found)?;
        Ok(())
    }

    /// Takes the entries of the folder with this path from the root, where it is still there. `place` is its path
    /// from then on.
    fn enter<R: Files + AllocGlobal + Clone + Drop>(
        &mut self,
        rt: &R,
        root: &str,
        folder: &str,
        place: &mut String,
    ) -> io::Result<()> {
        *place = path_below(self.alloc, root, folder)?;
        match unless_absent(fs::read_dir(rt, place.as_str()))? {
            Some(entries) => self.list(folder, entries),
            None => Ok(()),
        }
    }
}

/// The regular files of a folder and of all folders below it, by their paths from it, in byte order. A link
/// at the root is followed, and none below it. After a failure `place` is the path of the folder that it was about.
pub(crate) fn files_below<R: Files + AllocGlobal + Clone + Drop>(
    rt: &R,
    root: &str,
    place: &mut String,
) -> io::Result<Vec<Text>> {
    *place = String::from_str(rt.alloc(), root)?;
    let entries = fs::read_dir(rt, root)?;
    let mut walk = Walk::new(rt.alloc());
    walk.list("", entries)?;
    for _ in 0..u64::MAX {
        let Some(next) = walk.pending.pop() else {
            break;
        };
        if next.as_str().ends_with('/') {
            walk.enter(rt, root, next.as_str(), place)?;
        } else {
            walk.names.push(next)?;
        }
    }
    Ok(walk.names)
}

/// Reads all that a reader has still to give, where that is at most `MAX_FILE_BYTES` bytes. Of more nothing is
/// given.
pub(crate) fn read_short<F: Read + Drop>(from: F, into: &mut Vec<u8>) -> io::Result<Got>
    ensures told { IfOk result (λ got. IfSome (F.remaining from)
        (λ bytes. (got ≡ got_of (Some bytes)) × (into.new.items ≡ read_of (Some bytes)))) }
    ensures within { OnOk result (length into.new.items ≤ MAX_FILE_BYTES) }
{
    into.clear();
    from.take(MAX_FILE_BYTES as u64 + 1).read_to_end(into)?;
    if into.len() <= MAX_FILE_BYTES {
        return Ok(Got::Bytes);
    }
    into.clear();
    Ok(Got::TooLong)
}

/// Reads a file of at most `MAX_FILE_BYTES` bytes.
pub(crate) fn read_short_file<R: Files + AllocGlobal>(
    rt: &R,
    path: &str,
    into: &mut Vec<u8>,
) -> io::Result<Got>
    ensures { OnOk result (length into.new.items ≤ MAX_FILE_BYTES) }
{
    if let Some(file) = unless_absent(File::open(rt, path))? {
        if let Some(got) = unless_absent(read_short(file, into))? {
            return Ok(got);
        }
    }
    into.clear();
    Ok(Got::Gone)
}

/// Reads the first `most` bytes of a file. False where no file is there.
pub(crate) fn read_file<R: Files + AllocGlobal>(
    rt: &R,
    path: &str,
    most: u64,
    into: &mut Vec<u8>,
) -> io::Result<bool> {
    into.clear();
    let Some(file) = unless_absent(File::open(rt, path))? else {
        return Ok(false);
    };
    let read = unless_absent(file.take(most).read_to_end(into))?;
    Ok(read.is_some())
}

/// Puts a file in one step: the bytes are written to a hidden file beside it, which then takes its name.
/// The folders are made where they are missing. After a failure the hidden file is removed.
pub(crate) fn put_file<R: Files + AllocGlobal>(rt: &R, path: &str, bytes: &[u8]) -> io::Result<()> {
    let (folder, name) = path.rsplit_once('/').unwrap_or((".", path));
    let Hidden { file, path: hidden } = hidden_file(rt, folder, name)?;
    let put = write_and_rename(rt, file, hidden.as_str(), path, bytes);
    if put.is_err() {
        let _ = fs::remove_file(rt, hidden.as_str());
    }
    put
}

/// A file that was made beside another one, and its path.
#[derive(Drop)]
struct Hidden<F: Drop> {
    file: F,
    path: String,
}

/// The most hidden files that are left alone beside one file.
const MOST_HIDDEN: u8 = 10;

/// Makes an empty file beside `name`, `.NAME.N.new` with the first digit N under which none is: so it is this call's
/// alone, and one that another process writes is left alone. Where all ten are there, as only killed processes leave
/// them, the first one is used again.
fn hidden_file<R: Files + AllocGlobal>(
    rt: &R,
    folder: &str,
    name: &str,
) -> io::Result<Hidden<R::File>> {
    for number in 0..MOST_HIDDEN {
        let path = hidden_beside(rt.alloc(), folder, name, number)?;
        match new_file(rt, folder, path.as_str()) {
            Ok(file) => return Ok(Hidden { file, path }),
            Err(error) if error.kind() == ErrorKind::AlreadyExists => {}
            Err(error) => return Err(error),
        }
    }
    let path = hidden_beside(rt.alloc(), folder, name, 0)?;
    let file = File::create(rt, path.as_str())?;
    Ok(Hidden { file, path })
}

fn hidden_beside(alloc: Global, folder: &str, name: &str, number: u8) -> Result<String, AllocError>
    requires { number < MOST_HIDDEN }
    ensures { IfOk result (λ hidden. string_bytes hidden ≡ folder.now ++ codes "/." ++ name.now
        ++ codes "." ++ (48 + number) ∷ [] ++ codes ".new") }
{
    let mut hidden = path_below(alloc, folder, ".")?;
    hidden.push_str(name)?;
    hidden.push('.')?;
    hidden.push(char::from(b'0' + number))?;
    hidden.push_str(".new")?;
    Ok(hidden)
}

/// Makes a file that is not there yet, and its folders where they are missing.
fn new_file<R: Files>(rt: &R, folder: &str, path: &str) -> io::Result<R::File> {
    match unless_absent(File::create_new(rt, path))? {
        Some(file) => Ok(file),
        None => {
            fs::create_dir_all(rt, folder)?;
            File::create_new(rt, path)
        }
    }
}

fn write_and_rename<R: Files>(
    rt: &R,
    mut file: R::File,
    hidden: &str,
    path: &str,
    bytes: &[u8],
) -> io::Result<()> {
    file.write_all(bytes)?;
    drop(file);
    fs::rename(rt, hidden, path)
}

/// Whether a folder is another one or holds it, by their real paths.
fn is_or_holds(folder: &str, other: &str) -> bool
    ensures { IsTrue result ↔ PathStartsWith other.now folder.now }
{
    Path::new(other).starts_with(folder)
}

/// Fails where the folder at `path` is the folder `source` or holds it. Links are followed in both. A folder that is
/// not there holds nothing.
pub(crate) fn keep_apart<R: Files + AllocGlobal>(
    rt: &R,
    path: &str,
    source: &Option<Text>,
) -> io::Result<()> {
    let Some(source) = source else {
        return Ok(());
    };
    let Some(folder) = unless_absent(fs::canonicalize(rt, path))? else {
        return Ok(());
    };
    let source = fs::canonicalize(rt, source.as_str())?;
    if is_or_holds(folder.as_path().as_str(), source.as_path().as_str()) {
        return Err(io::Error::new(
            ErrorKind::InvalidInput,
            "it is SOURCE, or holds it: profiles need a folder of their own",
        ));
    }
    Ok(())
}

/// Removes a file, where it is there.
pub(crate) fn remove_file(rt: &impl Files, path: &str) -> io::Result<()> {
    match fs::remove_file(rt, path) {
        Err(error) if error.kind() == ErrorKind::NotFound => Ok(()),
        Err(error) if error.kind() == ErrorKind::NotADirectory => Ok(()),
        removed => removed,
    }
}
