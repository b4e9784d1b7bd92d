ghost use Rattle.std.specs.Prelude.{◌≡◌, ◌≤◌, IfOk, true, map};
ghost use Rattle.outside.specs.Pictures.{are_pictures};
ghost use Rattle.demo_pictures.specs.Demo.{machine_text};
ghost use Rattle.demo.specs.Pictures.{bytes_of, file_of, content_after, with_content, replaced, touched, port_after, demo_pictures};

use base::{Bytes, Seq};
use demo_pictures::{common_text, demo_picture, machine_text, next_number, port_of};
use load_path::{Content, PictureFile};
use outside::MemFile;
use std::alloc::{AllocError, Global};

const COMMON_NAME: &str = "site/common.pan";

/// The first machine's template.
const FIRST_NAME: &str = "h0.pan";

const LAST_PORT: u64 = 65535;

/// The bytes that a picture keeps.
fn bytes_of(content: &Content) -> Result<Option<Bytes>, AllocError>
    ensures { IfOk result (λ bytes. bytes ≡ bytes_of content.now) }
{
    match content {
        Content::Bytes(bytes) => Ok(Some(bytes.share()?)),
        Content::TooLong => Ok(None),
    }
}

fn file_of(file: &PictureFile) -> Result<MemFile, AllocError>
    ensures { IfOk result (λ made. made ≡ file_of file.now) }
{
    Ok(MemFile {
        name: file.name.share()?,
        content: bytes_of(&file.content)?,
    })
}

/// The files of a picture, as a source has them.
fn files_of(alloc: Global, files: &[PictureFile]) -> Result<Vec<MemFile>, AllocError>
    ensures { IfOk result (λ made. made.items ≡ map file_of files.now) }
{
    let mut made = Vec::with_capacity(alloc, files.len())?;
    for file in files {
        made.push(file_of(file)?)?;
    }
    Ok(made)
}

/// What a file holds when the file with this name is given another text.
fn content_after(file: &MemFile, name: &str, text: &Bytes) -> Result<Option<Bytes>, AllocError>
    ensures { IfOk result (λ content. content ≡ content_after name.now text.now file.now) }
{
    if file.name.as_str() == name {
        return Ok(Some(text.share()?));
    }
    match &file.content {
        None => Ok(None),
        Some(bytes) => Ok(Some(bytes.share()?)),
    }
}

fn with_content(file: &MemFile, name: &str, text: &Bytes) -> Result<MemFile, AllocError>
    ensures { IfOk result (λ made. made ≡ with_content name.now text.now file.now) }
{
    Ok(MemFile {
        name: file.name.share()?,
        content: content_after(file, name, text)?,
    })
}

/// The files, of which the one with this name is given another text.
fn replaced(
    alloc: Global,
    files: &Vec<MemFile>,
    name: &str,
    text: &Bytes,
) -> Result<Vec<MemFile>, AllocError>
    ensures { IfOk result (λ made. made.items ≡ replaced name.now text.now files.now.items) }
{
    let mut made = Vec::with_capacity(alloc, files.len())?;
    for file in files {
        made.push(with_content(file, name, text)?)?;
    }
    Ok(made)
}

/// A text and one more line.
fn touched(alloc: Global, text: &str) -> Result<Bytes, AllocError>
    ensures { IfOk result (λ made. made ≡ touched text.now) }
{
    let mut made = Vec::new(alloc);
    made.extend_from_slice(text.as_bytes())?;
    made.extend_from_slice(b"# touched\n")?;
    Bytes::from_vec(made)
}

/// The first machine's template, with this port and one more line.
fn touched_machine(alloc: Global, port: u64) -> Result<Bytes, AllocError>
    ensures { IfOk result (λ made. made ≡ touched (machine_text 0 port)) }
{
    let text = machine_text(alloc, 0, port)?;
    touched(alloc, text.as_str())
}

fn port_after(port: u64) -> u64
    requires { port ≤ 65535 }
    ensures { result ≡ port_after port }
{
    if port == LAST_PORT {
        return 1;
    }
    port + 1
}

/// The site before each of the builds.
pub fn pictures(alloc: Global, count: u32, start: u64) -> Result<Vec<Seq<MemFile>>, AllocError>
    ensures pictures { IfOk result (λ made. made.items ≡ demo_pictures count start) }
    ensures distinct { IfOk result (λ made. are_pictures made.items ≡ true) }
{
    let picture = demo_picture(alloc, count, start)?;
    let port = port_of(next_number(start));
    let first = files_of(alloc, picture.files())?;
    let second = replaced(alloc, &first, FIRST_NAME, &touched_machine(alloc, port)?)?;
    let moved = touched_machine(alloc, port_after(port))?;
    let third = replaced(alloc, &second, FIRST_NAME, &moved)?;
    let fourth = replaced(alloc, &third, COMMON_NAME, &touched(alloc, common_text())?)?;
    let mut made = Vec::with_capacity(alloc, 4)?;
    made.push(Seq::from_vec(first))?;
    made.push(Seq::from_vec(second))?;
    made.push(Seq::from_vec(third))?;
    made.push(Seq::from_vec(fourth))?;
    Ok(made)
}
