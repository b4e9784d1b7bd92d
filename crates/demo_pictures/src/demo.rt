ghost use Rattle.std.specs.Prelude.{◌≡◌, ◌≤◌, ◌++◌, IfOk, OnOk, string_bytes};
ghost use Rattle.demo_pictures.specs.Demo.{next_number, port_of, numbered, gateway_text, common_text, machine_text, machine_name, with_text, fixed_picture, demo_picture};

use base::limits::MAX_FILE_BYTES;
use base::{Bytes, Text};
use itoa::Buffer;
use load_path::{Content, Picture};
use std::alloc::{AllocError, Global};

const TYPES: &str =
    "declaration template site/types;\ntype host = extensible { 'name' : string 'port' : long(1..65535) 'active' : boolean = true };\n";

const COMMON: &str = "template site/common;\n'/system/arch' ?= 'x86_64';\n";

const BOX: &str = "structure template hw/box;\n'serial' = 'none';\n'disks/sda' = 500;\n";

const HEAD: &str = ";\ninclude 'site/types';\ninclude 'site/common';\nbind '/' = host;\n";

/// The text of `site/common.pan`.
pub fn common_text() -> &'static str
    ensures { result.now ≡ common_text }
{
    COMMON
}

/// The number after this one.
pub fn next_number(x: u64) -> u64
    ensures { result ≡ next_number x }
{
    x.wrapping_mul(6364136223846793005)
        .wrapping_add(1442695040888963407)
}

/// The port that a number stands for.
pub fn port_of(x: u64) -> u64
    ensures { result ≡ port_of x }
{
    1 + (x >> 33) % 65535
}

/// A number between two texts.
fn push(text: &mut String, before: &str, number: u64, after: &str) -> Result<(), AllocError>
    ensures { OnOk result
        (string_bytes text.new ≡ string_bytes text.old ++ numbered before.now number after.now) }
{
    let mut buffer = Buffer::new();
    text.push_str(before)?;
    text.push_str(buffer.format(number))?;
    text.push_str(after)
}

/// The machine from which machine `i` takes its gateway.
fn push_gateway(text: &mut String, i: u64) -> Result<(), AllocError>
    ensures { OnOk result (string_bytes text.new ≡ string_bytes text.old ++ gateway_text i) }
{
    if i == 0 {
        return Ok(());
    }
    push(text, "'/gateway' = value('h", (i - 1) / 2, ":/name');\n")
}

/// The template of machine `i`.
pub fn machine_text(alloc: Global, i: u64, port: u64) -> Result<String, AllocError>
    ensures { IfOk result (λ text. string_bytes text ≡ machine_text i port) }
{
    let mut text = String::new(alloc);
    push(&mut text, "object template h", i, HEAD)?;
    push(
        &mut text,
        "'/hardware' = create('hw/box', 'serial', 's",
        i,
        "');\n",
    )?;
    push(&mut text, "'/name' = 'h", i, "';\n")?;
    push(&mut text, "'/port' = ", port, ";\n")?;
    push_gateway(&mut text, i)?;
    Ok(text)
}

fn machine_name(alloc: Global, i: u64) -> Result<String, AllocError>
    ensures { IfOk result (λ name. string_bytes name ≡ machine_name i) }
{
    let mut name = String::new(alloc);
    push(&mut name, "h", i, ".pan")?;
    Ok(name)
}

/// A file comes into the picture; one whose name is there is passed over.
fn add(alloc: Global, picture: &mut Picture, name: &str, text: &str) -> Result<(), AllocError>
    ensures { OnOk result (picture.new ≡ with_text picture.old name.now text.now) }
{
    if picture.find(name).is_some() {
        return Ok(());
    }
    if text.len() > MAX_FILE_BYTES {
        return Err(AllocError);
    }
    let content = Content::Bytes(Bytes::from_slice(alloc, text.as_bytes())?);
    picture.add(Text::new(alloc, name)?, content)
}

fn fixed_picture(alloc: Global) -> Result<Picture, AllocError>
    ensures { IfOk result (λ picture. picture ≡ fixed_picture) }
{
    let mut picture = Picture::new(alloc);
    add(alloc, &mut picture, "site/types.pan", TYPES)?;
    add(alloc, &mut picture, "site/common.pan", COMMON)?;
    add(alloc, &mut picture, "hw/box.pan", BOX)?;
    Ok(picture)
}

fn add_machine(alloc: Global, picture: &mut Picture, i: u64, port: u64) -> Result<(), AllocError>
    ensures { OnOk result (picture.new ≡ with_text picture.old (machine_name i)
        (machine_text i port)) }
{
    let name = machine_name(alloc, i)?;
    let text = machine_text(alloc, i, port)?;
    add(alloc, picture, name.as_str(), text.as_str())
}

/// A site of so many machines, made from a number.
pub fn demo_picture(alloc: Global, count: u32, start: u64) -> Result<Picture, AllocError>
    ensures { IfOk result (λ picture. picture ≡ demo_picture count start) }
{
    let mut picture = fixed_picture(alloc)?;
    let mut number = start;
    for i in 0..count {
        number = next_number(number);
        add_machine(alloc, &mut picture, u64::from(i), port_of(number))?;
    }
    Ok(picture)
}
