ghost use Rattle.std.specs.Prelude.{◌≡◌, ◌++◌, IfOk, OnOk};
ghost use Rattle.read_sets.specs.Items.{pair_of, pairs_of};
ghost use Rattle.fault_causes.specs.Missed.{below_root, is_file_of, missed_by, missed_files};

use base::Text;
use read_sets::{Item, Key};
use std::alloc::{AllocError, Global};

/// `/`, a name and a suffix.
fn below_root(alloc: Global, name: &str, suffix: &str) -> Result<Vec<u8>, AllocError>
    ensures { IfOk result (λ bytes. bytes.items ≡ below_root name.now suffix.now) }
{
    let mut bytes = Vec::from_slice(alloc, b"/")?;
    bytes.extend_from_slice(name.as_bytes())?;
    bytes.extend_from_slice(suffix.as_bytes())?;
    Ok(bytes)
}

/// Whether a file is one of those that are looked for under a name.
fn is_file_of(alloc: Global, name: &str, file: &str) -> Result<bool, AllocError>
    ensures { IfOk result (λ is. is ≡ is_file_of name.now file.now) }
{
    let file = below_root(alloc, file, "")?;
    let template = below_root(alloc, name, ".pan")?;
    let other = below_root(alloc, name, "")?;
    Ok(file.ends_with(&template) || file.ends_with(&other))
}

/// Adds the file of an item, where it was looked for under the name and was not there.
fn add_missed(
    alloc: Global,
    files: &mut Vec<Text>,
    name: &str,
    item: &Item,
) -> Result<(), AllocError>
    ensures { OnOk result (files.new.items
        ≡ files.old.items ++ missed_by name.now (pair_of item.now)) }
{
    let Key::File(file) = &item.key else {
        return Ok(());
    };
    if item.number == 0 && is_file_of(alloc, name, file.as_str())? {
        files.push(Text::new(alloc, file.as_str())?)?;
    }
    Ok(())
}

/// The files that were looked for under a name by a run that asked for these items, and were not there, in the order in
/// which they were looked for. A template `NAME` is looked for under `NAME.pan`, another file under its name, each below
/// directories of its own.
pub fn missed_files(alloc: Global, items: &[Item], name: &str) -> Result<Vec<Text>, AllocError>
    ensures { IfOk result (λ files. files.items ≡ missed_files name.now (pairs_of items.now)) }
{
    let mut files = Vec::new(alloc);
    for item in items {
        add_missed(alloc, &mut files, name, item)?;
    }
    Ok(files)
}
