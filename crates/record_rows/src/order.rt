ghost use Rattle.std.specs.Prelude.{◌≡◌, ◌++◌, IfOk};
ghost use Rattle.record_rows.specs.Rows.{file_numbers, tree_numbers, are_distinct, are_in_order};

use kept_state::{KeptFile, KeptObject};
use load_path::Content;
use std::alloc::{AllocError, Global};
use std::collections::HashSet;
use stored_rows::are_rising;

/// The numbers that were drawn for trees, behind others.
fn add_tree_numbers(numbers: Vec<u64>, objects: &[KeptObject]) -> Result<Vec<u64>, AllocError>
    ensures { IfOk result (λ made. made.items ≡ numbers.items ++ tree_numbers objects.now) }
{
    let mut made = numbers;
    for object in objects {
        match &object.built {
            Ok(_) => made.push(object.number)?,
            Err(_) => {}
        }
    }
    Ok(made)
}

/// The numbers that were drawn for files.
fn file_numbers(alloc: Global, files: &[KeptFile]) -> Result<Vec<u64>, AllocError>
    ensures { IfOk result (λ made. made.items ≡ file_numbers files.now) }
{
    let mut made = Vec::new(alloc);
    for file in files {
        match &file.content {
            Content::Bytes(_) => made.push(file.number)?,
            Content::TooLong => {}
        }
    }
    Ok(made)
}

/// Whether no number stands twice.
fn are_distinct(alloc: Global, numbers: &[u64]) -> Result<bool, AllocError>
    ensures { IfOk result (λ distinct. distinct ≡ are_distinct numbers.now) }
{
    let mut later = HashSet::new(alloc);
    for i in (0..numbers.len()).rev() {
        if !later.insert(numbers[i])? {
            return Ok(false);
        }
    }
    Ok(true)
}

/// Whether names rise, and no number was drawn twice.
pub(crate) fn are_in_order(
    alloc: Global,
    files: &[KeptFile],
    objects: &[KeptObject],
) -> Result<bool, AllocError>
    ensures { IfOk result (λ all. all ≡ are_in_order files.now objects.now) }
{
    if !are_rising(files) || !are_rising(objects) {
        return Ok(false);
    }
    let numbers = add_tree_numbers(file_numbers(alloc, files)?, objects)?;
    are_distinct(alloc, &numbers)
}
