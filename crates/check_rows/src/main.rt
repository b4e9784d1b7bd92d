//! Reads what the rows of its input keep, and prints it.
//!
//! A line `row NAME BYTES` is a row, its bytes in hexadecimal digits. `read` reads the rows so far and
//! tells what they keep, and whether it is written as the same rows again. `change` reads them with
//! each byte of each in turn put to each other value, and counts the rows that are refused, that are
//! read and written as they stand, and that are read and written otherwise. `time` reads and writes
//! them, counts them, and tells on standard error in how many microseconds. All three begin anew. A
//! line that begins with `-` is a remark. The expected output is of another reader, written by hand.
#![tactic(auto)]

use anyhow::{Result, anyhow};
use base::{Bytes, Text};
use kept_state::Kept;
use record_rows::{RowsError, decode, encode};
use std::alloc::{AllocError, Global};
use std::time::Instant;
use stored_rows::StoredRow;

/// What comes of changed rows.
#[derive(Drop)]
struct Counts {
    refused: u64,
    same: u64,
    other: u64,
}

fn are_same(one: &[StoredRow], two: &[StoredRow]) -> bool {
    if one.len() != two.len() {
        return false;
    }
    for (a, b) in one.iter().zip(two) {
        if a.name.as_str() != b.name.as_str() || a.bytes.as_slice() != b.bytes.as_slice() {
            return false;
        }
    }
    true
}

fn is_written_again(alloc: Global, rows: &[StoredRow], kept: &Kept) -> Result<bool, AllocError> {
    let again = encode(alloc, kept)?;
    Ok(are_same(rows, &again))
}

fn print_kept(rt: &HostRuntime, rows: &[StoredRow], kept: &Kept) -> Result<()> {
    let again = if is_written_again(rt.alloc(), rows, kept)? {
        "as it stands"
    } else {
        "otherwise"
    };
    println!(rt;
        "  counter {}, {} turns, {} calls, {} directories, {} files, {} objects; written {again}",
        kept.counter,
        kept.limits.max_iteration,
        kept.limits.max_recursion,
        kept.dirs.len(),
        kept.files.len(),
        kept.objects.len()
    )?;
    Ok(())
}

fn read(rt: &HostRuntime, rows: &[StoredRow]) -> Result<()> {
    match decode(rt.alloc(), rows) {
        Ok(kept) => print_kept(rt, rows, &kept),
        Err(RowsError::BadRows) => {
            println!(rt; "  refused")?;
            Ok(())
        }
        Err(RowsError::Memory) => Err(anyhow!("no memory")),
    }
}

fn count(alloc: Global, rows: &[StoredRow], counts: &mut Counts) -> Result<()> {
    let counted = match decode(alloc, rows) {
        Err(RowsError::Memory) => return Err(anyhow!("no memory")),
        Err(RowsError::BadRows) => &mut counts.refused,
        Ok(kept) if is_written_again(alloc, rows, &kept)? => &mut counts.same,
        Ok(_kept) => &mut counts.other,
    };
    *counted = counted.saturating_add(1);
    Ok(())
}

/// The row with one of its bytes put to another value.
fn changed(alloc: Global, row: &StoredRow, at: usize, value: u8) -> Result<StoredRow> {
    let mut bytes = Vec::new(alloc);
    bytes.extend_from_slice(row.bytes.as_slice())?;
    if let Some(byte) = bytes.get_mut(at) {
        *byte = value;
    }
    Ok(StoredRow {
        name: row.name.share()?,
        bytes: Bytes::from_vec(bytes)?,
    })
}

fn count_byte(
    alloc: Global,
    rows: &mut Vec<StoredRow>,
    row: &StoredRow,
    place: usize,
    at: usize,
    counts: &mut Counts,
) -> Result<()> {
    for value in 0..=u8::MAX {
        if row.bytes.as_slice().get(at) == Some(&value) {
            continue;
        }
        let other = changed(alloc, row, at, value)?;
        if let Some(stands) = rows.get_mut(place) {
            *stands = other;
        }
        count(alloc, rows, counts)?;
    }
    Ok(())
}

fn count_row(
    alloc: Global,
    rows: &mut Vec<StoredRow>,
    place: usize,
    counts: &mut Counts,
) -> Result<()> {
    let Some(row) = rows.get(place) else {
        return Ok(());
    };
    let row = row.share()?;
    for at in 0..row.bytes.as_slice().len() {
        count_byte(alloc, rows, &row, place, at, counts)?;
    }
    if let Some(stands) = rows.get_mut(place) {
        *stands = row;
    }
    Ok(())
}

fn change(rt: &HostRuntime, rows: &mut Vec<StoredRow>) -> Result<()> {
    let mut counts = Counts {
        refused: 0,
        same: 0,
        other: 0,
    };
    for place in 0..rows.len() {
        count_row(rt.alloc(), rows, place, &mut counts)?;
    }
    println!(rt;
        "  {} refused, {} written as they stand, {} otherwise",
        counts.refused, counts.same, counts.other
    )?;
    Ok(())
}

fn time(rt: &HostRuntime, rows: &[StoredRow]) -> Result<()> {
    let start = Instant::now(rt)?;
    let Ok(kept) = decode(rt.alloc(), rows) else {
        return Err(anyhow!("not read"));
    };
    let read = start.elapsed(rt)?.as_micros();
    let start = Instant::now(rt)?;
    let again = encode(rt.alloc(), &kept)?;
    let written = start.elapsed(rt)?.as_micros();
    println!(rt; "  {} rows, {} objects", again.len(), kept.objects.len())?;
    eprintln!(rt; "read in {read} microseconds, written in {written}")?;
    Ok(())
}

fn row(alloc: Global, name: &str, digits: &str) -> Result<StoredRow> {
    Ok(StoredRow {
        name: Text::new(alloc, name)?,
        bytes: Bytes::from_vec(hex::decode(alloc, digits)?)?,
    })
}

fn run(rt: &HostRuntime, rows: &mut Vec<StoredRow>, words: &[&str]) -> Result<()> {
    match words {
        ["row", name, digits] => rows.push(row(rt.alloc(), name, digits)?)?,
        ["read"] => {
            read(rt, rows)?;
            rows.clear();
        }
        ["change"] => {
            change(rt, rows)?;
            rows.clear();
        }
        ["time"] => {
            time(rt, rows)?;
            rows.clear();
        }
        ["-", ..] => {}
        _ => return Err(anyhow!("no such line")),
    }
    Ok(())
}

fn main(rt: HostRuntime) -> Result<()> {
    let mut rows = Vec::new(rt.alloc());
    for line in rt.lines(rt.alloc()) {
        let line = line?;
        println!(rt; "{line}")?;
        let words = line.split(' ').collect::<Vec<&str>>(rt.alloc())?;
        run(&rt, &mut rows, &words)?;
    }
    Ok(())
}
