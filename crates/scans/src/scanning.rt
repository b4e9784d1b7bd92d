ghost use Rattle.std.specs.Prelude.{◌≡◌, ◌≤◌, ◌<◌, IfOk, IfErr, IfSome, IsSome, IsErrOf, OnOk, OnErr, Some, None, true, length, count_by};
ghost use Rattle.load_path.specs.Pictures.{has_short_content};
ghost use Rattle.outside.specs.Causes.{Caused, HasCause};
ghost use Rattle.scans.specs.Outcomes.{IsScan, IsPassed, IsPerhapsPassed, IsTakenIn, OfFile, one_where_named};
ghost use Rattle.scans.specs.Scans.{has_file_name, found_of, content_weight, with_found};

use crate::error::ScanError;
use base::limits::{MAX_FILE_BYTES, MAX_SCAN_BYTES, MAX_SCAN_FILES};
use base::{Bytes, Text};
use load_path::{Content, Picture, is_file_name};
use outside::{Got, Source, StoreError};
use std::alloc::{AllocError, Global};

/// What the read of a file counts that is too long.
const TOO_LONG_BYTES: usize = MAX_FILE_BYTES + 1;

fn has_file_name<S: Source>(source: &S, i: usize) -> bool
    requires { i < S.count source.now }
    ensures { OfFile (S.scanned source.now) i (λ f. result ≡ has_file_name f) }
{
    is_file_name(source.name(i).as_str().as_bytes())
}

fn name_count<S: Source>(source: &S, i: usize) -> usize
    requires { i < S.count source.now }
    ensures told { OfFile (S.scanned source.now) i (λ f. result ≡ one_where_named f) }
    ensures at_most { result ≤ 1 }
{
    if has_file_name(source, i) {
        return 1;
    }
    0
}

fn count_names<S: Source>(source: &S, count: usize) -> usize
    requires { count ≡ S.count source.now }
    ensures told { IfSome (S.scanned source.now)
        (λ files. length files ≡ count → result ≡ count_by has_file_name files) }
    ensures at_most { result ≤ count }
{
    let mut named = 0;
    for i in 0..count {
        named += name_count(source, i);
    }
    named
}

/// Reads a file that has a file name, or finds nothing where it is gone or has none.
fn find<S: Source>(
    alloc: Global,
    source: &mut S,
    i: usize,
    bytes: &mut Vec<u8>,
) -> Result<Option<Content>, StoreError>
    requires open { IsSome (S.opened source.old) }
    requires counted { i < S.count source.old }
    ensures ok { IfOk result (λ found. OfFile (S.scanned source.old) i (λ f. found ≡ found_of f)) }
    ensures short { IfOk result (λ found. IfSome found (λ content. has_short_content content
        ≡ true)) }
    ensures scanned { S.scanned source.new ≡ S.scanned source.old }
    ensures coming { S.coming source.new ≡ S.coming source.old }
    ensures count { S.count source.new ≡ S.count source.old }
    ensures opened { S.opened source.new ≡ S.opened source.old }
    ensures cause { HasCause (S.fault_count source.old) (S.fault_count source.new) result }
{
    if !has_file_name(source, i) {
        return Ok(None);
    }
    match source.read(i, bytes) {
        Ok(Got::Bytes) => Ok(Some(Content::Bytes(Bytes::from_slice(alloc, bytes)?))),
        Ok(Got::TooLong) => Ok(Some(Content::TooLong)),
        Ok(Got::Gone) => Ok(None),
        Err(error) => Err(error),
    }
}

fn weight(content: &Content) -> usize
    ensures { result ≡ content_weight content.now }
{
    match content {
        Content::Bytes(bytes) => bytes.as_slice().len(),
        Content::TooLong => TOO_LONG_BYTES,
    }
}

/// The content comes into the picture, where its name is new.
fn take_in(picture: &mut Picture, name: &Text, content: Content) -> Result<(), AllocError>
    requires { has_short_content content ≡ true }
    ensures { OnOk result (picture.new ≡ with_found name.now (Some content) picture.old) }
{
    if picture.find(name.as_str()).is_some() {
        return Ok(());
    }
    picture.add(name.share()?, content)
}

/// Reads a file into the picture, and gives what the read counts.
fn read_one<S: Source>(
    alloc: Global,
    source: &mut S,
    i: usize,
    picture: &mut Picture,
    bytes: &mut Vec<u8>,
) -> Result<usize, StoreError>
    requires open { IsSome (S.opened source.old) }
    requires counted { i < S.count source.old }
    ensures ok { IfOk result
        (λ weight. OfFile (S.scanned source.old) i (IsTakenIn weight picture.old picture.new)) }
    ensures few { IfOk result (λ weight. weight ≤ TOO_LONG_BYTES) }
    ensures scanned { S.scanned source.new ≡ S.scanned source.old }
    ensures coming { S.coming source.new ≡ S.coming source.old }
    ensures count { S.count source.new ≡ S.count source.old }
    ensures opened { S.opened source.new ≡ S.opened source.old }
    ensures cause { HasCause (S.fault_count source.old) (S.fault_count source.new) result }
{
    let Some(content) = find(alloc, source, i, bytes)? else {
        return Ok(0);
    };
    let weight = weight(&content);
    take_in(picture, source.name(i), content)?;
    Ok(weight)
}

/// The source's next picture without names that are no file names and without files that are gone, or None where it
/// is too much. The names are counted before any file is read.
fn read_picture<S: Source>(alloc: Global, source: &mut S) -> Result<Option<Picture>, StoreError>
    requires open { IsSome (S.opened source.old) }
    ensures ok { IfOk result (λ got. IsScan (S.coming source.old) got) }
    ensures taken { OnOk result (IsPassed (S.coming source.old) (S.coming source.new)) }
    ensures err { OnErr result (IsPerhapsPassed (S.coming source.old) (S.coming source.new)) }
    ensures opened { S.opened source.new ≡ S.opened source.old }
    ensures cause { HasCause (S.fault_count source.old) (S.fault_count source.new) result }
{
    let count = match source.begin_scan() {
        Ok(count) => count,
        Err(error) => return Err(error),
    };
    if count_names(source, count) > MAX_SCAN_FILES {
        return Ok(None);
    }
    let mut picture = Picture::new(alloc);
    let mut bytes = Vec::new(alloc);
    let mut passed = 0;
    for i in 0..count {
        passed += read_one(alloc, source, i, &mut picture, &mut bytes)?;
        if passed > MAX_SCAN_BYTES {
            return Ok(None);
        }
    }
    Ok(Some(picture))
}

/// A scan: the source's next picture without names that are no file names and without files that are gone.
///
/// `TooMuch` comes exactly where it is past the limits of a scan: over `MAX_SCAN_FILES` file names, or over
/// `MAX_SCAN_BYTES` bytes that are read, a file over `MAX_FILE_BYTES` counting one more than these. `Fault` comes only
/// where a call on the source failed. After `TooMuch` the picture was taken from the source too.
pub fn scan<S: Source>(alloc: Global, source: &mut S) -> Result<Picture, ScanError>
    requires open { IsSome (S.opened source.old) }
    ensures ok { IfOk result (λ picture. IsScan (S.coming source.old) (Some picture)) }
    ensures too_much { IsErrOf result ScanError.TooMuch → IsScan (S.coming source.old) None }
    ensures taken { OnOk result (IsPassed (S.coming source.old) (S.coming source.new)) }
    ensures passed { IsErrOf result ScanError.TooMuch
        → IsPassed (S.coming source.old) (S.coming source.new) }
    ensures err { OnErr result (IsPerhapsPassed (S.coming source.old) (S.coming source.new)) }
    ensures opened { S.opened source.new ≡ S.opened source.old }
    ensures cause { Caused (λ e. e ≡ ScanError.Fault) (S.fault_count source.old)
        (S.fault_count source.new) result }
{
    match read_picture(alloc, source) {
        Ok(Some(picture)) => Ok(picture),
        Ok(None) => Err(ScanError::TooMuch),
        Err(StoreError::Failed) => Err(ScanError::Fault),
        Err(StoreError::Memory) => Err(ScanError::Memory),
    }
}
