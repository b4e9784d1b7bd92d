ghost use Rattle.std.specs.Prelude.{◌≡◌, ◌++◌, ◌∷◌, [], IfOk, OnOk, if◌then◌else◌, map, bytes_eq, take};
ghost use Rattle.std.specs.List.{list_any};
ghost use Rattle.fault_notes.specs.Reports.{different, faults_of, objects_with, with_objects, report_of};
ghost use Rattle.fault_notes.specs.Lines.{fault_in};

use crate::fault::{fault_in, object_in};
use base::{Bytes, Seq};
use std::alloc::{AllocError, Global};

/// The most different faults that are told.
pub const MAX_NOTES: usize = 20;

/// A fault of a report, and the objects that have it.
#[derive(Drop)]
pub struct Repeated {
    /// `CODE FILE:LINE:COLUMN DETAIL`.
    pub fault: Bytes,
    /// The names of the objects, in the order of the report.
    pub objects: Seq<Bytes>,
}

/// The faults of a report that are told.
#[derive(Drop)]
pub struct Report {
    /// The first different faults, at most `MAX_NOTES`.
    pub faults: Seq<Repeated>,
    /// How many different faults are left.
    pub left: usize,
}

fn is_among(fault: &[u8], faults: &[Bytes]) -> bool
    ensures { result ≡ list_any (bytes_eq fault.now) faults.now }
{
    faults.iter().any(|each| fault == each.as_slice())
}

/// Adds a fault, where it is new.
fn add_fault(alloc: Global, faults: &mut Vec<Bytes>, fault: &[u8]) -> Result<(), AllocError>
    ensures { OnOk result (faults.new.items ≡ (if list_any (bytes_eq fault.now) faults.old.items
        then faults.old.items else faults.old.items ++ fault.now ∷ [])) }
{
    if is_among(fault, faults) {
        return Ok(());
    }
    faults.push(Bytes::from_slice(alloc, fault)?)?;
    Ok(())
}

/// The different faults of lines, in the order in which they come first.
fn faults_of(alloc: Global, lines: &[Bytes]) -> Result<Vec<Bytes>, AllocError>
    ensures { IfOk result (λ faults. faults.items ≡ faults_of lines.now) }
{
    let mut faults = Vec::new(alloc);
    for line in lines {
        add_fault(alloc, &mut faults, fault_in(line.as_slice()))?;
    }
    Ok(faults)
}

/// The objects that have a fault, in the order of the lines.
#[tactic(auto, using(crate::proofs::Once::objects_more))]
fn objects_with(alloc: Global, lines: &[Bytes], fault: &[u8]) -> Result<Vec<Bytes>, AllocError>
    ensures { IfOk result (λ objects. objects.items ≡ objects_with lines.now fault.now) }
{
    let mut objects = Vec::new(alloc);
    for line in lines {
        if fault_in(line.as_slice()) == fault {
            objects.push(Bytes::from_slice(alloc, object_in(line.as_slice()))?)?;
        }
    }
    Ok(objects)
}

fn with_objects(alloc: Global, lines: &[Bytes], fault: &Bytes) -> Result<Repeated, AllocError>
    ensures { IfOk result (λ told. told ≡ with_objects lines.now fault.now) }
{
    let objects = objects_with(alloc, lines, fault.as_slice())?;
    Ok(Repeated {
        fault: fault.share()?,
        objects: Seq::from_vec(objects),
    })
}

fn all_repeated(
    alloc: Global,
    lines: &[Bytes],
    faults: &[Bytes],
) -> Result<Vec<Repeated>, AllocError>
    ensures { IfOk result (λ told. told.items ≡ map (with_objects lines.now) faults.now) }
{
    let mut told = Vec::new(alloc);
    for fault in faults {
        told.push(with_objects(alloc, lines, fault)?)?;
    }
    Ok(told)
}

/// Of the lines of a report that tell a fault the first `MAX_NOTES` different faults, each with its objects, and how many
/// are left. A line is `fault NAME CODE FILE:LINE:COLUMN DETAIL`, and two faults differ where what stands behind NAME
/// does.
pub fn report_of(alloc: Global, lines: &[Bytes]) -> Result<Report, AllocError>
    ensures { IfOk result (λ report. report ≡ report_of lines.now) }
{
    let faults = faults_of(alloc, lines)?;
    let told = faults.len().min(MAX_NOTES);
    Ok(Report {
        faults: Seq::from_vec(all_repeated(alloc, lines, &faults[..told])?),
        left: faults.len() - told,
    })
}
