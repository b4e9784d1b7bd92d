ghost use Rattle.std.specs.Prelude.{◌≡◌, ◌++◌, IfOk, Ok, OnOk, true};
ghost use Rattle.format_files.specs.Layouts.{fault_count, is_template, layouts, lines, lines_of, report, template_count, want_in, wants_of};
ghost use Rattle.load_path.specs.Pictures.{are_short, has_short_content, is_rising};
ghost use Rattle.publication.specs.Puts.{are_apart};

use crate::outcome::{is_template, layout_of};
use crate::texts::{push_fault, push_too_long, push_totals};
use base::{Bytes, Text};
use load_path::{Picture, PictureFile};
use pan_format::FormatError;
use publication::Want;
use std::alloc::{AllocError, Global};

/// What becomes of a picture's templates.
#[derive(Drop)]
pub struct Layouts {
    /// The text of each template that has a layout, under the template's name, in the order of the picture.
    pub wants: Vec<Want>,
    /// A line for each template that has none, and the numbers of templates.
    pub report: Vec<u8>,
    /// How many templates have no layout.
    pub faults: usize,
}

fn push_want(wants: &mut Vec<Want>, name: &Text, text: Vec<u8>) -> Result<(), AllocError>
    ensures { OnOk result (wants.new.items
        ≡ wants.old.items ++ want_in name.now (Ok text.items)) }
{
    wants.push(Want {
        name: name.share()?,
        bytes: Bytes::from_vec(text)?,
    })?;
    Ok(())
}

/// The text of a template comes to the wants, or a line to the report.
fn lay_out_template(
    alloc: Global,
    file: &PictureFile,
    wants: &mut Vec<Want>,
    report: &mut Vec<u8>,
) -> Result<(), AllocError>
    requires template { is_template file.now ≡ true }
    requires short { has_short_content file.now.content ≡ true }
    ensures wants { OnOk result (wants.new.items ≡ wants.old.items ++ wants_of file.now) }
    ensures lines { OnOk result (report.new.items ≡ report.old.items ++ lines_of file.now) }
{
    match layout_of(alloc, file) {
        Ok(text) => push_want(wants, &file.name, text),
        Err(FormatError::Fault(fault)) => push_fault(alloc, report, &file.name, &fault),
        Err(FormatError::TooLong) => push_too_long(report, &file.name),
        Err(FormatError::Memory) => Err(AllocError),
    }
}

/// The same of a file that may be no template's, which has neither.
fn lay_out_file(
    alloc: Global,
    file: &PictureFile,
    wants: &mut Vec<Want>,
    report: &mut Vec<u8>,
) -> Result<(), AllocError>
    requires { has_short_content file.now.content ≡ true }
    ensures wants { OnOk result (wants.new.items ≡ wants.old.items ++ wants_of file.now) }
    ensures lines { OnOk result (report.new.items ≡ report.old.items ++ lines_of file.now) }
{
    if !is_template(file) {
        return Ok(());
    }
    lay_out_template(alloc, file, wants, report)
}

fn lay_out_files(
    alloc: Global,
    files: &[PictureFile],
    wants: &mut Vec<Want>,
    report: &mut Vec<u8>,
) -> Result<(), AllocError>
    requires { are_short files.now ≡ true }
    ensures wants { OnOk result (wants.new.items ≡ wants.old.items ++ layouts files.now) }
    ensures lines { OnOk result (report.new.items ≡ report.old.items ++ lines files.now) }
{
    for file in files {
        lay_out_file(alloc, file, wants, report)?;
    }
    Ok(())
}

fn count_templates(files: &[PictureFile]) -> usize
    ensures { result ≡ template_count files.now }
{
    files.iter().filter(|file| is_template(file)).count()
}

/// How many templates have no layout, where the others have these.
#[tactic(auto, using(crate::proofs::Counting::counted))]
fn count_faults(files: &[PictureFile], wants: &[Want]) -> usize
    requires { wants.now ≡ layouts files.now }
    ensures { result ≡ fault_count files.now }
{
    count_templates(files) - wants.len()
}

/// What becomes of the templates of a picture, in byte order of names: the text of each that has a layout, a line for
/// each that has none, with its fault or as too long, and last a line with their numbers.
#[tactic(auto, using(crate::proofs::Counting::few_faults, crate::proofs::Apart::layouts_apart))]
pub fn lay_out(alloc: Global, picture: &Picture) -> Result<Layouts, AllocError>
    ensures wants { IfOk result (λ made. made.wants.items ≡ layouts picture.now) }
    ensures report { IfOk result (λ made. made.report.items ≡ report picture.now) }
    ensures faults { IfOk result (λ made. made.faults ≡ fault_count picture.now) }
    ensures apart { IfOk result (λ made. are_apart made.wants.items ≡ true) }
{
    let files = picture.files();
    let mut wants = Vec::new(alloc);
    let mut report = Vec::new(alloc);
    lay_out_files(alloc, files, &mut wants, &mut report)?;
    let faults = count_faults(files, &wants);
    push_totals(&mut report, count_templates(files), faults)?;
    Ok(Layouts {
        wants,
        report,
        faults,
    })
}
