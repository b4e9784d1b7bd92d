use base::{Bytes, Text};
use engine_session::Works;
use fault_causes::missed_files;
use fault_notes::{Cause, detail_in};
use runner::Runner;
use std::alloc::{AllocError, Global};

/// Names with commas between them; none where there are no names.
fn joined(alloc: Global, names: &[Text]) -> Result<Option<Bytes>, AllocError> {
    let [first, others @ ..] = names else {
        return Ok(None);
    };
    let mut text = Vec::from_slice(alloc, first.as_str().as_bytes())?;
    for name in others {
        text.extend_from_slice(b", ")?;
        text.extend_from_slice(name.as_str().as_bytes())?;
    }
    Ok(Some(Bytes::from_vec(text)?))
}

/// Under which names the file was looked for that an object wants and that is not there.
pub(crate) fn file_cause<R: Runner>(
    alloc: Global,
    works: &Works<R>,
    object: &str,
    fault: &[u8],
) -> Result<Cause, AllocError> {
    let mut cause = Cause::unknown(alloc);
    let Ok(name) = str::from_utf8(detail_in(fault)) else {
        return Ok(cause);
    };
    let Some(reads) = works.engine.reads(object) else {
        return Ok(cause);
    };
    cause.looked_for = joined(alloc, &missed_files(alloc, reads.build.items(), name)?)?;
    Ok(cause)
}
