ghost use Rattle.std.specs.Prelude.{◌≡◌, [], IfOk, OnOk, option_map, option_copied};
ghost use Rattle.load_path.specs.Pictures.{content_in};
ghost use Rattle.questions.specs.declared.key.Key.TheVariants.{File, Under};
ghost use Rattle.runner.specs.Words.{seen_told};
ghost use Rattle.written_runner.specs.Traces.{with_item, with_told};

use crate::used::note;
use base::{Seq, Text};
use load_path::{Content, Picture};
use path_tree::Name;
use questions::Key;
use read_sets::Trace;
use runner::{Known, Told};
use std::alloc::{AllocError, Global};

/// Asks for a file.
pub(crate) fn ask_file<'a, K: Known>(
    picture: &'a Picture,
    known: &K,
    name: Text,
    trace: &mut Trace,
) -> Result<Option<&'a Content>, AllocError>
    ensures content { IfOk result (λ c. option_copied c ≡ content_in picture.now name) }
    ensures trace { OnOk result (trace.new ≡ with_item (File name) (K.numbers known.now name)
        trace.old) }
{
    let number = known.file_number(name.as_str());
    let found = picture.find(name.as_str());
    note(trace, Key::File(name), number)?;
    Ok(found)
}

/// Asks for the tree of an object; None where it is not known.
pub(crate) fn ask_object<'a, K: Known>(
    alloc: Global,
    known: &'a K,
    object: Name,
    trace: &mut Trace,
) -> Result<Option<Told<'a>>, AllocError>
    ensures told { IfOk result (λ t. seen_told t ≡ K.objects known.now object []) }
    ensures trace { OnOk result (trace.new ≡ with_told object (K.objects known.now object [])
        trace.old) }
{
    let Some(told) = known.built(&object, &[]) else {
        return Ok(None);
    };
    let key = Key::Under {
        object,
        terms: Seq::new(alloc),
    };
    note(trace, key, told.number)?;
    Ok(Some(told))
}
