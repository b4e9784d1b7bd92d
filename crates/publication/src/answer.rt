ghost use Rattle.std.specs.Prelude.{◌≡◌};
ghost use Rattle.publication.specs.Bounds.{is_within};

use crate::trouble::Trouble;
use base::Seq;

/// How a publication ended.
#[derive(Drop)]
pub enum Publication {
    /// It was made, but for these calls that failed, in the order in which they were made.
    Done(Seq<Trouble>),
    /// So many names were to be removed, which is more than it may: nothing was changed.
    TooManyRemovals(usize),
}

/// Whether a publication may remove so many names: any number where there is no bound.
pub(crate) fn is_within(most: Option<u64>, removals: usize) -> bool
    ensures { result ≡ is_within most removals }
{
    match most {
        None => true,
        Some(most) => removals as u64 <= most,
    }
}
