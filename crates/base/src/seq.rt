ghost use Rattle.std.specs.Prelude.{◌≡◌, []};

use std::alloc::Global;
use std::marker::Model;

/// A list of values, seen by contracts as the plain list.
#[derive(Drop)]
pub struct Seq<T> {
    inner: Vec<T>,
}

impl<T> Model for Seq<T> {
    ghost use Rattle.std.specs.Prelude.{List};

    ghost Value = { List T };

    ghost view = { λ s. s.inner.items };
}

impl<T> Seq<T> {
    /// A list without values.
    pub fn new(alloc: Global) -> Seq<T>
        ensures { result ≡ [] }
    {
        Seq {
            inner: Vec::new(alloc),
        }
    }

    /// The values of a vector.
    pub fn from_vec(inner: Vec<T>) -> Seq<T>
        ensures { result ≡ inner.items }
    {
        Seq { inner }
    }

    /// The values.
    pub fn as_slice(&self) -> &[T]
        ensures { result.now ≡ self.now }
    {
        self.inner.as_slice()
    }
}
