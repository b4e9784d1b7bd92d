ghost use Rattle.std.specs.Prelude.{◌≡◌, map};
ghost use Rattle.stored_rows.specs.Rows.{is_first, are_rising};

/// What has a name.
pub trait Named {
    ghost use Rattle.std.specs.Prelude.{ℕ, List};

    ghost name_of: { Self → List ℕ };

    /// The name.
    fn name(&self) -> &str
        ensures { result.now ≡ name_of self.now };
}

/// Whether a name stands before the first of these.
fn is_first<T: Named>(name: &str, items: &[T]) -> bool
    ensures { result ≡ is_first name.now (map T.name_of items.now) }
{
    match items {
        [] => true,
        [first, ..] => name < first.name(),
    }
}

/// Whether each name stands before the next in byte order, so that no name stands twice.
pub fn are_rising<T: Named>(items: &[T]) -> bool
    ensures { result ≡ are_rising (map T.name_of items.now) }
{
    for i in 0..items.len() {
        if !is_first(items[i].name(), &items[i + 1..]) {
            return false;
        }
    }
    true
}
