ghost use Rattle.std.specs.Prelude.{◌≡◌, ◌++◌, IfOk, OnOk, map, true};
ghost use Rattle.stored_rows.specs.Rows.{row_name, are_rising};
ghost use Rattle.row_changes.specs.Differing.{gone_from, set_from, is_nothing};
ghost use Rattle.row_changes.specs.Passed.{Passes, gone_at, set_at, passed_at, reached_at};

use base::Text;
use std::alloc::{AllocError, Global};
use std::cmp::Ordering;
use stored_rows::StoredRow;

/// What differs between the rows that are kept and those that are wanted.
#[derive(Drop)]
pub struct Changes {
    /// The names of rows that are not wanted any more, in byte order.
    pub gone: Vec<Text>,
    /// The wanted rows that are not kept, or with other bytes, in byte order of their names.
    pub set: Vec<StoredRow>,
}

impl Changes {
    /// What differs between two lists of rows in byte order of names, of which no name stands twice.
    /// It takes one walk over both, and shares names and bytes with them.
    pub fn between(
        alloc: Global,
        last: &[StoredRow],
        wanted: &[StoredRow],
    ) -> Result<Changes, AllocError>
        requires last_rises { are_rising (map row_name last.now) ≡ true }
        requires wanted_rises { are_rising (map row_name wanted.now) ≡ true }
        ensures gone { IfOk result (λ c. c.gone.items ≡ gone_from last.now wanted.now) }
        ensures set { IfOk result (λ c. c.set.items ≡ set_from last.now wanted.now) }
    {
        let mut changes = Changes {
            gone: Vec::new(alloc),
            set: Vec::new(alloc),
        };
        let mut i = 0;
        let mut j = 0;
        while i < last.len() || j < wanted.len() {
            let (passed, reached) = changes.note_first(&last[i..], &wanted[j..])?;
            i += passed;
            j += reached;
        }
        Ok(changes)
    }

    /// Whether nothing differs.
    pub fn is_empty(&self) -> bool
        ensures { result ≡ is_nothing self.now.gone.items self.now.set.items }
    {
        self.gone.is_empty() && self.set.is_empty()
    }

    /// Notes what differs in the rows whose name stands first in these lists, and tells how many
    /// rows of each that were.
    fn note_first(
        &mut self,
        last: &[StoredRow],
        wanted: &[StoredRow],
    ) -> Result<(usize, usize), AllocError>
        requires last_rises { are_rising (map row_name last.now) ≡ true }
        requires wanted_rises { are_rising (map row_name wanted.now) ≡ true }
        ensures { IfOk result (λ r. Passes last.now wanted.now self.old.gone.items
            self.new.gone.items self.old.set.items self.new.set.items r.0 r.1) }
    {
        match last {
            [] => match wanted {
                [] => Ok((0, 0)),
                [new, ..] => {
                    self.set.push(new.share()?)?;
                    Ok((0, 1))
                }
            },
            [old, ..] => match wanted {
                [] => {
                    self.gone.push(old.name.share()?)?;
                    Ok((1, 0))
                }
                [new, ..] => self.note_lower(old, new),
            },
        }
    }

    /// Notes what differs in the one of these rows whose name stands first, or in both where they
    /// have one name.
    fn note_lower(&mut self, old: &StoredRow, new: &StoredRow) -> Result<(usize, usize), AllocError>
        ensures gone { OnOk result (self.new.gone.items ≡ self.old.gone.items ++ gone_at old.now
            new.now) }
        ensures set { OnOk result (self.new.set.items ≡ self.old.set.items ++ set_at old.now
            new.now) }
        ensures passed { IfOk result (λ r. r.0 ≡ passed_at old.now new.now) }
        ensures reached { IfOk result (λ r. r.1 ≡ reached_at old.now new.now) }
    {
        match old.name.as_str().cmp(new.name.as_str()) {
            Ordering::Less => {
                self.gone.push(old.name.share()?)?;
                Ok((1, 0))
            }
            Ordering::Equal => {
                if old.bytes.as_slice() != new.bytes.as_slice() {
                    self.set.push(new.share()?)?;
                }
                Ok((1, 1))
            }
            Ordering::Greater => {
                self.set.push(new.share()?)?;
                Ok((0, 1))
            }
        }
    }
}
