ghost use Rattle.std.specs.Prelude.{◌≡◌, ◌↔◌, ℕ, List, map, true};
ghost use Rattle.stored_rows.specs.declared.row.StoredRow.{StoredRow};
ghost use Rattle.stored_rows.specs.Rows.{row_name, are_rising, bytes_under};
ghost use Rattle.keepers.specs.Keeping.{replaced};
ghost use Rattle.row_changes.specs.Differing.{gone_from, set_from, is_nothing};

/// A law: a keeper that holds the rows last kept and is told what differs holds the wanted rows.
pub fn changes_make_wanted()
    ensures { (last wanted : List StoredRow) → are_rising (map row_name wanted) ≡ true
        → (n : List ℕ) → replaced (gone_from last wanted) (set_from last wanted) n
        (bytes_under last n) ≡ bytes_under wanted n }
{}

/// A law: nothing differs exactly where the rows are the same.
pub fn only_same_rows_change_nothing()
    ensures { (last wanted : List StoredRow) → are_rising (map row_name last) ≡ true
        → are_rising (map row_name wanted) ≡ true
        → (is_nothing (gone_from last wanted) (set_from last wanted) ≡ true) ↔ (last ≡ wanted) }
{}
