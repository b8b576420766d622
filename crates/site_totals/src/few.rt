//! Few entries joined with many: each of the few is searched for, and the many aren't walked.
ghost use Rattle.std.specs.Prelude.{◌≡◌, ◌-◌, ◌≤◌, is_none};
ghost use Rattle.std.specs.Vec.{vec_capacity, vec_len};
ghost use Rattle.std.specs.FinMap as map;
ghost use Rattle.general_lemmas.specs.SortedEntries.{IsRising};
ghost use Rattle.operations.specs.Totals.{count_missing, join_of, key_cmp};
ghost use Rattle.site_totals.specs.TotalLists.{IsKept, entries_of};

use crate::TotalKey;
use crate::rows::{Row, join_one, search};

// The greatest number of entries that count as few: to shift the entries after each of them costs
// less than to walk all.
pub(crate) const FEW_ROWS: usize = 16;

// Whether no entry has the key.
fn lacks(rows: &[Row], key: TotalKey) -> bool
    requires { IsRising key_cmp rows.now }
    ensures { result ≡ is_none (map.find key_cmp key rows.now) }
{
    match search(rows, key) {
        Ok(_) => false,
        Err(_) => true,
    }
}

// The number of keys that only the others have.
pub(crate) fn searched_count(rows: &[Row], others: &[Row]) -> usize
    requires rising { IsRising key_cmp rows.now }
    requires others_rising { IsRising key_cmp others.now }
    ensures { result ≡ count_missing (entries_of rows.now) (entries_of others.now) }
{
    let mut count = 0;
    for row in others {
        if lacks(rows, row.0) {
            count += 1;
        }
    }
    count
}

// Joins others into entries in place, in room that is there. Takes no memory.
pub(crate) fn absorb_searched(rows: &mut Vec<Row>, others: &[Row])
    requires kept { IsKept rows.old.items }
    requires others_kept { IsKept others.now }
    requires room { count_missing (entries_of rows.old.items) (entries_of others.now)
        ≤ vec_capacity rows.old - vec_len rows.old }
    ensures kept { IsKept rows.new.items }
    ensures joined { entries_of rows.new.items
        ≡ join_of (entries_of rows.old.items) (entries_of others.now) }
{
    for row in others {
        let _ = join_one(rows, row.0, row.1); // there is room, so it can't fail
    }
}
