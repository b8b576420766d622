// Joins two lists of entries: few others are searched for; otherwise both are walked, in the order of their keys.
ghost use Rattle.std.specs.Prelude.{◌≡◌, ◌+◌, ◌-◌, ◌<◌, ◌≤◌, ◌∷◌, length, drop};
ghost use Rattle.std.specs.Vec.{vec_capacity, vec_len};
ghost use Rattle.general_lemmas.specs.SortedEntries.{IsRising};
ghost use Rattle.operations.specs.Totals.{count_missing, join_of, key_cmp};
ghost use Rattle.site_totals.specs.TotalLists.{IsKept, entries_of, joined_rows, next_order};

use crate::few::{FEW_ROWS, absorb_searched, searched_count};
use crate::rows::{Row, greater};
use std::cmp::Ordering;

// Which list has the least key that is left: `Less` for the first, `Greater` for the others, `Equal` for both. If the
// first has none left, `Greater`; if only the others have none, `Less`.
fn compare_next(rows: &[Row], own: usize, others: &[Row], theirs: usize) -> Ordering
    requires own_within { own ≤ length rows.now }
    requires theirs_within { theirs ≤ length others.now }
    ensures { result ≡ next_order (drop own rows.now) (drop theirs others.now) }
{
    if own == rows.len() {
        return Ordering::Greater;
    }
    if theirs == others.len() {
        return Ordering::Less;
    }
    rows[own].0.cmp(&others[theirs].0)
}

// Advances past the least key that is left in two lists, and returns its entry: for a key of both, the greater totals.
fn next_row(rows: &[Row], own: &mut usize, others: &[Row], theirs: &mut usize) -> Row
    requires own_within { own.old ≤ length rows.now }
    requires theirs_within { theirs.old ≤ length others.now }
    requires left { own.old + theirs.old < length rows.now + length others.now }
    ensures next { joined_rows (drop own.old rows.now) (drop theirs.old others.now)
        ≡ result ∷ joined_rows (drop own.new rows.now) (drop theirs.new others.now) }
    ensures own_left { own.new ≤ length rows.now }
    ensures theirs_left { theirs.new ≤ length others.now }
    ensures further { own.old + theirs.old < own.new + theirs.new }
{
    match compare_next(rows, *own, others, *theirs) {
        Ordering::Less => {
            let row = rows[*own];
            *own += 1;
            row
        }
        Ordering::Greater => {
            let row = others[*theirs];
            *theirs += 1;
            row
        }
        Ordering::Equal => {
            let row = rows[*own];
            let other = others[*theirs];
            *own += 1;
            *theirs += 1;
            (row.0, greater(row.1, other.1))
        }
    }
}

// The number of entries of the join of two lists. Walks both once.
fn joined_count(rows: &[Row], others: &[Row]) -> usize
    ensures { result ≡ length (joined_rows rows.now others.now) }
{
    let mut own = 0;
    let mut theirs = 0;
    let mut count = 0;
    while own < rows.len() || theirs < others.len() {
        let _ = next_row(rows, &mut own, others, &mut theirs);
        count += 1;
    }
    count
}

// The number of keys that only the others have. Few others are searched for; for more, both are walked once.
pub(crate) fn count_missing(rows: &[Row], others: &[Row]) -> usize
    requires rising { IsRising key_cmp rows.now }
    requires others_rising { IsRising key_cmp others.now }
    ensures value { result ≡ count_missing (entries_of rows.now) (entries_of others.now) }
    ensures longer { length (joined_rows rows.now others.now) ≡ length rows.now + result }
    ensures few { result ≤ length others.now }
{
    if others.len() <= FEW_ROWS {
        return searched_count(rows, others);
    }
    joined_count(rows, others) - rows.len()
}

// Joins others into entries in place: the first `spare` places are spare, one for each key that is missing. Walks
// both once.
fn merge(rows: &mut [Row], spare: usize, others: &[Row])
    requires within { spare ≤ length rows.old }
    requires room { length (joined_rows (drop spare rows.old) others.now) ≡ length rows.old }
    ensures { rows.new ≡ joined_rows (drop spare rows.old) others.now }
{
    let mut own = spare;
    let mut theirs = 0;
    for written in 0..rows.len() {
        let row = next_row(rows, &mut own, others, &mut theirs);
        rows[written] = row;
    }
}

// Joins others into entries in place, in room that is there. Takes no memory. Few others are searched for, and for more
// both are walked twice.
pub(crate) fn absorb_rows(rows: &mut Vec<Row>, others: &[Row])
    requires kept { IsKept rows.old.items }
    requires others_kept { IsKept others.now }
    requires room { count_missing (entries_of rows.old.items) (entries_of others.now)
        ≤ vec_capacity rows.old - vec_len rows.old }
    ensures kept { IsKept rows.new.items }
    ensures joined { entries_of rows.new.items
        ≡ join_of (entries_of rows.old.items) (entries_of others.now) }
{
    if others.len() <= FEW_ROWS {
        absorb_searched(rows, others);
        return;
    }
    absorb_walked(rows, others);
}

// Joins others into entries in place, in room that is there. Walks both twice.
fn absorb_walked(rows: &mut Vec<Row>, others: &[Row])
    requires kept { IsKept rows.old.items }
    requires others_kept { IsKept others.now }
    requires room { count_missing (entries_of rows.old.items) (entries_of others.now)
        ≤ vec_capacity rows.old - vec_len rows.old }
    ensures kept { IsKept rows.new.items }
    ensures joined { entries_of rows.new.items
        ≡ join_of (entries_of rows.old.items) (entries_of others.now) }
{
    let own = rows.len();
    let missing = count_missing(rows, others);
    let _ = rows.extend_from_slice(&others[..missing]); // there is room, so it can't fail
    rows.rotate_left(own);
    merge(rows, missing, others);
}
