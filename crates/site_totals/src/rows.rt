// Entries in the order of their keys, in a slice or a vector.
ghost use Rattle.std.specs.Prelude.{◌≡◌, ◌↔◌, ◌+◌, ◌-◌, ◌<◌, ◌≤◌, IsTrue, IsSome, IsOk, IfOk};
ghost use Rattle.std.specs.Prelude.{IfErr, OnOk, OnErr};
ghost use Rattle.std.specs.Vec.{vec_capacity, vec_len};
ghost use Rattle.std.specs.FinMap as map;
ghost use Rattle.dots.specs.Values.{IsSite};
ghost use Rattle.general_lemmas.specs.SortedEntries.{IsRising, IsAt, IsGapFor};
ghost use Rattle.operations.specs.Totals.{InLimits, key_cmp, greater, totals_at, join_of, single};
ghost use Rattle.operations.specs.Totals.{count_missing};
ghost use Rattle.site_totals.specs.TotalLists.{IsKept, row_totals, entries_of};
ghost use Rattle.site_totals.specs.Raising.{number_of, raised_totals};

use crate::raising::{number_of, one_more};
use crate::{CallTotals, Calls, Memory, TotalFault, TotalKey};
use dots::{MOST_CALLS, QUEUES};

// An entry: a key with its totals.
pub(crate) type Row = (TotalKey, CallTotals);

// `Ok` with the place of the key, or `Err` with the place where it would be inserted.
pub(crate) fn search(rows: &[Row], key: TotalKey) -> Result<usize, usize>
    requires { IsRising key_cmp rows.now }
    ensures found { IfOk result (IsAt rows.now key) }
    ensures absent { IfErr result (IsGapFor key_cmp rows.now key) }
{
    rows.binary_search_by_key(&key, |&(key, _)| key)
}

// The totals of a key; no calls if it has no entry.
pub(crate) fn row_totals(rows: &[Row], key: TotalKey) -> CallTotals
    requires { IsRising key_cmp rows.now }
    ensures { result ≡ row_totals rows.now key }
{
    match search(rows, key) {
        Ok(at) => rows[at].1,
        Err(_) => CallTotals::none(),
    }
}

// The totals of a key, no calls if it has no entry, and the place where it is or would be inserted. A guessed place is tried
// first. No contract says which place it is.
pub(crate) fn row_totals_near(rows: &[Row], key: TotalKey, guess: usize) -> (CallTotals, usize)
    requires { IsRising key_cmp rows.now }
    ensures { result.0 ≡ row_totals rows.now key }
{
    if guess < rows.len() && rows[guess].0 == key {
        return (rows[guess].1, guess);
    }
    match search(rows, key) {
        Ok(at) => (rows[at].1, at),
        Err(at) => (CallTotals::none(), at),
    }
}

// Whether both lists are equal.
pub(crate) fn same_rows(rows: &[Row], others: &[Row]) -> bool
    ensures { IsTrue result ↔ (rows.now ≡ others.now) }
{
    rows == others
}

// The greater of both, number by number.
pub(crate) fn greater(left: CallTotals, right: CallTotals) -> CallTotals
    ensures { result ≡ greater left right }
{
    CallTotals {
        completed: left.completed.max(right.completed),
        abandoned: left.abandoned.max(right.abandoned),
    }
}

// Sets the totals of a key, in its entry or a new one. Fails only when out of memory for a new entry, and then changes
// nothing.
pub(crate) fn put(rows: &mut Vec<Row>, key: TotalKey, totals: CallTotals) -> Result<(), Memory>
    requires { IsRising key_cmp rows.old.items }
    ensures ok { OnOk result (rows.new.items ≡ map.put key_cmp key totals rows.old.items) }
    ensures err { OnErr result (rows.new.items ≡ rows.old.items) }

    // A key that is there takes no room.
    ensures there { IsSome (map.find key_cmp key rows.old.items) → IsOk result }
    ensures room { vec_len rows.old < vec_capacity rows.old → IsOk result }
    ensures capacity { vec_capacity rows.old ≤ vec_capacity rows.new }
{
    match search(rows, key) {
        Ok(at) => {
            rows[at] = (key, totals);
            Ok(())
        }
        Err(at) => {
            rows.insert(at, (key, totals))?;
            Ok(())
        }
    }
}

// Joins one entry, within the limits of keys and totals: the greater of the present and these totals. Two zeros are no
// entry. Fails only when out of memory for a new entry, and then changes nothing.
pub(crate) fn join_one(rows: &mut Vec<Row>, key: TotalKey, totals: CallTotals) -> Result<(), Memory>
    requires kept { IsKept rows.old.items }
    requires limits { InLimits (single key totals) }
    ensures kept { IsKept rows.new.items }
    ensures ok { OnOk result (entries_of rows.new.items
        ≡ join_of (entries_of rows.old.items) (single key totals)) }
    ensures err { OnErr result (rows.new.items ≡ rows.old.items) }
    ensures succeeds { count_missing (entries_of rows.old.items) (single key totals)
        ≤ vec_capacity rows.old - vec_len rows.old → IsOk result }
    ensures room { vec_capacity rows.old - vec_len rows.old
        ≤ (vec_capacity rows.new - vec_len rows.new)
        + count_missing (entries_of rows.old.items) (single key totals) }
{
    if totals.is_zero() {
        return Ok(());
    }
    let had = row_totals(rows, key);
    put(rows, key, greater(had, totals))?;
    Ok(())
}

// Counts one more of these calls at a key, and returns the new total. Errors, in order, each of which changes nothing: 1
// `TotalFull`, exactly where the total is 1,000,000,000; 2 `Memory`, for a first entry without room.
pub(crate) fn raise_one(rows: &mut Vec<Row>, key: TotalKey, calls: Calls) -> Result<u64, TotalFault>
    requires kept { IsKept rows.old.items }
    requires site { IsSite key.site }
    requires queue { key.queue < QUEUES }
    ensures kept { IsKept rows.new.items }
    ensures value { IfOk result (λ total. total
        ≡ number_of calls (totals_at (entries_of rows.old.items) key) + 1) }
    ensures ok { OnOk result (entries_of rows.new.items
        ≡ raised_totals (entries_of rows.old.items) key calls) }
    ensures full { (result ≡ Err TotalFault.TotalFull)
        ↔ (number_of calls (totals_at (entries_of rows.old.items) key) ≡ MOST_CALLS) }
    ensures memory { result ≡ Err TotalFault.Memory
        → (map.get (entries_of rows.old.items) key ≡ None)
        × (vec_capacity rows.old ≤ vec_len rows.old) }
    ensures err { OnErr result (rows.new.items ≡ rows.old.items) }
{
    let had = row_totals(rows, key);
    if number_of(calls, had) >= MOST_CALLS {
        return Err(TotalFault::TotalFull);
    }
    let more = one_more(calls, had);
    match put(rows, key, more) {
        Ok(()) => Ok(number_of(calls, more)),
        Err(_) => Err(TotalFault::Memory),
    }
}
