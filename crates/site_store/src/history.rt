//! All rows of a store, with those in whose place a base was put.
ghost use Rattle.std.specs.Prelude.{◌≡◌, ◌≢◌, ◌<◌, ◌^◌, ◌+◌, ◌++◌, [], ℕ, List};
ghost use Rattle.std.specs.Prelude.{IfOk, IfSome, IsSome, length, map};
ghost use Rattle.std.specs.List.Sorted.{IsPermutation};
ghost use Rattle.sqlite.specs.Held.{state};
ghost use Rattle.sqlite.specs.State.{HasCleanDisk};
ghost use Rattle.stored_steps.specs.Stored.{Stored};
ghost use Rattle.site_store.specs.Kept.{AreOfBoth, HoldsAll, IsHistory};
ghost use Rattle.site_store.specs.Steps.{IsStoreSchema, Lists, OnlyReads};
ghost use Rattle.site_store.specs.Steps.{kept_schema, rows_from, shown, step_schema};

use crate::reading::{Listed, listed_from, query_rows, read_all};
use crate::shape::keeps_rows;
use sqlite::{Alter, Connection, Error, Row};
use std::alloc::Global;

// All rows of the table of kept rows, as an answer shows them, in the order of their positions; contracts say so of rows without a gap.
// What the database holds stays. Fails with the database's error.
fn query_kept<S: Alter>(conn: &mut Connection<S>) -> Result<Vec<Row>, Error>
    ensures listed { HasCleanDisk (state S.Store conn.new)
        → (state S.Store conn.old).now.schema ≡ kept_schema
        → IfOk result (λ rows.
        IsPermutation (map shown ((state S.Store conn.old).now.trees 1)) rows.items) }
    ensures in_order { HasCleanDisk (state S.Store conn.new)
        → (state S.Store conn.old).now.schema ≡ kept_schema → (first : ℕ) (kept : List Stored)
        → Lists ((state S.Store conn.old).now.trees 1) first kept
        → IfOk result (λ rows. rows.items ≡ rows_from first kept) }
    ensures reads { OnlyReads (λ schema. schema ≡ kept_schema)
        (state S.Store conn.old) (state S.Store conn.new) result }
{
    let rows = conn.query_all(
        "SELECT position, pass, kind, body FROM kept ORDER BY position",
        &[],
    )?;
    Ok(rows)
}

// All rows of both tables, as answers show them: first those of the table of kept rows. What the database holds stays. Fails with the
// database's error.
fn query_both<S: Alter>(conn: &mut Connection<S>) -> Result<Vec<Row>, Error>
    ensures listed { HasCleanDisk (state S.Store conn.new)
        → (state S.Store conn.old).now.schema ≡ kept_schema
        → IfOk result (λ rows. AreOfBoth (state S.Store conn.old).now.trees rows.items) }
    ensures in_order { HasCleanDisk (state S.Store conn.new) → (first : ℕ) (kept list : List Stored)
        → HoldsAll (state S.Store conn.old) first kept list
        → IfOk result (λ rows. rows.items ≡ rows_from first (kept ++ list)) }
    ensures reads { OnlyReads (λ schema. schema ≡ kept_schema)
        (state S.Store conn.old) (state S.Store conn.new) result }
{
    let mut kept = query_kept(conn)?;
    let mut rows = match query_rows(conn) {
        Ok(rows) => rows,
        Err(error) => {
            drop(kept);
            return Err(error);
        }
    };
    let joined = kept.append(&mut rows);
    drop(rows);
    match joined {
        Ok(()) => Ok(kept),
        Err(error) => {
            drop(kept);
            Err(Error::from(error))
        }
    }
}

/// All rows that a store has, in the order of their positions: where the store keeps rows those in whose place a base was put, and then
/// those of the table of steps. `None` where a row but the first hasn't the next position. What the database holds stays. Fails with
/// the database's error, also when out of memory, or where a position, pass or kind is out of range.
pub fn read_history<S: Alter>(
    alloc: Global,
    conn: &mut Connection<S>,
) -> Result<Option<Listed>, Error>
    ensures listed { HasCleanDisk (state S.Store conn.new) → (first : ℕ) (kept list : List Stored)
        → HoldsAll (state S.Store conn.old) first kept list → list ≢ []
        → IfOk result (λ found. IfSome found
        (λ it. (it.first ≡ first) × (it.steps.items ≡ kept ++ list))) }
    // Whatever rows a store that keeps rows has, these are they.
    ensures found { HasCleanDisk (state S.Store conn.new)
        → (state S.Store conn.old).now.schema ≡ kept_schema
        → IfOk result (λ found. IfSome found
        (λ it. IsHistory (state S.Store conn.old).now.trees it.first it.steps.items)) }
    // Another store has the table of steps alone.
    ensures bare { HasCleanDisk (state S.Store conn.new)
        → (state S.Store conn.old).now.schema ≡ step_schema
        → IfOk result (λ found. IfSome found
        (λ it. Lists ((state S.Store conn.old).now.trees 0) it.first it.steps.items)) }
    // Ok isn't `None` for rows without a gap, of which one is no kept row, at positions below 2^64 - 1.
    ensures there { HasCleanDisk (state S.Store conn.new) → (first : ℕ) (kept list : List Stored)
        → HoldsAll (state S.Store conn.old) first kept list → list ≢ []
        → first + length kept + length list < 2 ^ 64 → IfOk result (λ found. IsSome found) }
    ensures bare_there { HasCleanDisk (state S.Store conn.new)
        → (state S.Store conn.old).now.schema ≡ step_schema → (first : ℕ) (list : List Stored)
        → Lists ((state S.Store conn.old).now.trees 0) first list → list ≢ []
        → first + length list < 2 ^ 64 → IfOk result (λ found. IsSome found) }
    ensures reads { OnlyReads IsStoreSchema
        (state S.Store conn.old) (state S.Store conn.new) result }
{
    if !keeps_rows(conn.schema()) {
        return read_all(alloc, conn);
    }
    let rows = query_both(conn)?;
    listed_from(alloc, rows.as_slice())
}
