ghost use Rattle.std.specs.Prelude.{◌≡◌, ◌≢◌, ◌<◌, ◌^◌, ◌+◌, ℕ, List, []};
ghost use Rattle.std.specs.Prelude.{IfOk, IfSome, IsSome, length, map};
ghost use Rattle.std.specs.List.Sorted.{IsPermutation};
ghost use Rattle.sqlite.specs.Held.{state};
ghost use Rattle.sqlite.specs.State.{HasCleanDisk};
ghost use Rattle.stored_steps.specs.Stored.{Stored};
ghost use Rattle.site_store.specs.Steps.{IsStoreSchema, Lists, OnlyReads};
ghost use Rattle.site_store.specs.Steps.{rows_from, shown, step_row};

use dots::Bytes;
use sqlite::{Alter, Connection, Error, Row};
use std::alloc::Global;
use stored_steps::StoredRow;

/// The rows of a store, and the position of the first.
#[derive(Drop)]
pub struct Listed {
    /// The position of the first row, 0 where there is none.
    pub first: u64,
    /// The rows in their order, without their words.
    pub steps: Vec<StoredRow>,
}

// The row of a store that a row of an answer shows, without its words. `None` if it has another position, or not four columns. Fails if
// a column has a value of another type or range, or when out of memory.
fn stored_at(alloc: Global, row: &Row, at: u64) -> Result<Option<StoredRow>, Error>
    ensures row { IfOk result (λ found. IfSome found (λ stored. row.now ≡ step_row at stored)) }
    ensures there { (stored : Stored) → row.now ≡ step_row at stored
        → IfOk result (λ found. IsSome found) }
{
    if row.column_count() != 4 {
        return Ok(None);
    }
    let position: u64 = row.get(0)?;
    let pass: u32 = row.get(1)?;
    let kind: u32 = row.get(2)?;
    let body: Vec<u8> = row.get(3)?;
    if position != at {
        return Ok(None);
    }
    let words = String::new(alloc);
    Ok(Some(StoredRow::new(pass, kind, Bytes::new(body), words)))
}

// The rows of a store that rows of an answer show. `None` if they don't stand at the positions from `first` on, each below 2^64 - 1. Fails
// as `stored_at`.
fn stored_from(alloc: Global, rows: &[Row], first: u64) -> Result<Option<Vec<StoredRow>>, Error>
    ensures rows { IfOk result (λ found. IfSome found
        (λ steps. rows.now ≡ rows_from first steps.items)) }
    ensures there { (steps : List Stored) → rows.now ≡ rows_from first steps
        → first + length steps < 2 ^ 64 → IfOk result (λ found. IsSome found) }
{
    let mut steps = Vec::new(alloc);
    let mut at = first;
    for row in rows {
        if at == u64::MAX {
            return Ok(None);
        }
        let Some(stored) = stored_at(alloc, row, at)? else {
            return Ok(None);
        };
        steps.push(stored)?;
        at += 1;
    }
    Ok(Some(steps))
}

// The position that the first of rows shows; 0 if there is no row. Fails if the row shows no number from 0 on.
fn first_of(rows: &[Row]) -> Result<u64, Error>
    ensures { (first : ℕ) (steps : List Stored) → rows.now ≡ rows_from first steps
        → steps ≢ [] → IfOk result (λ it. it ≡ first) }
{
    match rows.first() {
        Some(row) => row.get(0),
        None => Ok(0),
    }
}

// The rows of a store that rows of an answer show, and the position of the first. `None` if a row but the first hasn't the next position.
// Fails as `stored_at`.
pub(crate) fn listed_from(alloc: Global, rows: &[Row]) -> Result<Option<Listed>, Error>
    ensures rows { IfOk result (λ found. IfSome found
        (λ it. rows.now ≡ rows_from it.first it.steps.items)) }
    ensures there { (first : ℕ) (steps : List Stored) → rows.now ≡ rows_from first steps
        → steps ≢ [] → first + length steps < 2 ^ 64 → IfOk result (λ found. IsSome found) }
{
    let first = first_of(rows)?;
    match stored_from(alloc, rows, first)? {
        Some(steps) => Ok(Some(Listed { first, steps })),
        None => Ok(None),
    }
}

// All rows of the table of steps, as an answer shows them, in the order of their positions; contracts say so of rows without a gap. What
// the database holds stays. Fails with the database's error.
pub(crate) fn query_rows<S: Alter>(conn: &mut Connection<S>) -> Result<Vec<Row>, Error>
    ensures listed { HasCleanDisk (state S.Store conn.new)
        → IsStoreSchema (state S.Store conn.old).now.schema
        → IfOk result (λ rows.
        IsPermutation (map shown ((state S.Store conn.old).now.trees 0)) rows.items) }
    ensures in_order { HasCleanDisk (state S.Store conn.new)
        → IsStoreSchema (state S.Store conn.old).now.schema → (first : ℕ) (steps : List Stored)
        → Lists ((state S.Store conn.old).now.trees 0) first steps
        → IfOk result (λ rows. rows.items ≡ rows_from first steps) }
    ensures reads { OnlyReads IsStoreSchema
        (state S.Store conn.old) (state S.Store conn.new) result }
{
    let rows = conn.query_all(
        "SELECT position, pass, kind, body FROM step ORDER BY position",
        &[],
    )?;
    Ok(rows)
}

/// All rows that a database with the table of steps holds, in the order of their positions. `None` where a row but the first hasn't the
/// next position. What the database holds stays. Fails with the database's error, also when out of memory, or where a position, pass or
/// kind is out of range.
pub fn read_all<S: Alter>(alloc: Global, conn: &mut Connection<S>) -> Result<Option<Listed>, Error>
    ensures listed { HasCleanDisk (state S.Store conn.new)
        → IsStoreSchema (state S.Store conn.old).now.schema
        → IfOk result (λ found. IfSome found
        (λ it. Lists ((state S.Store conn.old).now.trees 0) it.first it.steps.items)) }
    // Ok isn't `None` for rows without a gap, at least one, at positions below 2^64 - 1.
    ensures there { HasCleanDisk (state S.Store conn.new)
        → IsStoreSchema (state S.Store conn.old).now.schema → (first : ℕ) (steps : List Stored)
        → Lists ((state S.Store conn.old).now.trees 0) first steps → steps ≢ []
        → first + length steps < 2 ^ 64 → IfOk result (λ found. IsSome found) }
    ensures reads { OnlyReads IsStoreSchema
        (state S.Store conn.old) (state S.Store conn.new) result }
{
    let rows = query_rows(conn)?;
    listed_from(alloc, rows.as_slice())
}
