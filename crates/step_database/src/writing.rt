//! What a store writes: the rows of steps, and a base in the place of rows.
ghost use Rattle.std.specs.Prelude.{◌≡◌, ◌+◌, ◌++◌, ◌∷◌, [], ℕ, List, IfOk, OnOk};
ghost use Rattle.std.specs.Prelude.{length};
ghost use Rattle.sqlite.specs.Held.{state};
ghost use Rattle.sqlite.specs.State.{HasCleanDisk};
ghost use Rattle.site_journal.specs.declared.step.Step.{Step};
ghost use Rattle.stored_steps.specs.StepRows.{IsWithinLimits, rows_of};
ghost use Rattle.stored_steps.specs.Stored.{Stored};
ghost use Rattle.site_store.specs.Kept.{AddsToAll, CommitsAll, CommitsToAll, HoldsAll, LeavesAll};
ghost use Rattle.stored_desk.specs.Recorded.{IsLegalHistory};
ghost use Rattle.step_database.specs.CommitFaults.{commit_fault};
ghost use Rattle.step_database.specs.Standing.{AreRowsOf, StandForSteps, StoreOrigin};
ghost use Rattle.step_database.specs.Databases.{Keeps, Stores};

use dots::Memory;
use site_journal::Step;
use site_store::{LAST_POSITION, append_all, replace_base};
use sqlite::{Alter, Connection, Error, ErrorCode};
use std::alloc::Global;
use stored_desk::{CommitFault, Growth};
use stored_steps::{StoredRow, row_of_step};

// Adds the row of a step, if it has one. Fails only when out of memory.
fn add_row(alloc: Global, rows: &mut Vec<StoredRow>, step: &Step) -> Result<(), Memory>
    ensures added { OnOk result (rows.new.items ≡ rows.old.items ++ rows_of (step.now ∷ [])) }
    ensures within { OnOk result (IsWithinLimits step.now) }
{
    if let Some(row) = row_of_step(alloc, step)? {
        rows.push(row)?;
    }
    Ok(())
}

// The rows of steps, in their order. Fails only when out of memory.
pub(crate) fn rows_of_steps(alloc: Global, steps: &[Step]) -> Result<Vec<StoredRow>, Memory>
    ensures { IfOk result (λ rows. AreRowsOf rows.items steps.now) }
{
    let mut rows = Vec::new(alloc);
    for step in steps {
        add_row(alloc, &mut rows, step)?;
    }
    Ok(rows)
}

// How much a store has stored once these rows are added: each number is at most 2^64 - 1. No contract says how much.
pub(crate) fn grown(growth: Growth, rows: &[StoredRow]) -> Growth {
    let mut bytes = growth.bytes;
    for row in rows {
        bytes = bytes.saturating_add(row.body().len() as u64);
    }
    Growth {
        rows: growth.rows.saturating_add(rows.len() as u64),
        bytes,
    }
}

// Why a commit has failed, by the database's error: `Full`; `Device`, if the disk fails, or the database is closed; `Damaged`; `Memory`;
// else `Other`.
fn commit_fault(error: Error) -> CommitFault
    ensures { result ≡ commit_fault error }
{
    match error {
        Error::SqliteFailure(ErrorCode::DiskFull) => CommitFault::Full,
        Error::SqliteFailure(ErrorCode::SystemIoFailure)
        | Error::SqliteFailure(ErrorCode::Closed) => CommitFault::Device,
        Error::SqliteFailure(ErrorCode::DatabaseCorrupt) => CommitFault::Damaged,
        Error::SqliteFailure(ErrorCode::OutOfMemory) => CommitFault::Memory,
        _ => CommitFault::Other,
    }
}

// Adds rows from position `at` on, which is the next, in one commit, and returns the next position then. Whatever it returns, a crash
// leaves the rows from before, or these and all new ones; after Ok the latter. Errors: `Other`, where the next position then passes
// `LAST_POSITION`; else by the database's error, and the store is to be opened again.
pub(crate) fn append_rows<S: Alter>(
    conn: &mut Connection<S>,
    at: u64,
    rows: &[StoredRow],
) -> Result<u64, CommitFault>
    ensures added { HasCleanDisk (state S.Store conn.new)
        → (origin : StoreOrigin) (steps more : List Step)
        → Stores (state S.Store conn.old) origin at steps → AreRowsOf rows.now more
        → IsLegalHistory origin.begun (steps ++ more)
        → IfOk result (λ next. Stores (state S.Store conn.new) origin next (steps ++ more)) }
    ensures kept { HasCleanDisk (state S.Store conn.new)
        → (origin : StoreOrigin) (steps more : List Step)
        → Stores (state S.Store conn.old) origin at steps → AreRowsOf rows.now more
        → IsLegalHistory origin.begun (steps ++ more)
        → Keeps (state S.Store conn.new) origin steps more }
    // The rows that the store has kept stay, also over a crash.
    ensures spared { AddsToAll (state S.Store conn.old) (state S.Store conn.new) at rows.now result }
    ensures spared_crash { CommitsToAll (state S.Store conn.old) (state S.Store conn.new) at rows.now }
    // A disk that is clean after the call was clean before it.
    ensures clean { HasCleanDisk (state S.Store conn.new) → HasCleanDisk (state S.Store conn.old) }
{
    let count = rows.len() as u64;
    if at > LAST_POSITION || count > LAST_POSITION - at {
        return Err(CommitFault::Other);
    }
    match append_all(conn, at, rows) {
        Ok(()) => Ok(at + count),
        Err(error) => Err(commit_fault(error)),
    }
}

// Puts the row of a base at position `at`, which is the next, in the place of all rows, in one commit, and returns the next position then.
// Whatever it returns, a crash leaves the rows from before or the base; after Ok the base. Errors: `Other`, where `at` passes
// `LAST_POSITION`, or a transaction is open; else by the database's error, and the store is to be opened again.
pub(crate) fn put_base<S: Alter>(
    conn: &mut Connection<S>,
    at: u64,
    row: &StoredRow,
) -> Result<u64, CommitFault>
    ensures put { HasCleanDisk (state S.Store conn.new)
        → (origin : StoreOrigin) (steps : List Step)
        → Stores (state S.Store conn.old) origin at steps
        → StandForSteps origin (row.now ∷ []) steps
        → IfOk result (λ next. Stores (state S.Store conn.new) origin next steps) }
    ensures kept { HasCleanDisk (state S.Store conn.new)
        → (origin : StoreOrigin) (steps : List Step)
        → Stores (state S.Store conn.old) origin at steps
        → StandForSteps origin (row.now ∷ []) steps
        → Keeps (state S.Store conn.new) origin steps [] }
    // A store that keeps rows has them behind those that it has kept, also over a crash.
    ensures moved { HasCleanDisk (state S.Store conn.new) → (first : ℕ) (kept list : List Stored)
        → HoldsAll (state S.Store conn.old) first kept list
        → at ≡ first + length kept + length list
        → OnOk result (HoldsAll (state S.Store conn.new) first (kept ++ list) (row.now ∷ [])
        × LeavesAll (state S.Store conn.new) first (kept ++ list) (row.now ∷ [])) }
    ensures moved_crash { HasCleanDisk (state S.Store conn.new)
        → (first : ℕ) (kept list : List Stored)
        → HoldsAll (state S.Store conn.old) first kept list
        → at ≡ first + length kept + length list
        → CommitsAll (state S.Store conn.old) (state S.Store conn.new)
        first (kept ++ list) (row.now ∷ []) }
    ensures clean { HasCleanDisk (state S.Store conn.new) → HasCleanDisk (state S.Store conn.old) }
{
    if at > LAST_POSITION {
        return Err(CommitFault::Other);
    }
    match replace_base(conn, at, row) {
        Ok(true) => Ok(at + 1),
        Ok(false) => Err(CommitFault::Other),
        Err(error) => Err(commit_fault(error)),
    }
}
