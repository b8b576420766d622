//! The site of a store, and a start of it.
ghost use Rattle.std.specs.Prelude.{◌≡◌, ◌≢◌, ◌↔◌, ◌≤◌, ◌<◌, ◌^◌, ◌+◌, ◌-◌, ◌++◌, ◌∷◌, []};
ghost use Rattle.std.specs.Prelude.{ℕ, List, Err, IfErr, IfOk, IsTrue, OnErr, OnOk, drop, false};
ghost use Rattle.std.specs.Prelude.{length, min, sum_by};
ghost use Rattle.sqlite.specs.Held.{state};
ghost use Rattle.sqlite.specs.State.{HasCleanDisk};
ghost use Rattle.site_journal.specs.declared.journaled.TheConstants.{MOST_STEPS};
ghost use Rattle.dots.specs.declared.limits.TheConstants.{MOST_COUNT};
ghost use Rattle.stored_steps.specs.RowsLead.{MakeSite};
ghost use Rattle.stored_steps.specs.StartRows.{start_row};
ghost use Rattle.stored_steps.specs.Stored.{Stored};
ghost use Rattle.site_store.specs.declared.open_fault.OpenFault.{OpenFault};
ghost use Rattle.site_store.specs.Kept.{SparesKeptAtOk};
ghost use Rattle.site_store.specs.OpenFaults.{site_fault};
ghost use Rattle.site_store.specs.Steps.{CommitsNothing, CommitsSteps, Holds, IsIdle, IsInside};
ghost use Rattle.site_store.specs.Steps.{IsStoreSchema, LeavesOnly, OnlyReads};
ghost use Rattle.site_store.specs.Restored.{IsOfRows, IsRestoredAt, KeepsRefusedRows};
ghost use Rattle.site_store.specs.Restored.{body_bytes};

use crate::OpenFault;
use crate::open_fault::open_fault;
use crate::reading::{Listed, read_all};
use crate::writing::append;
use dots::SiteId;
use replica::QueueList;
use site_journal::MOST_STEPS;
use sqlite::{Alter, Connection};
use std::alloc::Global;
use stored_steps::{RestoredSite, StoreFault, StoredRow, restore};

/// The last position that a row of a store may have, 2^63 - 1 (this project's own).
pub const LAST_POSITION: u64 = (1 << 63) - 1;

/// The site of a store, and how much the store holds.
#[derive(Drop)]
pub struct RestoredStore {
    /// The site, its store's name, and how often it was started.
    pub site: RestoredSite,
    /// The position of the next row, at most 2^63 - 2.
    pub next: u64,
    /// How many rows the table of steps has, the base included.
    pub rows: u64,
    /// How many bytes the bodies of the rows behind the base have, at most 2^64 - 1.
    pub bytes: u64,
}

// The fault of an open for rows that make no site: `Memory` stays, and every other fault is a `Site`.
fn site_fault(fault: StoreFault) -> OpenFault
    ensures { result ≡ site_fault fault }
{
    match fault {
        StoreFault::Memory => OpenFault::Memory,
        fault => OpenFault::Site(fault),
    }
}

// How many bytes the bodies of rows have, at most 2^64 - 1.
fn body_bytes(rows: &[StoredRow]) -> u64
    ensures { result ≡ min (sum_by body_bytes rows.now) (2 ^ 64 - 1) }
{
    let mut bytes = 0u64;
    for row in rows {
        bytes = bytes.saturating_add(row.body().len() as u64);
    }
    bytes
}

// How many bytes the bodies of all rows but the first have, at most 2^64 - 1.
fn bytes_since_base(rows: &[StoredRow]) -> u64
    ensures { result ≡ min (sum_by body_bytes (drop 1 rows.now)) (2 ^ 64 - 1) }
{
    match rows {
        [] => 0,
        [_, since @ ..] => body_bytes(since),
    }
}

// Whether two more rows have positions up to `LAST_POSITION`, where `len` rows stand at the positions from `first` on.
fn has_places(first: u64, len: u64) -> bool
    ensures { IsTrue result ↔ first + len < LAST_POSITION }
{
    first < LAST_POSITION && len < LAST_POSITION - first
}

// The rows of a store. What the database holds stays. Errors, in order: those of the database, as `open` has them; `Gap`, if a position is
// missing between two rows, or two more rows have no positions up to `LAST_POSITION`.
fn listed_rows<S: Alter>(alloc: Global, conn: &mut Connection<S>) -> Result<Listed, OpenFault>
    // Whatever rows the connection holds, these are they.
    ensures found { HasCleanDisk (state S.Store conn.new)
        → IsStoreSchema (state S.Store conn.old).now.schema
        → IfOk result (λ it. Holds (state S.Store conn.old) it.first it.steps.items) }
    ensures reads { OnlyReads IsStoreSchema
        (state S.Store conn.old) (state S.Store conn.new) result }
    ensures unchanged { KeepsRefusedRows (state S.Store conn.old) (state S.Store conn.new) result }
    ensures fits { IfOk result (λ it. it.first + length it.steps.items < LAST_POSITION) }
    // Over a clean disk rows without a gap, at least one, are not refused as `Gap`, if two more rows have positions.
    ensures there { HasCleanDisk (state S.Store conn.new) → (first : ℕ) (rows : List Stored)
        → Holds (state S.Store conn.old) first rows → rows ≢ []
        → first + length rows < LAST_POSITION → IfErr result (λ fault. IsOfRows fault → ⊥) }
{
    let found = match read_all(alloc, conn) {
        Ok(found) => found,
        Err(error) => return Err(open_fault(error)),
    };
    let Some(listed) = found else {
        return Err(OpenFault::Gap);
    };
    let len = listed.steps.len() as u64;
    if !has_places(listed.first, len) {
        drop(listed);
        return Err(OpenFault::Gap);
    }
    Ok(listed)
}

/// The site that the rows of a store make. Its journal may have `limit` steps, 1 to 1,000,000. At Ok, and where rows are refused, what the
/// database holds stays; nothing is committed.
///
/// Errors, in order: `InTransaction`, if a transaction is open, and then nothing is done; those of the database, as `open` has them; `Gap`,
/// if a position is missing, or fewer than two are left; `Site`, with the fault of `restore`. `Memory` may replace each but
/// `InTransaction`.
pub fn restore_site<S: Alter>(
    alloc: Global,
    conn: &mut Connection<S>,
    site: SiteId,
    list: &QueueList,
    limit: u32,
) -> Result<RestoredStore, OpenFault>
    requires some { 1 ≤ limit }
    requires most { limit ≤ MOST_STEPS }
    // Whatever rows the connection holds, the site is that of these rows.
    ensures restored { HasCleanDisk (state S.Store conn.new)
        → IsStoreSchema (state S.Store conn.old).now.schema
        → IfOk result (λ it. IsRestoredAt (state S.Store conn.old) it) }
    // Over a clean disk fewer than 2^40 rows that make a site of this number with these queues, if two more rows have positions, are
    // refused neither as `Gap` nor as `Site`.
    ensures makes { HasCleanDisk (state S.Store conn.new) → (first : ℕ) (rows : List Stored)
        → Holds (state S.Store conn.old) first rows → MakeSite site list.now rows
        → first + length rows < LAST_POSITION → length rows < MOST_COUNT
        → IfErr result (λ fault. IsOfRows fault → ⊥) }
    ensures outside { OnOk result ((state S.Store conn.old).in_transaction ≡ false) }
    ensures reads { OnlyReads IsStoreSchema
        (state S.Store conn.old) (state S.Store conn.new) result }
    ensures unchanged { KeepsRefusedRows (state S.Store conn.old) (state S.Store conn.new) result }
    // A further row, and one more, have a position.
    ensures fits { IfOk result (λ it. it.next < LAST_POSITION) }
    ensures site { IfOk result (λ it. it.site.journal.replica.site ≡ site) }
    ensures names { IfOk result (λ it. it.site.journal.replica.names ≡ list.now) }
    ensures limit { IfOk result (λ it. it.site.journal.limit ≡ limit) }
    ensures refused { IsTrue (state S.Store conn.old).in_transaction
        → (result ≡ Err OpenFault.InTransaction) × (conn.new ≡ conn.old) }
{
    if !conn.is_autocommit() {
        return Err(OpenFault::InTransaction);
    }
    let listed = listed_rows(alloc, conn)?;
    let rows = listed.steps.len() as u64;
    let next = listed.first + rows;
    let bytes = bytes_since_base(listed.steps.as_slice());
    let restored = restore(
        alloc,
        site,
        list,
        limit,
        listed.first,
        listed.steps.as_slice(),
    );
    drop(listed);
    match restored {
        Ok(site) => Ok(RestoredStore {
            site,
            next,
            rows,
            bytes,
        }),
        Err(fault) => Err(site_fault(fault)),
    }
}

/// Adds the row of a start at this position, which is the next one, at most 2^63 - 2, and commits it where no transaction is open. Errors:
/// `Memory`; those of the database, as `open` has them. Outside a transaction the rows are then as before while the connection is open.
pub fn add_start<S: Alter>(
    alloc: Global,
    conn: &mut Connection<S>,
    at: u64,
) -> Result<(), OpenFault>
    requires fits { at < LAST_POSITION }
    ensures added { HasCleanDisk (state S.Store conn.new) → (first : ℕ) (rows : List Stored)
        → Holds (state S.Store conn.old) first rows → at ≡ first + length rows
        → OnOk result (Holds (state S.Store conn.new) first (rows ++ start_row ∷ [])) }
    ensures kept { HasCleanDisk (state S.Store conn.new) → (first : ℕ) (rows : List Stored)
        → Holds (state S.Store conn.old) first rows
        → (state S.Store conn.old).in_transaction ≡ false
        → (state S.Store conn.old).committed ≡ (state S.Store conn.old).now
        → OnErr result (IsTrue (state S.Store conn.new).is_open
        → Holds (state S.Store conn.new) first rows) }
    ensures durable { HasCleanDisk (state S.Store conn.new) → (first : ℕ) (rows : List Stored)
        → Holds (state S.Store conn.old) first rows → at ≡ first + length rows
        → (state S.Store conn.old).in_transaction ≡ false
        → OnOk result (LeavesOnly (state S.Store conn.new) first (rows ++ start_row ∷ [])) }
    ensures idle { HasCleanDisk (state S.Store conn.new) → (first : ℕ) (rows : List Stored)
        → Holds (state S.Store conn.old) first rows
        → (state S.Store conn.old).in_transaction ≡ false
        → OnOk result (IsIdle (state S.Store conn.new)) }
    ensures crash { HasCleanDisk (state S.Store conn.new) → (first : ℕ) (rows : List Stored)
        → Holds (state S.Store conn.old) first rows → at ≡ first + length rows
        → CommitsSteps (state S.Store conn.old) (state S.Store conn.new)
        first (rows ++ start_row ∷ []) }
    // Within a transaction nothing is committed.
    ensures inside { HasCleanDisk (state S.Store conn.new) → (first : ℕ) (rows : List Stored)
        → Holds (state S.Store conn.old) first rows → IsTrue (state S.Store conn.old).in_transaction
        → OnOk result (IsInside (state S.Store conn.old) (state S.Store conn.new))
        × CommitsNothing (state S.Store conn.old) (state S.Store conn.new) }
    // The kept rows stay.
    ensures spared { SparesKeptAtOk (state S.Store conn.old) (state S.Store conn.new) result }
    // The fault is neither `Gap` nor `Site`.
    ensures fault { IfErr result (λ fault. IsOfRows fault → ⊥) }
    ensures clean { HasCleanDisk (state S.Store conn.new) → HasCleanDisk (state S.Store conn.old) }
{
    let Ok(row) = StoredRow::of_start(alloc) else {
        return Err(OpenFault::Memory);
    };
    let added = append(conn, at, &row);
    drop(row);
    match added {
        Ok(_) => Ok(()),
        Err(error) => Err(open_fault(error)),
    }
}
