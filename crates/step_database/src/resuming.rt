//! A start of a site over its store, which may begin to keep rows.
ghost use Rattle.std.specs.Prelude.{◌≡◌, ◌<◌, ◌+◌, ◌++◌, ◌∷◌, [], ℕ, List, IsTrue, OnOk};
ghost use Rattle.std.specs.Prelude.{false, length};
ghost use Rattle.sqlite.specs.Held.{state};
ghost use Rattle.sqlite.specs.State.{HasCleanDisk};
ghost use Rattle.stored_steps.specs.StartRows.{start_row};
ghost use Rattle.stored_steps.specs.Stored.{Stored};
ghost use Rattle.site_store.specs.Kept.{HoldsAll};
ghost use Rattle.site_store.specs.Steps.{Holds, IsStoreSchema, LeavesOnly, kept_schema};

use site_store::{LAST_POSITION, OpenFault, add_start, keep_rows};
use sqlite::{Alter, Connection};
use std::alloc::Global;

// Adds the row of a start at this position, which is the next one. If `keeps`, the store keeps rows from then on. Errors, in order: those
// of `add_start`; those of `keep_rows`, after which the row of the start stands.
pub(crate) fn begin<S: Alter>(
    alloc: Global,
    conn: &mut Connection<S>,
    at: u64,
    keeps: bool,
) -> Result<(), OpenFault>
    requires fits { at < LAST_POSITION }
    ensures rows { HasCleanDisk (state S.Store conn.new) → (first : ℕ) (rows : List Stored)
        → Holds (state S.Store conn.old) first rows → at ≡ first + length rows
        → OnOk result (Holds (state S.Store conn.new) first (rows ++ start_row ∷ [])) }
    ensures leaves { HasCleanDisk (state S.Store conn.new) → (first : ℕ) (rows : List Stored)
        → Holds (state S.Store conn.old) first rows → at ≡ first + length rows
        → (state S.Store conn.old).in_transaction ≡ false
        → OnOk result (LeavesOnly (state S.Store conn.new) first (rows ++ start_row ∷ [])) }
    ensures kept { HasCleanDisk (state S.Store conn.new) → (first : ℕ) (rows : List Stored)
        → Holds (state S.Store conn.old) first rows → at ≡ first + length rows → IsTrue keeps
        → OnOk result ((state S.Store conn.new).now.schema ≡ kept_schema) }
    ensures schema { HasCleanDisk (state S.Store conn.new)
        → IsStoreSchema (state S.Store conn.old).now.schema → keeps ≡ false
        → OnOk result ((state S.Store conn.new).now.schema
        ≡ (state S.Store conn.old).now.schema) }
    // The rows that the store has kept stay.
    ensures spared { HasCleanDisk (state S.Store conn.new) → (first : ℕ) (kept rows : List Stored)
        → HoldsAll (state S.Store conn.old) first kept rows
        → at ≡ first + length kept + length rows
        → OnOk result (HoldsAll (state S.Store conn.new) first kept (rows ++ start_row ∷ [])) }
    ensures clean { HasCleanDisk (state S.Store conn.new) → HasCleanDisk (state S.Store conn.old) }
{
    add_start(alloc, conn, at)?;
    if !keeps {
        return Ok(());
    }
    keep_rows(conn)
}
