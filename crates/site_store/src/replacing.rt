ghost use Rattle.std.specs.Prelude.{◌≡◌, ◌↔◌, ◌<◌, ◌^◌, ◌+◌, ◌++◌, ◌∷◌, [], ℕ, List};
ghost use Rattle.std.specs.Prelude.{IfOk, IsTrue, Ok, OnOk, false, length};
ghost use Rattle.sqlite.specs.Held.{state};
ghost use Rattle.sqlite.specs.State.{HasCleanDisk};
ghost use Rattle.stored_steps.specs.Stored.{Stored};
ghost use Rattle.site_store.specs.Kept.{CommitsAll, HoldsAll, LeavesAll};
ghost use Rattle.site_store.specs.Steps.{CommitsNothing, CommitsSteps, Holds, IsIdle, IsInside};
ghost use Rattle.site_store.specs.Steps.{LeavesOnly, Lists, kept_schema};

use crate::group::{begin, commit};
use crate::keeping::move_rows;
use crate::shape::keeps_rows;
use crate::tables::{drop_steps, make_steps};
use crate::writing::append;
use sqlite::{Alter, Connection, Error};
use stored_steps::StoredRow;

// Takes all rows out of the table of steps, within a transaction: a store that keeps rows moves them, another makes its table anew.
// Nothing is committed. Fails with the database's error.
fn clear_steps<S: Alter>(conn: &mut Connection<S>) -> Result<(), Error>
    ensures cleared { HasCleanDisk (state S.Store conn.new)
        → IsTrue (state S.Store conn.old).in_transaction → (first : ℕ) (list : List Stored)
        → Holds (state S.Store conn.old) first list → (at : ℕ)
        → OnOk result (IsInside (state S.Store conn.old) (state S.Store conn.new)
        × Holds (state S.Store conn.new) at []) }
    ensures kept { HasCleanDisk (state S.Store conn.new)
        → IsTrue (state S.Store conn.old).in_transaction
        → (first : ℕ) (kept list : List Stored)
        → HoldsAll (state S.Store conn.old) first kept list
        → OnOk result (((state S.Store conn.new).now.schema ≡ kept_schema)
        × Lists ((state S.Store conn.new).now.trees 1) first (kept ++ list)) }
    ensures schema { HasCleanDisk (state S.Store conn.new)
        → IsTrue (state S.Store conn.old).in_transaction → (first : ℕ) (list : List Stored)
        → Holds (state S.Store conn.old) first list
        → OnOk result ((state S.Store conn.new).now.schema
        ≡ (state S.Store conn.old).now.schema) }
    ensures crash { HasCleanDisk (state S.Store conn.new)
        → IsTrue (state S.Store conn.old).in_transaction → (first : ℕ) (list : List Stored)
        → Holds (state S.Store conn.old) first list
        → CommitsNothing (state S.Store conn.old) (state S.Store conn.new) }
    ensures clean { HasCleanDisk (state S.Store conn.new) → HasCleanDisk (state S.Store conn.old) }
{
    if keeps_rows(conn.schema()) {
        return move_rows(conn);
    }
    drop_steps(conn)?;
    make_steps(conn)?;
    Ok(())
}

/// Puts this base in the place of all rows, at this position, in one commit. A store that keeps rows moves them to its table of kept rows;
/// another drops them. After the call a crash leaves the rows from before, or the base alone, and the kept rows accordingly; after `true`,
/// the latter. `false`: a transaction is open, and nothing is done. Fails with the database's error: the store is then to be opened again.
pub fn replace_base<S: Alter>(
    conn: &mut Connection<S>,
    at: u64,
    base: &StoredRow,
) -> Result<bool, Error>
    requires fits { at < 2 ^ 63 }
    ensures replaced { HasCleanDisk (state S.Store conn.new) → (first : ℕ) (list : List Stored)
        → Holds (state S.Store conn.old) first list
        → IfOk result (λ done. IsTrue done
        → Holds (state S.Store conn.new) at (base.now ∷ [])
        × LeavesOnly (state S.Store conn.new) at (base.now ∷ [])) }
    // A store begins to keep rows by `keep_rows` alone.
    ensures schema { HasCleanDisk (state S.Store conn.new) → (first : ℕ) (list : List Stored)
        → Holds (state S.Store conn.old) first list
        → IfOk result (λ done. IsTrue done
        → (state S.Store conn.new).now.schema ≡ (state S.Store conn.old).now.schema) }
    ensures idle { HasCleanDisk (state S.Store conn.new) → (first : ℕ) (list : List Stored)
        → Holds (state S.Store conn.old) first list
        → IfOk result (λ done. IsTrue done → IsIdle (state S.Store conn.new)) }
    ensures refused { (result ≡ Ok false) ↔ IsTrue (state S.Store conn.old).in_transaction }
    ensures kept { result ≡ Ok false → conn.new ≡ conn.old }
    ensures crash { HasCleanDisk (state S.Store conn.new) → (first : ℕ) (list : List Stored)
        → Holds (state S.Store conn.old) first list
        → CommitsSteps (state S.Store conn.old) (state S.Store conn.new) at (base.now ∷ []) }
    // A store that keeps rows has them behind those that it kept, and the base alone in its table of steps.
    ensures moved { HasCleanDisk (state S.Store conn.new) → (first : ℕ) (kept list : List Stored)
        → HoldsAll (state S.Store conn.old) first kept list
        → at ≡ first + length kept + length list
        → IfOk result (λ done. IsTrue done
        → HoldsAll (state S.Store conn.new) first (kept ++ list) (base.now ∷ [])
        × LeavesAll (state S.Store conn.new) first (kept ++ list) (base.now ∷ [])) }
    ensures moved_crash { HasCleanDisk (state S.Store conn.new)
        → (first : ℕ) (kept list : List Stored)
        → HoldsAll (state S.Store conn.old) first kept list
        → at ≡ first + length kept + length list
        → CommitsAll (state S.Store conn.old) (state S.Store conn.new)
        first (kept ++ list) (base.now ∷ []) }
    ensures clean { HasCleanDisk (state S.Store conn.new) → HasCleanDisk (state S.Store conn.old) }
{
    if !conn.is_autocommit() {
        return Ok(false);
    }
    begin(conn)?;
    clear_steps(conn)?;
    append(conn, at, base)?;
    commit(conn)?;
    Ok(true)
}
