//! Several rows in one commit.
ghost use Rattle.std.specs.Prelude.{◌≡◌, ◌⊎◌, ◌<◌, ◌^◌, ◌+◌, ◌++◌, ℕ, List, IsTrue, OnOk, length};
ghost use Rattle.sqlite.specs.Held.{state};
ghost use Rattle.sqlite.specs.State.{HasCleanDisk};
ghost use Rattle.sqlite.specs.Tree.{Trees};
ghost use Rattle.stored_steps.specs.Stored.{Stored};
ghost use Rattle.site_store.specs.Kept.{AddsToAll, CommitsToAll, IsCommitted, SparesKept};
ghost use Rattle.site_store.specs.Steps.{CommitsNothing, CommitsSteps, Holds, IsIdle, IsInside};
ghost use Rattle.site_store.specs.Steps.{LeavesOnly};

use crate::writing::append;
use sqlite::{Alter, Connection, Error};
use stored_steps::StoredRow;

// Adds rows at positions from `at` on, within a transaction. Nothing is committed. Fails with the database's error; then some rows may
// have been added.
fn append_each<S: Alter>(
    conn: &mut Connection<S>,
    at: u64,
    steps: &[StoredRow],
) -> Result<(), Error>
    requires fits { at + length steps.now < 2 ^ 63 }
    ensures added { HasCleanDisk (state S.Store conn.new) → (first : ℕ) (list : List Stored)
        → Holds (state S.Store conn.old) first list → at ≡ first + length list
        → IsTrue (state S.Store conn.old).in_transaction
        → IsTrue (state S.Store conn.old).is_open
        → OnOk result (Holds (state S.Store conn.new) first (list ++ steps.now)
        × IsInside (state S.Store conn.old) (state S.Store conn.new)) }
    ensures spared { HasCleanDisk (state S.Store conn.new) → (first : ℕ) (list : List Stored)
        → Holds (state S.Store conn.old) first list → at ≡ first + length list
        → IsTrue (state S.Store conn.old).in_transaction
        → IsTrue (state S.Store conn.old).is_open
        → OnOk result (SparesKept (state S.Store conn.old) (state S.Store conn.new)) }
    ensures crash { HasCleanDisk (state S.Store conn.new) → (first : ℕ) (list : List Stored)
        → Holds (state S.Store conn.old) first list → at ≡ first + length list
        → IsTrue (state S.Store conn.old).in_transaction
        → IsTrue (state S.Store conn.old).is_open
        → CommitsNothing (state S.Store conn.old) (state S.Store conn.new) }
    ensures clean { HasCleanDisk (state S.Store conn.new) → HasCleanDisk (state S.Store conn.old) }
{
    let mut place = at;
    for step in steps {
        append(conn, place, step)?;
        place += 1;
    }
    Ok(())
}

// Begins a transaction. What the database holds stays. Fails with the database's error, also where a transaction is open. Returns the
// database's count of changed rows, which no caller reads.
pub(crate) fn begin<S: Alter>(conn: &mut Connection<S>) -> Result<usize, Error>
    ensures begun { HasCleanDisk (state S.Store conn.new)
        → OnOk result (((state S.Store conn.new).now ≡ (state S.Store conn.old).now)
        × IsInside (state S.Store conn.old) (state S.Store conn.new)) }
    ensures crash { HasCleanDisk (state S.Store conn.new)
        → CommitsNothing (state S.Store conn.old) (state S.Store conn.new) }
    ensures clean { HasCleanDisk (state S.Store conn.new) → HasCleanDisk (state S.Store conn.old) }
{
    conn.execute("BEGIN", &[])
}

// Commits the open transaction, and ends it. After the call a crash leaves what it left before, or what the transaction holds; after Ok
// only that. Fails with the database's error. Returns the database's count of changed rows, which no caller reads.
pub(crate) fn commit<S: Alter>(conn: &mut Connection<S>) -> Result<usize, Error>
    ensures done { HasCleanDisk (state S.Store conn.new)
        → OnOk result (IsCommitted (state S.Store conn.old) (state S.Store conn.new)) }
    ensures crash { HasCleanDisk (state S.Store conn.new)
        → (db : Trees) → (state S.Store conn.new).may_leave db
        → (state S.Store conn.old).may_leave db ⊎ (db ≡ (state S.Store conn.old).now.trees) }
    ensures clean { HasCleanDisk (state S.Store conn.new) → HasCleanDisk (state S.Store conn.old) }
{
    conn.execute("COMMIT", &[])
}

/// Adds rows at positions from `at` on, which is the next one, in one commit. After the call a crash leaves all of them or none, and after
/// Ok all. Fails with the database's error, also where a transaction is open: the store is then to be opened again.
pub fn append_all<S: Alter>(
    conn: &mut Connection<S>,
    at: u64,
    steps: &[StoredRow],
) -> Result<(), Error>
    requires fits { at + length steps.now < 2 ^ 63 }
    ensures added { HasCleanDisk (state S.Store conn.new) → (first : ℕ) (list : List Stored)
        → Holds (state S.Store conn.old) first list → at ≡ first + length list
        → OnOk result (Holds (state S.Store conn.new) first (list ++ steps.now)
        × LeavesOnly (state S.Store conn.new) first (list ++ steps.now)) }
    ensures idle { HasCleanDisk (state S.Store conn.new) → (first : ℕ) (list : List Stored)
        → Holds (state S.Store conn.old) first list → at ≡ first + length list
        → OnOk result (IsIdle (state S.Store conn.new)) }
    ensures crash { HasCleanDisk (state S.Store conn.new) → (first : ℕ) (list : List Stored)
        → Holds (state S.Store conn.old) first list → at ≡ first + length list
        → CommitsSteps (state S.Store conn.old) (state S.Store conn.new) first (list ++ steps.now) }
    // The kept rows stay, also over a crash.
    ensures spared { AddsToAll (state S.Store conn.old) (state S.Store conn.new) at steps.now result }
    ensures spared_crash { CommitsToAll (state S.Store conn.old) (state S.Store conn.new) at steps.now }
    ensures clean { HasCleanDisk (state S.Store conn.new) → HasCleanDisk (state S.Store conn.old) }
{
    begin(conn)?;
    append_each(conn, at, steps)?;
    commit(conn)?;
    Ok(())
}
