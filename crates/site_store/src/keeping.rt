//! The table of kept rows: those in whose place a base was put.
ghost use Rattle.std.specs.Prelude.{◌≡◌, ◌⊎◌, [], ℕ, List, IsTrue, Ok, OnOk};
ghost use Rattle.sqlite.specs.Held.{state};
ghost use Rattle.sqlite.specs.State.{HasCleanDisk};
ghost use Rattle.sqlite.specs.Tree.{Trees};
ghost use Rattle.stored_steps.specs.Stored.{Stored};
ghost use Rattle.site_store.specs.Kept.{HoldsAll, KeepsAll};
ghost use Rattle.site_store.specs.Steps.{CommitsNothing, Holds, IsIdle, IsInside, LeavesOnly, Lists};
ghost use Rattle.site_store.specs.Steps.{kept_schema, step_schema};

use crate::OpenFault;
use crate::open_fault::open_fault;
use crate::shape::keeps_rows;
use sqlite::{Alter, Connection, Error};

// Makes the table of kept rows in a store that has none, in a commit of its own where no transaction is open. The steps stay, also over a
// crash. Fails with the database's error. Returns the database's count of changed rows, which no caller reads.
fn make_kept<S: Alter>(conn: &mut Connection<S>) -> Result<usize, Error>
    ensures made { HasCleanDisk (state S.Store conn.new)
        → (state S.Store conn.old).now.schema ≡ step_schema
        → OnOk result (((state S.Store conn.new).now.schema ≡ kept_schema)
        × ((state S.Store conn.new).now.trees 0 ≡ (state S.Store conn.old).now.trees 0)
        × ((state S.Store conn.new).now.trees 1 ≡ [])) }
    ensures idle { HasCleanDisk (state S.Store conn.new)
        → (state S.Store conn.old).now.schema ≡ step_schema
        → IsIdle (state S.Store conn.old)
        → OnOk result (IsIdle (state S.Store conn.new)) }
    ensures crash { HasCleanDisk (state S.Store conn.new)
        → (state S.Store conn.old).now.schema ≡ step_schema
        → (db : Trees) → (state S.Store conn.new).may_leave db
        → (state S.Store conn.old).may_leave db
        ⊎ (db 0 ≡ (state S.Store conn.old).now.trees 0) }
    ensures clean { HasCleanDisk (state S.Store conn.new) → HasCleanDisk (state S.Store conn.old) }
{
    conn.execute(
        "CREATE TABLE kept (position INTEGER PRIMARY KEY, pass INTEGER NOT NULL, kind INTEGER NOT NULL, body BLOB NOT NULL, words TEXT NOT NULL) STRICT",
        &[],
    )
}

/// Makes the table of kept rows in a store that has none, in a commit of its own where no transaction is open: from then on the store keeps
/// the rows in whose place a base is put. Nothing is done to a store that keeps rows. The steps stay, also over a crash. Fails with the
/// database's errors, as `open` has them: the store is then to be opened again.
pub fn keep_rows<S: Alter>(conn: &mut Connection<S>) -> Result<(), OpenFault>
    // A store that has begun to keep rows has none yet.
    ensures made { HasCleanDisk (state S.Store conn.new) → (first : ℕ) (list : List Stored)
        → Holds (state S.Store conn.old) first list
        → (state S.Store conn.old).now.schema ≡ step_schema
        → OnOk result (HoldsAll (state S.Store conn.new) first [] list) }
    ensures keeps { (state S.Store conn.old).now.schema ≡ kept_schema
        → (result ≡ Ok tt) × (conn.new ≡ conn.old) }
    ensures steps { HasCleanDisk (state S.Store conn.new) → (first : ℕ) (list : List Stored)
        → Holds (state S.Store conn.old) first list
        → OnOk result (Holds (state S.Store conn.new) first list) }
    ensures leaves { HasCleanDisk (state S.Store conn.new) → (first : ℕ) (list : List Stored)
        → Holds (state S.Store conn.old) first list
        → LeavesOnly (state S.Store conn.old) first list
        → LeavesOnly (state S.Store conn.new) first list }
    ensures idle { HasCleanDisk (state S.Store conn.new) → (first : ℕ) (list : List Stored)
        → Holds (state S.Store conn.old) first list → IsIdle (state S.Store conn.old)
        → OnOk result (IsIdle (state S.Store conn.new)) }
    ensures clean { HasCleanDisk (state S.Store conn.new) → HasCleanDisk (state S.Store conn.old) }
{
    if keeps_rows(conn.schema()) {
        return Ok(());
    }
    match make_kept(conn) {
        Ok(_) => Ok(()),
        Err(error) => Err(open_fault(error)),
    }
}

// Copies all rows of the table of steps to that of kept rows, within a transaction. Nothing is committed. Fails with the database's error.
// Returns the database's count of changed rows, which no caller reads.
fn copy_rows<S: Alter>(conn: &mut Connection<S>) -> Result<usize, Error>
    ensures copied { HasCleanDisk (state S.Store conn.new)
        → IsTrue (state S.Store conn.old).in_transaction
        → (state S.Store conn.old).now.schema ≡ kept_schema
        → OnOk result (IsInside (state S.Store conn.old) (state S.Store conn.new)
        × ((state S.Store conn.new).now.schema ≡ kept_schema)
        × ((state S.Store conn.new).now.trees 0 ≡ (state S.Store conn.old).now.trees 0)) }
    ensures kept { HasCleanDisk (state S.Store conn.new)
        → (state S.Store conn.old).now.schema ≡ kept_schema
        → KeepsAll (state S.Store conn.old) (state S.Store conn.new) result }
    ensures crash { HasCleanDisk (state S.Store conn.new)
        → IsTrue (state S.Store conn.old).in_transaction
        → (state S.Store conn.old).now.schema ≡ kept_schema
        → CommitsNothing (state S.Store conn.old) (state S.Store conn.new) }
    ensures clean { HasCleanDisk (state S.Store conn.new) → HasCleanDisk (state S.Store conn.old) }
{
    conn.execute(
        "INSERT INTO kept (position, pass, kind, body, words) SELECT position, pass, kind, body, words FROM step",
        &[],
    )
}

// Deletes all rows of the table of steps in a store that keeps rows, within a transaction. Nothing is committed. Fails with the database's
// error. Returns the database's count of changed rows, which no caller reads.
fn delete_rows<S: Alter>(conn: &mut Connection<S>) -> Result<usize, Error>
    ensures deleted { HasCleanDisk (state S.Store conn.new)
        → IsTrue (state S.Store conn.old).in_transaction
        → (state S.Store conn.old).now.schema ≡ kept_schema
        → (first : ℕ) (list : List Stored)
        → Lists ((state S.Store conn.old).now.trees 0) first list
        → OnOk result (IsInside (state S.Store conn.old) (state S.Store conn.new)
        × ((state S.Store conn.new).now.schema ≡ kept_schema)
        × ((state S.Store conn.new).now.trees 0 ≡ [])
        × ((state S.Store conn.new).now.trees 1 ≡ (state S.Store conn.old).now.trees 1)) }
    ensures crash { HasCleanDisk (state S.Store conn.new)
        → IsTrue (state S.Store conn.old).in_transaction
        → (state S.Store conn.old).now.schema ≡ kept_schema
        → CommitsNothing (state S.Store conn.old) (state S.Store conn.new) }
    ensures clean { HasCleanDisk (state S.Store conn.new) → HasCleanDisk (state S.Store conn.old) }
{
    conn.execute("DELETE FROM step", &[])
}

// Moves all rows of the table of steps to that of kept rows, within a transaction. Nothing is committed. Fails with the database's error.
pub(crate) fn move_rows<S: Alter>(conn: &mut Connection<S>) -> Result<(), Error>
    ensures moved { HasCleanDisk (state S.Store conn.new)
        → IsTrue (state S.Store conn.old).in_transaction
        → (state S.Store conn.old).now.schema ≡ kept_schema
        → (first : ℕ) (list : List Stored)
        → Lists ((state S.Store conn.old).now.trees 0) first list
        → OnOk result (IsInside (state S.Store conn.old) (state S.Store conn.new)
        × ((state S.Store conn.new).now.schema ≡ kept_schema)
        × ((state S.Store conn.new).now.trees 0 ≡ [])) }
    ensures kept { HasCleanDisk (state S.Store conn.new)
        → IsTrue (state S.Store conn.old).in_transaction
        → (state S.Store conn.old).now.schema ≡ kept_schema
        → KeepsAll (state S.Store conn.old) (state S.Store conn.new) result }
    ensures crash { HasCleanDisk (state S.Store conn.new)
        → IsTrue (state S.Store conn.old).in_transaction
        → (state S.Store conn.old).now.schema ≡ kept_schema
        → CommitsNothing (state S.Store conn.old) (state S.Store conn.new) }
    ensures clean { HasCleanDisk (state S.Store conn.new) → HasCleanDisk (state S.Store conn.old) }
{
    copy_rows(conn)?;
    delete_rows(conn)?;
    Ok(())
}
