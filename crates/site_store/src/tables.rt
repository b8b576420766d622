//! The table of steps as a whole, within a transaction.
ghost use Rattle.std.specs.Prelude.{◌≡◌, [], ℕ, IsTrue, OnOk};
ghost use Rattle.sqlite.specs.Held.{state};
ghost use Rattle.sqlite.specs.State.{HasCleanDisk};
ghost use Rattle.site_store.specs.Steps.{CommitsNothing, Holds, IsInside, no_schema, step_schema};

use sqlite::{Alter, Connection, Error};

// Drops the table of steps of a store without kept rows, within a transaction. Nothing is committed. Fails with the database's error.
// Returns the database's count of changed rows, which no caller reads.
pub(crate) fn drop_steps<S: Alter>(conn: &mut Connection<S>) -> Result<usize, Error>
    ensures dropped { HasCleanDisk (state S.Store conn.new)
        → IsTrue (state S.Store conn.old).in_transaction
        → (state S.Store conn.old).now.schema ≡ step_schema
        → OnOk result (IsInside (state S.Store conn.old) (state S.Store conn.new)
        × ((state S.Store conn.new).now.schema ≡ no_schema)) }
    ensures crash { HasCleanDisk (state S.Store conn.new)
        → IsTrue (state S.Store conn.old).in_transaction
        → (state S.Store conn.old).now.schema ≡ step_schema
        → CommitsNothing (state S.Store conn.old) (state S.Store conn.new) }
    ensures clean { HasCleanDisk (state S.Store conn.new) → HasCleanDisk (state S.Store conn.old) }
{
    conn.execute("DROP TABLE step", &[])
}

// Makes the table of steps in a database that has no table, within a transaction. Nothing is committed. Fails with the database's error.
// Returns the database's count of changed rows, which no caller reads.
pub(crate) fn make_steps<S: Alter>(conn: &mut Connection<S>) -> Result<usize, Error>
    ensures made { HasCleanDisk (state S.Store conn.new)
        → IsTrue (state S.Store conn.old).in_transaction
        → (state S.Store conn.old).now.schema ≡ no_schema → (at : ℕ)
        → OnOk result (IsInside (state S.Store conn.old) (state S.Store conn.new)
        × ((state S.Store conn.new).now.schema ≡ step_schema)
        × Holds (state S.Store conn.new) at []) }
    ensures crash { HasCleanDisk (state S.Store conn.new)
        → IsTrue (state S.Store conn.old).in_transaction
        → (state S.Store conn.old).now.schema ≡ no_schema
        → CommitsNothing (state S.Store conn.old) (state S.Store conn.new) }
    ensures clean { HasCleanDisk (state S.Store conn.new) → HasCleanDisk (state S.Store conn.old) }
{
    conn.execute(
        "CREATE TABLE step (position INTEGER PRIMARY KEY, pass INTEGER NOT NULL, kind INTEGER NOT NULL, body BLOB NOT NULL, words TEXT NOT NULL) STRICT",
        &[],
    )
}
