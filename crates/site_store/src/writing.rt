ghost use Rattle.std.specs.Prelude.{◌≡◌, ◌<◌, ◌^◌, ◌+◌, ◌++◌, ◌∷◌, [], ℕ, List, IsTrue};
ghost use Rattle.std.specs.Prelude.{OnErr, OnOk, false, length, pos};
ghost use Rattle.sqlite.specs.Held.{state};
ghost use Rattle.sqlite.specs.State.{HasCleanDisk};
ghost use Rattle.stored_steps.specs.Stored.{Stored};
ghost use Rattle.site_store.specs.Kept.{SparesKeptAtOk};
ghost use Rattle.site_store.specs.Steps.{CommitsNothing, CommitsSteps, Holds, IsIdle, IsInside};
ghost use Rattle.site_store.specs.Steps.{LeavesOnly};

use sqlite::{Alter, Connection, Error, params};
use stored_steps::StoredRow;

// A position as the number that is stored.
fn stored_position(at: u64) -> i64
    requires { at < 2 ^ 63 }
    ensures { result ≡ pos at }
{
    at as i64
}

/// Adds a row at this position, which is the next one, and commits it where no transaction is open. Returns how many rows the database has
/// changed; no contract says this. Fails with the database's error: outside a transaction the rows are then as before while the connection
/// is open.
pub fn append<S: Alter>(conn: &mut Connection<S>, at: u64, kept: &StoredRow) -> Result<usize, Error>
    requires fits { at < 2 ^ 63 }
    ensures added { HasCleanDisk (state S.Store conn.new) → (first : ℕ) (list : List Stored)
        → Holds (state S.Store conn.old) first list → at ≡ first + length list
        → OnOk result (Holds (state S.Store conn.new) first (list ++ kept.now ∷ [])) }
    ensures kept { HasCleanDisk (state S.Store conn.new) → (first : ℕ) (list : List Stored)
        → Holds (state S.Store conn.old) first list
        → (state S.Store conn.old).in_transaction ≡ false
        → (state S.Store conn.old).committed ≡ (state S.Store conn.old).now
        → OnErr result (IsTrue (state S.Store conn.new).is_open
        → Holds (state S.Store conn.new) first list) }
    ensures durable { HasCleanDisk (state S.Store conn.new) → (first : ℕ) (list : List Stored)
        → Holds (state S.Store conn.old) first list → at ≡ first + length list
        → (state S.Store conn.old).in_transaction ≡ false
        → OnOk result (LeavesOnly (state S.Store conn.new) first (list ++ kept.now ∷ [])) }
    ensures idle { HasCleanDisk (state S.Store conn.new) → (first : ℕ) (list : List Stored)
        → Holds (state S.Store conn.old) first list
        → (state S.Store conn.old).in_transaction ≡ false
        → OnOk result (IsIdle (state S.Store conn.new)) }
    ensures crash { HasCleanDisk (state S.Store conn.new) → (first : ℕ) (list : List Stored)
        → Holds (state S.Store conn.old) first list → at ≡ first + length list
        → CommitsSteps (state S.Store conn.old) (state S.Store conn.new)
        first (list ++ kept.now ∷ []) }
    // Within a transaction nothing is committed.
    ensures inside { HasCleanDisk (state S.Store conn.new) → (first : ℕ) (list : List Stored)
        → Holds (state S.Store conn.old) first list → IsTrue (state S.Store conn.old).in_transaction
        → OnOk result (IsInside (state S.Store conn.old) (state S.Store conn.new))
        × CommitsNothing (state S.Store conn.old) (state S.Store conn.new) }
    // The kept rows stay.
    ensures spared { SparesKeptAtOk (state S.Store conn.old) (state S.Store conn.new) result }
    ensures clean { HasCleanDisk (state S.Store conn.new) → HasCleanDisk (state S.Store conn.old) }
{
    let position = stored_position(at);
    conn.execute(
        "INSERT INTO step (position, pass, kind, body, words) VALUES (?1, ?2, ?3, ?4, ?5)",
        params![
            position,
            kept.pass(),
            kept.kind(),
            kept.body(),
            kept.words()
        ],
    )
}
