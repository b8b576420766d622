//! A new store, with its base.
ghost use Rattle.std.specs.Prelude.{◌≡◌, ◌↔◌, ◌<◌, ◌^◌, ◌∷◌, [], IfOk, IsTrue, Ok, false};
ghost use Rattle.sqlite.specs.Held.{state};
ghost use Rattle.sqlite.specs.State.{HasCleanDisk};
ghost use Rattle.site_store.specs.Steps.{CommitsSteps, Holds, IsIdle, LeavesOnly};
ghost use Rattle.site_store.specs.Steps.{no_schema, step_schema};

use crate::group::{begin, commit};
use crate::tables::make_steps;
use crate::writing::append;
use sqlite::{Alter, Connection, Error};
use stored_steps::StoredRow;

/// Makes the table of steps in a database that has no table, and puts this base at this position, in one commit. After the call a crash
/// leaves what was before, or the base alone; after `true`, the base alone. `false`: a transaction is open, and nothing is done. Fails
/// with the database's error: its transaction may then still be open, so the store is to be opened again.
pub fn create<S: Alter>(conn: &mut Connection<S>, at: u64, base: &StoredRow) -> Result<bool, Error>
    requires fits { at < 2 ^ 63 }
    ensures made { HasCleanDisk (state S.Store conn.new)
        → (state S.Store conn.old).now.schema ≡ no_schema
        → IfOk result (λ done. IsTrue done
        → Holds (state S.Store conn.new) at (base.now ∷ [])
        × LeavesOnly (state S.Store conn.new) at (base.now ∷ [])) }
    ensures schema { HasCleanDisk (state S.Store conn.new)
        → (state S.Store conn.old).now.schema ≡ no_schema
        → IfOk result (λ done. IsTrue done → (state S.Store conn.new).now.schema ≡ step_schema) }
    ensures idle { HasCleanDisk (state S.Store conn.new)
        → (state S.Store conn.old).now.schema ≡ no_schema
        → IfOk result (λ done. IsTrue done → IsIdle (state S.Store conn.new)) }
    ensures refused { (result ≡ Ok false) ↔ IsTrue (state S.Store conn.old).in_transaction }
    ensures kept { result ≡ Ok false → conn.new ≡ conn.old }
    ensures crash { HasCleanDisk (state S.Store conn.new)
        → (state S.Store conn.old).now.schema ≡ no_schema
        → CommitsSteps (state S.Store conn.old) (state S.Store conn.new) at (base.now ∷ []) }
    ensures clean { HasCleanDisk (state S.Store conn.new) → HasCleanDisk (state S.Store conn.old) }
{
    if !conn.is_autocommit() {
        return Ok(false);
    }
    begin(conn)?;
    make_steps(conn)?;
    append(conn, at, base)?;
    commit(conn)?;
    Ok(true)
}
