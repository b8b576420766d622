//! Opens the store of a site at a path.
ghost use Rattle.std.specs.Prelude.{◌≡◌, ◌<◌, ◌^◌, ◌∷◌, [], ℕ, List, IfOk, IsTrue, true};
ghost use Rattle.sqlite.specs.Start.{FindsIn};
ghost use Rattle.sqlite.specs.State.{HasCleanDisk, Opens};
ghost use Rattle.sqlite.specs.Files.{HoldsDatabase, IsBlankAs, file_state};
ghost use Rattle.sqlite.specs.FileStore.{view};
ghost use Rattle.sqlite.specs.Held.{state};
ghost use Rattle.sqlite.specs.Tree.{Trees};
ghost use Rattle.sqlite.specs.WalReads.{AreClean};
ghost use Rattle.sqlite.specs.WalFiles.{image_at};
ghost use Rattle.stored_steps.specs.Stored.{Stored};
ghost use Rattle.site_store.specs.Closed.{IsWhole};
ghost use Rattle.site_store.specs.declared.shape.Shape.{Shape};
ghost use Rattle.site_store.specs.Steps.{Holds, IsIdle, IsStoreSchema, LeavesOnly, Lists};
ghost use Rattle.site_store.specs.Steps.{no_schema, step_schema};

use crate::OpenFault;
use crate::creating::create;
use crate::open_fault::open_fault;
use crate::shape::{Shape, has_shape, is_blank_schema};
use sqlite::{Alter, Connection, FileFrom, FileStore, Files, Start};
use sqlite_disk::Disk;
use stored_steps::StoredRow;

// A connection to a database of this shape. A database of another shape is closed: the fault is `Blank`, if it has nothing, else `NoStore`.
fn with_shape<S: Alter + Drop>(
    conn: Connection<S>,
    wanted: Shape,
) -> Result<Connection<S>, OpenFault>
    ensures same { IfOk result (λ it. it ≡ conn) }
    ensures store { wanted ≡ Shape.Store
        → IfOk result (λ it. IsStoreSchema (state S.Store it).now.schema) }
    ensures blank { wanted ≡ Shape.Blank
        → IfOk result (λ it. (state S.Store it).now.schema ≡ no_schema) }
{
    if has_shape(conn.schema(), wanted) {
        return Ok(conn);
    }
    let is_blank = is_blank_schema(conn.schema());
    drop(conn.into_store());
    if is_blank {
        Err(OpenFault::Blank)
    } else {
        Err(OpenFault::NoStore)
    }
}

// A connection to a database that had no table, with a new store of this base. Where none can be made, the database is closed. Errors:
// `NoStore`, if a transaction is open; those of the database, as `open` has them.
fn with_base<S: Alter + Drop>(
    conn: Connection<S>,
    at: u64,
    base: &StoredRow,
) -> Result<Connection<S>, OpenFault>
    requires fits { at < 2 ^ 63 }
    ensures made { (state S.Store conn).now.schema ≡ no_schema
        → IfOk result (λ it. HasCleanDisk (state S.Store it)
        → Holds (state S.Store it) at (base.now ∷ [])
        × LeavesOnly (state S.Store it) at (base.now ∷ [])) }
    ensures idle { (state S.Store conn).now.schema ≡ no_schema
        → IfOk result (λ it. HasCleanDisk (state S.Store it) → IsIdle (state S.Store it)) }
    ensures schema { (state S.Store conn).now.schema ≡ no_schema
        → IfOk result (λ it. HasCleanDisk (state S.Store it)
        → (state S.Store it).now.schema ≡ step_schema) }
{
    let mut conn = conn;
    let fault = match create(&mut conn, at, base) {
        Ok(true) => return Ok(conn),
        Ok(false) => OpenFault::NoStore,
        Err(error) => open_fault(error),
    };
    drop(conn.into_store());
    Err(fault)
}

// Opens the file at a path; a file that is missing is made, and its pages have sums. Errors, in order: those of the database, as `open` has
// them; those of `with_shape`, if the database hasn't this shape.
fn open_file<S: Start>(
    rt: &HostRuntime,
    path: &str,
    start: S,
    wanted: Shape,
) -> Result<Connection<FileStore<FileFrom<S>>>, OpenFault>
    ensures holds { wanted ≡ Shape.Store → IfOk result (λ conn. HasCleanDisk (file_state conn)
        → (db : Trees) (first : ℕ) (rows : List Stored)
        → HoldsDatabase (image_at S.Start) db → Lists (db 0) first rows
        → Holds (file_state conn) first rows) }
    ensures finds { IfOk result (λ conn. HasCleanDisk (file_state conn)
        → FindsIn (image_at S.Start) (file_state conn)) }
    ensures opened { IfOk result (λ conn. HasCleanDisk (file_state conn)
        → Opens (file_state conn)) }
    ensures sums { IfOk result (λ conn. HasCleanDisk (file_state conn)
        → IsBlankAs true (image_at S.Start) → IsTrue (view conn.store).has_sums) }
    ensures store { wanted ≡ Shape.Store
        → IfOk result (λ conn. IsStoreSchema (file_state conn).now.schema) }
    ensures blank { wanted ≡ Shape.Blank
        → IfOk result (λ conn. (file_state conn).now.schema ≡ no_schema) }
{
    match Connection::open_from(rt, path, true, start) {
        Ok(conn) => with_shape(conn, wanted),
        Err((error, _)) => Err(open_fault(error)),
    }
}

/// Opens the store at a path, which keeps rows or not. `restore_site` then restores its site. A file that is missing is made, and has no
/// table: so a mistyped path gives `Blank`, and leaves a file.
///
/// Errors, in order: `InUse`, if the file is open elsewhere; `CannotOpen`; `NoStore`, if the file is no database; `Damaged`, if a
/// page of it is damaged; `Database`, if the database fails in another way; `Blank`, if the file is new or has no table yet; `NoStore`
/// again, if it has other tables. `Memory` may replace each up to `Database`.
pub fn open<S: Start>(
    rt: &HostRuntime,
    path: &str,
    start: S,
) -> Result<Connection<FileStore<FileFrom<S>>>, OpenFault>
    // The connection holds the rows that the files held.
    ensures holds { IfOk result (λ conn. HasCleanDisk (file_state conn)
        → (db : Trees) (first : ℕ) (rows : List Stored)
        → HoldsDatabase (image_at S.Start) db → Lists (db 0) first rows
        → Holds (file_state conn) first rows) }
    // It finds a database that the files hold, and sees it as it was committed.
    ensures finds { IfOk result (λ conn. HasCleanDisk (file_state conn)
        → FindsIn (image_at S.Start) (file_state conn)) }
    ensures opened { IfOk result (λ conn. HasCleanDisk (file_state conn)
        → Opens (file_state conn)) }
    ensures schema { IfOk result (λ conn. IsStoreSchema (file_state conn).now.schema) }
{
    open_file(rt, path, start, Shape::Store)
}

/// Opens a file that is new or has no table yet, for `create`, and makes one that is missing. The pages of a new file have sums.
///
/// Errors, in order: `InUse`, if the file is open elsewhere; `CannotOpen`; `NoStore`, if the file is no database; `Damaged`, if a
/// page of it is damaged; `Database`, if the database fails in another way; `NoStore` again, if the file has a table. `Memory` may replace
/// each up to `Database`.
pub fn open_blank<S: Start>(
    rt: &HostRuntime,
    path: &str,
    start: S,
) -> Result<Connection<FileStore<FileFrom<S>>>, OpenFault>
    ensures schema { IfOk result (λ conn. (file_state conn).now.schema ≡ no_schema) }
    ensures opened { IfOk result (λ conn. HasCleanDisk (file_state conn)
        → Opens (file_state conn)) }
    ensures sums { IfOk result (λ conn. HasCleanDisk (file_state conn)
        → IsBlankAs true (image_at S.Start) → IsTrue (view conn.store).has_sums) }
{
    open_file(rt, path, start, Shape::Blank)
}

/// Makes a store with this base, at this position, in a file that is new or has no table yet, as where an earlier call was cut off by a
/// crash. It makes a file that is missing. `restore_site` then restores its site.
///
/// Errors, in order: those of `open_blank`; and the database's errors where the base is put, as `open` has them: the file then has no
/// table, or this store.
pub fn open_new<S: Start>(
    rt: &HostRuntime,
    path: &str,
    start: S,
    at: u64,
    base: &StoredRow,
) -> Result<Connection<FileStore<FileFrom<S>>>, OpenFault>
    requires fits { at < 2 ^ 63 }
    ensures made { IfOk result (λ conn. HasCleanDisk (file_state conn)
        → Holds (file_state conn) at (base.now ∷ [])
        × LeavesOnly (file_state conn) at (base.now ∷ [])) }
    ensures idle { IfOk result (λ conn. HasCleanDisk (file_state conn)
        → IsIdle (file_state conn)) }
    ensures schema { IfOk result (λ conn. HasCleanDisk (file_state conn)
        → (file_state conn).now.schema ≡ step_schema) }
{
    let conn = open_blank(rt, path, start)?;
    with_base(conn, at, base)
}

/// Closes a store: rolls back a transaction that is open, and copies the log into the file, which then holds the store alone. The files
/// that it returns are closed as they are dropped.
///
/// Errors: the database's, as `open` has them.
pub fn close<D: Disk + Drop>(conn: Connection<FileStore<D>>) -> Result<Files<D>, OpenFault>
    // The files hold the rows of the table of steps, also after a crash, and so does the file without its log.
    ensures whole { IfOk result (λ files. AreClean D.Disk files.log files.db
        → (first : ℕ) (rows : List Stored) → IsIdle (file_state conn)
        → Holds (file_state conn) first rows → IsWhole D.Disk files first rows) }
{
    match conn.close_files() {
        Ok(files) => Ok(files),
        Err((error, store)) => {
            drop(store.close());
            Err(open_fault(error))
        }
    }
}
