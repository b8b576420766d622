//! The rows of a store that the bytes of its files hold.
ghost use Rattle.std.specs.Prelude.{◌≡◌, ◌≢◌, ◌<◌, ◌≤◌, IfErr, IfOk, IsTrue, length};
ghost use Rattle.sqlite.specs.Files.{HoldsDatabase, IsOpened, file_state};
ghost use Rattle.sqlite.specs.Held.{state};
ghost use Rattle.sqlite.specs.Schema.{Schema};
ghost use Rattle.sqlite.specs.Start.{FindsIn};
ghost use Rattle.sqlite.specs.State.{HasCleanDisk};
ghost use Rattle.sqlite.specs.Tree.{Trees};
ghost use Rattle.sqlite_disk.specs.Memory.{memory_is_usable};
ghost use Rattle.site_store.specs.Kept.{IsHistory};
ghost use Rattle.site_store.specs.Steps.{IsStoreSchema, Lists, kept_schema, step_schema};
ghost use Rattle.store_copy.specs.Copies.{AreAllRows, AreRecovered, HoldsSchema};
ghost use Rattle.store_copy.specs.Copies.{image_in, image_of};

use crate::copy_fault::{open_fault, read_fault};
use crate::disks::disk_of;
use crate::{CopyFault, StoreBytes};
use site_store::{Listed, is_store_schema, read_history};
use sqlite::{Alter, Connection, FileStore, Files, Options};
use sqlite_disk::Memory;
use std::alloc::Global;

// A database over files in memory.
type Copied = Connection<FileStore<Memory>>;

// The two files in memory that have these bytes, and can be used. The fault is `Memory`.
fn files_of(alloc: Global, bytes: &StoreBytes) -> Result<Files<Memory>, CopyFault>
    ensures image { IfOk result (λ files. image_in files ≡ image_of bytes.now) }
    ensures log { IfOk result (λ files. IsTrue (memory_is_usable files.log)) }
    ensures db { IfOk result (λ files. IsTrue (memory_is_usable files.db)) }
    ensures fault { IfErr result (λ fault. fault ≡ CopyFault.Memory) }
{
    let Ok(log) = disk_of(alloc, bytes.log.as_slice()) else {
        return Err(CopyFault::Memory);
    };
    match disk_of(alloc, bytes.file.as_slice()) {
        Ok(db) => Ok(Files { log, db }),
        Err(_) => {
            drop(log);
            Err(CopyFault::Memory)
        }
    }
}

// A connection to the database that two files hold, both of which can be used. Fails with the database's error, as `open_fault` has it:
// `NoStore`, if the file is no database.
fn connect(alloc: Global, files: Files<Memory>) -> Result<Copied, CopyFault>
    requires log { IsTrue (memory_is_usable files.log) }
    requires db { IsTrue (memory_is_usable files.db) }
    ensures opened { IfOk result (λ conn. IsOpened conn) }
    ensures found { IfOk result (λ conn. FindsIn (image_in files) (file_state conn)) }
    ensures refused { IfErr result (λ fault. fault ≡ CopyFault.NoStore
        → (db : Trees) → HoldsDatabase (image_in files) db → ⊥) }
{
    match Connection::open_files_with(alloc, files, Options::new(0), true) {
        Ok(conn) => Ok(conn),
        Err((error, left)) => {
            drop(left);
            Err(open_fault(error))
        }
    }
}

// A connection to the database that the bytes of two files hold. Errors: `Memory`; those of `connect`.
fn open_bytes(alloc: Global, bytes: &StoreBytes) -> Result<Copied, CopyFault>
    ensures opened { IfOk result (λ conn. IsOpened conn) }
    ensures found { IfOk result (λ conn. FindsIn (image_of bytes.now) (file_state conn)) }
    ensures refused { IfErr result (λ fault. fault ≡ CopyFault.NoStore
        → (db : Trees) → HoldsDatabase (image_of bytes.now) db → ⊥) }
{
    let files = files_of(alloc, bytes)?;
    connect(alloc, files)
}

// All rows of the store that a connection shows. Errors, in order: those of the database, as `read_fault` has them; `Gap`, if a row but the
// first hasn't the next position.
fn read_store<S: Alter>(alloc: Global, conn: &mut Connection<S>) -> Result<Listed, CopyFault>
    ensures kept { HasCleanDisk (state S.Store conn.new)
        → (state S.Store conn.old).now.schema ≡ kept_schema
        → IfOk result (λ it. IsHistory (state S.Store conn.old).now.trees it.first it.steps.items) }
    ensures bare { HasCleanDisk (state S.Store conn.new)
        → (state S.Store conn.old).now.schema ≡ step_schema
        → IfOk result (λ it. Lists ((state S.Store conn.old).now.trees 0) it.first it.steps.items) }
    ensures fault { IfErr result (λ fault. fault ≢ CopyFault.NoStore) }
{
    match read_history(alloc, conn) {
        Ok(Some(rows)) => Ok(rows),
        Ok(None) => Err(CopyFault::Gap),
        Err(error) => Err(read_fault(error)),
    }
}

// All rows of the database that a connection shows. Errors, in order: `NoStore`, if it has other tables than those of a store; those of
// `read_store`.
fn read_rows<S: Alter>(alloc: Global, conn: &mut Connection<S>) -> Result<Listed, CopyFault>
    ensures schema { IfOk result (λ it. IsStoreSchema (state S.Store conn.old).now.schema) }
    ensures rows { HasCleanDisk (state S.Store conn.new)
        → IfOk result (λ it. AreAllRows (state S.Store conn.old).now.schema
        (state S.Store conn.old).now.trees it.first it.steps.items) }
    ensures fault { IfErr result (λ fault. fault ≡ CopyFault.NoStore
        → IsStoreSchema (state S.Store conn.old).now.schema → ⊥) }
{
    if !is_store_schema(conn.schema()) {
        return Err(CopyFault::NoStore);
    }
    read_store(alloc, conn)
}

/// All rows of the store that the bytes of its files hold, in the order of their positions: where the store keeps rows those in whose place
/// a base was put, and then those of the table of steps. The rows are read from a copy in memory: a call takes memory for both files twice,
/// and for the rows.
///
/// Errors, in order: `NoStore`, if the file has at most one byte; `NoStore`, if the file is no database; `Damaged`, if a page of it is
/// damaged; `Database`, if the database fails in another way; `NoStore`, if it has other tables than those of a store; `Damaged` and
/// `Database` again, if the rows can't be read; `Gap`, if a row but the first hasn't the next position. `Memory` may replace each but the
/// first.
pub fn rows_of_bytes(alloc: Global, bytes: &StoreBytes) -> Result<Listed, CopyFault>
    // Of a store that keeps rows all are read.
    ensures kept { (db : Trees) → HoldsSchema bytes.now kept_schema db
        → IfOk result (λ it. IsHistory db it.first it.steps.items) }
    // Another store has the table of steps alone.
    ensures bare { (db : Trees) → HoldsSchema bytes.now step_schema db
        → IfOk result (λ it. Lists (db 0) it.first it.steps.items) }
    // Whatever the bytes are, rows are those of a store to which they recover.
    ensures found { IfOk result (λ it. AreRecovered bytes.now it.first it.steps.items) }
    ensures tiny { length bytes.now.file.items ≤ 1 → result ≡ Err CopyFault.NoStore }
    // A store of more than one byte is not refused as none.
    ensures store { (db : Trees) (schema : Schema) → IsStoreSchema schema
        → HoldsSchema bytes.now schema db → 1 < length bytes.now.file.items
        → result ≢ Err CopyFault.NoStore }
{
    if bytes.file.len() <= 1 {
        return Err(CopyFault::NoStore);
    }
    let mut conn = open_bytes(alloc, bytes)?;
    let rows = read_rows(alloc, &mut conn);
    drop(conn.into_store());
    rows
}
