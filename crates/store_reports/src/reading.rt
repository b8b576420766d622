//! Reads the stores in files.
ghost use Rattle.std.specs.Prelude.{ℕ, ◌≡◌, ◌+◌, IfErr, IfOk, List, OnOk, length};
ghost use Rattle.std.specs.List.{All};
ghost use Rattle.store_reports.specs.Reports.{AreOfFile, IsFileFault, IsFilesFault, IsOfFile, IsReadFault};
ghost use Rattle.store_audit.specs.RowCauses.{IsJournalCause};
ghost use Rattle.stored_steps.specs.Stored.{Stored};

use crate::{FileFault, ReportFault};
use dots::Memory;
use std::io;
use std::rt::Files;
use store_audit::{JournalFault, StoreJournal, journal_of_rows};
use store_copy::{CopyFault, Listed, read_bytes, rows_of_bytes};

// Why the file of this index can't be read, as the fault of a report: `Memory`, or `File` with `Unreadable`.
fn unreadable(file: usize, error: io::Error) -> ReportFault
    ensures { IsReadFault file result }
{
    match error.kind() {
        io::ErrorKind::OutOfMemory => ReportFault::Memory,
        _ => ReportFault::File(file, FileFault::Unreadable(error)),
    }
}

// Why the bytes of the file of this index give no rows, as the fault of a report: `Memory`, or `File` with `Copy`.
fn copy_fault(file: usize, fault: CopyFault) -> ReportFault
    ensures { IsReadFault file result }
{
    match fault {
        CopyFault::Memory => ReportFault::Memory,
        fault => ReportFault::File(file, FileFault::Copy(fault)),
    }
}

// Why the rows of the file of this index give no journal, as the fault of a report: `Memory`, or `File` with `Journal`.
fn journal_fault(file: usize, fault: JournalFault) -> ReportFault
    ensures { (first : ℕ) (rows : List Stored) → AreOfFile first rows
        → IsJournalCause first rows fault → IsFileFault file result }
{
    match fault {
        JournalFault::Memory => ReportFault::Memory,
        fault => ReportFault::File(file, FileFault::Journal(fault)),
    }
}

// The rows of the store at a path, the file of this index. The bytes of the file are dropped. Errors, in order: `File`, with `Unreadable`,
// then with `Copy`; `Memory` in place of each.
pub(crate) fn rows_of_file<R: Files + AllocGlobal>(
    rt: &R,
    file: usize,
    path: &str,
) -> Result<Listed, ReportFault>
    ensures rows { IfOk result (λ rows. AreOfFile rows.first rows.steps.items) }
    ensures fault { IfErr result (λ fault. IsReadFault file fault) }
{
    let bytes = match read_bytes(rt, path) {
        Ok(bytes) => bytes,
        Err(error) => return Err(unreadable(file, error)),
    };
    let rows = rows_of_bytes(rt.alloc(), &bytes);
    drop(bytes);
    match rows {
        Ok(rows) => Ok(rows),
        Err(fault) => Err(copy_fault(file, fault)),
    }
}

// The journal of the store at a path, the file of this index. Its rows are dropped. Errors, in order: those of `rows_of_file`; `File` with
// `Journal`; `Memory` in place of each.
fn journal_of_file<R: Files + AllocGlobal>(
    rt: &R,
    file: usize,
    path: &str,
) -> Result<StoreJournal, ReportFault>
    ensures journal { IfOk result (λ store. IsOfFile store) }
    ensures fault { IfErr result (λ fault. IsFileFault file fault) }
{
    let rows = rows_of_file(rt, file, path)?;
    let journal = journal_of_rows(rt.alloc(), rows.first, rows.steps.as_slice());
    drop(rows);
    match journal {
        Ok(journal) => Ok(journal),
        Err(fault) => Err(journal_fault(file, fault)),
    }
}

// Appends a store. Each store is of a file, as `IsOfFile` says. It fails only when out of memory, and drops the store.
fn push_store(stores: &mut Vec<StoreJournal>, store: StoreJournal) -> Result<(), Memory>
    requires each { All IsOfFile stores.old.items }
    requires store { IsOfFile store }
    ensures count { OnOk result (length stores.new.items ≡ length stores.old.items + 1) }
    ensures each { OnOk result (All IsOfFile stores.new.items) }
{
    stores.push(store)?;
    Ok(())
}

// The journals of the stores at these paths, in their order; one file after the other is read. The first error of a file ends it, as does
// `Memory`.
pub(crate) fn journals_of_files<R: Files + AllocGlobal>(
    rt: &R,
    paths: &[String],
) -> Result<Vec<StoreJournal>, ReportFault>
    ensures count { IfOk result (λ stores. length stores.items ≡ length paths.now) }
    ensures each { IfOk result (λ stores. All IsOfFile stores.items) }
    ensures fault { IfErr result (λ fault. IsFilesFault (length paths.now) fault) }
{
    let mut stores = Vec::new(rt.alloc());
    for (file, path) in paths.iter().enumerate() {
        let store = journal_of_file(rt, file, path.as_str())?;
        push_store(&mut stores, store)?;
    }
    Ok(stores)
}
