//! Stores that are read from the bytes of their files.
use crate::shared::{ADD, COMMAND, SECOND_ADD, created, put, replaced};
use site_store::{close, keep_rows};
use sqlite::{Alter, Connection, FileStore, Files, Options};
use sqlite_disk::Memory;
use std::alloc::Global;
use std::process::Abort;
use store_copy::{CopyFault, StoreBytes, rows_of_bytes};

// A database in new files, without a table.
fn database_in_files(rt: &impl Abort, alloc: Global) -> Connection<FileStore<Memory>> {
    let files = Files {
        log: Memory::new(alloc),
        db: Memory::new(alloc),
    };
    match Connection::open_files_with(alloc, files, Options::new(1), true) {
        Ok(conn) => conn,
        Err((_, left)) => {
            drop(left);
            panic!(*rt; "a database")
        }
    }
}

// Makes a store whose base has the position 0, and puts two commands behind it.
fn fill<S: Alter>(rt: &impl Abort, alloc: Global, store: &mut Connection<S>) {
    assert!(*rt; created(rt, alloc, store, 0));
    put(rt, alloc, store, 1, COMMAND, ADD);
    put(rt, alloc, store, 2, COMMAND, SECOND_ADD);
}

// Makes a store whose base has the position 0 and which keeps rows, and puts a command, a further base and another command behind it.
fn fill_twice<S: Alter>(rt: &impl Abort, alloc: Global, store: &mut Connection<S>) {
    assert!(*rt; created(rt, alloc, store, 0));
    assert!(*rt; keep_rows(store) == Ok(()));
    put(rt, alloc, store, 1, COMMAND, ADD);
    assert!(*rt; replaced(rt, alloc, store, 2));
    put(rt, alloc, store, 3, COMMAND, SECOND_ADD);
}

// The bytes of two files.
fn bytes_of(rt: &impl Abort, alloc: Global, files: Files<Memory>) -> StoreBytes {
    let file = Vec::from_slice(alloc, files.db.bytes()).expect(rt, "memory");
    let log = Vec::from_slice(alloc, files.log.bytes()).expect(rt, "memory");
    drop(files);
    StoreBytes { file, log }
}

// Asserts the position of the first row that bytes hold, and the kinds of all rows.
fn assert_rows(rt: &impl Abort, alloc: Global, bytes: &StoreBytes, first: u64, kinds: &[u32]) {
    let rows = rows_of_bytes(alloc, bytes).ok().expect(rt, "rows");
    assert!(*rt; rows.first == first && rows.steps.len() == kinds.len());
    for (row, kind) in rows.steps.iter().zip(kinds) {
        assert!(*rt; row.kind() == *kind);
    }
    drop(rows);
}

// Asserts that bytes hold no rows, for this cause.
fn assert_fault(rt: &impl Abort, alloc: Global, bytes: &StoreBytes, wanted: CopyFault) {
    let fault = rows_of_bytes(alloc, bytes).err();
    assert!(*rt; fault == Some(wanted));
}

#[test]
fn a_crashed_store_is_read_up_to_the_end_of_its_log(rt: HostRuntime) {
    let alloc = rt.alloc();
    let mut store = database_in_files(&rt, alloc);
    fill(&rt, alloc, &mut store);
    let files = store.into_store().close();
    let mut bytes = bytes_of(&rt, alloc, files);
    assert_rows(&rt, alloc, &bytes, 0, &[1, 2, 2]);
    // The log ends in room for a frame; the cut is in the one before.
    let short = bytes.log.len().saturating_sub(6_000);
    bytes.log.truncate(short);
    assert_rows(&rt, alloc, &bytes, 0, &[1, 2]);
    bytes.log.clear();
    assert_fault(&rt, alloc, &bytes, CopyFault::NoStore);
    drop(bytes);
}

#[test]
fn damage_of_a_closed_store_with_kept_rows_is_found(rt: HostRuntime) {
    let alloc = rt.alloc();
    let mut store = database_in_files(&rt, alloc);
    fill_twice(&rt, alloc, &mut store);
    let files = close(store).ok().expect(&rt, "a closed store");
    let mut bytes = bytes_of(&rt, alloc, files);
    for at in [2usize, 100, 4_095, 4_096, 8_000] {
        if let Some(byte) = bytes.file.get_mut(at) {
            *byte ^= 1;
        }
        assert_fault(&rt, alloc, &bytes, CopyFault::Damaged);
        if let Some(byte) = bytes.file.get_mut(at) {
            *byte ^= 1;
        }
    }
    assert_rows(&rt, alloc, &bytes, 0, &[1, 2, 1, 2]);
    for len in [5_000usize, 4_096, 50] {
        bytes.file.truncate(len);
        assert_fault(&rt, alloc, &bytes, CopyFault::Damaged);
    }
    drop(bytes);
}
