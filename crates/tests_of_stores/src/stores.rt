//! Stores over a database in memory: their rows, those that they keep, and the sites that are restored of them.
ghost use Rattle.std.specs.Prelude.{◌<◌, ◌≤◌};

use crate::shared::{
    ADD, COMMAND, NAME, SECOND_ADD, Store, THIRD_ADD, created, new_store, put, replaced, row,
    sales_list, site_0,
};
use site_store::{
    OpenFault, RestoredStore, add_start, append_all, is_step_schema, is_store_schema, keep_rows,
    keeps_rows, read_history, restore_site,
};
use std::alloc::Global;
use std::process::Abort;
use stored_steps::{BaseFault, RowFault, StoreFault};

// Runs a statement.
fn run(rt: &impl Abort, store: &mut Store, text: &str) {
    assert!(*rt; store.execute(text, &[]).is_ok());
}

// Adds the row of a start.
fn start(rt: &impl Abort, alloc: Global, store: &mut Store, at: u64)
    requires { at < 100 }
{
    assert!(*rt; add_start(alloc, store, at) == Ok(()));
}

// Asserts the position of the first of all rows, and the kinds of all rows.
fn assert_rows(rt: &impl Abort, alloc: Global, store: &mut Store, first: u64, kinds: &[u32]) {
    let all = read_history(alloc, store)
        .expect(rt, "a database")
        .expect(rt, "rows");
    assert!(*rt; all.first == first && all.steps.len() == kinds.len());
    for (row, kind) in all.steps.iter().zip(kinds) {
        assert!(*rt; row.kind() == *kind);
    }
    drop(all);
}

// Site 0 of a store. Its journal may have `limit` steps.
pub(crate) fn restored(
    rt: &impl Abort,
    alloc: Global,
    store: &mut Store,
    limit: u32,
) -> Result<RestoredStore, OpenFault>
    requires some { 1 ≤ limit }
    requires most { limit ≤ 10 }
{
    let list = sales_list(rt, alloc);
    let restored = restore_site(alloc, store, site_0(rt), &list, limit);
    drop(list);
    restored
}

// Why a store has no site.
fn fault_of(rt: &impl Abort, alloc: Global, store: &mut Store) -> Option<OpenFault> {
    restored(rt, alloc, store, 2).err()
}

#[test]
fn a_site_goes_on_over_its_store(rt: HostRuntime) {
    let alloc = rt.alloc();
    let mut store = new_store(&rt, alloc);
    put(&rt, alloc, &mut store, 6, COMMAND, ADD);
    let rows = [
        row(&rt, alloc, COMMAND, &[SECOND_ADD]),
        row(&rt, alloc, COMMAND, &[THIRD_ADD]),
    ];
    assert!(rt; append_all(&mut store, 7, &rows) == Ok(()));
    drop(rows);
    let first = restored(&rt, alloc, &mut store, 10).expect(&rt, "a site");
    assert!(rt; first.next == 9 && first.site.starts == 3 && first.site.name == NAME);
    assert!(rt; first.site.journal.steps().len() == 3);
    drop(first);
    start(&rt, alloc, &mut store, 9);
    // A journal that is full drops its steps.
    let second = restored(&rt, alloc, &mut store, 2).expect(&rt, "a site");
    assert!(rt; second.next == 10 && second.site.starts == 4);
    assert!(rt; second.site.journal.start() == 2 && second.site.journal.steps().len() == 1);
    assert!(rt; second.site.journal.replica().last() == (3, 3, 0));
    drop(second);
    assert_rows(&rt, alloc, &mut store, 5, &[1, 2, 2, 2, 6]);
    assert!(rt; replaced(&rt, alloc, &mut store, 20));
    assert_rows(&rt, alloc, &mut store, 20, &[1]);
    drop(store);
}

#[test]
fn rows_that_make_no_site_have_faults(rt: HostRuntime) {
    let alloc = rt.alloc();
    let mut store = new_store(&rt, alloc);
    put(&rt, alloc, &mut store, 6, 7, ADD);
    let kind = OpenFault::Site(StoreFault::Row(6, RowFault::BadKind));
    assert!(rt; fault_of(&rt, alloc, &mut store) == Some(kind));
    run(&rt, &mut store, "DELETE FROM step WHERE position = 6");
    put(&rt, alloc, &mut store, 6, COMMAND, ADD);
    put(&rt, alloc, &mut store, 7, COMMAND, ADD);
    let again = OpenFault::Site(StoreFault::Damaged(7));
    assert!(rt; fault_of(&rt, alloc, &mut store) == Some(again));
    run(&rt, &mut store, "DELETE FROM step WHERE position = 6");
    assert!(rt; fault_of(&rt, alloc, &mut store) == Some(OpenFault::Gap));
    run(&rt, &mut store, "DELETE FROM step");
    let none = OpenFault::Site(StoreFault::Base(BaseFault::NoBase));
    assert!(rt; fault_of(&rt, alloc, &mut store) == Some(none));
    drop(store);
}

#[test]
fn an_open_transaction_is_refused_and_a_start_rolled_back_with_it(rt: HostRuntime) {
    let alloc = rt.alloc();
    let mut store = new_store(&rt, alloc);
    run(&rt, &mut store, "BEGIN");
    assert!(rt; !created(&rt, alloc, &mut store, 5) && !replaced(&rt, alloc, &mut store, 20));
    assert!(rt; fault_of(&rt, alloc, &mut store) == Some(OpenFault::InTransaction));
    start(&rt, alloc, &mut store, 6);
    run(&rt, &mut store, "ROLLBACK");
    assert_rows(&rt, alloc, &mut store, 5, &[1]);
    start(&rt, alloc, &mut store, 6);
    assert_rows(&rt, alloc, &mut store, 5, &[1, 6]);
    drop(store);
}

#[test]
fn a_store_keeps_the_rows_in_whose_place_a_base_is_put(rt: HostRuntime) {
    let alloc = rt.alloc();
    let mut store = new_store(&rt, alloc);
    put(&rt, alloc, &mut store, 6, COMMAND, ADD);
    assert!(rt; is_step_schema(store.schema()) && !keeps_rows(store.schema()));
    assert!(rt; replaced(&rt, alloc, &mut store, 7));
    assert!(rt; keep_rows(&mut store) == Ok(()) && keep_rows(&mut store) == Ok(()));
    assert!(rt; keeps_rows(store.schema()) && is_store_schema(store.schema()));
    assert_rows(&rt, alloc, &mut store, 7, &[1]);
    put(&rt, alloc, &mut store, 8, COMMAND, ADD);
    assert!(rt; replaced(&rt, alloc, &mut store, 9));
    put(&rt, alloc, &mut store, 10, COMMAND, SECOND_ADD);
    let site = restored(&rt, alloc, &mut store, 10).expect(&rt, "a site");
    assert!(rt; site.next == 11 && site.rows == 2 && site.site.journal.steps().len() == 1);
    drop(site);
    start(&rt, alloc, &mut store, 11);
    assert_rows(&rt, alloc, &mut store, 7, &[1, 2, 1, 2, 6]);
    assert!(rt; replaced(&rt, alloc, &mut store, 12));
    assert_rows(&rt, alloc, &mut store, 7, &[1, 2, 1, 2, 6, 1]);
    drop(store);
}
