//! A site that goes on over its database.
ghost use Rattle.std.specs.Prelude.{◌≤◌};

use crate::shared::{NAME, Store, add, new_store, sales_list, site_0};
use crate::stores::restored;
use replica::Replica;
use site_journal::Journaled;
use sqlite::MemStore;
use status_report::Ask;
use std::alloc::Global;
use std::process::Abort;
use step_database::{RestoredDatabase, StepDatabase};
use stored_desk::StepStore;
use stored_steps::{StoredRow, row_of_base};

type Database = StepDatabase<MemStore>;

// A start of the site of a store. While its steps are done again this number of them is in memory.
fn resumed(rt: &impl Abort, alloc: Global, conn: Store, limit: u32) -> (Database, Replica)
    requires some { 1 ≤ limit }
    requires most { limit ≤ 10 }
{
    let list = sales_list(rt, alloc);
    let found = RestoredDatabase::restore(alloc, conn, site_0(rt), &list, limit);
    drop(list);
    match found {
        Ok(database) => StepDatabase::resume(database, false)
            .ok()
            .expect(rt, "a start"),
        Err(_) => panic!(*rt; "no store"),
    }
}

// The row of the base of a site.
fn base_of(rt: &impl Abort, alloc: Global, site: &Replica) -> StoredRow {
    row_of_base(alloc, site, &NAME, 0).expect(rt, "memory")
}

// A site adds a member twice, cuts its buffer twice, and makes a whole. The second add is refused, and the second cut has no frame. Saves
// these steps in one commit. Returns the row of the base of the site after them.
fn worked(rt: &impl Abort, alloc: Global, store: &mut Database, replica: Replica) -> StoredRow {
    let mut journal = Journaled::new(alloc, replica, 10).ok().expect(rt, "memory");
    let ask = Ask::Command(add(rt));
    drop(journal.call(2, &ask).ok().expect(rt, "a step"));
    drop(journal.call(2, &ask).ok().expect(rt, "a step"));
    drop(ask);
    drop(journal.cut(2).ok().expect(rt, "a frame"));
    drop(journal.cut(2).ok().expect(rt, "no frame"));
    drop(journal.whole(2).ok().expect(rt, "a frame"));
    let group = store.group(journal.steps()).expect(rt, "memory");
    assert!(*rt; store.commit(group).is_ok());
    let base = base_of(rt, alloc, journal.replica());
    drop(journal);
    base
}

#[test]
fn the_next_starts_find_the_steps_and_the_new_base(rt: HostRuntime) {
    let alloc = rt.alloc();
    let (mut store, replica) = resumed(&rt, alloc, new_store(&rt, alloc), 10);
    let wanted = worked(&rt, alloc, &mut store, replica);
    // The row of the start, and those of the add, the first cut and the whole.
    let grown = store.since_base();
    assert!(rt; grown.rows == 4 && grown.bytes > 0);
    let (mut store, found) = resumed(&rt, alloc, store.into_connection(), 1);
    assert!(rt; *store.name() == NAME && store.starts() == 5);
    assert!(rt; store.since_base().rows == 5 && store.since_base().bytes == grown.bytes);
    let base = store.base(found).expect(&rt, "memory");
    assert!(rt; store.replace_base(base).is_ok());
    assert!(rt; store.since_base().rows == 0 && store.since_base().bytes == 0);
    let mut conn = store.into_connection();
    let next = restored(&rt, alloc, &mut conn, 10).expect(&rt, "a site");
    drop(conn);
    assert!(rt; next.site.starts == 5 && next.site.name == NAME && next.next == 12);
    let made = base_of(&rt, alloc, next.site.journal.replica());
    drop(next);
    assert!(rt; made.body() == wanted.body());
    drop(made);
    drop(wanted);
}
