//! Audits of the stores of two sites: the script that explains their rows, or the row that no event gives.
use crate::shared::{add, replica};
use crate::workers::links::shared;
use ami_text::MemorySink;
use site_journal::{Step, StepDeed};
use status_report::{Answer, Ask};
use std::alloc::Global;
use std::process::Abort;
use store_audit::{AuditEnd, StoreJournal, audit_stores, journal_of_rows};
use stored_steps::{NAME_BYTES, StoredRow, row_of_base, row_of_step};

// The first frame of site 0, after it added SIP/1 to the first queue with penalty 5: in version 2.
const ADDED: &[u8] = b"\x00\x00\x00\x5e\x51\x44\x02\x00\x00\x00\x00\x00\x00\x00\x00\x01\
\x00\x00\x00\x01\x00\x00\x00\x00\x00\x00\x00\x00\x01\x00\x00\x00\x00\x00\x00\x00\x01\
\x00\x00\x00\x01\x00\x00\x00\x00\x00\x00\x00\x00\x01\x00\x00\x05\x53\x49\x50\x2f\x31\x07\
\x00\x00\x00\x00\x00\x00\x00\x01\x00\x00\x00\x00\x05\
\x00\x00\x00\x00\x00\x00\x00\x01\x00\x00\x00\
\x00\x00\x00\x00\x00\x00\x00\x01\x00\x00\x00\
\x00\x00\x00\x00";

// That frame as a program of version 1 makes it. A site takes it, and none makes it.
const OLD_ADDED: &[u8] = b"\x00\x00\x00\x5e\x51\x44\x01\x00\x00\x00\x00\x00\x00\x00\x00\x01\
\x00\x00\x00\x01\x00\x00\x00\x00\x00\x00\x00\x00\x01\x00\x00\x00\x00\x00\x00\x00\x01\
\x00\x00\x00\x01\x00\x00\x00\x00\x00\x00\x00\x00\x01\x00\x00\x05\x53\x49\x50\x2f\x31\x07\
\x00\x00\x00\x00\x00\x00\x00\x01\x00\x00\x00\x00\x05\
\x00\x00\x00\x00\x00\x00\x00\x01\x00\x00\x00\
\x00\x00\x00\x00\x00\x00\x00\x01\x00\x00\x00\
\x00\x00\x00\x00";

// The name of each store.
const NAME: [u8; NAME_BYTES] = *b"0123456789abcdef";

// The store of a new site over these steps, from its rows: a base, a start, and a row for each step.
fn store_of(rt: &impl Abort, alloc: Global, site: u16, steps: &[Step]) -> StoreJournal {
    let replica = replica(rt, alloc, site);
    let base = row_of_base(alloc, &replica, &NAME, 0).expect(rt, "memory");
    drop(replica);
    let mut rows = Vec::new(alloc);
    rows.push(base).expect(rt, "memory");
    let start = StoredRow::of_start(alloc).expect(rt, "memory");
    rows.push(start).expect(rt, "memory");
    for step in steps {
        let row = row_of_step(alloc, step).expect(rt, "memory");
        rows.push(row.expect(rt, "a row")).expect(rt, "memory");
    }
    let store = journal_of_rows(alloc, 0, &rows);
    drop(rows);
    store.ok().expect(rt, "a journal")
}

// The stores of two sites, the last first. Site 0 has added SIP/1 with penalty 5, and cut; site 1 has taken these bytes.
fn stores_of(rt: &impl Abort, alloc: Global, taken: &[u8]) -> Vec<StoreJournal> {
    let mut stores = Vec::new(alloc);
    let steps = [Step {
        pass: 0,
        deed: StepDeed::Took(shared(rt, alloc, taken)),
    }];
    let store = store_of(rt, alloc, 1, &steps);
    drop(steps);
    stores.push(store).expect(rt, "memory");
    let steps = [
        Step {
            pass: 0,
            deed: StepDeed::Asked(Ask::Command(add(rt, b"SIP/1", 5)), Answer::Done),
        },
        Step {
            pass: 0,
            deed: StepDeed::Cut(Some(shared(rt, alloc, ADDED))),
        },
    ];
    let store = store_of(rt, alloc, 0, &steps);
    drop(steps);
    stores.push(store).expect(rt, "memory");
    stores
}

const HEADING: &[u8] = b"# sites: 2\n# queue: sales\n\
# site 0: store 30313233343536373839616263646566, starts: 1, steps: 2\n\
# site 1: store 30313233343536373839616263646566, starts: 1, steps: 1\n";

// How an audit ends of the stores of two sites, of which site 1 has taken these bytes. Asserts which events it writes, 7 bytes at once.
fn audited(rt: &impl Abort, alloc: Global, taken: &[u8], events: &[u8]) -> AuditEnd {
    let stores = stores_of(rt, alloc, taken);
    let mut sink = MemorySink::new(alloc, 7);
    let end = audit_stores(alloc, &mut sink, stores);
    assert!(*rt; sink.as_slice().strip_prefix(HEADING) == Some(events));
    drop(sink);
    end.ok().expect(rt, "an end")
}

#[test]
fn events_of_stores_are_a_script(rt: HostRuntime) {
    let events =
        b"0 ami Action: QueueAdd|Queue: sales|Interface: SIP/1|Penalty: 5|Paused: no\n0 cut\n1 take 0\n";
    let end = audited(&rt, rt.alloc(), ADDED, events);
    assert!(rt; matches!(end, AuditEnd::Explained { unsaid: 0 }));
    drop(end);
}

#[test]
fn a_row_that_no_event_gives_is_named(rt: HostRuntime) {
    let events =
        b"0 ami Action: QueueAdd|Queue: sales|Interface: SIP/1|Penalty: 5|Paused: no\n0 cut\n";
    match audited(&rt, rt.alloc(), OLD_ADDED, events) {
        AuditEnd::Stuck {
            site,
            position,
            words,
        } => {
            assert!(rt; site == 1 && position == 2);
            assert!(rt; words.as_str() == "take, 98 bytes");
            drop(words);
        }
        AuditEnd::Explained { .. } => rt.panic("another end"),
    }
}
