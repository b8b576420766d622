//! What these tests make and assert alike.
ghost use Rattle.std.specs.Prelude.{◌<◌};

use dots::{Bytes, Interface, Label, Penalty, QueueName, SiteId, Text80};
use replica::{Command, QueueList, Replica};
use site_store::{append, create, is_blank_schema, replace_base};
use sqlite::{Alter, Connection, MemStore};
use std::alloc::Global;
use std::process::Abort;
use stored_steps::{NAME_BYTES, StoredRow, row_of_base};

// A store in a database in memory.
pub(crate) type Store = Connection<MemStore>;

// The bytes that name the store.
pub(crate) const NAME: [u8; NAME_BYTES] = [0xa1; NAME_BYTES];

// The kind of the row of a command.
pub(crate) const COMMAND: u32 = 2;

// The bytes of `QueueAdd sales SIP/1`, with the penalty 7, paused, with the member name `Ann`, that is done.
pub(crate) const ADD: &str = "010573616c6573055349502f31000000070103416e6e0000";

// The same of `SIP/2`, and of `SIP/3`.
pub(crate) const SECOND_ADD: &str = "010573616c6573055349502f32000000070103416e6e0000";

pub(crate) const THIRD_ADD: &str = "010573616c6573055349502f33000000070103416e6e0000";

// A row of pass 2, of this kind, with a body of some parts in hexadecimal.
pub(crate) fn row(rt: &impl Abort, alloc: Global, kind: u32, parts: &[&str]) -> StoredRow {
    let mut body = Vec::new(alloc);
    for part in parts {
        let bytes = hex::decode(alloc, part).expect(rt, "digits");
        body.extend_from_slice(&bytes).expect(rt, "memory");
        drop(bytes);
    }
    StoredRow::new(2, kind, Bytes::new(body), String::new(alloc))
}

pub(crate) fn sales(rt: &impl Abort) -> QueueName {
    QueueName::new(b"sales").expect(rt, "a name")
}

pub(crate) fn sip(rt: &impl Abort) -> Interface {
    Interface::new(b"SIP/1").expect(rt, "an interface")
}

// The add whose bytes are `ADD`.
pub(crate) fn add(rt: &impl Abort) -> Command {
    Command::Add {
        queue: sales(rt),
        interface: sip(rt),
        penalty: Penalty::new(7).expect(rt, "a penalty"),
        paused: true,
        label: Label {
            name: Text80::new(b"Ann").expect(rt, "a text"),
            state: Text80::empty(),
        },
    }
}

pub(crate) fn site_0(rt: &impl Abort) -> SiteId {
    SiteId::new(0).expect(rt, "a site")
}

// The list of the queue `sales`.
pub(crate) fn sales_list(rt: &impl Abort, alloc: Global) -> QueueList {
    QueueList::new(alloc, &[sales(rt)]).expect(rt, "a list")
}

// Site 0, of the queue `sales`, which knows nothing.
pub(crate) fn new_site_0(rt: &impl Abort, alloc: Global) -> Replica {
    Replica::new(alloc, site_0(rt), sales_list(rt, alloc))
}

// The row of the base of site 0, of the queue `sales`, which knows nothing and was started 3 times.
pub(crate) fn base_row(rt: &impl Abort, alloc: Global) -> StoredRow {
    let replica = new_site_0(rt, alloc);
    let row = row_of_base(alloc, &replica, &NAME, 3).expect(rt, "memory");
    drop(replica);
    row
}

// Makes a store in a database that has no table, with a base at this position. Returns whether it did.
pub(crate) fn created<S: Alter>(
    rt: &impl Abort,
    alloc: Global,
    store: &mut Connection<S>,
    at: u64,
) -> bool
    requires { at < 100 }
{
    let base = base_row(rt, alloc);
    let created = create(store, at, &base);
    drop(base);
    created.expect(rt, "a database")
}

// A store in memory whose base has the position 5.
pub(crate) fn new_store(rt: &impl Abort, alloc: Global) -> Store {
    let mut store = Connection::open_in_memory(alloc).expect(rt, "memory");
    assert!(*rt; is_blank_schema(store.schema()));
    assert!(*rt; created(rt, alloc, &mut store, 5));
    store
}

// Adds a row of this kind, with this body in hexadecimal, to a store.
pub(crate) fn put<S: Alter>(
    rt: &impl Abort,
    alloc: Global,
    store: &mut Connection<S>,
    at: u64,
    kind: u32,
    digits: &str,
)
    requires { at < 100 }
{
    let row = row(rt, alloc, kind, &[digits]);
    assert!(*rt; append(store, at, &row) == Ok(1));
    drop(row);
}

// Puts a base in the place of all rows of a store. Returns whether it did.
pub(crate) fn replaced<S: Alter>(
    rt: &impl Abort,
    alloc: Global,
    store: &mut Connection<S>,
    at: u64,
) -> bool
    requires { at < 100 }
{
    let base = base_row(rt, alloc);
    let replaced = replace_base(store, at, &base);
    drop(base);
    replaced.expect(rt, "a database")
}
