//! What these tests share.
use dots::{Bytes, Interface, Label, Penalty, QueueName, SiteId, Text80};
use event_log::EventLog;
use replica::{Command, QueueList, Replica};
use status_report::{Ask, StatusRequest};
use std::alloc::Global;
use std::process::Abort;
use std::sync::Arc;

pub(crate) fn text(rt: &impl Abort, text: &str) -> Text80 {
    Text80::new(text.as_bytes()).expect(rt, "a text")
}

pub(crate) fn site(rt: &impl Abort, number: u16) -> SiteId {
    SiteId::new(number).expect(rt, "a site")
}

pub(crate) fn name(rt: &impl Abort, text: &[u8]) -> QueueName {
    QueueName::new(text).expect(rt, "a name")
}

// The list of the queue `sales` alone.
pub(crate) fn list(rt: &impl Abort, alloc: Global) -> QueueList {
    QueueList::new(alloc, &[name(rt, b"sales")]).expect(rt, "a list")
}

// The replica of a site that knows nothing yet.
pub(crate) fn replica(rt: &impl Abort, alloc: Global, number: u16) -> Replica {
    Replica::new(alloc, site(rt, number), list(rt, alloc))
}

// The add of a member to the queue `sales`.
pub(crate) fn add(rt: &impl Abort, interface: &[u8], penalty: u32) -> Command {
    Command::Add {
        queue: name(rt, b"sales"),
        interface: Interface::new(interface).expect(rt, "an interface"),
        penalty: Penalty::new(penalty).expect(rt, "a penalty"),
        paused: false,
        label: Label {
            name: Text80::empty(),
            state: Text80::empty(),
        },
    }
}

// The request of the status of all queues, without an ActionID.
pub(crate) fn whole_status(alloc: Global) -> StatusRequest {
    StatusRequest {
        queue: None,
        member: None,
        action_id: Bytes::new(Vec::new(alloc)),
    }
}

// The ask of the status of all queues.
pub(crate) fn status(alloc: Global) -> Ask {
    Ask::Status(whole_status(alloc))
}

// A log of events that no test reads.
pub(crate) fn events(rt: &impl Abort, alloc: Global) -> Arc<EventLog, Global> {
    let events = EventLog::new(alloc).expect(rt, "memory");
    Arc::new(alloc, events).expect(rt, "memory")
}
