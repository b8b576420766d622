use dots::{Bytes, QueueName, Text80};
use replica::QueueList;
use status_report::StatusRequest;
use std::alloc::Global;

// The queues of these names. `None`: a name is no queue's, there is no such list, or memory ran out.
pub(crate) fn queue_list(alloc: Global, queues: &[String]) -> Option<QueueList> {
    let mut names = Vec::new(alloc);
    for queue in queues {
        let name = QueueName::new(queue.as_bytes()).ok()?;
        names.push(name).ok()?;
    }
    let list = QueueList::new(alloc, &names).ok();
    drop(names);
    list
}

// The request of the status of all queues, without an ActionID; of one member, if there is its filter.
pub(crate) fn status_of(alloc: Global, member: Option<Text80>) -> StatusRequest {
    StatusRequest {
        queue: None,
        member,
        action_id: Bytes::new(Vec::new(alloc)),
    }
}
