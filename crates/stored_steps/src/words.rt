//! What a row says in words, for those who look into a store. No contract sees the words.
//! Functions here fail only when out of memory.
use bstr::BStr;
use dots::{Interface, Memory, QueueName, SharedBytes};
use replica::Command;
use std::alloc::Global;

// The name of a queue, or `*` for every one.
fn queue_words(queue: &Option<QueueName>) -> BStr<'_> {
    match queue {
        Some(name) => BStr::new(name.as_bytes()),
        None => BStr::new(b"*"),
    }
}

// The words of an action on a member of a queue. Fails only when out of memory.
fn member_words(
    alloc: Global,
    action: &str,
    queue: BStr<'_>,
    interface: &Interface,
) -> Result<String, Memory> {
    let interface = BStr::new(interface.as_bytes());
    format!(in alloc; "{action} {queue} {interface}")
}

// The words of an action on a queue. Fails only when out of memory.
fn queue_action_words(alloc: Global, action: &str, queue: &QueueName) -> Result<String, Memory> {
    let queue = BStr::new(queue.as_bytes());
    format!(in alloc; "{action} {queue}")
}

// The words of a command: its Manager action, `Completed` or `Abandoned`; its queue, `*` for
// every one; and its interface, if it has one. Fails only when out of memory.
pub(crate) fn command_words(alloc: Global, command: &Command) -> Result<String, Memory> {
    match command {
        Command::Add {
            queue,
            interface,
            ..
        } => { member_words(alloc, "QueueAdd", BStr::new(queue.as_bytes()), interface) }
        Command::Remove { queue, interface } => {
            member_words(alloc, "QueueRemove", BStr::new(queue.as_bytes()), interface)
        }
        Command::Pause {
            queue,
            interface,
            ..
        } => { member_words(alloc, "QueuePause", queue_words(queue), interface) }
        Command::Penalty {
            queue,
            interface,
            ..
        } => { member_words(alloc, "QueuePenalty", queue_words(queue), interface) }
        Command::RingInUse {
            queue,
            interface,
            ..
        } => { member_words(alloc, "QueueMemberRingInUse", queue_words(queue), interface) }
        Command::Completed { queue } => queue_action_words(alloc, "Completed", queue),
        Command::Abandoned { queue } => queue_action_words(alloc, "Abandoned", queue),
    }
}

// The words of a frame: what was done, and how many bytes it has. Fails only when out of memory.
pub(crate) fn frame_words(
    alloc: Global,
    done: &str,
    bytes: &SharedBytes,
) -> Result<String, Memory> {
    let size = bytes.as_slice().len();
    format!(in alloc; "{done}, {size} bytes")
}
