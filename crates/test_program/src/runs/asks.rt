//! Random asks of the sites: changes of a few members in two queues, calls that are counted, and reports.
use crate::queues::status_of;
use crate::runs::errors::OUT_OF_RANGE;
use crate::runs::numbers::Numbers;
use dots::{Interface, Label, Pause, Penalty, QueueName, Text80};
use replica::{Command, QueueList};
use status_report::Ask;
use std::alloc::Global;
use std::io;

const SALES: &[u8] = b"sales";

const SUPPORT: &[u8] = b"support";

// An interface that no site has, so that a report of it is short.
const NOBODY: &[u8] = b"SIP/nobody";

// The queues of all sites. `None`: memory ran out.
pub(crate) fn queue_list(alloc: Global) -> Option<QueueList> {
    let names = [QueueName::new(SALES).ok()?, QueueName::new(SUPPORT).ok()?];
    QueueList::new(alloc, &names).ok()
}

fn some_queue(numbers: &mut Numbers) -> Option<QueueName> {
    let name = if numbers.below(2) == 0 {
        SALES
    } else {
        SUPPORT
    };
    QueueName::new(name).ok()
}

// One of four.
fn some_interface(numbers: &mut Numbers) -> Option<Interface> {
    let letter = b'a' + numbers.below(4) as u8;
    Interface::new(&[b'S', b'I', b'P', b'/', letter]).ok()
}

fn some_count(numbers: &mut Numbers) -> Option<Command> {
    let queue = some_queue(numbers)?;
    if numbers.below(2) == 0 {
        Some(Command::Completed { queue })
    } else {
        Some(Command::Abandoned { queue })
    }
}

fn some_add_or_remove(numbers: &mut Numbers, is_add: bool) -> Option<Command> {
    let queue = some_queue(numbers)?;
    let interface = some_interface(numbers)?;
    if !is_add {
        return Some(Command::Remove { queue, interface });
    }
    let penalty = Penalty::new(numbers.below(100) as u32)?;
    Some(Command::Add {
        queue,
        interface,
        penalty,
        paused: numbers.below(2) == 0,
        label: Label {
            name: Text80::empty(),
            state: Text80::empty(),
        },
    })
}

// A pause (4), a penalty (5) or ring in use (6), in one queue or in all of them.
fn some_setting(numbers: &mut Numbers, kind: u64) -> Option<Command> {
    let queue = if numbers.below(4) == 0 {
        None
    } else {
        Some(some_queue(numbers)?)
    };
    let interface = some_interface(numbers)?;
    match kind {
        4 => {
            let reason = Text80::new(b"lunch").ok()?;
            Some(Command::Pause {
                queue,
                interface,
                pause: Pause::new(numbers.below(2) == 0, reason),
            })
        }
        5 => {
            let penalty = Penalty::new(numbers.below(100) as u32)?;
            Some(Command::Penalty {
                queue,
                interface,
                penalty,
            })
        }
        _ => Some(Command::RingInUse {
            queue,
            interface,
            ring: numbers.below(2) == 0,
        }),
    }
}

// The next ask.
pub(crate) fn some_ask(alloc: Global, numbers: &mut Numbers) -> io::Result<Ask> {
    let kind = numbers.below(9);
    let command = match kind {
        0 => {
            let nobody = Text80::new(NOBODY).ok();
            return Ok(Ask::Status(status_of(alloc, nobody)));
        }
        1 | 2 => some_add_or_remove(numbers, true),
        3 => some_add_or_remove(numbers, false),
        4..=6 => some_setting(numbers, kind),
        _ => some_count(numbers),
    };
    match command {
        Some(command) => Ok(Ask::Command(command)),
        None => Err(io::Error::other(OUT_OF_RANGE)),
    }
}
