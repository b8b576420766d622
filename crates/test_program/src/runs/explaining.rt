//! The list of events that explains what sites did, and the world that it leads to.
use crate::queues::status_of;
use crate::runs::errors::{OUT_OF_RANGE, failed};
use dots::Memory;
use replica::{QueueList, Replica};
use site_audit::{AuditFault, audit};
use site_journal::Journaled;
use sites_world::{Event, Outcome, World};
use status_report::report;
use std::alloc::Global;
use std::io::{self, ErrorKind};

// How many steps journals have together.
pub(crate) fn steps_of(journals: &[Journaled]) -> u64 {
    let mut steps = 0u64;
    for journal in journals {
        steps = steps.saturating_add(journal.len());
    }
    steps
}

// Whether two replicas give the same report of all queues.
pub(crate) fn report_alike(alloc: Global, one: &Replica, other: &Replica) -> Result<bool, Memory> {
    let request = status_of(alloc, None);
    let first = report(alloc, one, &request);
    let second = report(alloc, other, &request);
    drop(request);
    let is_alike = match (&first, &second) {
        (Ok(first), Ok(second)) => Ok(first.as_slice() == second.as_slice()),
        _ => Err(Memory),
    };
    drop(second);
    drop(first);
    is_alike
}

// Runs events in a world, in order.
fn let_happen(world: &mut World, events: Vec<Event>) -> io::Result<()> {
    for event in events {
        let outcome = world.happen(event);
        let is_done = !matches!(outcome, Outcome::NoMemory);
        drop(outcome);
        if !is_done {
            return Err(io::Error::from(ErrorKind::OutOfMemory));
        }
    }
    Ok(())
}

// Checks that each site of a world reports what its journal's replica does.
fn compare(alloc: Global, world: &World, journals: &[Journaled]) -> io::Result<()> {
    for journal in journals {
        let site = journal.base().site();
        let Some(replica) = world.replica(site) else {
            return Err(io::Error::other(OUT_OF_RANGE));
        };
        if !report_alike(alloc, replica, journal.replica())? {
            let number = site.number();
            return Err(failed(format!(in alloc; "site {number} reports otherwise in the world")));
        }
    }
    Ok(())
}

// Runs events in a new world of `sites` sites, which then report as their journals do.
fn replay(
    alloc: Global,
    list: &QueueList,
    sites: u16,
    journals: &[Journaled],
    events: Vec<Event>,
) -> io::Result<()> {
    let mut world = match World::new(alloc, sites, list) {
        Ok(world) => world,
        Err(_) => {
            drop(events);
            return Err(io::Error::from(ErrorKind::OutOfMemory));
        }
    };
    let replayed = match let_happen(&mut world, events) {
        Ok(()) => compare(alloc, &world, journals),
        Err(error) => Err(error),
    };
    drop(world);
    replayed
}

// Explains the journals of `sites` sites by a list of events, one for each step. If they are to be replayed, they also run in a new
// world. Returns the number of events.
pub(crate) fn explain(
    alloc: Global,
    list: &QueueList,
    sites: u16,
    journals: &[Journaled],
    is_replayed: bool,
) -> io::Result<u64> {
    let events = match audit(alloc, journals) {
        Ok(events) => events,
        Err(AuditFault::Memory) => return Err(io::Error::from(ErrorKind::OutOfMemory)),
        Err(fault) => return Err(failed(format!(in alloc; "no audit: {fault}"))),
    };
    let count = events.len() as u64;
    if count != steps_of(journals) {
        drop(events);
        return Err(io::Error::other("not one event for each step"));
    }
    if is_replayed {
        replay(alloc, list, sites, journals, events)?;
    } else {
        drop(events);
    }
    Ok(count)
}
