//! Worlds of sites, beyond what scripts can show: the number of sites, lists of events, and out of memory.
use crate::replies::{REPORT_OF_CALLS, REPORT_OF_PENALTY_2};
use crate::shared::{add, list, name, site, status};
use dots::{Interface, SiteId};
use replica::Command;
use sites_world::{Event, Outcome, World, WorldFault};
use status_report::{Answer, Ask};
use std::alloc::Global;
use std::process::Abort;

// A world of `sites` sites with the queue `sales`, or why there is none.
fn new_world(rt: &impl Abort, alloc: Global, sites: u16) -> Result<World, WorldFault> {
    let list = list(rt, alloc);
    let world = World::new(alloc, sites, &list);
    drop(list);
    world
}

// Runs an event, and again if it ran out of memory, and then sets `is_refused`. Returns its outcome.
fn happen(rt: &impl Abort, world: &mut World, event: &Event, is_refused: &mut bool) -> Outcome {
    for _ in 0..2u32 {
        let outcome = match event.copy() {
            Ok(copy) => world.happen(copy),
            Err(_) => Outcome::NoMemory,
        };
        match outcome {
            Outcome::NoMemory => *is_refused = true,
            outcome => return outcome,
        }
    }
    rt.panic("no memory")
}

// Runs an event as `happen` does, and asserts its outcome, as a word or a report.
fn assert_happens(
    rt: &impl Abort,
    world: &mut World,
    event: Event,
    wanted: &str,
    is_refused: &mut bool,
) {
    let outcome = happen(rt, world, &event, is_refused);
    drop(event);
    let given = match &outcome {
        Outcome::Answered(Answer::Done) => "done".as_bytes(),
        Outcome::Answered(Answer::Report(report)) => report.as_slice(),
        Outcome::Cut(Ok(Some(_))) => "entry".as_bytes(),
        Outcome::Took(Ok(())) => "taken".as_bytes(),
        Outcome::NoSite => "no site".as_bytes(),
        Outcome::NoEntry => "no entry".as_bytes(),
        _ => "another outcome".as_bytes(),
    };
    assert!(*rt; given == wanted.as_bytes());
    drop(outcome);
}

#[test]
fn a_world_has_from_1_to_64_sites_and_no_event_elsewhere(rt: HostRuntime) {
    let alloc = rt.alloc();
    for sites in [0, 65] {
        let refused = new_world(&rt, alloc, sites).err();
        assert!(rt; refused == Some(WorldFault::BadSites), "{sites}");
    }
    let full = new_world(&rt, alloc, 64).expect(&rt, "a world");
    assert!(rt; full.replica(site(&rt, 63)).is_some());
    drop(full);
    let mut world = new_world(&rt, alloc, 2).expect(&rt, "a world");
    assert!(rt; world.replica(site(&rt, 2)).is_none() && world.list().len() == 1);
    let (first, second) = (site(&rt, 0), site(&rt, 1));
    let events = [
        Event::Cut(first),
        Event::Whole(first),
        Event::Take(second, 0),
    ];
    let outcomes = world.run(&events).expect(&rt, "memory");
    drop(events);
    assert!(rt; outcomes.len() == 3 && world.entries() == 1);
    assert!(rt; matches!(outcomes.last(), Some(Outcome::Took(Ok(())))));
    drop(outcomes);
    assert!(rt; world.entry(0).is_some() && world.entry(1).is_none());
    let mut is_refused = false;
    // A missing site is reported before a missing entry.
    let elsewhere = Event::Take(site(&rt, 5), 1);
    assert_happens(&rt, &mut world, elsewhere, "no site", &mut is_refused);
    let missing = Event::Take(second, 1);
    assert_happens(&rt, &mut world, missing, "no entry", &mut is_refused);
    drop(world);
    assert!(rt; !is_refused);
}

// The add of SIP/1 with this penalty.
fn add_at(rt: &impl Abort, at: SiteId, penalty: u32) -> Event {
    Event::Ask(at, Ask::Command(add(rt, b"SIP/1", penalty)))
}

// Two sites add SIP/1, and the first removes its own again; each takes the frames of the other, and both show the same.
fn add_twice(rt: &impl Abort, alloc: Global, world: &mut World, is_refused: &mut bool) {
    let (first, second) = (site(rt, 0), site(rt, 1));
    assert_happens(rt, world, add_at(rt, first, 1), "done", is_refused);
    assert_happens(rt, world, add_at(rt, second, 2), "done", is_refused);
    assert_happens(rt, world, Event::Cut(first), "entry", is_refused);
    let removed = Command::Remove {
        queue: name(rt, b"sales"),
        interface: Interface::new(b"SIP/1").expect(rt, "an interface"),
    };
    let remove = Event::Ask(first, Ask::Command(removed));
    assert_happens(rt, world, remove, "done", is_refused);
    assert_happens(rt, world, Event::Cut(first), "entry", is_refused);
    assert_happens(rt, world, Event::Cut(second), "entry", is_refused);
    assert!(*rt; world.entries() == 3);
    assert_happens(rt, world, Event::Take(first, 2), "taken", is_refused);
    assert_happens(rt, world, Event::Take(second, 0), "taken", is_refused);
    assert_happens(rt, world, Event::Take(second, 1), "taken", is_refused);
    let shown = Event::Ask(first, status(alloc));
    assert_happens(rt, world, shown, REPORT_OF_PENALTY_2, is_refused);
    let shown = Event::Ask(second, status(alloc));
    assert_happens(rt, world, shown, REPORT_OF_PENALTY_2, is_refused);
}

// A call of a site that was completed.
fn completed(rt: &impl Abort, at: SiteId) -> Event {
    let command = Command::Completed {
        queue: name(rt, b"sales"),
    };
    Event::Ask(at, Ask::Command(command))
}

// Calls of two sites, and frames of one that are taken again and again.
fn count_calls(rt: &impl Abort, alloc: Global, world: &mut World, is_refused: &mut bool) {
    let (first, second) = (site(rt, 0), site(rt, 1));
    assert_happens(rt, world, completed(rt, first), "done", is_refused);
    assert_happens(rt, world, completed(rt, first), "done", is_refused);
    assert_happens(rt, world, completed(rt, second), "done", is_refused);
    let abandoned = Command::Abandoned {
        queue: name(rt, b"sales"),
    };
    let abandon = Event::Ask(second, Ask::Command(abandoned));
    assert_happens(rt, world, abandon, "done", is_refused);
    assert_happens(rt, world, Event::Cut(second), "entry", is_refused);
    for _ in 0..3u32 {
        assert_happens(rt, world, Event::Take(first, 0), "taken", is_refused);
    }
    assert_happens(rt, world, Event::Whole(second), "entry", is_refused);
    assert_happens(rt, world, Event::Take(first, 1), "taken", is_refused);
    assert!(*rt; world.entries() == 2);
    let shown = Event::Ask(first, status(alloc));
    assert_happens(rt, world, shown, REPORT_OF_CALLS, is_refused);
}

// The outcomes of events are the same whether memory is ample, or runs out for one of them, which is then retried.
// tools/memory_tests.py runs this test with each allocation refused in turn.
#[test]
fn events_that_lack_memory_change_nothing_and_happen_again(rt: HostRuntime) {
    let alloc = rt.alloc();
    let mut shown = new_world(&rt, alloc, 2).expect(&rt, "a world");
    let mut counted = new_world(&rt, alloc, 2).expect(&rt, "a world");
    assert!(rt; println!(rt; "ready").is_ok());
    let mut is_refused = false;
    add_twice(&rt, alloc, &mut shown, &mut is_refused);
    count_calls(&rt, alloc, &mut counted, &mut is_refused);
    drop(counted);
    drop(shown);
    let end = if is_refused { "again" } else { "at once" };
    assert!(rt; println!(rt; "{end}").is_ok());
}
