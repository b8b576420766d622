//! Replicas: which frames from elsewhere a site takes or refuses, and sites that are made again from their parts. The cases of
//! `cases/journals`, `cases/one_site` and `cases/two_sites` show commands, and sites that take one another's frames.
use crate::parse::{interface, label, list, member, name, penalty, site};
use crate::shared::{ADDED, bytes};
use delta_codec::decode;
use replica::{Command, CutFault, Refusal, Replica, RestoreFault, TakeFault};
use std::alloc::Global;
use std::process::Abort;

// A frame of no dots, and of one completed call of site 0 in queue 0.
const COUNTED: &str = "0000002b5144010000000000000000010000000000000000\
    0000000100000000000000000000010000000000000000";

// A new site with the queue `sales`.
fn new_replica(rt: &impl Abort, alloc: Global, number: &str) -> Replica {
    Replica::new(alloc, site(rt, number), list(rt, alloc, "sales"))
}

// Takes the frame of these bytes, in which one byte is another. Asserts why it is refused; `None` if it is taken.
fn assert_taken(
    rt: &impl Abort,
    alloc: Global,
    replica: &mut Replica,
    digits: &str,
    place: usize,
    byte: u8,
    wanted: Option<TakeFault>,
) {
    let mut bytes = bytes(rt, alloc, digits);
    *bytes.get_mut(place).expect(rt, "a place") = byte;
    let (frame, _) = decode(alloc, &bytes).ok().expect(rt, "a frame");
    drop(bytes);
    match replica.take(frame) {
        Ok(()) => assert!(*rt; wanted.is_none()),
        Err((fault, back)) => {
            drop(back);
            assert!(*rt; wanted == Some(fault));
        }
    }
}

// Does a command. Asserts what it gives.
fn assert_done(
    rt: &impl Abort,
    replica: &mut Replica,
    command: Command,
    wanted: Result<(), Refusal>,
) {
    let done = replica.command(&command);
    drop(command);
    assert!(*rt; done == wanted);
}

// The add of an interface to the queue.
fn add(rt: &impl Abort, of: &str) -> Command {
    Command::Add {
        queue: name(rt, "sales"),
        interface: interface(rt, of),
        penalty: penalty(rt, "0"),
        paused: false,
        label: label(rt, "-", "-"),
    }
}

// The bytes 51, 57 and 71 of the frame are of the number of the queue, the interface and the penalty.
#[test]
fn a_frame_of_another_site_is_taken_or_refused(rt: HostRuntime) {
    let alloc = rt.alloc();
    let mut replica = new_replica(&rt, alloc, "1");
    assert!(rt; replica.is_new());
    let strange = Some(TakeFault::NoSuchQueue);
    assert_taken(&rt, alloc, &mut replica, ADDED, 51, 1, strange);
    assert_taken(&rt, alloc, &mut replica, ADDED, 0, 0, None);
    let conflict = Some(TakeFault::Conflict);
    assert_taken(&rt, alloc, &mut replica, ADDED, 57, 50, conflict);
    assert_taken(&rt, alloc, &mut replica, ADDED, 71, 1, conflict);
    let member = member(&rt, "0/SIP/1");
    let row = replica.row(&member).expect(&rt, "a row");
    assert!(rt; row.penalty == 0 && !row.paused && row.name.is_empty() && row.ring);
    drop(member);
    drop(replica);
}

// The last bytes of the last count of the run and of the time of the penalty are 36 and 66; that of the completed calls is 38.
#[test]
fn a_site_takes_its_own_last_dot_time_and_total_and_not_the_next(rt: HostRuntime) {
    let alloc = rt.alloc();
    let mut replica = new_replica(&rt, alloc, "0");
    let not_mine = Some(TakeFault::NotMine);
    assert_taken(&rt, alloc, &mut replica, ADDED, 0, 0, not_mine);
    assert_done(&rt, &mut replica, add(&rt, "SIP/1"), Ok(()));
    let completed = Command::Completed {
        queue: name(&rt, "sales"),
    };
    assert_done(&rt, &mut replica, completed, Ok(()));
    assert_taken(&rt, alloc, &mut replica, ADDED, 0, 0, None);
    assert_taken(&rt, alloc, &mut replica, ADDED, 36, 2, not_mine);
    assert_taken(&rt, alloc, &mut replica, ADDED, 66, 2, not_mine);
    assert_taken(&rt, alloc, &mut replica, COUNTED, 0, 0, None);
    assert_taken(&rt, alloc, &mut replica, COUNTED, 38, 2, not_mine);
    assert!(rt; replica.last() == (1, 1, 0));
    drop(replica);
}

// A replica of site 0 that has cut the add of one member, and has the add of another in its buffer: its last count and time are 2, and
// its last frame is 1.
fn with_two_adds(rt: &impl Abort, alloc: Global) -> Replica {
    let mut replica = new_replica(rt, alloc, "0");
    assert_done(rt, &mut replica, add(rt, "SIP/1"), Ok(()));
    let frame = replica.cut().expect(rt, "a number");
    drop(frame);
    assert_done(rt, &mut replica, add(rt, "SIP/2"), Ok(()));
    replica
}

// Makes a replica of the parts of another, but for its last numbers, which are these.
fn restored(
    rt: &impl Abort,
    alloc: Global,
    replica: &Replica,
    last: (u64, u64, u64),
) -> Result<Replica, RestoreFault> {
    let names = replica.list().copy().expect(rt, "memory");
    let state = replica.state().copy().expect(rt, "memory");
    let pending = replica.pending().copy().expect(rt, "memory");
    Replica::restored(alloc, replica.site(), names, state, pending, last)
}

// Asserts that the parts of a replica, with these last numbers, are refused for this cause.
fn assert_refused(
    rt: &impl Abort,
    alloc: Global,
    replica: &Replica,
    last: (u64, u64, u64),
    wanted: RestoreFault,
) {
    match restored(rt, alloc, replica, last) {
        Ok(again) => {
            drop(again);
            rt.panic("parts are restored")
        }
        Err(fault) => assert!(*rt; fault == wanted),
    }
}

#[test]
fn a_replica_is_restored_from_its_parts(rt: HostRuntime) {
    let alloc = rt.alloc();
    let replica = with_two_adds(&rt, alloc);
    let past = (1 << 40) + 1;
    let large = RestoreFault::NumberTooLarge;
    assert_refused(&rt, alloc, &replica, (2, 2, past), large);
    assert_refused(&rt, alloc, &replica, (1, 2, 1), RestoreFault::OwnDots);
    assert_refused(&rt, alloc, &replica, (2, 1, 1), RestoreFault::OwnStamps);
    let again = restored(&rt, alloc, &replica, (2, 2, 1)).expect(&rt, "a replica");
    assert!(rt; again.state().same(replica.state()));
    assert!(rt; again.pending().same(replica.pending()));
    assert!(rt; again.last() == (2, 2, 1) && !again.is_new());
    drop(again);
    drop(replica);
}

// A site with the last time and the last number of a frame writes and adds no more, and makes no frame.
#[test]
fn a_number_past_the_last_is_not_used(rt: HostRuntime) {
    let alloc = rt.alloc();
    let two = with_two_adds(&rt, alloc);
    let most = 1 << 40;
    let mut replica = restored(&rt, alloc, &two, (2, most, most)).expect(&rt, "a replica");
    drop(two);
    let exhausted = Err(Refusal::Exhausted);
    assert_done(&rt, &mut replica, add(&rt, "SIP/3"), exhausted);
    let penalty = Command::Penalty {
        queue: None,
        interface: interface(&rt, "SIP/1"),
        penalty: penalty(&rt, "1"),
    };
    assert_done(&rt, &mut replica, penalty, exhausted);
    let remove = Command::Remove {
        queue: name(&rt, "sales"),
        interface: interface(&rt, "SIP/1"),
    };
    assert_done(&rt, &mut replica, remove, Ok(()));
    assert!(rt; replica.cut().err() == Some(CutFault::Exhausted));
    assert!(rt; replica.whole().err() == Some(CutFault::Exhausted));
    assert!(rt; replica.use_frame_number() == Err(CutFault::Exhausted));
    drop(replica);
}
