//! Sites as threads: that they run at once, and what they come to.
use crate::shared::{add, list, whole_status};
use crate::workers::gates::{MANY_TURNS, MeetingGate};
use replica::{QueueList, Replica};
use site_worker::{
    AuditFault, Deed, DeskFault, Gate, Journaled, LinkPlan, RunFault, SiteEnd, SiteWork, audit,
    run_sites, settle,
};
use status_report::{Ask, report};
use std::alloc::Global;
use std::process::Abort;
use std::sync::Wait;
use std::sync::atomic::{AtomicU64, Ordering};
use std::thread::Threads;

// Lets sites run.
fn ran<R: Threads + Wait + Sync, G: Gate + Send + Drop>(
    rt: &R,
    alloc: Global,
    list: &QueueList,
    works: Vec<SiteWork<G>>,
) -> Result<Vec<SiteEnd<G>>, RunFault> {
    run_sites(rt, alloc, list, works)
}

// The work of a site that adds a member, and does this with all of its frames. Its gate looks for the gates of three sites.
fn work<'a>(
    rt: &impl Abort,
    alloc: Global,
    count: &'a AtomicU64,
    turns: u32,
    interface: &[u8],
    penalty: u32,
    deed: Deed,
) -> SiteWork<MeetingGate<'a>> {
    let mut asks = Vec::new(alloc);
    let asked = Ask::Command(add(rt, interface, penalty));
    asks.push(asked).expect(rt, "memory");
    let deeds = Vec::from_slice(alloc, &[deed]).expect(rt, "memory");
    SiteWork {
        asks,
        plan: LinkPlan::new(deeds),
        gate: MeetingGate {
            count,
            wanted: 3,
            turns,
            saw: false,
        },
    }
}

// The works of three sites, each of which adds a member and cuts it. Site 0 loses that frame, site 1 sends it twice, and site 2 holds it up
// to the end. Each then sends a frame of all.
fn works_of_three<'a>(
    rt: &impl Abort,
    alloc: Global,
    count: &'a AtomicU64,
    turns: u32,
) -> Vec<SiteWork<MeetingGate<'a>>> {
    let mut works = Vec::new(alloc);
    works
        .push(work(rt, alloc, count, turns, b"SIP/0", 0, Deed::Lose))
        .expect(rt, "memory");
    works
        .push(work(rt, alloc, count, turns, b"SIP/1", 1, Deed::Twice))
        .expect(rt, "memory");
    works
        .push(work(rt, alloc, count, turns, b"SIP/2", 2, Deed::Hold))
        .expect(rt, "memory");
    works
}

// No ask is run: the first one of a site would raise the count.
#[test]
fn a_run_of_no_sites_or_of_9_is_refused(rt: HostRuntime) {
    let alloc = rt.alloc();
    let list = list(&rt, alloc);
    let count = AtomicU64::new(0);
    let mut works = works_of_three(&rt, alloc, &count, 0);
    works.clear();
    let refused = ran(&rt, alloc, &list, works).err();
    assert!(rt; refused == Some(RunFault::BadSites));
    let mut works = works_of_three(&rt, alloc, &count, 0);
    for _ in 0..6u32 {
        let work = work(&rt, alloc, &count, 0, b"SIP/3", 3, Deed::Lose);
        works.push(work).expect(&rt, "memory");
    }
    let refused = ran(&rt, alloc, &list, works).err();
    assert!(rt; refused == Some(RunFault::BadSites) && count.load(Ordering::SeqCst) == 0);
    drop(list);
}

// Asserts that the gate of a site, one of three, was called while those of the others were, and how many frames it has taken of each other
// site.
fn assert_end(rt: &impl Abort, end: &SiteEnd<MeetingGate<'_>>, takes: [usize; 2]) {
    assert!(*rt; end.fault.is_none() && end.gate.saw);
    assert!(*rt; end.receipts.len() == 4);
    assert!(*rt; end.receipts[2].len() == takes[0]);
    assert!(*rt; end.receipts[3].len() == takes[1]);
}

#[test]
fn sites_run_at_once_and_each_sends_by_its_own_plan(rt: HostRuntime) {
    let alloc = rt.alloc();
    let list = list(&rt, alloc);
    let count = AtomicU64::new(0);
    let works = works_of_three(&rt, alloc, &count, MANY_TURNS);
    let ends = ran(&rt, alloc, &list, works).expect(&rt, "ends");
    drop(list);
    assert!(rt; ends.len() == 3);
    assert_end(&rt, &ends[0], [3, 2]);
    assert_end(&rt, &ends[1], [1, 2]);
    assert_end(&rt, &ends[2], [1, 3]);
    drop(ends);
}

// Appends the journal of a site, one of three, which the receipts of its threads settle. Returns whether one of these ran out of memory; no
// thread has another fault.
fn push_journal(
    rt: &impl Abort,
    end: SiteEnd<MeetingGate<'_>>,
    journals: &mut Vec<Journaled>,
) -> bool {
    let SiteEnd {
        journal,
        receipts,
        fault,
        ..
    } = end;
    assert!(*rt; receipts.len() == 4);
    let settled = settle(&journal, receipts.as_slice());
    drop(receipts);
    assert!(*rt; settled.is_ok());
    journals.push(journal).expect(rt, "memory");
    assert!(*rt; matches!(fault, None | Some(DeskFault::Memory)));
    fault.is_some()
}

// Whether there is memory for an audit, which then shows that journals are one run.
fn is_audited(rt: &impl Abort, alloc: Global, journals: &[Journaled]) -> bool {
    let fault = audit(alloc, journals).err();
    assert!(*rt; matches!(fault, None | Some(AuditFault::Memory)));
    fault.is_none()
}

// What each site shows in the end.
const REPORT: &str =
    "Response: Success\r\nEventList: start\r\nMessage: Queue status will follow\r\n\r\n\
Event: QueueParams\r\nQueue: sales\r\nCompleted: 0\r\nAbandoned: 0\r\n\r\n\
Event: QueueMember\r\nQueue: sales\r\nName: SIP/0\r\nLocation: SIP/0\r\nStateInterface: SIP/0\r\nMembership: dynamic\r\n\
Penalty: 0\r\nPaused: 0\r\nPausedReason: \r\nRingInUse: 1\r\n\r\n\
Event: QueueMember\r\nQueue: sales\r\nName: SIP/1\r\nLocation: SIP/1\r\nStateInterface: SIP/1\r\nMembership: dynamic\r\n\
Penalty: 1\r\nPaused: 0\r\nPausedReason: \r\nRingInUse: 1\r\n\r\n\
Event: QueueMember\r\nQueue: sales\r\nName: SIP/2\r\nLocation: SIP/2\r\nStateInterface: SIP/2\r\nMembership: dynamic\r\n\
Penalty: 2\r\nPaused: 0\r\nPausedReason: \r\nRingInUse: 1\r\n\r\n\
Event: QueueStatusComplete\r\nEventList: Complete\r\nListItems: 4\r\n\r\n";

// Whether there is memory for the report of a site, which then is what each site shows in the end.
fn is_shown(rt: &impl Abort, alloc: Global, replica: &Replica) -> bool {
    let request = whole_status(alloc);
    let reported = report(alloc, replica, &request);
    drop(request);
    let Ok(shown) = reported else {
        return false;
    };
    assert!(*rt; shown.as_slice() == REPORT.as_bytes());
    drop(shown);
    true
}

// How a run of three sites has ended that lacked memory at most once, as a word: its journals settle and are one run, and where no site
// has a fault all show the same.
fn end_of(
    rt: &impl Abort,
    alloc: Global,
    ends: Vec<SiteEnd<MeetingGate<'_>>>,
    journals: &mut Vec<Journaled>,
) -> &'static str {
    assert!(*rt; ends.len() == 3);
    let mut has_stopped = false;
    for end in ends {
        has_stopped = push_journal(rt, end, journals) || has_stopped;
    }
    if !is_audited(rt, alloc, journals.as_slice()) {
        return "unread";
    }
    if has_stopped {
        return "stopped";
    }
    for journal in journals.as_slice() {
        if !is_shown(rt, alloc, journal.replica()) {
            return "unread";
        }
    }
    "whole"
}

// Runs three sites, and prints how that ended; tools/memory_tests.py runs this test with each allocation refused in turn.
#[test]
fn memory_of_a_run(rt: HostRuntime) {
    let alloc = rt.alloc();
    let list = list(&rt, alloc);
    let count = AtomicU64::new(0);
    let works = works_of_three(&rt, alloc, &count, 0);
    let mut journals = Vec::with_capacity(alloc, 3).expect(&rt, "memory");
    assert!(rt; println!(rt; "ready").is_ok());
    let end = match ran(&rt, alloc, &list, works) {
        Ok(ends) => end_of(&rt, alloc, ends, &mut journals),
        Err(RunFault::NoThread) => "no thread",
        Err(RunFault::Memory) => "no run",
        Err(RunFault::BadSites) => rt.panic("three sites"),
    };
    assert!(rt; println!(rt; "{end}").is_ok());
    drop(list);
    drop(journals);
}
