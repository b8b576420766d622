//! A desk with two passes, which two threads call at once.
ghost use Rattle.std.specs.Prelude.{◌≡◌};
ghost use Rattle.site_journal.specs.Journals.{IsOfSite};

use crate::desks::journal;
use crate::shared::status;
use crate::workers::gates::{MANY_TURNS, MeetingGate, comes};
use site_desk::{CloseFault, Pass, SiteDesk, SiteLedger, close};
use site_journal::Journaled;
use std::alloc::Global;
use std::marker::Brand;
use std::process::Abort;
use std::sync::Wait;
use std::sync::atomic::{AtomicU64, Ordering};
use std::sync::ledger::Blank;
use std::thread;
use std::thread::Threads;

// A call whose gate looks for the end of the other thread's. Whether it saw that.
fn looked<L: SiteLedger, R: Abort + Wait>(
    rt: &R,
    alloc: Global,
    desk: &SiteDesk<L>,
    pass: &mut Pass<L>,
    count: &AtomicU64,
) -> bool {
    let mut gate = MeetingGate {
        count,
        wanted: 2,
        turns: 1_000_000,
        saw: false,
    };
    let ask = status(alloc);
    let receipt = desk.call_gated(rt, pass, &ask, &mut gate, 0);
    assert!(*rt; receipt.is_ok());
    drop(receipt);
    drop(ask);
    gate.saw
}

// Calls once the other thread's gate was called, and then raises the count.
fn call_behind<L: SiteLedger, R: Abort + Wait>(
    rt: &R,
    alloc: Global,
    desk: &SiteDesk<L>,
    pass: &mut Pass<L>,
    count: &AtomicU64,
) {
    assert!(*rt; comes(count, 1, MANY_TURNS));
    let ask = status(alloc);
    let receipt = desk.call(rt, pass, &ask);
    assert!(*rt; receipt.is_ok());
    drop(receipt);
    drop(ask);
    count.fetch_add(1, Ordering::SeqCst);
}

// Asserts that a desk isn't closed with one of its two passes. Closes it with both, and asserts that its journal has had two steps, which
// were dropped.
fn assert_closed<L: SiteLedger>(
    rt: &impl Abort,
    alloc: Global,
    desk: SiteDesk<L>,
    first: Pass<L>,
    second: Pass<L>,
) {
    let mut passes = Vec::new(alloc);
    passes.push(first).expect(rt, "memory");
    let (fault, desk, mut passes) = close(desk, passes).err().expect(rt, "a fault");
    assert!(*rt; fault == CloseFault::WrongPasses && passes.len() == 1);
    passes.push(second).expect(rt, "memory");
    let journal = close(desk, passes).ok().expect(rt, "a journal");
    assert!(*rt; journal.count() == 2 && journal.start() == 2);
    drop(journal);
}

// No call of another thread is done while a gate is called. Then the journal is full, and keeps two reports of 203 bytes, until its steps
// are dropped.
fn assert_excludes<L: SiteLedger + Send + Sync, R: Abort + Threads + Wait + Sync>(
    rt: &R,
    alloc: Global,
    desk: SiteDesk<L>,
    first: Pass<L>,
    second: Pass<L>,
) {
    let mut first = first;
    let mut second = second;
    let count = AtomicU64::new(0);
    let (lent, one, other) = (&desk, &mut first, &mut second);
    let count = &count;
    let (saw, _) = thread::join(
        rt,
        move || looked(rt, alloc, lent, one, count),
        move || call_behind(rt, alloc, lent, other, count),
    );
    assert!(*rt; !saw && count.load(Ordering::SeqCst) == 2);
    assert!(*rt; first.ordinal() == 0 && first.seen() == 1);
    assert!(*rt; second.ordinal() == 1 && second.seen() == 2);
    assert!(*rt; desk.checkpoint_above(rt, 406) == Ok(false));
    assert!(*rt; desk.checkpoint_if_full(rt) == Ok(true));
    assert!(*rt; desk.checkpoint_if_full(rt) == Ok(false));
    assert!(*rt; desk.checkpoint(rt).is_ok());
    assert_closed(rt, alloc, desk, first, second);
}

// Makes a desk with two passes of a journal, and asserts what they do.
fn assert_holds<L: SiteLedger + Send + Sync, R: Abort + Threads + Wait + Sync>(
    rt: &R,
    alloc: Global,
    blank: Blank,
    journal: Journaled,
)
    requires name { blank.name ≡ L.name }
    requires ledger { blank.parts ≡ L.parts }
    requires two { blank.parts ≡ 2 }
    requires begun { journal.count ≡ 0 }
    requires site { IsOfSite L.site L.names journal }
    requires limit { journal.limit ≡ L.limit }
    requires base { journal.base ≡ L.base }
{
    let made = SiteDesk::<L>::new(alloc, blank, journal, 2).ok();
    let (desk, mut passes) = made.expect(rt, "memory");
    let second = passes.pop().expect(rt, "a pass");
    let first = passes.pop().expect(rt, "a pass");
    drop(passes);
    assert_excludes(rt, alloc, desk, first, second);
}

// Asserts what the two passes of a new desk do.
fn assert_of<R: Abort + Threads + Wait + Sync>(rt: &R, alloc: Global) {
    let journal = journal(rt, alloc);
    assert_holds::<Brand, R>(rt, alloc, Blank::new(2), journal);
}

#[test]
fn a_desk_locks_for_a_gate_empties_a_full_journal_and_closes_with_all_passes(rt: HostRuntime) {
    assert_of(&rt, rt.alloc());
}
