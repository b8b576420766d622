//! What is asserted of a desk with a store.
use crate::memory_store::MemoryStore;
use crate::shared::add;
use dots::{Bytes, SharedBytes};
use serve::Desk as SessionDesk;
use site_desk::Pass;
use site_journal::{DeskFault, Port, Receipt, StepDeed};
use status_report::{Answer, Ask, StatusRequest};
use std::alloc::Global;
use std::process::Abort;
use std::sync::Wait;
use stored_desk::{CommitFault, Growth, Settled, StoredDesk, StoredLedger, StoredPort};
use stored_pass_desk::{KeepingPort, StoredPassDesk, save_all};

type Desk<L> = StoredDesk<MemoryStore, L>;

// The frame of a receipt of a whole.
fn frame_of(rt: &impl Abort, receipt: Receipt) -> SharedBytes {
    match receipt.deed {
        StepDeed::Whole(bytes) => bytes,
        _ => rt.panic("no frame"),
    }
}

// Asserts that a port takes a frame.
fn assert_takes<R: Abort, P: Port<R>>(rt: &R, port: &mut P, frame: &SharedBytes) {
    let bytes = frame.copy().expect(rt, "memory");
    let taken = port.take(rt, bytes).ok().expect(rt, "a receipt");
    drop(taken);
}

// Asserts whether more rows or bytes than these have the store of a desk replace its base.
fn assert_replaces<L: StoredLedger, R: Abort + Wait>(
    rt: &R,
    desk: &Desk<L>,
    rows: u64,
    bytes: u64,
    wanted: bool,
) {
    let most = Growth { rows, bytes };
    assert!(*rt; desk.replace_base_above(rt, most) == Ok(wanted));
}

// Steps 0 to 6: a whole, a take of its frame, a cut of an empty buffer, and four takes. A take isn't saved at once. The first fills the
// journal, so the cut is made again once room is made. The second is saved by `save_all`, the third with the drop of the journal's steps.
// Then the site becomes the base. The last two takes fill the journal.
fn assert_port<L: StoredLedger, R: Abort + Wait, P: Port<R>>(rt: &R, desk: &Desk<L>, port: &mut P) {
    let whole = port.whole(rt).ok().expect(rt, "a receipt");
    let frame = frame_of(rt, whole);
    assert_takes(rt, port, &frame);
    let cut = port.cut(rt).ok().expect(rt, "a receipt");
    assert!(*rt; matches!(cut.deed, StepDeed::Cut(None)));
    drop(cut);
    assert_takes(rt, port, &frame);
    assert!(*rt; save_all(rt, desk).is_ok());
    assert_takes(rt, port, &frame);
    assert!(*rt; desk.checkpoint_above(rt, 0) == Ok(true));
    assert!(*rt; desk.checkpoint_above(rt, 0) == Ok(false));
    assert_replaces(rt, desk, 5, 5_000, false);
    assert_replaces(rt, desk, 4, u64::MAX, true);
    assert_takes(rt, port, &frame);
    assert_takes(rt, port, &frame);
    drop(frame);
}

// Step 7: an add of a session, which is done though the journal is full before it.
fn assert_adds<L: StoredLedger, R: Abort + Wait>(
    rt: &R,
    sessions: &mut StoredPassDesk<'_, MemoryStore, L>,
) {
    let answered = sessions.ask(rt, Ask::Command(add(rt)));
    assert!(*rt; matches!(answered, Ok(Answer::Done)));
    drop(answered);
}

// What a desk answers to the request of the status of all queues.
fn called<L: StoredLedger, R: Wait>(
    rt: &R,
    alloc: Global,
    desk: &Desk<L>,
    pass: &mut Pass<L>,
) -> Result<Settled<L>, DeskFault> {
    let ask = Ask::Status(StatusRequest {
        queue: None,
        member: None,
        action_id: Bytes::new(Vec::new(alloc)),
    });
    let settled = desk.call(rt, pass, &ask);
    drop(ask);
    settled
}

// Asserts that a settled receipt stands at position 8 among the 9 steps that a desk has saved, and that its store takes no more commits.
fn assert_saved<L: StoredLedger, R: Abort + Wait>(rt: &R, desk: Desk<L>, settled: Settled<L>) {
    let (desk, saved) = desk.into_parts();
    drop(desk);
    let mut saved = saved.expect(rt, "saved steps");
    let receipt = saved.find(rt, settled);
    assert!(*rt; receipt.position == 8);
    drop(receipt);
    let store = saved.into_store();
    assert!(*rt; store.steps == 9 && store.commits_left == 0);
    drop(store);
}

// The journal of this desk's site is full after two steps, until a commit drops them. The desk's store takes 13 commits: one for steps 5
// and 6, one for each other step up to 8, one before each of three bases, and one for each base but the first, for which it has no memory.
// Step 9 is done, but not saved. A later call does no step.
pub(crate) fn assert_desk<L: StoredLedger, R: Abort + Wait>(
    rt: &R,
    alloc: Global,
    desk: Desk<L>,
    pass: Pass<L>,
) {
    assert!(*rt; desk.replace_base(rt) == Err(DeskFault::Memory));
    assert!(*rt; desk.fault(rt).is_none());
    let mut pass = pass;
    let port = StoredPort::new(&desk, &mut pass);
    let mut keeping = KeepingPort::new(port, &desk);
    assert_port(rt, &desk, &mut keeping);
    drop(keeping.into_inner());
    let mut sessions = StoredPassDesk::new(&desk, pass);
    assert_adds(rt, &mut sessions);
    let mut pass = sessions.into_pass();
    assert!(*rt; pass.seen() == 8);
    assert_replaces(rt, &desk, u64::MAX, 2_999, true);
    let last = called(rt, alloc, &desk, &mut pass)
        .ok()
        .expect(rt, "a receipt");
    for _ in 0..2 {
        assert!(*rt; called(rt, alloc, &desk, &mut pass).err() == Some(DeskFault::Unsaved));
        assert!(*rt; pass.seen() == 10);
    }
    drop(pass);
    assert!(*rt; desk.fault(rt) == Some(CommitFault::Full));
    assert_saved(rt, desk, last);
}
