//! What waits for a peer.
use dots::SharedBytes;
use site_journal::{Receipt, StepDeed};
use site_peers::{MadeFrame, Outbox, SendQueue, SharedOutbox, SharedQueue, WholeFrame};
use std::alloc::Global;
use std::process::Abort;
use std::sync::Wait;
use std::time::{Clock, Duration};

// Gives a whole that says this text, under a heading of 16 bytes that begins with this one.
fn give(rt: &impl Abort, alloc: Global, queue: &mut SendQueue, first: u8, text: &str) {
    let mut bytes = Vec::from_slice(alloc, &[first; 16]).expect(rt, "memory");
    bytes
        .extend_from_slice(text.as_bytes())
        .expect(rt, "memory");
    let bytes = SharedBytes::new(alloc, bytes).expect(rt, "memory");
    queue
        .give_whole(&WholeFrame::new(&bytes))
        .expect(rt, "memory");
    drop(bytes);
}

// Gives a frame that says this text.
fn put(rt: &impl Abort, alloc: Global, queue: &mut SendQueue, text: &str) {
    let bytes = Vec::from_slice(alloc, text.as_bytes()).expect(rt, "memory");
    let bytes = SharedBytes::new(alloc, bytes).expect(rt, "memory");
    queue.put(&bytes).expect(rt, "memory");
    drop(bytes);
}

// Asserts that the first bytes after the heading of what is taken are this text. An empty text: nothing is taken.
fn assert_taken(rt: &impl Abort, queue: &mut SendQueue, text: &str) {
    match queue.take() {
        None => assert!(*rt; text.is_empty()),
        Some(bytes) => {
            let all = bytes.as_slice();
            let skipped = if all.len() > 16 { 16 } else { 0 };
            assert!(*rt; &all[skipped..] == text.as_bytes());
            drop(bytes);
        }
    }
}

// At most eight bytes of frames wait.
#[test]
fn frames_wait_after_a_whole_that_was_begun_for_the_peer(rt: HostRuntime) {
    let alloc = rt.alloc();
    let mut queue = SendQueue::new(alloc, 8);
    // No peer is connected.
    put(&rt, alloc, &mut queue, "ignored");
    queue.require_whole();
    assert!(rt; queue.is_idle() && !queue.wants_whole());
    queue.open();
    // A whole is due, and not one that was begun before.
    put(&rt, alloc, &mut queue, "ignored");
    give(&rt, alloc, &mut queue, 1, "earlier");
    assert!(rt; queue.is_idle());
    assert!(rt; queue.begin_whole());
    // It answers no later ask.
    queue.ask_whole();
    give(&rt, alloc, &mut queue, 1, "all");
    put(&rt, alloc, &mut queue, "one");
    put(&rt, alloc, &mut queue, "two");
    assert_taken(&rt, &mut queue, "all");
    assert_taken(&rt, &mut queue, "one");
    assert_taken(&rt, &mut queue, "two");
    assert_taken(&rt, &mut queue, "");
    // One that says the same does not wait again.
    assert!(rt; queue.begin_whole());
    give(&rt, alloc, &mut queue, 2, "all");
    assert!(rt; queue.is_idle() && !queue.wants_whole());
    // Frames without room are given up for a whole, which waits though it says the same; so does one that is required.
    put(&rt, alloc, &mut queue, "12345");
    put(&rt, alloc, &mut queue, "6789");
    assert!(rt; queue.is_idle());
    assert!(rt; queue.begin_whole());
    give(&rt, alloc, &mut queue, 3, "all");
    assert_taken(&rt, &mut queue, "all");
    queue.require_whole();
    assert!(rt; queue.begin_whole());
    give(&rt, alloc, &mut queue, 4, "all");
    put(&rt, alloc, &mut queue, "last");
    assert_taken(&rt, &mut queue, "all");
    assert!(rt; !queue.is_idle() && !queue.lacks_memory());
    queue.close();
    assert!(rt; queue.is_idle());
    drop(queue);
}

// A whole, after a heading of 16 bytes.
const WHOLE: &[u8] = b"its own heading.all";

// Hands that whole twice to a shared queue that wants one: only the second one was begun for the peer. Asserts whether it waits then, and
// takes it.
fn assert_handed<R: Abort + Wait + Clock>(
    rt: &R,
    queue: &SharedQueue,
    made: &MadeFrame<'_>,
    waits: bool,
) {
    assert!(*rt; queue.wants_whole(rt));
    let mut outbox = SharedOutbox::new(queue);
    assert!(*rt; outbox.hand(rt, made));
    assert!(*rt; !outbox.hand(rt, made));
    drop(outbox);
    assert!(*rt; !queue.wants_whole(rt));
    match queue.take_within(rt, Duration::ZERO, queue.looks()) {
        None => assert!(*rt; !waits),
        Some(bytes) => {
            assert!(*rt; waits && bytes.as_slice() == WHOLE);
            drop(bytes);
        }
    }
}

// A lock hides the queue: no contract says what these calls do to it.
#[test]
fn a_whole_that_says_the_same_waits_in_a_shared_queue_only_if_required(rt: HostRuntime) {
    let alloc = rt.alloc();
    let bytes = Vec::from_slice(alloc, WHOLE).expect(&rt, "memory");
    let bytes = SharedBytes::new(alloc, bytes).expect(&rt, "memory");
    let receipt = Receipt {
        pass: 0,
        position: 0,
        deed: StepDeed::Whole(bytes),
    };
    let made = MadeFrame::of(&receipt);
    let queue = SharedQueue::new(alloc, 8);
    // No peer is connected.
    queue.require_whole(&rt);
    assert!(rt; !queue.wants_whole(&rt));
    queue.open(&rt);
    assert_handed(&rt, &queue, &made, true);
    queue.ask_whole(&rt);
    assert_handed(&rt, &queue, &made, false);
    queue.require_whole(&rt);
    assert_handed(&rt, &queue, &made, true);
    drop(made);
    drop(receipt);
    drop(queue);
}
