//! Feeds of messages: how long a feed takes, a fault that stays, and out of memory. The cases of `cases/sessions` show how streams
//! become messages.
use ami_text::{Feed, FeedFault, Message};
use std::process::Abort;

// Feeds a piece, for which there is memory.
fn feed_all(rt: &impl Abort, feed: &mut Feed, piece: &[u8]) {
    assert!(*rt; feed.feed(piece).is_ok());
}

// The next result of a feed. All tests call it here, since its contract is large.
fn next_result(feed: &mut Feed) -> Result<Option<Message>, FeedFault> {
    feed.next_message()
}

// Asserts that a feed has no message.
fn assert_none(rt: &impl Abort, feed: &mut Feed) {
    let next = next_result(feed).expect(rt, "no fault");
    let is_none = next.is_none();
    drop(next);
    assert!(*rt; is_none);
}

// The next message. Retries if memory is refused, and then sets `is_refused`.
fn next_message(rt: &impl Abort, feed: &mut Feed, is_refused: &mut bool) -> Message {
    for _ in 0..2u32 {
        match next_result(feed) {
            Err(FeedFault::Memory) => *is_refused = true,
            next => return next.expect(rt, "no fault").expect(rt, "a message"),
        }
    }
    rt.panic("no memory")
}

// Feeds a message of 128 full lines, one byte at a time, and takes it.
fn feed_message(rt: &impl Abort, feed: &mut Feed, is_refused: &mut bool) {
    for _ in 0..128u32 {
        for _ in 0..1024u32 {
            feed_all(rt, feed, b"x");
            assert_none(rt, feed);
        }
        feed_all(rt, feed, b"\n");
    }
    feed_all(rt, feed, b"\n");
    drop(next_message(rt, feed, is_refused));
}

// Sixteen messages, one byte at a time: quadratic time would not end in time. A 129th line is a fault, whatever is fed after it.
#[test]
fn a_feed_looks_at_bytes_once_and_its_fault_stays(rt: HostRuntime) {
    let mut feed = Feed::new(rt.alloc());
    let mut is_refused = false;
    for _ in 0..16u32 {
        feed_message(&rt, &mut feed, &mut is_refused);
    }
    assert!(rt; !is_refused);
    for _ in 0..129u32 {
        feed_all(&rt, &mut feed, b"a: b\r\n");
    }
    for _ in 0..3u32 {
        let fault = next_result(&mut feed).err();
        assert!(rt; fault == Some(FeedFault::TooManyFields));
        feed_all(&rt, &mut feed, b"\n\na: b\n\n");
    }
    drop(feed);
}

// Asserts the value of a name in the next message; if `value` is empty, it has none. Retries if memory is refused, and then sets
// `is_refused`.
fn assert_next(rt: &impl Abort, feed: &mut Feed, is_refused: &mut bool, name: &[u8], value: &[u8]) {
    let message = next_message(rt, feed, is_refused);
    match message.get(name) {
        Some(got) => assert!(*rt; !got.is_empty() && *got == *value),
        None => assert!(*rt; value.is_empty()),
    }
    drop(message);
}

// A stream of three messages in pieces.
const PIECES: &[&[u8]] = &[
    b"\r\nAction: Queue",
    b"Status\r\nQueue: a\r",
    b"\n\r",
    b"\nx\n\ny: z\n\n",
];

// The messages are the same, whether memory is ample or it is refused and they are requested again. tools/memory_tests.py runs
// this test with each allocation refused in turn.
#[test]
fn a_feed_gives_the_same_messages_when_memory_comes_later(rt: HostRuntime) {
    assert!(rt; println!(rt; "ready").is_ok());
    let mut feed = Feed::new(rt.alloc());
    let mut is_refused = false;
    for piece in PIECES {
        if feed.feed(piece).is_err() {
            is_refused = true;
            feed_all(&rt, &mut feed, piece);
        }
    }
    assert_next(&rt, &mut feed, &mut is_refused, b"action", b"QueueStatus");
    assert_next(&rt, &mut feed, &mut is_refused, b"x", b"");
    assert_next(&rt, &mut feed, &mut is_refused, b"y", b"z");
    assert_none(&rt, &mut feed);
    drop(feed);
    let end = if is_refused { "again" } else { "at once" };
    assert!(rt; println!(rt; "{end}").is_ok());
}
