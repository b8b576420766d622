//! Sessions whose devices fail or don't end, and sessions that lack memory. The cases of `cases/sessions` show what sessions write.
ghost use Rattle.std.specs.Prelude.{◌≡◌, false};

use crate::replies::{ACCEPTED, ADDED, EMPTY_REPORT, GOODBYE, GREETING, REPORT};
use crate::shared::{replica, text};
use ami_session::Session;
use ami_text::{MemorySink, MemorySource, Sink, Source, StdSink, StdSource};
use serve::{Desk, NoWatch, ReplicaDesk, ServeFault, serve};
use std::alloc::Global;
use std::process::Abort;

// An add and a status, in lines ended by LF alone.
const ADD_AND_STATUS: &str =
    "action:QueueAdd\nqueue:sales\nINTERFACE:  SIP/1\n\nAction: QueueStatus\n\n";

// A login of 46 bytes, an add of 47, a status of 21 and a logoff of 18.
const SESSION: &str = "Action: Login\r\nUsername: admin\r\nSecret: s3\r\n\r\n\
action:QueueAdd\nqueue:sales\nINTERFACE:  SIP/1\n\nAction: QueueStatus\n\nAction: Logoff\r\n\r\n";

// What was written after the greeting, and after the reply to each of these messages.
const GREETED: &[&str] = &[GREETING];

const LOGGED_IN: &[&str] = &[GREETING, ACCEPTED];

const HAS_ADDED: &[&str] = &[GREETING, ACCEPTED, ADDED];

const HAS_REPORTED: &[&str] = &[GREETING, ACCEPTED, ADDED, REPORT];

const WHOLE: &[&str] = &[GREETING, ACCEPTED, ADDED, REPORT, GOODBYE];

// Whether bytes are these texts, one after the other.
fn is_text(given: &[u8], texts: &[&str]) -> bool {
    let mut rest = given;
    for text in texts {
        match rest.strip_prefix(text.as_bytes()) {
            Some(behind) => rest = behind,
            None => return false,
        }
    }
    rest.is_empty()
}

fn desk(rt: &impl Abort, alloc: Global) -> ReplicaDesk {
    ReplicaDesk::new(alloc, replica(rt, alloc, 0))
}

// Serves a session; its end is not asserted.
fn serve_session<S: Source, W: Sink, D: Desk<()>>(
    alloc: Global,
    reader: &mut S,
    writer: &mut W,
    session: Session,
    desk: &mut D,
) -> Result<(), ServeFault>
    requires reader { S.failed reader.old ≡ false }
    requires writer { W.failed writer.old ≡ false }
{
    serve(&(), alloc, reader, writer, session, desk, &mut NoWatch)
}

// Asserts how a session on this stream ends, and what it has written. Its reader gives at most a number of bytes at once, and fails after a
// number of reads; its writer the same.
fn assert_end(
    rt: &impl Abort,
    alloc: Global,
    stream: &[u8],
    reads: (usize, u64),
    writes: (usize, u64),
    wanted: Result<(), ServeFault>,
    texts: &[&str],
) {
    let mut reader = MemorySource::failing(stream, reads.0.max(1), reads.1);
    let mut writer = MemorySink::failing(alloc, writes.0, writes.1);
    let mut desk = desk(rt, alloc);
    let session = Session::new(text(rt, "admin"), text(rt, "s3"));
    let served = serve_session(alloc, &mut reader, &mut writer, session, &mut desk);
    drop(desk);
    drop(reader);
    assert!(*rt; served == wanted && is_text(writer.as_slice(), texts));
    drop(writer);
}

// A device that works: there are fewer reads and writes.
const WORKS: (usize, u64) = (700, 1_000);

const READ: Result<(), ServeFault> = Err(ServeFault::Read);

const WRITE: Result<(), ServeFault> = Err(ServeFault::Write);

// All that is due is written before each read, whatever the pieces are.
#[test]
fn a_session_ends_with_the_fault_of_its_reader(rt: HostRuntime) {
    let alloc = rt.alloc();
    let stream = SESSION.as_bytes();
    for reads in 0..46u64 {
        assert_end(&rt, alloc, stream, (1, reads), WORKS, READ, GREETED);
    }
    for reads in 46..93u64 {
        assert_end(&rt, alloc, stream, (1, reads), WORKS, READ, LOGGED_IN);
    }
    for reads in 93..114u64 {
        assert_end(&rt, alloc, stream, (1, reads), WORKS, READ, HAS_ADDED);
    }
    for reads in 114..132u64 {
        assert_end(&rt, alloc, stream, (1, reads), WORKS, READ, HAS_REPORTED);
    }
    // Nothing is read after the logoff.
    assert_end(&rt, alloc, stream, (1, 132), WORKS, Ok(()), WHOLE);
    assert_end(&rt, alloc, stream, (46, 1), WORKS, READ, LOGGED_IN);
    assert_end(&rt, alloc, stream, (47, 1), WORKS, READ, LOGGED_IN);
    assert_end(&rt, alloc, stream, (100, 1), WORKS, READ, HAS_ADDED);
    assert_end(&rt, alloc, stream, (1_024, 1), WORKS, Ok(()), WHOLE);
}

// The greeting and its end are written apart, and each reply at once.
#[test]
fn a_session_ends_with_the_fault_of_its_writer(rt: HostRuntime) {
    const LINE: &[&str] = &["Queue Sites Call Manager/1.0.0"];
    let alloc = rt.alloc();
    let stream = SESSION.as_bytes();
    assert_end(&rt, alloc, stream, WORKS, (700, 0), WRITE, &[]);
    assert_end(&rt, alloc, stream, WORKS, (700, 1), WRITE, LINE);
    assert_end(&rt, alloc, stream, WORKS, (700, 2), WRITE, GREETED);
    assert_end(&rt, alloc, stream, WORKS, (700, 3), WRITE, LOGGED_IN);
    assert_end(&rt, alloc, stream, WORKS, (700, 4), WRITE, HAS_ADDED);
    assert_end(&rt, alloc, stream, WORKS, (700, 5), WRITE, HAS_REPORTED);
    assert_end(&rt, alloc, stream, WORKS, (700, 6), Ok(()), WHOLE);
    // A writer that takes three bytes at once, and one that takes none.
    assert_end(&rt, alloc, stream, WORKS, (3, 1), WRITE, &["Que"]);
    assert_end(&rt, alloc, stream, WORKS, (3, 1_000), Ok(()), WHOLE);
    assert_end(&rt, alloc, stream, WORKS, (0, 1_000), WRITE, &[]);
}

// The last read of 1,000,000 may return the end.
#[test]
fn a_session_reads_a_million_times_at_most(rt: HostRuntime) {
    const ALL: (usize, u64) = (1, u64::MAX);
    const TURNS: Result<(), ServeFault> = Err(ServeFault::Turns);
    let alloc = rt.alloc();
    let lines = vec![in alloc; b'\n'; 999_999].expect(&rt, "memory");
    assert_end(&rt, alloc, &lines, ALL, WORKS, Ok(()), GREETED);
    drop(lines);
    let lines = vec![in alloc; b'\n'; 1_000_000].expect(&rt, "memory");
    assert_end(&rt, alloc, &lines, ALL, WORKS, TURNS, GREETED);
    drop(lines);
}

const NO_MEMORY: &str = "Response: Error\r\nMessage: Out of memory\r\n\r\n";

// How a session with an add and a status ended that ran out of memory at most once, as a word. It wrote the greeting and whole
// replies; or the desk ran out of memory, the reply reports it, and the session went on.
fn end_of(rt: &impl Abort, served: Result<(), ServeFault>, written: &[u8]) -> &'static str {
    let whole = [GREETING, ADDED, REPORT];
    if let Err(fault) = served {
        let is_greeted = is_text(written, &[GREETING]);
        assert!(*rt;
            fault == ServeFault::Memory && (is_greeted || is_text(written, &[GREETING, ADDED]))
        );
        return "fault";
    }
    if is_text(written, &whole) {
        return "whole";
    }
    assert!(*rt;
        is_text(written, &[GREETING, NO_MEMORY, EMPTY_REPORT])
            || is_text(written, &[GREETING, ADDED, NO_MEMORY])
    );
    "reply"
}

// Serves a session over a reader and a writer of std's that take no memory, and prints how it ended; tools/memory_tests.py
// runs this test with each allocation refused in turn.
#[test]
fn a_session_that_lacks_memory_ends_or_replies_so(rt: HostRuntime) {
    let alloc = rt.alloc();
    let mut desk = desk(&rt, alloc);
    let room = Vec::with_capacity(alloc, 1_024).expect(&rt, "memory");
    let mut reader = StdSource::new(ADD_AND_STATUS.as_bytes());
    let mut writer = StdSink::new(room);
    assert!(rt; println!(rt; "ready").is_ok());
    let session = Session::trusted();
    let served = serve_session(alloc, &mut reader, &mut writer, session, &mut desk);
    drop(desk);
    drop(reader);
    let written = writer.into_inner();
    let end = end_of(&rt, served, &written);
    assert!(rt; println!(rt; "{end}").is_ok());
    drop(written);
}
