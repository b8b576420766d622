//! Logs of events: what they give, and what they drop.
use event_log::{EventLog, LogEvent, MOST_LINES};
use std::alloc::AllocError;
use std::process::Abort;
use std::sync::Wait;

// The log gives this line next.
fn assert_line(rt: &(impl Wait + Abort), events: &EventLog, text: &str) {
    match events.next(rt) {
        LogEvent::Line(line) => {
            assert!(*rt; line.as_str() == text);
            drop(line);
        }
        LogEvent::Dropped(_) | LogEvent::End => rt.panic("no line"),
    }
}

#[test]
fn a_log_drops_lines_without_room_or_memory_and_says_how_many(rt: HostRuntime) {
    let alloc = rt.alloc();
    let events = EventLog::new(alloc).expect(&rt, "memory");
    events.add(&rt, Err(AllocError));
    for number in 0..MOST_LINES + 2 {
        events.add(&rt, format!(in alloc; "line {number}"));
    }
    assert_line(&rt, &events, "line 0");
    for _ in 2..MOST_LINES {
        drop(events.next(&rt));
    }
    assert_line(&rt, &events, "line 999");
    let event = events.next(&rt);
    assert!(rt; matches!(&event, LogEvent::Dropped(3)));
    drop(event);
    events.add(&rt, format!(in alloc; "line {MOST_LINES}"));
    events.end(&rt);
    assert_line(&rt, &events, "line 1000");
    let event = events.next(&rt);
    assert!(rt; matches!(&event, LogEvent::End));
    drop(event);
    drop(events);
}
