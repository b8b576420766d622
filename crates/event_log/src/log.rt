use crate::waiting_lines::{LogEvent, WaitingLines};
use dots::Memory;
use std::alloc::{AllocError, Global};
use std::sync::{Condvar, Mutex, Wait};

/// Lines that threads add and one thread writes (this project's own). Who adds a line waits only for the lock, under which nothing is
/// written and no memory is taken: at most 1,000 lines wait, and further ones are dropped and counted.
#[derive(Drop)]
pub struct EventLog {
    waiting: Mutex<WaitingLines>,
    changed: Condvar,
}

impl EventLog {
    /// An empty log, with room for as many lines as may wait. Error: `Memory`.
    pub fn new(alloc: Global) -> Result<EventLog, Memory> {
        let waiting = WaitingLines::new(alloc)?;
        Ok(EventLog {
            waiting: Mutex::new(waiting),
            changed: Condvar::new(),
        })
    }

    /// Adds a line, without the line's end, and wakes the thread that waits in `next`. The line is dropped, and counted, where 1,000 lines
    /// wait or where there was no memory for it.
    pub fn add<R: Wait>(&self, rt: &R, line: Result<String, AllocError>) {
        match line {
            Ok(line) => self.waiting.lock(rt).add(line),
            Err(_) => self.waiting.lock(rt).drop_one(),
        }
        self.changed.notify_all();
    }

    /// Ends the log, and wakes the thread that waits in `next`, which still returns the lines that wait, and how many were dropped, before
    /// the end.
    pub fn end<R: Wait>(&self, rt: &R) {
        self.waiting.lock(rt).end();
        self.changed.notify_all();
    }

    /// Waits until there is something to give, and returns it: the oldest line; or where none waits how many were dropped, if any were; or
    /// else the end. A line and a count are given once; the end stays.
    pub fn next<R: Wait>(&self, rt: &R) -> LogEvent {
        let waiting = self.waiting.lock(rt);
        let mut waiting = self
            .changed
            .wait_while(rt, waiting, |waiting| waiting.is_idle());
        waiting.take_next()
    }

    /// Writes each line to standard error, until the log has ended and has given everything. Where lines were dropped it writes how many,
    /// as `queue_sites: 12 log lines dropped`. A failure of standard error is ignored.
    pub fn write_until_end<R: Wait + Eprint>(&self, rt: &R) {
        for _ in rt.forever() {
            match self.next(rt) {
                LogEvent::Line(line) => {
                    let _ = eprintln!(rt; "{line}");
                    drop(line);
                }
                LogEvent::Dropped(count) => {
                    let _ = eprintln!(rt; "queue_sites: {count} log lines dropped");
                }
                LogEvent::End => return,
            }
        }
        unreachable!()
    }
}
