//! The program's log, which a thread writes.
use event_log::EventLog;
use std::alloc::Global;
use std::sync::{Arc, Condvar, CondvarTimeouts, Mutex, Wait};
use std::thread::{Threads, spawn};
use std::time::{Clock, Duration};

// How long the program waits at its end until the log is written, in milliseconds. Standard error may be blocked.
const LAST_MILLIS: u64 = 2_000;

// Whether the log was written to its end.
#[derive(Drop)]
struct LogEnd {
    is_written: Mutex<bool>,
    changed: Condvar,
}

// A handle of the log.
#[derive(Drop)]
pub(crate) struct Logging {
    pub events: Arc<EventLog, Global>,
    end: Arc<LogEnd, Global>,
}

// An empty log. `None`: out of memory.
fn new_events(alloc: Global) -> Option<Arc<EventLog, Global>> {
    let events = EventLog::new(alloc).ok()?;
    Arc::new(alloc, events).ok()
}

// The end of a log that isn't written yet. `None`: out of memory.
fn new_end(alloc: Global) -> Option<Arc<LogEnd, Global>> {
    let end = LogEnd {
        is_written: Mutex::new(false),
        changed: Condvar::new(),
    };
    Arc::new(alloc, end).ok()
}

impl Logging {
    // An empty log. `None`: out of memory.
    fn new(alloc: Global) -> Option<Logging> {
        let events = new_events(alloc)?;
        match new_end(alloc) {
            Some(end) => Some(Logging { events, end }),
            None => {
                drop(events);
                None
            }
        }
    }

    // A further handle of the log. `None`: there are too many.
    fn share(&self) -> Option<Logging> {
        let events = Arc::try_clone(&self.events).ok()?;
        match Arc::try_clone(&self.end) {
            Ok(end) => Some(Logging { events, end }),
            Err(_) => {
                drop(events);
                None
            }
        }
    }

    // Writes the log to its end, and wakes who waits for that in `end`.
    fn write<R: Wait + Eprint>(&self, rt: &R) {
        self.events.write_until_end(rt);
        *self.end.is_written.lock(rt) = true;
        self.end.changed.notify_all();
    }

    // Begins an empty log, and a thread that writes it until `end` is called. Error, in order: `out of memory`,
    // `no thread`.
    pub fn start<R: AllocGlobal + Threads + Wait + Eprint + Copy + Send + 'static>(
        rt: &R,
    ) -> Result<Logging, &'static str> {
        let Some(logging) = Logging::new(rt.alloc()) else {
            return Err("out of memory");
        };
        let Some(written) = logging.share() else {
            drop(logging);
            return Err("out of memory");
        };
        let own = *rt;
        let write = move || {
            written.write(&own);
            drop(written);
        };
        match spawn(rt, write) {
            Ok(thread) => {
                drop(thread);
                Ok(logging)
            }
            Err(refused) => {
                drop(refused);
                drop(logging);
                Err("no thread")
            }
        }
    }

    // Ends the log, and waits until the lines that it has are written, for 2 seconds at most.
    pub fn end<R: Wait + Clock>(&self, rt: &R) {
        self.events.end(rt);
        let held = self.end.is_written.lock(rt);
        let time = Duration::from_millis(LAST_MILLIS);
        let (held, _) = self
            .end
            .changed
            .wait_timeout_while(rt, held, time, |is_written| !*is_written);
        drop(held);
    }
}
