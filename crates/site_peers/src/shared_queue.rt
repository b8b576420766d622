use crate::{MadeFrame, Outbox, SendQueue};
use dots::SharedBytes;
use std::alloc::Global;
use std::sync::atomic::{AtomicU64, Ordering};
use std::sync::{Condvar, CondvarTimeouts, Mutex, Wait};
use std::time::{Clock, Duration};

/// The queue of a peer, which the thread that makes frames and the thread of the peer's link share. Who hands it a frame waits only for the
/// lock. The lock hides the queue: no contract here says what a call does to it, those of `SendQueue` do.
#[derive(Drop)]
pub struct SharedQueue {
    queue: Mutex<SendQueue>,
    changed: Condvar,
    // How often `look` was called.
    looks: AtomicU64,
}

impl SharedQueue {
    /// The queue of a peer that isn't connected, in which at most `limit` bytes of frames wait beside a whole. It takes no memory.
    pub fn new(alloc: Global, limit: usize) -> SharedQueue {
        SharedQueue {
            queue: Mutex::new(SendQueue::new(alloc, limit)),
            changed: Condvar::new(),
            looks: AtomicU64::new(0),
        }
    }

    /// The peer has connected: nothing waits, and a whole is due.
    pub fn open<R: Wait>(&self, rt: &R) {
        self.queue.lock(rt).open();
    }

    /// The peer isn't connected any more: nothing waits and nothing is due.
    pub fn close<R: Wait>(&self, rt: &R) {
        self.queue.lock(rt).close();
    }

    /// Asks for a whole, which is to wait if it says something else than the last one that was given.
    pub fn ask_whole<R: Wait>(&self, rt: &R) {
        self.queue.lock(rt).ask_whole();
    }

    /// Makes a whole due, which waits also if it says the same as the last one. All frames are given up. Where the peer isn't connected the
    /// queue stays as it is.
    pub fn require_whole<R: Wait>(&self, rt: &R) {
        self.queue.lock(rt).require_whole();
    }

    /// True if a whole is to be made for the peer: it is connected, and a whole is due, asked for, or being made.
    pub fn wants_whole<R: Wait>(&self, rt: &R) -> bool {
        self.queue.lock(rt).wants_whole()
    }

    /// True if an allocation was refused since the peer connected or a whole was last given.
    pub fn lacks_memory<R: Wait>(&self, rt: &R) -> bool {
        self.queue.lock(rt).lacks_memory()
    }

    /// Has the thread of the peer's link look at its connection, for which it wakes it.
    pub fn look<R: Wait>(&self, rt: &R) {
        let queue = self.queue.lock(rt);
        let _ = self.looks.fetch_add(1, Ordering::SeqCst);
        drop(queue);
        self.changed.notify_all();
    }

    /// How often `look` was called.
    pub fn looks(&self) -> u64 {
        self.looks.load(Ordering::SeqCst)
    }

    /// Takes the item that has waited longest. If there is nothing to take it waits for at most this time, until there is, or until `look`
    /// is called after this number of looks was read. `None`: there was nothing to take.
    pub fn take_within<R: Wait + Clock>(
        &self,
        rt: &R,
        time: Duration,
        looks: u64,
    ) -> Option<SharedBytes> {
        let queue = self.queue.lock(rt);
        let (mut queue, _) = self.changed.wait_timeout_while(rt, queue, time, |queue| {
            queue.is_idle() && self.looks() == looks
        });
        queue.take()
    }
}

/// The outbox of a peer whose queue is shared. Since a lock hides the queue, its clauses say nothing of it; those of `SendQueue` do.
#[derive(Drop)]
pub struct SharedOutbox<'a> {
    queue: &'a SharedQueue,
}

impl<'a> SharedOutbox<'a> {
    /// The outbox over this queue.
    pub fn new(queue: &'a SharedQueue) -> SharedOutbox<'a> {
        SharedOutbox { queue }
    }
}

impl<'a, R: Wait> Outbox<R> for SharedOutbox<'a> {
    ghost use Rattle.std.specs.Prelude.{⊤};

    ghost handed = { λ old receipt wants new. ⊤ };

    // Hands it to the queue under its lock, and wakes the thread of the link if that has something to take.
    fn hand(&mut self, rt: &R, made: &MadeFrame<'_>) -> bool {
        let mut queue = self.queue.queue.lock(rt);
        let wants = Outbox::<R>::hand(&mut *queue, rt, made);
        let is_idle = queue.is_idle();
        drop(queue);
        if !is_idle {
            self.queue.changed.notify_all();
        }
        wants
    }
}
