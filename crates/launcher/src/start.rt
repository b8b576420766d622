ghost use Rattle.std.specs.Prelude.{◌≡◌, ◌↔◌, ◌-◌, ◌<◌, IsTrue, false, not, true};

use std::sync::{Condvar, Mutex, Wait};

// How many sites haven't all their threads yet, and whether a site can't have them.
#[derive(Drop)]
struct Ready {
    missing: usize,
    failed: bool,
}

impl Ready {
    // One more site has all its threads.
    fn one_ready(&mut self)
        ensures { self.new ≡ record self.old { missing = self.old.missing - 1 } }
    {
        self.missing = self.missing.saturating_sub(1);
    }

    // A site can't have all its threads.
    fn fail(&mut self)
        ensures { self.new ≡ record self.old { failed = true } }
    {
        self.failed = true;
    }

    // Whether it is still open whether the sites begin: some site lacks threads, and none has failed.
    fn waits(&self) -> bool
        ensures { IsTrue result ↔ ((0 < self.now.missing) × (self.now.failed ≡ false)) }
    {
        self.missing > 0 && !self.failed
    }

    // Whether the sites begin, once it isn't open.
    fn begins(&self) -> bool
        ensures { result ≡ not self.now.failed }
    {
        !self.failed
    }
}

/// What the threads of all sites wait for before they do their tasks: a thread in a task may wait for
/// something that nobody else can end, so no task begins before all threads run (this project's own).
/// No contract sees its state.
#[derive(Drop)]
pub struct Start {
    ready: Mutex<Ready>,
    changed: Condvar,
}

impl Start {
    /// The start of `sites` sites. It takes no memory.
    pub fn new(sites: usize) -> Start {
        Start {
            ready: Mutex::new(Ready {
                missing: sites,
                failed: false,
            }),
            changed: Condvar::new(),
        }
    }

    // Reports that a site has all its threads, and wakes those that wait.
    pub(crate) fn one_ready<R: Wait>(&self, rt: &R) {
        self.ready.lock(rt).one_ready();
        self.changed.notify_all();
    }

    // Reports that a site can't have all its threads, so that no site begins, and wakes those that
    // wait.
    pub(crate) fn fail<R: Wait>(&self, rt: &R) {
        self.ready.lock(rt).fail();
        self.changed.notify_all();
    }

    // Waits until all sites have their threads or one can't. Returns whether they begin: `false` if
    // one can't.
    pub(crate) fn wait<R: Wait>(&self, rt: &R) -> bool {
        let ready = self.ready.lock(rt);
        let ready = self.changed.wait_while(rt, ready, |ready| ready.waits());
        ready.begins()
    }
}
