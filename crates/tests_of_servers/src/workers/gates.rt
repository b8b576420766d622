//! What waits for another thread, for some time and no longer.
ghost use Rattle.std.specs.Prelude.{◌≡◌};

use site_desk::Gate;
use std::sync::atomic::{AtomicU64, Ordering};
use std::thread;

// How many turns a test waits at most for a number that must come.
pub(crate) const MANY_TURNS: u32 = 10_000_000;

// Whether a number is at least `wanted` within `turns` turns.
pub(crate) fn comes(number: &AtomicU64, wanted: u64, turns: u32) -> bool {
    for _ in 0..turns {
        if number.load(Ordering::SeqCst) >= wanted {
            return true;
        }
        thread::yield_now();
    }
    false
}

// Raises a count at the first ask, and then looks for at most a number of turns whether other threads raise it to `wanted`.
#[derive(Drop)]
pub(crate) struct MeetingGate<'a> {
    pub(crate) count: &'a AtomicU64,
    pub(crate) wanted: u64,
    pub(crate) turns: u32,
    pub(crate) saw: bool,
}

impl<'a> Gate for MeetingGate<'a> {
    ghost called = { λ old turn new. new.turns ≡ old.turns };

    fn inside(&mut self, turn: u64) {
        if turn == 0 {
            self.count.fetch_add(1, Ordering::SeqCst);
            self.saw = comes(self.count, self.wanted, self.turns);
        }
    }
}
