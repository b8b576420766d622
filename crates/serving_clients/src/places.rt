ghost use Rattle.std.specs.Prelude.{◌≡◌, ◌≢◌, ◌↔◌, ◌⊎◌, ◌+◌, ◌-◌, ◌<◌, ◌^◌, IfErr, IsTrue, OnErr, OnOk};

use std::sync::{Condvar, Mutex, Wait};

// How many places are left, how many turns were drawn in all, and the turn of the next place. Nobody waits where these are the same.
#[derive(Drop)]
struct Line {
    left: u32,
    drawn: u64,
    next: u64,
}

// The turn in which a thread gets a place.
#[derive(Drop)]
pub(crate) struct Turn {
    number: u64,
}

impl Line {
    // Takes a place, if one is left and nobody waits. Else draws the next turn.
    fn try_take(&mut self) -> Result<(), Turn>
        ensures took { OnOk result ((0 < self.old.left) × (self.old.drawn ≡ self.old.next)
            × (self.new ≡ record self.old { left = self.old.left - 1 })) }
        ensures turn { IfErr result (λ turn. turn.number ≡ self.old.drawn) }
        ensures left { OnErr result ((self.new.left ≡ self.old.left)
            × (self.new.next ≡ self.old.next)) }
        ensures drawn { OnErr result (self.old.drawn + 1 < 2 ^ 64
            → self.new.drawn ≡ self.old.drawn + 1) }
    {
        if self.left > 0 && self.drawn == self.next {
            self.left -= 1;
            return Ok(());
        }
        let turn = Turn { number: self.drawn };
        self.drawn = self.drawn.wrapping_add(1);
        Err(turn)
    }

    // Whether the thread of this turn must still wait.
    fn waits(&self, turn: u64) -> bool
        ensures { IsTrue result ↔ ((self.now.left ≡ 0) ⊎ (self.now.next ≢ turn)) }
    {
        self.left == 0 || self.next != turn
    }

    // Takes a place for the next turn, and makes the turn after it the next. Where no place is left none is taken.
    fn take(&mut self)
        ensures { self.old.next + 1 < 2 ^ 64 → self.new ≡ record self.old {
          left = self.old.left - 1;
          next = self.old.next + 1;
        } }
    {
        self.left = self.left.saturating_sub(1);
        self.next = self.next.wrapping_add(1);
    }

    // Gives a place back.
    fn give(&mut self)
        ensures { self.old.left + 1 < 2 ^ 32
            → self.new ≡ record self.old { left = self.old.left + 1 } }
    {
        self.left = self.left.saturating_add(1);
    }
}

// How many clients a site may still answer at once. Threads that wait for a place get one in the order in which they drew their turns, and
// none that comes later takes one before them.
#[derive(Drop)]
pub(crate) struct Places {
    line: Mutex<Line>,
    changed: Condvar,
}

impl Places {
    // This number of places.
    pub fn new(places: u32) -> Places {
        Places {
            line: Mutex::new(Line {
                left: places,
                drawn: 0,
                next: 0,
            }),
            changed: Condvar::new(),
        }
    }

    // Takes a place, if one is left and nobody waits. Else returns the caller's turn, with which it must call `take_in_turn`: until it
    // has, nobody of a later turn gets a place.
    pub fn try_take<R: Wait>(&self, rt: &R) -> Result<(), Turn> {
        self.line.lock(rt).try_take()
    }

    // Waits until a place is left for this turn, takes it, and wakes those that wait, since there may be one for the next turn too.
    pub fn take_in_turn<R: Wait>(&self, rt: &R, turn: Turn) {
        let line = self.line.lock(rt);
        let mut line = self
            .changed
            .wait_while(rt, line, |line| line.waits(turn.number));
        line.take();
        drop(line);
        self.changed.notify_all();
    }

    // Gives a place back, and wakes those that wait.
    pub fn leave<R: Wait>(&self, rt: &R) {
        self.line.lock(rt).give();
        self.changed.notify_all();
    }
}
