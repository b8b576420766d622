//! The ear of the thread that sends what a site does: it hears when to cut, and when to make a frame of all that the site knows.
ghost use Rattle.std.specs.Prelude.{◌≡◌, false, true};

use dots::MOST_COUNT;
use site_desk::{Heard, SiteBell};
use site_journal::Bell;
use std::marker::Model;
use std::sync::Wait;
use std::thread;
use std::time::{Clock, Duration, Instant};

// How long after a whole the next one is made while a peer is behind, in milliseconds; and if a peer that is behind has got room.
const WHOLE_MILLIS: u64 = 5_000;

const HURRIED_MILLIS: u64 = 200;

// How long an ear that rests does so after each ring, in milliseconds.
const REST_MILLIS: u64 = 10;

/// The ear of the thread that hears a bell (this project's own). It hears rings in *rounds*: a round ends when the bell has ended, or when a
/// *whole* is due, a frame of all that the site knows. While a peer is behind the site, a whole is due 5 seconds after the last one, or 0.2
/// seconds after it if that peer has removed a member.
///
/// An ear of a site that has nobody to send to may rest after each ring: meanwhile rings wake no thread, and are one ring.
#[derive(Drop)]
pub struct Ear<'a> {
    bell: &'a SiteBell,
    // Whether it rests after each ring.
    rests: bool,
    heard: u64,
    has_ended: bool,
    has_bell_ended: bool,
    has_room: bool,
    is_behind: bool,
    is_hurried: bool,
    // When the last whole was sent.
    whole_at: Option<Instant>,
}

impl<'a> Model for Ear<'a> {
    ghost use Rattle.std.specs.Prelude.{◌≤◌};
    ghost use Rattle.dots.specs.declared.limits.TheConstants.{MOST_COUNT};
    ghost use Rattle.pass_desk.specs.Ears.{EarState};

    ghost Value = { EarState };

    ghost view = { λ ear. record {
      rings = ear.heard;
      ended = ear.has_ended;
      closed = ear.has_bell_ended;
    } };

    ghost invariant = { λ ear. ear.heard ≤ MOST_COUNT };
}

impl<'a> Ear<'a> {
    /// An ear for this bell, in its first round, which has heard nothing yet and doesn't rest.
    pub fn new(bell: &'a SiteBell) -> Ear<'a>
        ensures rings { result.rings ≡ 0 }
        ensures ended { result.ended ≡ false }
        ensures closed { result.closed ≡ false }
    {
        Ear {
            bell,
            rests: false,
            heard: 0,
            has_ended: false,
            has_bell_ended: false,
            has_room: false,
            is_behind: false,
            is_hurried: false,
            whole_at: None,
        }
    }

    /// An ear for this bell, as `new` makes it, that rests for 10 milliseconds after each ring.
    pub fn resting(bell: &'a SiteBell) -> Ear<'a>
        ensures rings { result.rings ≡ 0 }
        ensures ended { result.ended ≡ false }
        ensures closed { result.closed ≡ false }
    {
        let mut ear = Ear::new(bell);
        ear.rests = true;
        ear
    }

    /// Whether it has found the bell ended, which stays.
    pub fn has_bell_ended(&self) -> bool
        ensures { result ≡ self.now.closed }
    {
        self.has_bell_ended
    }

    /// Whether a ring heard since the last such call said that the site has removed a member. No contract says this: `EarState` is without
    /// it.
    pub fn take_room(&mut self) -> bool
        ensures { self.new ≡ self.old }
    {
        let has_room = self.has_room;
        self.has_room = false;
        has_room
    }

    /// Ends the round, since its caller knows that a whole is due: `wait` returns `false` until the next round begins.
    pub fn end_round(&mut self)
        ensures { self.new ≡ record self.old { ended = true } }
    {
        self.has_ended = true;
    }

    /// Begins the next round, once a whole was sent: the time to the next one begins now, and that a peer has got room is forgotten. No
    /// contract says either.
    pub fn begin_round<R: Clock>(&mut self, rt: &R)
        ensures { self.new ≡ record self.old { rings = 0; ended = false } }
    {
        self.heard = 0;
        self.has_ended = false;
        self.is_hurried = false;
        self.whole_at = Instant::now(rt).ok();
    }

    // How long it still waits for a ring until a whole is due. `None`: no peer is behind, and it waits without end. 0: a whole is due, as
    // it is if none was sent yet or the clock can't be read.
    fn patience<R: Clock>(&self, rt: &R) -> Option<Duration> {
        if !self.is_behind {
            return None;
        }
        let pause = Duration::from_millis(if self.is_hurried {
            HURRIED_MILLIS
        } else {
            WHOLE_MILLIS
        });
        let passed = match self.whole_at {
            None => pause,
            Some(at) => at.elapsed(rt).unwrap_or(pause),
        };
        Some(pause.saturating_sub(passed))
    }

    // Notes what the bell has said of members and peers. No contract says this: `EarState` is without it.
    fn note(&mut self, heard: Heard)
        ensures { self.new ≡ self.old }
    {
        self.has_room = self.has_room || heard.has_room;
        self.is_behind = heard.is_behind;
        self.is_hurried = heard.is_behind && (self.is_hurried || heard.is_hurried);
    }

    // Waits for a ring, notes what the bell says, and doesn't count the ring. `false`, in order: a whole is due, also where the bell has
    // rung; the bell has ended with each ring heard, which is noted.
    fn hear_ring<R: Wait + Clock>(&mut self, rt: &R) -> bool
        ensures rings { self.new.rings ≡ self.old.rings }
        ensures ended { self.new.ended ≡ self.old.ended }
    {
        for _ in rt.forever() {
            let patience = self.patience(rt);
            if patience.is_some_and(|left| left.is_zero()) {
                return false;
            }
            let heard = self.bell.hear(rt, patience);
            self.note(heard);
            if heard.has_rung {
                return true;
            }
            if heard.has_ended {
                self.has_bell_ended = true;
                return false;
            }
        }
        unreachable!()
    }
}

impl<'a, R: Wait + Clock> Bell<R> for Ear<'a> {
    ghost rings = { λ ear. ear.rings };

    ghost ended = { λ ear. ear.ended };

    /// Waits for a ring, and counts it. `false`: the round has ended, since `end_round` was called, 2^40 rings were heard, the bell has
    /// ended, or a whole is due. An ear that rests sleeps for 10 milliseconds before it waits, unless no ring was heard in this round.
    fn wait(&mut self, rt: &R) -> bool {
        if self.rests && self.heard > 0 {
            thread::sleep(rt, Duration::from_millis(REST_MILLIS));
        }
        if self.has_ended || self.heard == MOST_COUNT || !self.hear_ring(rt) {
            self.has_ended = true;
            return false;
        }
        self.heard += 1;
        true
    }
}
