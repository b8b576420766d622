ghost use Rattle.std.specs.Prelude.{◌≡◌, ◌+◌, ◌*◌, ◌/◌, ◌%◌, ◌<◌, ◌≤◌, min};

use std::marker::Model;

// The first pause before a peer is dialed again, and the longest, in milliseconds.
const FIRST_MILLIS: u64 = 100;

const LONGEST_MILLIS: u64 = 1_500;

// The pause after a refusal, and after a site has dialed itself.
const REFUSED_MILLIS: u64 = 5_000;

const ITSELF_MILLIS: u64 = 60_000;

/// How a connection to a peer has ended, as its next one sees it.
#[derive(Clone, Copy)]
pub enum DialEnd {
    /// The link was up for some seconds.
    WasUp,
    /// There was no link, or it fell at once.
    Failed,
    /// One of the sites refuses the other one, or its frame.
    Refused,
    /// The peer is the site itself.
    Itself,
}

/// How long a site waits before it dials a peer again. The pauses double from 0.1 to 1.5 seconds, each times a random number from 0.5 to
/// 1.5; a link that was up for some seconds begins them anew. After a refusal the pause is 5 seconds, and 60 where the peer is the site
/// itself.
#[derive(Drop)]
pub struct BackOff {
    // The next pause, before it is multiplied.
    next: u64,
}

impl Model for BackOff {
    ghost use Rattle.std.specs.Prelude.{ℕ, ◌≤◌};

    ghost Value = { ℕ };

    ghost view = { λ b. b.next };

    ghost invariant = { λ b. (100 ≤ b.next) × (b.next ≤ 1_500) };
}

impl BackOff {
    /// The next pause is the first.
    pub fn new() -> BackOff
        ensures { result ≡ 100 }
    {
        BackOff { next: FIRST_MILLIS }
    }

    /// The pause after a connection that has ended as `end` says, in milliseconds. `random` is a random number.
    pub fn pause(&mut self, end: DialEnd, random: u64) -> u64
        ensures up { end ≡ DialEnd.WasUp
            → (result ≡ 50 + random % 101) × (self.new ≡ 200) }
        ensures failed { end ≡ DialEnd.Failed
            → (result ≡ self.old / 2 + random % (self.old + 1))
            × (self.new ≡ min (self.old * 2) 1_500) }
        ensures refused { end ≡ DialEnd.Refused → (result ≡ 5_000) × (self.new ≡ self.old) }
        ensures itself { end ≡ DialEnd.Itself → (result ≡ 60_000) × (self.new ≡ self.old) }
    {
        match end {
            DialEnd::Refused => return REFUSED_MILLIS,
            DialEnd::Itself => return ITSELF_MILLIS,
            DialEnd::WasUp => self.next = FIRST_MILLIS,
            DialEnd::Failed => {}
        }
        let pause = self.next / 2 + random % (self.next + 1);
        self.next = (self.next * 2).min(LONGEST_MILLIS);
        pause
    }
}
