ghost use Rattle.std.specs.Prelude.{◌≡◌, ◌⊎◌, ◌↔◌, ◌+◌, ◌-◌, ◌<◌, ◌≤◌, ◌^◌, IfSome, IsSome, None, min};

use std::marker::Model;

// How many bytes are read at most before they are acknowledged.
const MOST_UNACKNOWLEDGED: u64 = 65_536;

// How long bytes that were read wait to be acknowledged, in milliseconds. It is less than a second, so that each second's beat is
// acknowledged.
const WAIT_MILLIS: u64 = 900;

/// How many bytes were read of a link since its hello, how many of them were acknowledged, and when. Times are milliseconds since an
/// arbitrary start.
#[derive(Drop)]
pub struct ReadCount {
    read: u64,
    acknowledged: u64,
    last: u64,
}

impl Model for ReadCount {
    ghost use Rattle.std.specs.Prelude.{◌≤◌};
    ghost use Rattle.site_peers.specs.Windows.{ReadState};

    ghost Value = { ReadState };

    ghost view = { λ r. record { read = r.read; acknowledged = r.acknowledged; last = r.last } };

    ghost invariant = { λ r. r.acknowledged ≤ r.read };
}

impl ReadCount {
    /// Nothing was read at this time.
    pub fn new(now: u64) -> ReadCount
        ensures { result ≡ record { read = 0; acknowledged = 0; last = now } }
    {
        ReadCount {
            read: 0,
            acknowledged: 0,
            last: now,
        }
    }

    /// Counts bytes that were read at this time; the sum is at most 2^64 - 1. An acknowledgement is due if 65,536 bytes or more aren't
    /// acknowledged, or if any aren't and the last acknowledgement was 0.9 seconds ago or earlier. If one is due, counts all bytes as
    /// acknowledged, and returns how many were read in all. `None`: none is due.
    pub fn after_read(&mut self, count: usize, now: u64) -> Option<u64>
        ensures read { self.new.read ≡ min (self.old.read + count) (2 ^ 64 - 1) }
        ensures due { IsSome result
            ↔ ((self.old.acknowledged + 65_536 ≤ self.new.read)
            ⊎ ((self.old.acknowledged < self.new.read) × (self.old.last + 900 ≤ now))) }
        ensures acknowledged { IfSome result (λ all. (all ≡ self.new.read)
            × (self.new.acknowledged ≡ all) × (self.new.last ≡ now)) }
        ensures none { result ≡ None
            → (self.new.acknowledged ≡ self.old.acknowledged) × (self.new.last ≡ self.old.last) }
    {
        self.read = self.read.saturating_add(count as u64);
        let left = self.read - self.acknowledged;
        let is_late = now >= self.last && now - self.last >= WAIT_MILLIS;
        if left >= MOST_UNACKNOWLEDGED || left > 0 && is_late {
            self.acknowledged = self.read;
            self.last = now;
            return Some(self.read);
        }
        None
    }
}
