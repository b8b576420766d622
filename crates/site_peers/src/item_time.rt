ghost use Rattle.std.specs.Prelude.{◌≡◌, ◌+◌, ◌-◌, ◌/◌, ◌^◌, ◌<◌, ◌≤◌, ◌↔◌, ℕ, IsTrue, None, Some, min};

use std::marker::Model;

// How long an item may take whatever comes of it, in milliseconds, and how many of its bytes must come each millisecond if it takes longer.
const ITEM_MILLIS: u64 = 60_000;

const LEAST_RATE: u64 = 8;

/// Since when the item is read that isn't whole yet, if one is, how many bytes of it were read, and when bytes were last read. Times are
/// milliseconds since an arbitrary start.
#[derive(Drop)]
pub struct ItemTime {
    begun: Option<u64>,
    read: u64,
    last: u64,
}

impl Model for ItemTime {
    ghost use Rattle.site_peers.specs.Windows.{ItemTimeState};

    ghost Value = { ItemTimeState };

    ghost view = { λ t. record { begun = t.begun; read = t.read; last = t.last } };
}

impl ItemTime {
    /// Nothing was read at this time.
    pub fn new(now: u64) -> ItemTime
        ensures { result ≡ record { begun = None; read = 0; last = now } }
    {
        ItemTime {
            begun: None,
            read: 0,
            last: now,
        }
    }

    /// Notes that this number of bytes was read at this time; the sum is at most 2^64 - 1. If no item is under way, one begins. Returns
    /// true if the item under way began 60 seconds ago or earlier, and fewer than 8,000 bytes of it came each second.
    pub fn after_read(&mut self, count: usize, now: u64) -> bool
        ensures last { self.new.last ≡ now }
        ensures read { self.new.read ≡ min (self.old.read + count) (2 ^ 64 - 1) }
        ensures first { self.old.begun ≡ None
            → (self.new.begun ≡ Some now) × (IsTrue result → ⊥) }
        ensures goes_on { (begun : ℕ) → self.old.begun ≡ Some begun
            → (self.new.begun ≡ Some begun)
            × (IsTrue result ↔ ((begun + 60_000 ≤ now) × (self.new.read / 8 < now - begun))) }
    {
        self.last = now;
        self.read = self.read.saturating_add(count as u64);
        match self.begun {
            None => {
                self.begun = Some(now);
                false
            }
            Some(begun) => {
                let taken = now.saturating_sub(begun);
                taken >= ITEM_MILLIS && self.read / LEAST_RATE < taken
            }
        }
    }

    /// Notes that an item is whole, and that this number of bytes is held after it. If there are any, the next item has begun at the time
    /// of the last read, and these were read of it; else none is under way.
    pub fn after_item(&mut self, held: usize)
        ensures last { self.new.last ≡ self.old.last }
        ensures read { self.new.read ≡ held }
        ensures none { held ≡ 0 → self.new.begun ≡ None }
        ensures some { 0 < held → self.new.begun ≡ Some self.old.last }
    {
        self.read = held as u64;
        self.begun = if held == 0 { None } else { Some(self.last) };
    }
}
