ghost use Rattle.std.specs.Prelude.{◌≡◌, ◌↔◌, ◌+◌, ◌-◌, ◌<◌, ◌≤◌, IsErrOf, IsOk, OnErr, OnOk, min};
ghost use Rattle.site_peers.specs.declared.window.TheConstants.{MOST_AHEAD, MOST_WRITTEN};

use std::marker::Model;
use thiserror::Error;

/// How many bytes may be written to a peer that it has not acknowledged: 256 KiB.
pub const MOST_AHEAD: u64 = 262_144;

/// How many bytes may be written over one connection: 2^62. No more are written, so that a number of bytes has room in 64 bits.
pub const MOST_WRITTEN: u64 = 4_611_686_018_427_387_904;

/// Why an acknowledgement is impossible (this project's own).
#[derive(Clone, Copy, Debug, PartialEq, Eq, Error)]
pub enum WindowFault {
    /// It is of fewer bytes than one before it.
    #[error("an acknowledgement went back")]
    WentBack,
    /// It is of more bytes than were written.
    #[error("bytes were acknowledged that were not sent")]
    NotWritten,
}

/// How many bytes were written over a link, and how many of them its peer has acknowledged. The first number is never greater than the
/// second by more than 256 KiB.
#[derive(Drop)]
pub struct Window {
    written: u64,
    acknowledged: u64,
}

impl Model for Window {
    ghost use Rattle.std.specs.Prelude.{◌≤◌, ◌+◌};
    ghost use Rattle.site_peers.specs.Windows.{WindowState};
    ghost use Rattle.site_peers.specs.declared.window.TheConstants.{MOST_AHEAD, MOST_WRITTEN};

    ghost Value = { WindowState };

    ghost view = { λ w. record { written = w.written; acknowledged = w.acknowledged } };

    ghost invariant = { λ w. (w.acknowledged ≤ w.written)
        × (w.written ≤ w.acknowledged + MOST_AHEAD) × (w.written ≤ MOST_WRITTEN) };
}

impl Window {
    /// Nothing was written.
    pub fn new() -> Window
        ensures { result ≡ record { written = 0; acknowledged = 0 } }
    {
        Window {
            written: 0,
            acknowledged: 0,
        }
    }

    /// How many bytes may be written now.
    pub fn room(&self) -> usize
        ensures { result ≡ min ((self.now.acknowledged + MOST_AHEAD) - self.now.written)
            (MOST_WRITTEN - self.now.written) }
    {
        let ahead = MOST_AHEAD - (self.written - self.acknowledged);
        ahead.min(MOST_WRITTEN - self.written) as usize
    }

    /// Counts bytes that were written, for which there was room.
    pub fn write(&mut self, count: usize)
        requires ahead { self.old.written + count ≤ self.old.acknowledged + MOST_AHEAD }
        requires most { self.old.written + count ≤ MOST_WRITTEN }
        ensures { self.new ≡ record self.old { written = self.old.written + count } }
    {
        self.written += count as u64;
    }

    /// Takes an acknowledgement of this number of bytes in all. Errors, in order: `WentBack`, `NotWritten`; they change nothing.
    pub fn acknowledge(&mut self, count: u64) -> Result<(), WindowFault>
        ensures acknowledged { OnOk result
            (self.new ≡ record self.old { acknowledged = count }) }
        ensures possible { IsOk result
            ↔ ((self.old.acknowledged ≤ count) × (count ≤ self.old.written)) }
        ensures went_back { IsErrOf result WindowFault.WentBack
            ↔ (count < self.old.acknowledged) }
        ensures err { OnErr result (self.new ≡ self.old) }
    {
        if count < self.acknowledged {
            return Err(WindowFault::WentBack);
        }
        if count > self.written {
            return Err(WindowFault::NotWritten);
        }
        self.acknowledged = count;
        Ok(())
    }
}
