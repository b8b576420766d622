ghost use Rattle.std.specs.Prelude.{◌≡◌, ◌⊎◌, ◌↔◌};

use crate::LaunchFault;

/// Why a site did no task (this project's own). Of the faults of several sites, the first in
/// this order counts.
#[derive(Clone, Copy)]
pub enum SiteFault {
    /// The system could not start a thread.
    NoThread,
    /// An allocation was refused.
    Memory,
    /// Another site could not start. That site has one of the other faults.
    NotBegun,
}

impl SiteFault {
    // The first of two faults, in order.
    pub(crate) fn first(self, other: SiteFault) -> SiteFault
        ensures no_thread { (result ≡ SiteFault.NoThread)
            ↔ ((self ≡ SiteFault.NoThread) ⊎ (other ≡ SiteFault.NoThread)) }
        ensures not_begun { (result ≡ SiteFault.NotBegun)
            ↔ ((self ≡ SiteFault.NotBegun) × (other ≡ SiteFault.NotBegun)) }
    {
        match (self, other) {
            (SiteFault::NoThread, _) => SiteFault::NoThread,
            (_, SiteFault::NoThread) => SiteFault::NoThread,
            (SiteFault::Memory, _) => SiteFault::Memory,
            (_, other) => other,
        }
    }

    // The fault of all sites, where this is the first of theirs. It is never `NotBegun`, since a
    // site waits in vain only where another has a fault: that isn't proved, so `NoThread` stands
    // for it.
    pub(crate) fn of_all(self) -> LaunchFault
        ensures { (result ≡ LaunchFault.Memory) ↔ (self ≡ SiteFault.Memory) }
    {
        match self {
            SiteFault::NoThread | SiteFault::NotBegun => LaunchFault::NoThread,
            SiteFault::Memory => LaunchFault::Memory,
        }
    }
}
