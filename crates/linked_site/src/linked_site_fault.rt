ghost use Rattle.std.specs.Prelude.{◌≡◌};

use site_threads::LaunchFault;
use std::io;
use thiserror::Error;

/// Why a linked site isn't served (this project's own).
#[derive(Clone, Copy, Debug, Error)]
pub enum LinkedSiteFault {
    /// The system gives no random bytes.
    #[error("no random bytes")]
    NoRandom,
    /// The system doesn't say at which address clients or links are accepted; this is its reason.
    #[error("no own address: {0}")]
    NoAddress(io::Error),
    /// A thread couldn't be started.
    #[error("no thread")]
    NoThread,
    /// An allocation was refused.
    #[error("out of memory")]
    Memory,
}

impl From<LaunchFault> for LinkedSiteFault {
    ghost use Rattle.linked_site.specs.LaunchFaults.{linked_fault};

    ghost from_gives = { λ fault same. same ≡ linked_fault fault };

    fn from(fault: LaunchFault) -> Self {
        match fault {
            LaunchFault::NoThread => LinkedSiteFault::NoThread,
            LaunchFault::Memory => LinkedSiteFault::Memory,
        }
    }
}
