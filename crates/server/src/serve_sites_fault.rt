ghost use Rattle.std.specs.Prelude.{◌≡◌};

use dots::Memory;
use site_threads::LaunchFault;
use std::io;
use thiserror::Error;

/// Why sites aren't served, in order (this project's own).
#[derive(Clone, Copy, Debug, Error)]
pub enum ServeSitesFault {
    /// A site can't listen on its port; this is the port, and the system's reason.
    #[error("cannot listen on {0}: {1}")]
    CannotListen(u16, io::Error),
    /// The log failed, or took no bytes.
    #[error("write failed")]
    Write,
    /// A thread couldn't be started.
    #[error("no thread")]
    NoThread,
    /// An allocation was refused.
    #[error("out of memory")]
    Memory,
}

impl From<Memory> for ServeSitesFault {
    ghost use Rattle.std.specs.Prelude.{◌≡◌};
    ghost use Rattle.server.specs.declared.serve_sites_fault.ServeSitesFault.{ServeSitesFault};

    ghost from_gives = { λ _ fault. fault ≡ ServeSitesFault.Memory };

    fn from(_fault: Memory) -> Self {
        ServeSitesFault::Memory
    }
}

impl From<LaunchFault> for ServeSitesFault {
    ghost use Rattle.server.specs.LaunchFaults.{served_fault};

    ghost from_gives = { λ fault same. same ≡ served_fault fault };

    fn from(fault: LaunchFault) -> Self {
        match fault {
            LaunchFault::NoThread => ServeSitesFault::NoThread,
            LaunchFault::Memory => ServeSitesFault::Memory,
        }
    }
}
