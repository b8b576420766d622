use dots::Memory;
use site_store::OpenFault;
use std::io;
use thiserror::Error;

/// Why a site doesn't go on over a file (this project's own).
#[derive(Clone, Copy, Debug, Error)]
pub enum SiteFileFault {
    /// The store can't be opened or made, for this cause.
    #[error(transparent)]
    Open(OpenFault),
    /// The system gives no random bytes for the name of a new store, for this reason.
    #[error("no random bytes: {0}")]
    NoName(io::Error),
}

impl From<OpenFault> for SiteFileFault {
    fn from(fault: OpenFault) -> SiteFileFault {
        SiteFileFault::Open(fault)
    }
}

impl From<Memory> for SiteFileFault {
    fn from(_: Memory) -> SiteFileFault {
        SiteFileFault::Open(OpenFault::Memory)
    }
}
