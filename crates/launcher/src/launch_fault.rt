use thiserror::Error;

/// Why sites did not run (this project's own). Of the faults of several sites, the first
/// in this order is returned.
#[derive(Clone, Copy, Debug, PartialEq, Eq, Error)]
pub enum LaunchFault {
    /// The system could not start a thread.
    #[error("no thread")]
    NoThread,
    /// An allocation was refused.
    #[error("out of memory")]
    Memory,
}
