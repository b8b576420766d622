use thiserror::Error;

/// Why a context can't take more dots. If both causes apply, the first is returned.
#[derive(Clone, Copy, Debug, PartialEq, Eq, Error)]
pub enum ContextFault {
    /// It would have more than 65,536 runs.
    #[error("too many runs")]
    RunsFull,
    /// An allocation was refused.
    #[error("out of memory")]
    Memory,
}
