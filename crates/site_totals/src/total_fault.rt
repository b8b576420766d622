use thiserror::Error;

/// Why a total isn't raised.
#[derive(Clone, Copy, Debug, PartialEq, Eq, Error)]
pub enum TotalFault {
    /// The total is 1,000,000,000 (this project's own limit).
    #[error("total full")]
    TotalFull,
    /// An allocation for a new entry was refused.
    #[error("out of memory")]
    Memory,
}
