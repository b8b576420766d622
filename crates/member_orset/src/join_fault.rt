use thiserror::Error;

/// Why a set refuses a join. Where several causes apply, the first in this order is returned.
#[derive(Clone, Copy, Debug, PartialEq, Eq, Error)]
pub enum JoinFault {
    /// A dot is live on both sides with two members, or with a field of one stamp and two values.
    #[error("conflict")]
    Conflict,
    /// There would be more than 16,384 live dots.
    #[error("too many live dots")]
    CellsFull,
    /// There would be more than 65,536 runs of known dots.
    #[error("too many runs")]
    RunsFull,
    /// An allocation was refused.
    #[error("out of memory")]
    Memory,
}
