use thiserror::Error;

/// Why a step that a store has kept was not done again. Where several causes apply, the first of this list is
/// returned, but `Memory` may replace `Damaged`.
#[derive(Clone, Copy, Debug, PartialEq, Eq, Error)]
pub enum ReplayFault {
    /// The journal holds its limit of steps, or 2^40 were done in all.
    #[error("journal full")]
    JournalFull,
    /// The site refuses the step of this position, or gives another answer or other bytes.
    #[error("step {0} is damaged")]
    Damaged(u64),
    /// An allocation was refused.
    #[error("out of memory")]
    Memory,
}
