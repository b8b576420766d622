use thiserror::Error;

/// Why a command was refused. Where several causes apply, the command returns the first of this list. `Memory` may replace
/// `MembersFull` and `Exhausted`, and no other refusal.
#[derive(Clone, Copy, Debug, PartialEq, Eq, Error)]
pub enum Refusal {
    /// The queue isn't in the list.
    #[error("no such queue")]
    NoSuchQueue,
    /// The member is in the queue already.
    #[error("already there")]
    AlreadyThere,
    /// The member isn't in the queue; without a queue, the interface is in none.
    #[error("not there")]
    NotThere,
    /// The state or the buffer would have more than 16,384 live dots or 65,536 runs, or the operation has these runs by
    /// itself.
    #[error("members full")]
    MembersFull,
    /// A count or a time would pass 2^40.
    #[error("numbers used up")]
    Exhausted,
    /// The site's own total of these calls in the queue is 1,000,000,000.
    #[error("total full")]
    TotalFull,
    /// An allocation was refused.
    #[error("out of memory")]
    Memory,
}
