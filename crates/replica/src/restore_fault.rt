use thiserror::Error;

/// Why parts are those of no replica. Where several causes apply, the first of this list is returned.
#[derive(Clone, Copy, Debug, PartialEq, Eq, Error)]
pub enum RestoreFault {
    /// The last count, time or frame number is above 2^40.
    #[error("number too large")]
    NumberTooLarge,
    /// The site's own dots in the state aren't those of the counts from 1 to its last, or the buffer has an own dot past that.
    #[error("own dots")]
    OwnDots,
    /// A field of a live dot was written by the site at a time past its last.
    #[error("own stamps")]
    OwnStamps,
    /// A live dot or a total is of a queue that isn't in the list.
    #[error("no such queue")]
    NoSuchQueue,
    /// A dot is live in state and buffer with two members, or with a field of one stamp and two values.
    #[error("conflict")]
    Conflict,
    /// State and buffer together have more than 16,384 live dots.
    #[error("too many live dots")]
    CellsFull,
    /// State and buffer together have more than 65,536 runs of dots.
    #[error("too many runs")]
    RunsFull,
    /// An allocation was refused.
    #[error("out of memory")]
    Memory,
}
