use thiserror::Error;

/// Why a frame was not taken. Where several causes apply, the first of this list is returned.
#[derive(Clone, Copy, Debug, PartialEq, Eq, Error)]
pub enum TakeFault {
    /// The frame has a live dot or a total of a queue that isn't in the list.
    #[error("no such queue")]
    NoSuchQueue,
    /// The frame has a dot, a write or a total of the site that the site hasn't made.
    #[error("not this site's own")]
    NotMine,
    /// A dot is live in the frame and at the site with two members, or with a field of one stamp and two values.
    #[error("conflict")]
    Conflict,
    /// The site would know more than 16,384 live dots.
    #[error("too many live dots")]
    CellsFull,
    /// The site would know more than 65,536 runs of dots.
    #[error("too many runs")]
    RunsFull,
    /// An allocation was refused.
    #[error("out of memory")]
    Memory,
}
