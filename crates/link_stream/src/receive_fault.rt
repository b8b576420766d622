use thiserror::Error;

/// Why a receiver gives nothing more (this project's own). It keeps its first fault: each later call returns it again.
#[derive(Clone, Copy, Debug, PartialEq, Eq, Error)]
pub enum ReceiveFault {
    /// The stream has a length that is neither that of a beat nor that of a frame.
    #[error("bad length")]
    BadLength,
    /// An item or an acknowledgement has another tag than its counter and the key give it.
    #[error("wrong tag")]
    WrongTag,
    /// As many items or acknowledgements were received as a counter can count: 2^64 - 1.
    #[error("no counter left")]
    Exhausted,
    /// The stream ended, after an item or acknowledgement with its tag or before the first.
    #[error("the connection ended")]
    Ended,
    /// The stream ended within an item or acknowledgement, or before its tag was whole.
    #[error("the connection ended in the middle of an item")]
    CutOff,
    /// The source failed, or was silent for too long.
    #[error("no bytes came")]
    Failed,
    /// An allocation was refused.
    #[error("out of memory")]
    Memory,
}
