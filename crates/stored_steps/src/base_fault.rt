use delta_codec::DecodeFault;
use replica::RestoreFault;
use thiserror::Error;

/// Why a row is no base of a site. `base_of_row` and `base_heading` say which of several causes is returned
/// (this project's own).
#[derive(Clone, Copy, Debug, PartialEq, Eq, Error)]
pub enum BaseFault {
    /// The kind of the row is not that of a base.
    #[error("no base")]
    NoBase,
    /// The base is of another version, or has no bytes.
    #[error("another version")]
    BadVersion,
    /// The base is of another site, or of none.
    #[error("another site")]
    WrongSite,
    /// The base is of another list of queues, or of none.
    #[error("another list of queues")]
    WrongList,
    /// The bytes end before the site, the number of queues or the frames.
    #[error("truncated")]
    Truncated,
    /// The state or the buffer is no frame, for this cause.
    #[error(transparent)]
    Decode(DecodeFault),
    /// The state or the buffer is a frame of another site, or of another number than 1.
    #[error("another frame")]
    WrongFrame,
    /// Bytes follow the buffer.
    #[error("trailing bytes")]
    Trailing,
    /// State, buffer and last numbers are those of no replica, for this cause.
    #[error(transparent)]
    Parts(RestoreFault),
    /// An allocation was refused.
    #[error("out of memory")]
    Memory,
}

impl From<dots::Memory> for BaseFault {
    ghost use Rattle.std.specs.Prelude.{◌≡◌};
    ghost use Rattle.stored_steps.specs.declared.base_fault.BaseFault.{BaseFault};

    ghost from_gives = { λ _ fault. fault ≡ BaseFault.Memory };

    fn from(_fault: dots::Memory) -> Self {
        BaseFault::Memory
    }
}
