use std::alloc::AllocError;
use thiserror::Error;

/// Why a feed gives no message. The first two are faults of the stream and stay; after the last the
/// feed is as before.
#[derive(Clone, Copy, Debug, PartialEq, Eq, Error)]
pub enum FeedFault {
    /// A line's content has more than 1,024 bytes.
    #[error("line too long")]
    LineTooLong,
    /// A message has more than 128 lines that aren't empty.
    #[error("too many fields")]
    TooManyFields,
    /// An allocation was refused.
    #[error("out of memory")]
    Memory,
}

impl From<AllocError> for FeedFault {
    ghost use Rattle.std.specs.Prelude.{◌≡◌};
    ghost use Rattle.ami_text.specs.declared.feed_fault.FeedFault.TheVariants.{Memory};

    ghost from_gives = { λ _ e. e ≡ Memory };

    fn from(_: AllocError) -> Self {
        FeedFault::Memory
    }
}
