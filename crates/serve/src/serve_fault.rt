ghost use Rattle.std.specs.Prelude.{◌≡◌};

use ami_text::FeedFault;
use thiserror::Error;

/// Why a session ended before its end.
#[derive(Clone, Copy, Debug, PartialEq, Eq, Error)]
pub enum ServeFault {
    /// The reader failed. Every ask before has its reply.
    #[error("read failed")]
    Read,
    /// The writer failed, or took no bytes. A prefix of the session's text was written, and no more
    /// was read than the last reply in it needs.
    #[error("write failed")]
    Write,
    /// A line's content has more than 1,024 bytes. The messages before it have their replies.
    #[error("line too long")]
    LineTooLong,
    /// A message has more than 128 lines that aren't empty. The messages before it have their
    /// replies.
    #[error("too many fields")]
    TooManyFields,
    /// The desk gave no answer. The messages before the one that asked have their replies.
    #[error("desk down")]
    DeskDown,
    /// 1,000,000 reads gave no end. Every ask has its reply.
    #[error("too many reads")]
    Turns,
    /// Out of memory, but not at the desk. The messages before the last piece have their replies, and
    /// no reply is cut off; the desk may have answered one message more.
    #[error("out of memory")]
    Memory,
}

impl From<FeedFault> for ServeFault {
    ghost use Rattle.serve.specs.Faults.{session_fault};

    ghost from_gives = { λ fault same. same ≡ session_fault fault };

    fn from(fault: FeedFault) -> Self {
        match fault {
            FeedFault::LineTooLong => ServeFault::LineTooLong,
            FeedFault::TooManyFields => ServeFault::TooManyFields,
            FeedFault::Memory => ServeFault::Memory,
        }
    }
}
