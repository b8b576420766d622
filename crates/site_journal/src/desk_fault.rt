use delta_codec::DecodeFault;
use dots::Memory;
use replica::TakeFault;
use thiserror::Error;

/// Why a call of a desk returns no receipt. Only after `Unsaved`, and after `Memory` of a desk with a store, the step may have been
/// done; every other fault leaves the steps, and what the site says, as they were.
#[derive(Clone, Copy, Debug, PartialEq, Eq, Error)]
pub enum DeskFault {
    /// The journal is shorter than its caller has seen; this is its length. Only a desk returns this fault.
    #[error("the journal has only {0} steps")]
    Rewound(u64),
    /// The journal holds its limit of steps, or 2^40 were done in all.
    #[error("journal full")]
    JournalFull,
    /// The bytes are no frame, or more bytes follow it.
    #[error(transparent)]
    Decode(DecodeFault),
    /// The site refuses the frame, for this cause.
    #[error(transparent)]
    Take(TakeFault),
    /// The site has made 2^40 frames.
    #[error("numbers used up")]
    Exhausted,
    /// A commit of the site's store has failed, so the step isn't durable. Only a desk with a store returns this fault.
    #[error("not saved")]
    Unsaved,
    /// An allocation was refused, or bytes to be copied have 2^63 - 1 owners.
    #[error("out of memory")]
    Memory,
}

impl From<Memory> for DeskFault {
    ghost use Rattle.std.specs.Prelude.{◌≡◌};
    ghost use Rattle.site_journal.specs.declared.desk_fault.DeskFault.{DeskFault};

    ghost from_gives = { λ _ fault. fault ≡ DeskFault.Memory };

    fn from(_fault: Memory) -> Self {
        DeskFault::Memory
    }
}
