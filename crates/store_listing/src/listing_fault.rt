use delta_codec::DecodeFault;
use stored_steps::{BaseFault, RowFault};
use thiserror::Error;

/// Why the rows of a store were not written to the last (this project's own).
#[derive(Clone, Copy, Debug, PartialEq, Eq, Error)]
pub enum ListingFault {
    /// The row of this position is that of no step, for this cause.
    #[error("row {0}: {1}")]
    Row(u64, RowFault),
    /// The row of this position is no base, for this cause.
    #[error("row {0}: base: {1}")]
    Base(u64, BaseFault),
    /// The body of the row of this position is no frame, for this cause.
    #[error("row {0}: frame: {1}")]
    Frame(u64, DecodeFault),
    /// The writer failed, or took no bytes.
    #[error("write failed")]
    Write,
    /// An allocation was refused.
    #[error("out of memory")]
    Memory,
}

impl From<dots::Memory> for ListingFault {
    ghost use Rattle.std.specs.Prelude.{◌≡◌};
    ghost use Rattle.store_listing.specs.declared.listing_fault.ListingFault.{ListingFault};

    ghost from_gives = { λ _ fault. fault ≡ ListingFault.Memory };

    fn from(_fault: dots::Memory) -> Self {
        ListingFault::Memory
    }
}
