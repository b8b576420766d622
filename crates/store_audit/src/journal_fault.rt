use dots::Memory as NoMemory;
use stored_steps::{BaseFault, RowFault};
use thiserror::Error;

/// Why the rows of a store give no journal of all steps of a site (this project's own).
#[derive(Clone, Copy, Debug, PartialEq, Eq, Error)]
pub enum JournalFault {
    /// There is no row, or the first is no base of a site, for this cause.
    #[error("base: {0}")]
    Base(BaseFault),
    /// The first row isn't at position 0, or it is the base of a site that isn't new: the rows before were dropped.
    #[error("the store doesn't begin with the site's first step")]
    NotFromStart,
    /// The row of this position stands for no step, for this cause.
    #[error("row {0}: {1}")]
    Row(u64, RowFault),
    /// The row of this position says other than what the site does there: the site refuses the step, gives another answer or other
    /// bytes, or a base says another state, name or number of starts.
    #[error("row {0} is damaged")]
    Damaged(u64),
    /// There are more than 1,000,000 steps.
    #[error("more than 1,000,000 steps")]
    TooMany,
    /// An allocation was refused.
    #[error("out of memory")]
    Memory,
}

impl From<NoMemory> for JournalFault {
    ghost use Rattle.std.specs.Prelude.{◌≡◌};
    ghost use Rattle.store_audit.specs.declared.journal_fault.JournalFault.{JournalFault};

    ghost from_gives = { λ _ fault. fault ≡ JournalFault.Memory };

    fn from(_fault: NoMemory) -> Self {
        JournalFault::Memory
    }
}
