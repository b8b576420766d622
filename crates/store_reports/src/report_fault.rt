use dots::Memory as NoMemory;
use std::io;
use store_audit::{JournalFault, StoreAuditFault};
use store_copy::CopyFault;
use store_listing::ListingFault;
use thiserror::Error;

/// Why the store in a file gives no report (this project's own).
#[derive(Clone, Copy, Debug, Error)]
pub enum FileFault {
    /// The file or its log can't be read, for this reason.
    #[error("cannot read: {0}")]
    Unreadable(io::Error),
    /// The bytes of the file and of its log give no rows, for this cause.
    #[error(transparent)]
    Copy(CopyFault),
    /// The rows give no journal of all steps, for this cause.
    #[error(transparent)]
    Journal(JournalFault),
    /// A row has no words, for this cause.
    #[error(transparent)]
    Listing(ListingFault),
}

/// Why a report was not written to its end.
#[derive(Clone, Copy, Debug, Error)]
pub enum ReportFault {
    /// The store in the file of this index, counted from 0 in the order of the paths, for this cause.
    #[error("store {0}: {1}")]
    File(usize, FileFault),
    /// The stores aren't those of all sites of one run, for this cause.
    #[error(transparent)]
    Sites(StoreAuditFault),
    /// The writer failed, or took no bytes.
    #[error("write failed")]
    Write,
    /// An allocation was refused.
    #[error("out of memory")]
    Memory,
}

impl From<NoMemory> for ReportFault {
    ghost use Rattle.std.specs.Prelude.{◌≡◌};
    ghost use Rattle.store_reports.specs.declared.report_fault.ReportFault.{ReportFault};

    ghost from_gives = { λ _ fault. fault ≡ ReportFault.Memory };

    fn from(_fault: NoMemory) -> Self {
        ReportFault::Memory
    }
}
