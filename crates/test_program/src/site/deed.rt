//! Deeds at a site, the places where they are done, and their results.
use dots::SharedBytes;
use site_journal::{DeskFault, Receipt};
use status_report::Ask;

// What is done at a site.
#[derive(Drop)]
pub(crate) enum Deed {
    Ask(Ask),
    // Asks, and calls a gate under the lock.
    Gated(Ask),
    Cut,
    Whole,
    // Takes the frame of these bytes.
    Take(SharedBytes),
    Checkpoint,
    // Drops the steps if they keep more than a number of bytes.
    CheckpointAbove(u64),
}

// Why a deed has no receipt.
#[derive(Clone, Copy)]
pub(crate) enum NoReceipt {
    // The steps were dropped.
    Dropped,
    // The steps stay.
    Stays,
    Refused(DeskFault),
    // The deed was refused, and something has changed, or bytes were not returned as they were.
    Changed,
    // The place has no such deed.
    Unknown,
}

// Where deeds are done.
pub(crate) trait Place<R> {
    // Does a deed. One that is refused is to change nothing.
    fn done(&mut self, rt: &R, deed: &Deed) -> Result<Receipt, NoReceipt>;
}

// Why a take of these bytes has no receipt, which was refused and returned some bytes.
pub(crate) fn refused(fault: DeskFault, back: SharedBytes, bytes: &SharedBytes) -> NoReceipt {
    let is_back = back.same(bytes);
    drop(back);
    if is_back {
        NoReceipt::Refused(fault)
    } else {
        NoReceipt::Changed
    }
}
