//! Lists the steps of the store in a file.
ghost use Rattle.std.specs.Prelude.{◌≡◌, ◌↔◌, ℕ, true, false, Bool, IfErr, IsErrOf, List, OnOk};
ghost use Rattle.std.specs.Prelude.{Option};
ghost use Rattle.stored_steps.specs.Stored.{Stored};
ghost use Rattle.store_listing.specs.Listings.{HasStopped};
ghost use Rattle.store_reports.specs.Reports.{AreOfFile, HasListed, IsListFault};

use crate::reading::rows_of_file;
use crate::{FileFault, ReportFault};
use ami_text::Sink;
use std::rt::Files;
use store_copy::CopyFault;
use store_listing::{ListingFault, write_steps};

// Why a list of steps was not written to its end, as the fault of a report: `Memory`, `Write`, or `File` of index 0 with any other.
fn listing_fault(fault: ListingFault) -> ReportFault
    ensures fault { (with_frames : Bool) (before after : Option (List ℕ)) (first : ℕ)
        (rows : List Stored) → AreOfFile first rows
        → HasStopped with_frames first rows fault before after
        → IsListFault with_frames before after result }
    ensures write { (result ≡ ReportFault.Write) ↔ (fault ≡ ListingFault.Write) }
{
    match fault {
        ListingFault::Memory => ReportFault::Memory,
        ListingFault::Write => ReportFault::Write,
        fault => ReportFault::File(0, FileFault::Listing(fault)),
    }
}

/// Writes the rows of the store at a path in words, as `write_steps` of `store_listing` does. Neither the file nor its log is changed.
///
/// Errors, in order: `File`, with the index 0 and the cause: `Unreadable`, if the file or its log can't be read; `Copy`, with the fault of
/// `rows_of_bytes`, or with `Gap` if the position after the last row would be above 2^64 - 1. Up to here nothing was written. Then, at the
/// first row with one: `File`, with `Listing` and the fault of `write_steps`; `Write`, after a prefix of the row's text. The text of the
/// rows before it was written. `Memory` may stand in place of each, and then nothing was written, or the text of the rows before one.
pub fn list_steps<R: Files + AllocGlobal, W: Sink>(
    rt: &R,
    out: &mut W,
    path: &str,
    with_frames: bool,
) -> Result<(), ReportFault>
    requires writer { W.failed out.old ≡ false }
    ensures written { OnOk result (HasListed with_frames (W.taken out.old) (W.taken out.new)) }
    ensures fault { IfErr result (λ fault.
        IsListFault with_frames (W.taken out.old) (W.taken out.new) fault) }
    ensures works { OnOk result (W.failed out.new ≡ false) }
    ensures write { IsErrOf result ReportFault.Write ↔ (W.failed out.new ≡ true) }
{
    let rows = rows_of_file(rt, 0, path)?;
    if rows.first.checked_add(rows.steps.len() as u64).is_none() {
        drop(rows);
        return Err(ReportFault::File(0, FileFault::Copy(CopyFault::Gap)));
    }
    let listed = write_steps(
        rt.alloc(),
        out,
        rows.first,
        rows.steps.as_slice(),
        with_frames,
    );
    drop(rows);
    match listed {
        Ok(()) => Ok(()),
        Err(fault) => Err(listing_fault(fault)),
    }
}
