//! Writes the rows of a store.
ghost use Rattle.std.specs.Prelude.{◌≡◌, ◌+◌, ◌<◌, ◌^◌, ◌↔◌, true, false, IfErr, IsErrOf, OnOk, length};
ghost use Rattle.store_listing.specs.Causes.{HasCause};
ghost use Rattle.store_listing.specs.Listings.{AreWritten, HasStopped, IsBegun, IsWritten};

use crate::ListingFault;
use crate::lines::row_text;
use ami_text::{Sink, write_all};
use std::alloc::Global;
use stored_steps::StoredRow;

// Writes the text of the row of this position. Errors, in order: those of `row_text`, and then nothing is written; `Write`, if the writer
// fails or takes no bytes, and then a prefix of the text was written.
#[tactic(auto, using(crate::proofs::Endings::none_begun))]
fn write_row<W: Sink>(
    alloc: Global,
    out: &mut W,
    position: u64,
    row: &StoredRow,
    with_frames: bool,
) -> Result<(), ListingFault>
    requires works { W.failed out.old ≡ false }
    ensures written { OnOk result
        (IsWritten with_frames position row.now (W.taken out.old) (W.taken out.new)) }
    ensures works { OnOk result (W.failed out.new ≡ false) }
    ensures cause { IfErr result (λ fault. HasCause fault position row.now) }
    ensures begun { IfErr result (λ fault.
        IsBegun fault with_frames position row.now (W.taken out.old) (W.taken out.new)) }
    ensures write { IsErrOf result ListingFault.Write ↔ (W.failed out.new ≡ true) }
{
    let text = row_text(alloc, position, row, with_frames)?;
    write_all(out, &text).map_err(|_| ListingFault::Write)
}

/// Writes the rows of a store in words to a writer that has not failed; the first row has the position `first`: a line for each, in order.
/// With frames, the line of a step with a frame is followed by the line of the frame's bytes, in lower-case hexadecimal.
///
/// Errors, at the first row with one, whose text is left out: `Base`, if it has the kind of a base and is none, with the fault of
/// `base_heading` or `base_of_row`; `Row`, if it is neither a base nor a start and stands for no step, with the fault of `step_of_row`;
/// `Frame`, if its body should be a frame and isn't exactly one, with the fault of `decode`, or `BadRange` if more bytes follow; `Memory`,
/// which may replace `Base` and `Frame`; `Write`, if the writer fails or takes no bytes, and then a prefix of the row's text was written.
/// The text of all rows before it was written.
#[tactic(auto, using(crate::proofs::Endings::none_written, crate::proofs::Endings::more_written, crate::proofs::Endings::stopped_at))]
pub fn write_steps<W: Sink>(
    alloc: Global,
    out: &mut W,
    first: u64,
    rows: &[StoredRow],
    with_frames: bool,
) -> Result<(), ListingFault>
    requires fits { first + length rows.now < 2 ^ 64 }
    requires works { W.failed out.old ≡ false }
    ensures written { OnOk result
        (AreWritten with_frames first rows.now (W.taken out.old) (W.taken out.new)) }
    ensures works { OnOk result (W.failed out.new ≡ false) }
    ensures stopped { IfErr result (λ fault.
        HasStopped with_frames first rows.now fault (W.taken out.old) (W.taken out.new)) }
    ensures write { IsErrOf result ListingFault.Write ↔ (W.failed out.new ≡ true) }
{
    let mut position = first;
    for row in rows {
        write_row(alloc, out, position, row, with_frames)?;
        position += 1;
    }
    Ok(())
}
