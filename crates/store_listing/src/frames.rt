//! The words of a frame, and the line of its bytes. A function that appends may have appended a part when it runs out of memory.
ghost use Rattle.std.specs.Prelude.{◌≡◌, ◌⊎◌, ◌++◌, IfErr, IfOk, OnOk};
ghost use Rattle.std.specs.FinSet as set;
ghost use Rattle.delta_codec.specs.Frames.{Spells};
ghost use Rattle.site_journal.specs.Journals.{HasFaultAlone};
ghost use Rattle.store_listing.specs.Causes.{IsFrameFault};
ghost use Rattle.store_listing.specs.Lines.{bytes_line, count_words, frame_words, heading_words};
ghost use Rattle.store_listing.specs.Lines.{summary_of};
ghost use Rattle.store_listing.specs.Rows.{IsSummary};

use crate::ListingFault;
use crate::texts::push_hex;
use ami_text::push_decimal;
use causal_context::Context;
use delta::Frame;
use delta_codec::{DecodeFault, decode};
use dots::{Memory, SiteId};
use std::alloc::Global;

// What is shown of a frame: its maker, its number, how many dots it knows and how many of them are live.
#[derive(Clone, Copy)]
pub(crate) struct FrameSummary {
    maker: SiteId,
    number: u64,
    dots: u64,
    live: usize,
}

// How many dots a context has.
#[tactic(auto, using(crate::proofs::RunLengths::dots_more, crate::proofs::RunLengths::len_of_runs))]
fn count_dots(context: &Context) -> u64
    ensures { result ≡ set.len context.now.dots }
{
    let runs = context.as_slice();
    let mut dots = 0;
    for run in runs {
        dots += run.last - run.first + 1;
    }
    dots
}

// Decodes bytes that are exactly one frame. Errors, in order: those of `decode`; `BadRange`, if more bytes follow the frame.
fn frame_in(alloc: Global, bytes: &[u8]) -> Result<Frame, DecodeFault>
    ensures value { IfOk result (λ frame. Spells frame bytes.now) }
    ensures fault { IfErr result (λ fault. (fault ≡ DecodeFault.Memory)
        ⊎ HasFaultAlone bytes.now fault) }
{
    let (frame, len) = decode(alloc, bytes)?;
    if len < bytes.len() {
        drop(frame);
        return Err(DecodeFault::BadRange);
    }
    Ok(frame)
}

// What is shown of a frame.
fn summary_of(frame: &Frame) -> FrameSummary
    ensures { result ≡ summary_of frame.now }
{
    let members = frame.delta.members();
    FrameSummary {
        maker: frame.maker,
        number: frame.number,
        dots: count_dots(members.context()),
        live: members.cells(),
    }
}

// What is shown of the frame that bytes are. Errors as of `frame_in`.
fn summary_in(alloc: Global, bytes: &[u8]) -> Result<FrameSummary, DecodeFault>
    ensures value { IfOk result (λ summary. IsSummary bytes.now summary) }
    ensures fault { IfErr result (λ fault. (fault ≡ DecodeFault.Memory)
        ⊎ HasFaultAlone bytes.now fault) }
{
    let frame = frame_in(alloc, bytes)?;
    let summary = summary_of(&frame);
    drop(frame);
    Ok(summary)
}

/// What is shown of the frame that the bytes of the row of this position are. Errors: `Frame`, with the position and the fault, if
/// they aren't exactly one frame; `Memory`, which may replace that.
pub fn frame_summary(
    alloc: Global,
    position: u64,
    bytes: &[u8],
) -> Result<FrameSummary, ListingFault>
    ensures value { IfOk result (λ summary. IsSummary bytes.now summary) }
    ensures fault { IfErr result (λ fault. IsFrameFault position bytes.now fault) }
{
    match summary_in(alloc, bytes) {
        Ok(summary) => Ok(summary),
        Err(DecodeFault::Memory) => Err(ListingFault::Memory),
        Err(fault) => Err(ListingFault::Frame(position, fault)),
    }
}

// Appends the number of a frame, and its maker. Fails only when out of memory.
fn push_heading(line: &mut Vec<u8>, summary: &FrameSummary) -> Result<(), Memory>
    ensures { OnOk result (line.new.items ≡ line.old.items ++ heading_words summary.now) }
{
    line.extend_from_slice(b"frame ")?;
    push_decimal(line, summary.number)?;
    line.extend_from_slice(b" of site ")?;
    push_decimal(line, u64::from(summary.maker.number()))
}

// Appends how many dots a frame knows, and how many of them are live. Fails only when out of memory.
fn push_counts(line: &mut Vec<u8>, summary: &FrameSummary) -> Result<(), Memory>
    ensures { OnOk result (line.new.items ≡ line.old.items ++ count_words summary.now) }
{
    push_decimal(line, summary.dots)?;
    line.extend_from_slice(b" dots (")?;
    push_decimal(line, summary.live as u64)?;
    line.extend_from_slice(b" live)")
}

/// Appends the words of a frame of this size in bytes. Fails only when out of memory.
pub fn push_frame(line: &mut Vec<u8>, summary: &FrameSummary, size: usize) -> Result<(), Memory>
    ensures { OnOk result (line.new.items ≡ line.old.items ++ frame_words summary.now size) }
{
    push_heading(line, summary)?;
    line.extend_from_slice(b", ")?;
    push_counts(line, summary)?;
    line.extend_from_slice(b", ")?;
    push_decimal(line, size as u64)?;
    line.extend_from_slice(b" bytes")
}

/// Appends the line of the bytes of a frame, where frames are shown. Fails only when out of memory.
pub fn push_bytes(line: &mut Vec<u8>, with_frames: bool, bytes: &[u8]) -> Result<(), Memory>
    ensures { OnOk result (line.new.items
        ≡ line.old.items ++ bytes_line with_frames bytes.now) }
{
    if !with_frames {
        return Ok(());
    }
    push_hex(line, bytes)?;
    line.extend_from_slice(b"\n")
}
