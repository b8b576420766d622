ghost use Rattle.std.specs.Prelude.{◌≡◌, ◌++◌, ◌≤◌, IfOk, OnOk, length};
ghost use Rattle.dots.specs.declared.limits.TheConstants.{MOST_RUNS};
ghost use Rattle.delta.specs.Frames.{IsInRanges, frame_of};
ghost use Rattle.delta_codec.specs.Frames.{SpellsIn, content_bytes, frame_bytes};
ghost use Rattle.delta_codec.specs.Frames.{parts_with};
ghost use Rattle.delta_codec.specs.Written.{AreWritten};
ghost use Rattle.delta_codec.specs.declared.limits.TheConstants.{VERSION};

use crate::sizes::content_size;
use crate::writing::{put_cell_list, put_number4, put_opening, put_run_list, put_total_list};
use crate::{Frame, Memory};
use causal_context::Run;
use delta::Delta;
use dots::SiteId;
use std::alloc::Global;

// Appends what follows the length of a frame with this delta, whose context has these runs. Fails only when out of memory; then a
// part of it may have been appended.
fn put_content(
    out: &mut Vec<u8>,
    maker: SiteId,
    number: u64,
    delta: &Delta,
    runs: &[Run],
) -> Result<(), Memory>
    requires { length runs.now ≤ MOST_RUNS }
    ensures written { OnOk result (out.new.items ≡ out.old.items ++ content_bytes
        (parts_with (record { maker = maker; number = number }) delta.now runs.now)) }
    ensures within { OnOk result (AreWritten maker delta.now) }
{
    put_opening(out, maker, number)?;
    put_run_list(out, runs)?;
    put_cell_list(out, delta.members())?;
    put_total_list(out, delta.totals())?;
    Ok(())
}

// The bytes of a frame with this delta, whose context has these runs. Fails only when out of memory.
fn encode_with(
    alloc: Global,
    maker: SiteId,
    number: u64,
    delta: &Delta,
    runs: &[Run],
) -> Result<Vec<u8>, Memory>
    requires { length runs.now ≤ MOST_RUNS }
    ensures value { IfOk result (λ bytes. bytes.items ≡ frame_bytes
        (parts_with (record { maker = maker; number = number }) delta.now runs.now)) }
    ensures within { OnOk result (AreWritten maker delta.now) }
{
    let size = content_size(delta, runs);
    let mut out = Vec::new(alloc);
    out.reserve_exact(4 + size)?;
    put_number4(&mut out, size as u32)?;
    put_content(&mut out, maker, number, delta, runs)?;
    Ok(out)
}

/// The bytes that encode the frame of this maker and number with this delta in version `VERSION`, if the frame is within the
/// ranges of the format, as for `encode`. For other frames the result is unspecified. Borrows the delta and copies nothing of it.
/// Fails only when out of memory.
pub fn encode_parts(
    alloc: Global,
    maker: SiteId,
    number: u64,
    delta: &Delta,
) -> Result<Vec<u8>, Memory>
    ensures { let frame = frame_of maker number delta.now in
        IsInRanges frame → IfOk result (λ bytes. SpellsIn VERSION frame bytes.items) }
{
    let runs = delta.members().context().as_slice();
    encode_with(alloc, maker, number, delta, runs)
}

/// The bytes that encode a frame in version `VERSION`, if the frame is within the ranges of the format: its number is from 1 to
/// 2^40, and each queue's number is below 256. They are at most 7,618,588 (`a_frame_has_a_length`). For other frames the result is
/// unspecified. Reserves the exact room first. Fails only when out of memory.
pub fn encode(alloc: Global, frame: &Frame) -> Result<Vec<u8>, Memory>
    ensures { IsInRanges frame.now
        → IfOk result (λ bytes. SpellsIn VERSION frame.now bytes.items) }
{
    encode_parts(alloc, frame.maker, frame.number, &frame.delta)
}
