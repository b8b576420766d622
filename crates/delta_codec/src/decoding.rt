ghost use Rattle.std.specs.Prelude.{◌≡◌, ◌≤◌, Err, IfOk, length};
ghost use Rattle.delta_codec.specs.declared.limits.TheConstants.{MOST_LENGTH};
ghost use Rattle.delta_codec.specs.declared.decode_fault.DecodeFault.{DecodeFault};
ghost use Rattle.delta_codec.specs.Decoding.{IsFrontFault, IsFrontFrame, frame_kept};
ghost use Rattle.delta_codec.specs.Reading.{ReturnsRead, GivesWithMemory, content_in, heading_at};
ghost use Rattle.delta_codec.specs.Reading.{kept_at, kept_in, opening_at, opening_in, within_at};

use crate::elements::{read_cells, read_runs, read_totals};
use crate::numbers::{read_count, read_site};
use crate::reader::Reader;
use crate::{DecodeFault, Frame, LEAST_LENGTH, MOST_LENGTH};
use delta::Delta;
use dots::SiteId;
use std::alloc::Global;

// Reads the maker of a frame, and its number. `BadRange` if bytes are missing, or one of the two is out of its limits.
#[tactic(auto, unfolding(crate::specs::Reading::heading_at))]
fn read_heading(reader: &mut Reader<'_>) -> Result<(SiteId, u64), DecodeFault>
    ensures { ReturnsRead (λ x. (record { maker = x.0; number = x.1 }, reader.new)) result
        (heading_at reader.old) }
{
    let maker = read_site(reader)?;
    let number = read_count(reader)?;
    Ok((maker, number))
}

// Reads a frame from the bytes after its length, which must be its own alone. The faults are those of `decode` from 2 on; `Memory`
// never replaces a fault of the letters, the version or the heading.
#[tactic(auto, unfolding(crate::specs::Reading::kept_at, crate::specs::Reading::opening_at))]
fn read_content(alloc: Global, bytes: &[u8]) -> Result<Frame, DecodeFault>
    ensures value { GivesWithMemory frame_kept result (kept_at bytes.now) }
    ensures early { (fault : DecodeFault) → opening_at bytes.now ≡ Err fault → result ≡ Err fault }
    ensures retired { IfOk result (λ x. x.delta.members.retired ≡ 0) }
{
    let mut reader = Reader::new(bytes);
    reader.magic()?;
    let version = reader.version()?;
    let (maker, number) = read_heading(&mut reader)?;
    let context = read_runs(alloc, &mut reader)?;
    let members = read_cells(alloc, version, context, &mut reader)?;
    let totals = read_totals(alloc, &mut reader)?;
    let delta = Delta::of(members, totals);
    if !reader.is_at_end() {
        delta.discard();
        return Err(DecodeFault::BadRange);
    }
    Ok(Frame {
        maker,
        number,
        delta,
    })
}

// The first `len` bytes of `rest`: those of a frame after its length. Errors, in order: 1 `TooLarge`, if `len` is over
// `MOST_LENGTH`; 2 `BadRange`, if it is under `LEAST_LENGTH`; 3 `Truncated`, if there are fewer bytes.
#[tactic(auto, unfolding(crate::specs::Reading::within_at))]
fn content_within(len: usize, rest: &[u8]) -> Result<&[u8], DecodeFault>
    ensures value { ReturnsRead (λ x. x.now) result (within_at len rest.now) }
    ensures limit { IfOk result (λ x. length x.now ≤ MOST_LENGTH) }
{
    if len > MOST_LENGTH {
        return Err(DecodeFault::TooLarge);
    }
    if len < LEAST_LENGTH {
        return Err(DecodeFault::BadRange);
    }
    if rest.len() < len {
        return Err(DecodeFault::Truncated);
    }
    Ok(&rest[..len])
}

// The bytes of the frame that bytes begin with, after its length. Errors, in order: 1 `Truncated`, if there are fewer than four
// bytes; 2 those of `content_within`.
#[tactic(auto, unfolding(crate::specs::Reading::content_in))]
fn content_of(bytes: &[u8]) -> Result<&[u8], DecodeFault>
    ensures value { ReturnsRead (λ x. x.now) result (content_in bytes.now) }
    ensures limit { IfOk result (λ x. length x.now ≤ MOST_LENGTH) }
{
    if bytes.len() < 4 {
        return Err(DecodeFault::Truncated);
    }
    let (front, rest) = bytes.split_at(4);
    let len = u32::from_be_bytes([front[0], front[1], front[2], front[3]]);
    content_within(len as usize, rest)
}

// The frame at the front of the bytes, and how many bytes it has. The faults are those of `decode`.
#[tactic(auto, unfolding(crate::specs::Reading::kept_in, crate::specs::Reading::opening_in))]
fn read_frame(alloc: Global, bytes: &[u8]) -> Result<(Frame, usize), DecodeFault>
    ensures value { GivesWithMemory (λ x. (frame_kept x.0, x.1)) result (kept_in bytes.now) }
    ensures early { (fault : DecodeFault) → opening_in bytes.now ≡ Err fault → result ≡ Err fault }
    ensures retired { IfOk result (λ x. x.0.delta.members.retired ≡ 0) }
{
    let content = content_of(bytes)?;
    let frame = read_content(alloc, content)?;
    Ok((frame, 4 + content.len()))
}

/// Decodes the frame that `bytes` begin with, in either version. Returns the frame and its number of bytes; bytes after it are not
/// read. Returns a frame exactly where the bytes begin with one and memory suffices. Each run, cell and total is stored when it is
/// read.
///
/// The bytes are read in order, and the first rule that fails gives the fault:
///
/// 1. `Truncated`: fewer than four bytes; then `TooLarge`: a length over 8,388,608; then `BadRange`: a length under 24; then
///    `Truncated`: fewer bytes than the length. From there on only the bytes within the length are read.
/// 2. `BadMagic`, then `BadVersion`.
/// 3. `BadRange`: a part that would reach past the end, a number or flags out of their range in this version, a reason without a
///    pause, totals of two zeros, a dot in no run, bytes after the totals.
/// 4. `TooLarge`: a count over its limit.
/// 5. `BadText`: a text of more than 80 bytes, an interface of none, a CR, LF or NUL in a text.
/// 6. `BadOrder`: a run, a cell or totals that don't follow the one before.
/// 7. `Memory`.
///
/// Each fault occurs exactly where the bytes have it (`HasFault`), and all bytes have a frame or one fault
/// (`bytes_have_a_frame_or_a_fault`). But since each part is stored when it is read, `Memory` may replace a frame, or a fault after
/// the heading. It never replaces a fault up to there: those of 1 and 2, and a bad maker or number.
pub fn decode(alloc: Global, bytes: &[u8]) -> Result<(Frame, usize), DecodeFault>
    ensures front { IsFrontFrame bytes.now result }
    ensures fault { IsFrontFault bytes.now result }
    // No place of dead dots is retired.
    ensures retired { IfOk result (λ x. x.0.delta.members.retired ≡ 0) }
{
    read_frame(alloc, bytes)
}
