//! A base as a row.
ghost use Rattle.std.specs.Prelude.{◌≡◌, ◌<◌, ◌++◌, [], IfOk, OnOk, length, slice_index_or};
ghost use Rattle.delta.specs.Frames.{IsInRanges, frame_of};
ghost use Rattle.replica.specs.Queues.{AreQueues};
ghost use Rattle.stored_steps.specs.Appending.{AppendsDelta};
ghost use Rattle.stored_steps.specs.Bases.{IsBase, IsRowOfBase, SpellsBase, head_bytes};
ghost use Rattle.stored_steps.specs.Bases.{list_bytes, name_bytes, numbers_bytes};

use crate::limits::{BASE_VERSION, NAME_BYTES};
use crate::{RowKind, StoredRow};
use delta::Delta;
use delta_codec::encode_parts;
use dots::{Bytes, Memory, SiteId};
use replica::{QueueList, Replica};
use std::alloc::Global;

// Writes the name of the queue at this place, behind its length. Fails only when out of memory; then a part
// of the bytes may have been written, as by each function here that fails.
fn put_name(out: &mut Vec<u8>, list: &QueueList, place: u16) -> Result<(), Memory>
    requires { place < length list.now }
    ensures { OnOk result
        (out.new.items ≡ out.old.items ++ name_bytes (slice_index_or list.now place [])) }
{
    let Some(name) = list.name(place) else {
        unreachable!();
    };
    let bytes = name.as_bytes();
    out.push(bytes.len() as u8)?;
    out.extend_from_slice(bytes)?;
    Ok(())
}

// Writes a list of queues: how many there are, in two bytes, and their names. Fails only when out of memory.
#[tactic(auto, using(crate::proofs::Writing::names_more, crate::proofs::Writing::list_written))]
pub(crate) fn put_list(out: &mut Vec<u8>, list: &QueueList) -> Result<(), Memory>
    ensures written { OnOk result (out.new.items ≡ out.old.items ++ list_bytes list.now) }
    ensures queues { AreQueues list.now }
{
    let queues = list.len();
    out.extend_from_slice(&queues.to_be_bytes())?;
    for place in 0..queues {
        put_name(out, list, place)?;
    }
    Ok(())
}

// Writes the numbers of a base, in eight bytes each: how often its site was started, and its last count, time and frame
// number. Fails only when out of memory.
fn put_numbers(out: &mut Vec<u8>, starts: u64, last: (u64, u64, u64)) -> Result<(), Memory>
    ensures { OnOk result (out.new.items ≡ out.old.items ++ numbers_bytes starts last) }
{
    let (count, time, frames) = last;
    out.extend_from_slice(&starts.to_be_bytes())?;
    out.extend_from_slice(&count.to_be_bytes())?;
    out.extend_from_slice(&time.to_be_bytes())?;
    out.extend_from_slice(&frames.to_be_bytes())?;
    Ok(())
}

// Writes what stands before the frames of a base: version, site, list of queues, name and numbers. Fails only when out
// of memory.
fn put_head(
    out: &mut Vec<u8>,
    replica: &Replica,
    name: &[u8; NAME_BYTES],
    starts: u64,
) -> Result<(), Memory>
    ensures { OnOk result (out.new.items ≡ out.old.items
        ++ head_bytes (record { replica = replica.now; name = name.now; starts = starts })) }
{
    out.push(BASE_VERSION)?;
    out.push(replica.site().number() as u8)?;
    put_list(out, replica.list())?;
    out.extend_from_slice(name.as_slice())?;
    put_numbers(out, starts, replica.last())?;
    Ok(())
}

// Writes a delta, whose values are within the ranges of a frame, as the site's frame of the number 1. Fails only when
// out of memory.
#[tactic(auto, using(crate::proofs::Writing::delta_written))]
fn put_delta(alloc: Global, out: &mut Vec<u8>, site: SiteId, delta: &Delta) -> Result<(), Memory>
    requires { IsInRanges (frame_of site 1 delta.now) }
    ensures { OnOk result (AppendsDelta site delta.now out.old.items out.new.items) }
{
    let frame = encode_parts(alloc, site, 1, delta)?;
    let put = out.extend_from_slice(frame.as_slice());
    drop(frame);
    put
}

// The bytes of a base: what stands before the frames, the state and the buffer. Fails only when out of memory.
#[tactic(auto, using(crate::proofs::Writing::delta_in_ranges))]
fn base_bytes(
    alloc: Global,
    replica: &Replica,
    name: &[u8; NAME_BYTES],
    starts: u64,
) -> Result<Vec<u8>, Memory>
    ensures spelled { IfOk result (λ bytes. SpellsBase
        (record { replica = replica.now; name = name.now; starts = starts }) bytes.items) }
    ensures good { OnOk result
        (IsBase (record { replica = replica.now; name = name.now; starts = starts })) }
{
    let mut out = Vec::new(alloc);
    put_head(&mut out, replica, name, starts)?;
    put_delta(alloc, &mut out, replica.site(), replica.state())?;
    put_delta(alloc, &mut out, replica.site(), replica.pending())?;
    Ok(out)
}

/// The row of the base of a store with this name, over which the site was started `starts` times; its pass is 0, though
/// no contract says so. Fails only when out of memory.
pub fn row_of_base(
    alloc: Global,
    replica: &Replica,
    name: &[u8; NAME_BYTES],
    starts: u64,
) -> Result<StoredRow, Memory>
    ensures { IfOk result (λ row. IsRowOfBase
        (record { replica = replica.now; name = name.now; starts = starts }) row) }
{
    let body = Bytes::new(base_bytes(alloc, replica, name, starts)?);
    let site = replica.site().number();
    let Ok(words) = format!(in alloc; "base of site {site}, started {starts} times") else {
        drop(body);
        return Err(Memory);
    };
    Ok(StoredRow::new(0, RowKind::Base.number(), body, words))
}
