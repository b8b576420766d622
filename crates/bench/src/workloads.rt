//! The workloads, each as a function of all frames that returns a checksum, or why there is none.
use delta::Delta;
use delta_codec::{Frame, Splitter, encode};
use std::alloc::Global;

const NO_MEMORY: &str = "out of memory";

const REFUSED: &str = "refused";

/// The frames in these bytes, in order.
pub fn frames_in(alloc: Global, bytes: &[u8]) -> Result<Vec<Frame>, &'static str> {
    let mut splitter = Splitter::new(alloc);
    let mut frames = Vec::new(alloc);
    if splitter.feed(bytes).is_err() {
        return Err(NO_MEMORY);
    }
    for _ in 0..u64::MAX {
        match splitter.next_frame() {
            Ok(Some(frame)) => {
                if frames.push(frame).is_err() {
                    return Err(NO_MEMORY);
                }
            }
            Ok(None) => break,
            Err(_) => return Err("no frame"),
        }
    }
    Ok(frames)
}

// The number of live dots, of runs of known dots, and the completed calls of all totals.
fn size(delta: &Delta) -> u64 {
    let members = delta.members();
    let mut sum = (members.cells() as u64).wrapping_add(members.context().runs() as u64);
    for (_, counted) in delta.totals().iter() {
        sum = sum.wrapping_add(counted.completed);
    }
    sum
}

// The sizes of all deltas.
fn sizes(frames: &[Frame]) -> u64 {
    let mut sum = 0u64;
    for frame in frames {
        sum = sum.wrapping_add(size(&frame.delta));
    }
    sum
}

// The sizes of copies of all deltas. Each copy after the first is joined into the first one, or dropped.
fn copied_sizes(frames: &[Frame], joins: bool) -> Result<u64, &'static str> {
    let Some((first, others)) = frames.split_first() else {
        return Ok(0);
    };
    let Ok(mut whole) = first.delta.copy() else {
        return Err(NO_MEMORY);
    };
    let mut sum = 0u64;
    for frame in others {
        let Ok(copy) = frame.delta.copy() else {
            return Err(NO_MEMORY);
        };
        if !joins {
            sum = sum.wrapping_add(size(&copy));
        } else if whole.join(copy).is_err() {
            return Err(REFUSED);
        }
    }
    Ok(sum.wrapping_add(size(&whole)))
}

// The penalties of all rows of queue 0.
fn penalties(frames: &[Frame]) -> u64 {
    let mut sum = 0u64;
    for frame in frames {
        for (_, row) in frame.delta.members().rows(0) {
            sum = sum.wrapping_add(u64::from(row.penalty));
        }
    }
    sum
}

// The number of runs of the dead dots of the frames' makers.
fn dead_runs(frames: &[Frame]) -> Result<u64, &'static str> {
    let mut sum = 0u64;
    for frame in frames {
        match frame.delta.members().dead_of(frame.maker) {
            Ok(dead) => sum = sum.wrapping_add(dead.runs() as u64),
            Err(_) => return Err(REFUSED),
        }
    }
    Ok(sum)
}

// The number of bytes of the frames.
fn encoded_bytes(alloc: Global, frames: &[Frame]) -> Result<u64, &'static str> {
    let mut sum = 0u64;
    for frame in frames {
        match encode(alloc, frame) {
            Ok(bytes) => sum = sum.wrapping_add(bytes.len() as u64),
            Err(_) => return Err(NO_MEMORY),
        }
    }
    Ok(sum)
}

// The checksum of a word's workload, run once on these frames, whose encoding is given.
fn checksum(
    alloc: Global,
    word: &str,
    bytes: &[u8],
    frames: &[Frame],
) -> Result<u64, &'static str> {
    match word {
        "copy" => copied_sizes(frames, false),
        "join" => copied_sizes(frames, true),
        "rows" => Ok(penalties(frames)),
        "dead" => dead_runs(frames),
        "encode" => encoded_bytes(alloc, frames),
        "decode" => Ok(sizes(&frames_in(alloc, bytes)?)),
        _ => Err("no such workload"),
    }
}

/// The sum of the checksums of a word's workload, run `times` times on these frames, whose encoding is given.
pub fn sum_of_checksums(
    alloc: Global,
    word: &str,
    bytes: &[u8],
    frames: &[Frame],
    times: u32,
) -> Result<u64, &'static str> {
    let mut sum = 0u64;
    for _ in 0..times {
        sum = sum.wrapping_add(checksum(alloc, word, bytes, frames)?);
    }
    Ok(sum)
}
