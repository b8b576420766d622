//! Reads numbers from the front of bytes, each within its limits. A read fails with
//! `BadRange` if bytes are missing or, unless it names another error, if the number is out
//! of its limits. No contract says how far the reader is after a fault.
ghost use Rattle.std.specs.Prelude.{◌≡◌, ◌≤◌, ◌<◌, IfOk};
ghost use Rattle.dots.specs.declared.limits.TheConstants.{MOST_CALLS, MOST_COUNT, QUEUES};
ghost use Rattle.dots.specs.Values.{IsCount};
ghost use Rattle.delta_codec.specs.Faults.{IsFlags};
ghost use Rattle.delta_codec.specs.Parts.{most_flags};
ghost use Rattle.delta_codec.specs.Reading.{ReturnsRead, site_at, count_at, last_at, queue_at};
ghost use Rattle.delta_codec.specs.Reading.{calls_at, bit_at, flags_at, size_at};

use crate::reader::Reader;
use crate::{DecodeFault, OLDEST_VERSION};
use dots::{MOST_CALLS, MOST_COUNT, QUEUES, SiteId};

// The number of a site: below 64.
#[tactic(auto, unfolding(crate::specs::Reading::site_at))]
pub(crate) fn read_site(reader: &mut Reader<'_>) -> Result<SiteId, DecodeFault>
    ensures { ReturnsRead (λ x. (x, reader.new)) result (site_at reader.old) }
{
    let number = reader.byte()?;
    match SiteId::new(u16::from(number)) {
        Some(site) => Ok(site),
        None => Err(DecodeFault::BadRange),
    }
}

// A count of a dot, a time of a stamp or a number of a frame: 1 to 2^40.
#[tactic(auto, unfolding(crate::specs::Reading::count_at))]
pub(crate) fn read_count(reader: &mut Reader<'_>) -> Result<u64, DecodeFault>
    ensures value { ReturnsRead (λ x. (x, reader.new)) result (count_at reader.old) }
    ensures limit { IfOk result (λ x. IsCount x) }
{
    let number = reader.number8()?;
    if number < 1 || number > MOST_COUNT {
        return Err(DecodeFault::BadRange);
    }
    Ok(number)
}

// The last count of a run that has this first one: `first` to 2^40.
#[tactic(auto, unfolding(crate::specs::Reading::last_at))]
pub(crate) fn read_last(first: u64, reader: &mut Reader<'_>) -> Result<u64, DecodeFault>
    ensures value { ReturnsRead (λ x. (x, reader.new)) result (last_at first reader.old) }
    ensures limit { IfOk result (λ x. (first ≤ x) × (x ≤ MOST_COUNT)) }
{
    let number = reader.number8()?;
    if number < first || number > MOST_COUNT {
        return Err(DecodeFault::BadRange);
    }
    Ok(number)
}

// The number of a queue: below 256.
#[tactic(auto, unfolding(crate::specs::Reading::queue_at))]
pub(crate) fn read_queue(reader: &mut Reader<'_>) -> Result<u16, DecodeFault>
    ensures value { ReturnsRead (λ x. (x, reader.new)) result (queue_at reader.old) }
    ensures limit { IfOk result (λ x. x < QUEUES) }
{
    let number = reader.number2()?;
    if usize::from(number) >= QUEUES {
        return Err(DecodeFault::BadRange);
    }
    Ok(number)
}

// How many calls a site has counted: at most 1,000,000,000.
#[tactic(auto, unfolding(crate::specs::Reading::calls_at))]
pub(crate) fn read_calls(reader: &mut Reader<'_>) -> Result<u64, DecodeFault>
    ensures value { ReturnsRead (λ x. (x, reader.new)) result (calls_at reader.old) }
    ensures limit { IfOk result (λ x. x ≤ MOST_CALLS) }
{
    let number = reader.number8()?;
    if number > MOST_CALLS {
        return Err(DecodeFault::BadRange);
    }
    Ok(number)
}

// The byte 0 or 1.
#[tactic(auto, unfolding(crate::specs::Reading::bit_at))]
pub(crate) fn read_bit(reader: &mut Reader<'_>) -> Result<u8, DecodeFault>
    ensures value { ReturnsRead (λ x. (x, reader.new)) result (bit_at reader.old) }
    ensures limit { IfOk result (λ x. x < 2) }
{
    let number = reader.byte()?;
    if number >= 2 {
        return Err(DecodeFault::BadRange);
    }
    Ok(number)
}

// The flags with which all fields of a version are set: the oldest has no ring.
fn flags_of_all(version: u8) -> u8
    ensures { result ≡ most_flags version }
{
    if version == OLDEST_VERSION { 7 } else { 15 }
}

// The flags of a cell of this version: one at least is set.
#[tactic(auto, unfolding(crate::specs::Reading::flags_at))]
pub(crate) fn read_flags(version: u8, reader: &mut Reader<'_>) -> Result<u8, DecodeFault>
    ensures value { ReturnsRead (λ x. (x, reader.new)) result (flags_at version reader.old) }
    ensures limit { IfOk result (λ x. IsFlags version x) }
{
    let most = flags_of_all(version);
    let number = reader.byte()?;
    if number < 1 || number > most {
        return Err(DecodeFault::BadRange);
    }
    Ok(number)
}

// How many elements a list has. `TooLarge` if they are more than `most`.
#[tactic(auto, unfolding(crate::specs::Reading::size_at))]
pub(crate) fn read_size(most: usize, reader: &mut Reader<'_>) -> Result<u32, DecodeFault>
    ensures value { ReturnsRead (λ x. (x, reader.new)) result (size_at most reader.old) }
    ensures limit { IfOk result (λ x. x ≤ most) }
{
    let number = reader.number4()?;
    if number as usize > most {
        return Err(DecodeFault::TooLarge);
    }
    Ok(number)
}
