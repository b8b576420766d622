//! Reads texts, and a field of a dot, from the front of bytes. No contract says how far the
//! reader is after a fault.
ghost use Rattle.std.specs.Prelude.{◌≡◌, ◌≤◌, [], length, is_some, IfOk};
ghost use Rattle.delta_codec.specs.Reading.{ReturnsRead, text_at, no_reason_at, stamp_at, reason_at};
ghost use Rattle.delta_codec.specs.Reading.{field_at, length_at};

use crate::DecodeFault;
use crate::field_bytes::FieldBytes;
use crate::numbers::{read_count, read_site};
use crate::reader::Reader;
use dots::{Interface, Stamp, TEXT_BYTES, Text80};
use lww_registers::Register;

// Reads how many bytes a text has. Errors, in order: 1 `BadRange`, if the byte is missing; 2
// `BadText`, if it is below `least` or over 80.
fn read_length(least: u8, reader: &mut Reader<'_>) -> Result<usize, DecodeFault>
    ensures value { ReturnsRead (λ x. (x, reader.new)) result (length_at least reader.old) }
    ensures least { IfOk result (λ x. least ≤ x) }
    ensures most { IfOk result (λ x. x ≤ TEXT_BYTES) }
{
    let len = reader.byte()?;
    if len < least || usize::from(len) > TEXT_BYTES {
        return Err(DecodeFault::BadText);
    }
    Ok(usize::from(len))
}

// Reads a text of at least `least` bytes. Errors, in order: 1 those of `read_length`; 2
// `BadRange`, if bytes are missing; 3 `BadText`, if a byte is a CR, LF or NUL.
#[tactic(auto, unfolding(crate::specs::Reading::text_at))]
pub(crate) fn read_text(least: u8, reader: &mut Reader<'_>) -> Result<Text80, DecodeFault>
    ensures value { ReturnsRead (λ x. (x, reader.new)) result (text_at least reader.old) }
    ensures size { IfOk result (λ x. least ≤ length x) }
{
    let len = read_length(least, reader)?;
    reader.text(len)
}

// Reads an interface, a text of at least one byte. The errors are those of `read_text`.
#[tactic(auto, unfolding(crate::specs::Reading::text_at, crate::specs::Reading::text_of))]
pub(crate) fn read_interface(reader: &mut Reader<'_>) -> Result<Interface, DecodeFault>
    ensures { ReturnsRead (λ x. (x, reader.new)) result (text_at 1 reader.old) }
{
    let len = read_length(1, reader)?;
    let bytes = reader.bytes(len)?;
    match Interface::new(bytes) {
        Ok(interface) => Ok(interface),
        Err(_) => Err(DecodeFault::BadText),
    }
}

// Reads the reason where there is no pause: it must be empty. Errors, in order: 1 `BadRange`,
// if its length is missing; 2 `BadText`, if it is over 80; 3 `BadRange`, if it isn't 0.
#[tactic(auto, unfolding(crate::specs::Reading::no_reason_at))]
fn read_no_reason(reader: &mut Reader<'_>) -> Result<Text80, DecodeFault>
    ensures value { ReturnsRead (λ x. (x, reader.new)) result (no_reason_at reader.old) }
    ensures none { IfOk result (λ x. x ≡ []) }
{
    let len = reader.byte()?;
    if usize::from(len) > TEXT_BYTES {
        return Err(DecodeFault::BadText);
    }
    if len != 0 {
        return Err(DecodeFault::BadRange);
    }
    Ok(Text80::empty())
}

// Reads the reason after the byte of a pause, by `read_no_reason` if that byte is 0, and
// otherwise by `read_text`.
#[tactic(auto, unfolding(crate::specs::Reading::reason_at))]
pub(crate) fn read_reason(paused: u8, reader: &mut Reader<'_>) -> Result<Text80, DecodeFault>
    ensures value { ReturnsRead (λ x. (x, reader.new)) result (reason_at paused reader.old) }
    ensures none { paused ≡ 0 → IfOk result (λ x. x ≡ []) }
{
    if paused == 0 {
        read_no_reason(reader)
    } else {
        read_text(0, reader)
    }
}

// Reads a stamp: its time, then its site. `BadRange` if bytes are missing, or one of the two
// is out of its limits.
#[tactic(auto, unfolding(crate::specs::Reading::stamp_at))]
fn read_stamp(reader: &mut Reader<'_>) -> Result<Stamp, DecodeFault>
    ensures { ReturnsRead (λ x. (x, reader.new)) result (stamp_at reader.old) }
{
    let time = read_count(reader)?;
    let site = read_site(reader)?;
    match Stamp::new(time, site) {
        Some(stamp) => Ok(stamp),
        None => Err(DecodeFault::BadRange),
    }
}

// Reads a field that is set, its stamp and then its value, if `flag` is true. Otherwise it
// isn't set, and nothing is read.
#[tactic(auto, unfolding(crate::specs::Reading::field_at, crate::specs::Reading::entry_at))]
pub(crate) fn read_field<T: FieldBytes>(
    flag: bool,
    reader: &mut Reader<'_>,
) -> Result<Register<T>, DecodeFault>
    ensures value { ReturnsRead (λ x. (x, reader.new)) result (field_at flag T.at reader.old) }
    ensures set { IfOk result (λ x. is_some x ≡ flag) }
{
    if !flag {
        return Ok(Register::none());
    }
    let stamp = read_stamp(reader)?;
    let value = T::read(reader)?;
    Ok(Register::of(stamp, value))
}
