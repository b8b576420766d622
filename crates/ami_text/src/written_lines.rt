//! Lines of a message that is written: `Name: value`, ended by CR LF, and an empty line at the message's end.
ghost use Rattle.std.specs.Prelude.{◌≡◌, ◌++◌, codes, decimal, OnOk};
ghost use Rattle.ami_text.specs.WrittenLines.{field, action_id_line};

use crate::Memory;
use itoa::Buffer;

/// Appends a field: its name, a colon and one space, its value, CR LF. Fails only when out of memory, possibly after a
/// part of the field.
pub fn push_field(out: &mut Vec<u8>, name: &str, value: &[u8]) -> Result<(), Memory>
    ensures { OnOk result (out.new.items ≡ out.old.items ++ field name.now value.now) }
{
    out.extend_from_slice(name.as_bytes())?;
    out.extend_from_slice(b": ")?;
    out.extend_from_slice(value)?;
    out.extend_from_slice(b"\r\n")
}

/// Appends a field whose value is a number, in decimal digits without leading zeros. Fails only when out of memory,
/// possibly after a part of the field.
pub fn push_number(out: &mut Vec<u8>, name: &str, value: u64) -> Result<(), Memory>
    ensures { OnOk result (out.new.items ≡ out.old.items ++ field name.now (decimal value)) }
{
    let mut buffer = Buffer::new();
    push_field(out, name, buffer.format(value).as_bytes())
}

/// Appends a number, in decimal digits without leading zeros. Fails only when out of memory.
pub fn push_decimal(out: &mut Vec<u8>, value: u64) -> Result<(), Memory>
    ensures { OnOk result (out.new.items ≡ out.old.items ++ decimal value) }
{
    let mut buffer = Buffer::new();
    out.extend_from_slice(buffer.format(value).as_bytes())
}

/// Appends the line of an ActionID; nothing if that has no bytes. Fails only when out of memory, possibly after a part
/// of the line.
pub fn push_action_id_line(out: &mut Vec<u8>, action_id: &[u8]) -> Result<(), Memory>
    ensures { OnOk result (out.new.items ≡ out.old.items ++ action_id_line action_id.now) }
{
    if action_id.is_empty() {
        return Ok(());
    }
    push_field(out, "ActionID", action_id)
}

/// Appends the empty line that ends a message. Fails only when out of memory.
pub fn push_end(out: &mut Vec<u8>) -> Result<(), Memory>
    ensures { OnOk result (out.new.items ≡ out.old.items ++ codes "\r\n") }
{
    out.extend_from_slice(b"\r\n")
}
