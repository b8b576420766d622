//! Writes all bytes, in as many writes as the sink needs.
ghost use Rattle.std.specs.Prelude.{◌≡◌, true, false, OnOk, OnErr};
ghost use Rattle.std.specs.Io.KnownBytes.{Appends};
ghost use Rattle.ami_text.specs.Devices.{HasTaken};

use crate::{Failed, Sink};

/// Writes all the bytes.
///
/// `Failed`: the sink failed, or took none of the bytes that were left; it has taken a prefix of
/// them, and may not be written to again.
pub fn write_all<W: Sink>(writer: &mut W, bytes: &[u8]) -> Result<(), Failed>
    requires { W.failed writer.old ≡ false }
    ensures written { OnOk result (Appends (W.taken writer.old) (W.taken writer.new) bytes.now) }
    ensures works { OnOk result (W.failed writer.new ≡ false) }
    ensures fails { OnErr result (W.failed writer.new ≡ true) }
    ensures begun { OnErr result (HasTaken (W.taken writer.old) (W.taken writer.new) bytes.now) }
{
    let mut rest = bytes;
    while !rest.is_empty() {
        let count = writer.write(rest)?;
        if count == 0 {
            return Err(Failed);
        }
        rest = &rest[count..];
    }
    Ok(())
}
