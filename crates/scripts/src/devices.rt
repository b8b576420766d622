//! Reads a whole script, before any of its lines is run.
ghost use Rattle.std.specs.Prelude.{◌≡◌, ◌≢◌, ◌≤◌, ◌<◌, ◌↔◌, ◌+◌, ℕ, List, Option, Ok, true};
ghost use Rattle.std.specs.Prelude.{false, vec_len, IfOk, IfErr, OnOk, IsErrOf};
ghost use Rattle.std.specs.Io.KnownBytes.{Consumes};
ghost use Rattle.ami_text.specs.Devices.{HasEnded, HasGiven, HasGivenUpTo};
ghost use Rattle.scripts.specs.Script.{HasReadScript};

use crate::script_fault::ScriptFault;
use ami_text::Source;
use std::alloc::Global;

// The most bytes that one read returns.
const PIECE: usize = 1024;

// The most reads of a script; after them it counts as having no end.
const MOST_READS: u32 = 1_000_000;

/// The most bytes that a script may have.
pub const MOST_BYTES: usize = 16_777_216;

// Reads once, and puts the bytes at the end of `script`. Returns whether there were any. Errors, in order: `Read` if the reader fails;
// `TooLong` if the script would have more than 16,777,216 bytes; `Memory`. The bytes of this read are dropped then.
fn read_piece<S: Source>(reader: &mut S, script: &mut Vec<u8>) -> Result<bool, ScriptFault>
    requires reader { S.failed reader.old ≡ false }
    requires short { vec_len script.old ≤ 16777216 }
    ensures bytes { OnOk result ((before : Option (List ℕ))
        → Consumes before (S.left reader.old) script.old.items
        → Consumes before (S.left reader.new) script.new.items) }
    ensures more { result ≡ Ok true → vec_len script.old < vec_len script.new }
    ensures goes_on { result ≡ Ok true → S.ended reader.new ≡ false }
    ensures ended { result ≡ Ok false → HasEnded (S.ended reader.new) (S.left reader.new) }
    ensures works { OnOk result (S.failed reader.new ≡ false) }
    ensures short { OnOk result (vec_len script.new ≤ 16777216) }
    ensures fault { IfErr result (λ fault. fault ≢ ScriptFault.Write) }
    ensures read { IsErrOf result ScriptFault.Read ↔ (S.failed reader.new ≡ true) }
    ensures too_long { IsErrOf result ScriptFault.TooLong → (before : Option (List ℕ))
        → Consumes before (S.left reader.old) script.old.items
        → HasGiven before (S.left reader.new) (16777216 + 1) }
    ensures few { (IsErrOf result ScriptFault.TooLong → ⊥) → (before : Option (List ℕ))
        → Consumes before (S.left reader.old) script.old.items
        → HasGivenUpTo before (S.left reader.new) 16777216 }
    ensures counted { S.reads_left reader.old ≤ S.reads_left reader.new + 1 }
{
    let mut piece = [0u8; PIECE];
    let count = match reader.read(&mut piece) {
        Ok(count) => count,
        Err(_) => return Err(ScriptFault::Read),
    };
    if count == 0 {
        return Ok(false);
    }
    if script.len() + count > MOST_BYTES {
        return Err(ScriptFault::TooLong);
    }
    match script.extend_from_slice(&piece[..count]) {
        Ok(()) => Ok(true),
        Err(_) => Err(ScriptFault::Memory),
    }
}

/// Reads the reader to its end, at most 1,000,000 times. Errors, each as it occurs: `Read` if the reader fails, or doesn't end within
/// 1,000,000 reads; `TooLong` if there are more than 16,777,216 bytes; `Memory`.
pub fn read_script<S: Source>(alloc: Global, reader: &mut S) -> Result<Vec<u8>, ScriptFault>
    requires { S.failed reader.old ≡ false }
    ensures whole { IfOk result (λ script.
        Consumes (S.left reader.old) (S.left reader.new) script.items) }
    ensures ended { OnOk result (HasEnded (S.ended reader.new) (S.left reader.new)) }
    ensures works { OnOk result (S.failed reader.new ≡ false) }
    ensures limit { IfOk result (λ script. vec_len script ≤ 16777216) }
    ensures fault { IfErr result (λ fault. fault ≢ ScriptFault.Write) }
    ensures reader { HasReadScript (S.left reader.old) (S.left reader.new) (S.ended reader.new)
        (S.failed reader.new) result }
    ensures reads { S.reads_left reader.old ≤ S.reads_left reader.new + 1000000 }
{
    let mut script = Vec::new(alloc);
    for _ in 0..MOST_READS {
        if !read_piece(reader, &mut script)? {
            return Ok(script);
        }
    }
    Err(ScriptFault::Read)
}
