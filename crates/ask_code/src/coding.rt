//! Encodes and decodes a command with its answer.
ghost use Rattle.std.specs.Prelude.{◌≡◌, ◌≤◌, ◌↔◌, IfErr, IfOk, Err, Ok};
ghost use Rattle.arrayvec.specs.ArrayVec.{array_vec_len};
ghost use Rattle.ask_code.specs.declared.limits.TheConstants.{MOST_ASK_BYTES};
ghost use Rattle.ask_code.specs.declared.answered.AnsweredCommand.{AnsweredCommand};
ghost use Rattle.ask_code.specs.declared.ask_fault.AskFault.{AskFault};
ghost use Rattle.ask_code.specs.Asks.{HasFault, IsAsk, ask_bytes};
ghost use Rattle.ask_code.specs.Values.{IsKeptAnswer};

use crate::limits::MOST_ASK_BYTES;
use crate::part::{Part, WrittenPart};
use crate::reader::Reader;
use crate::values::answer_number;
use crate::{AnsweredCommand, AskFault};
use arrayvec::ArrayVec;
use replica::{Command, Refusal};

/// Returns the encoding of a command and its answer, at most `MOST_ASK_BYTES` bytes. `decode_ask` decodes these bytes alone to both. It
/// allocates nothing. The answer isn't `Memory`: that refusal comes from a shortage of memory, so a replay need not give it.
pub fn encode_ask(command: &Command, answer: Result<(), Refusal>) -> ArrayVec<u8, MOST_ASK_BYTES>
    requires kept { IsKeptAnswer answer }
    ensures bytes { result.items ≡ ask_bytes (record { command = command.now; answer = answer }) }
    ensures within { IsAsk (record { command = command.now; answer = answer }) }
    ensures most { array_vec_len result ≤ MOST_ASK_BYTES }
{
    let mut out = ArrayVec::new();
    command.put(&mut out);
    out.push(answer_number(answer));
    out
}

// Reads a command and its answer, which must be all of the bytes. The errors are those of `decode_ask`.
fn read_ask(bytes: &[u8]) -> Result<AnsweredCommand, AskFault>
    ensures good { IfOk result (λ ask. IsAsk ask) }
    ensures spelled { IfOk result (λ ask. bytes.now ≡ ask_bytes ask) }
    ensures fault { IfErr result (λ fault. HasFault fault bytes.now) }
{
    let mut reader = Reader::new(bytes);
    let (command, answer): (Command, Result<(), Refusal>) = Part::read(&mut reader)?;
    if !reader.is_at_end() {
        drop(command);
        return Err(AskFault::Trailing);
    }
    Ok(AnsweredCommand { command, answer })
}

/// Returns the command with its answer whose encoding these bytes are. It allocates nothing.
///
/// It reads the bytes part by part, from left to right, and the first part that is at fault decides. Errors: `Truncated` if the bytes end
/// within that part. Else the part's own: `BadKind`, a number of no kind of command; `BadText`, a text of more than 80 bytes, or with a CR,
/// LF or NUL, or a name of no bytes; `BadNumber`, a penalty above 2,147,483,647; `BadBit`, a bit that is neither 0 nor 1; `BadAnswer`, a
/// number of no answer that a store keeps. Last `Trailing`, if bytes follow the answer.
pub fn decode_ask(bytes: &[u8]) -> Result<AnsweredCommand, AskFault>
    ensures good { IfOk result (λ ask. IsAsk ask) }
    ensures spelled { IfOk result (λ ask. bytes.now ≡ ask_bytes ask) }
    ensures found { (ask : AnsweredCommand) → IsAsk ask → bytes.now ≡ ask_bytes ask
        → result ≡ Ok ask }
    ensures fault { (fault : AskFault) → (result ≡ Err fault) ↔ HasFault fault bytes.now }
{
    read_ask(bytes)
}
