//! Writes the script of events.
ghost use Rattle.std.specs.Prelude.{◌≡◌, ◌++◌, ◌↔◌, true, false, codes, count_by, IfOk, IsErrOf, OnErr, OnOk};
ghost use Rattle.std.specs.List.{All};
ghost use Rattle.std.specs.Io.KnownBytes.{Appends};
ghost use Rattle.ami_text.specs.Devices.{HasTaken};
ghost use Rattle.event_script.specs.Lines.{HasLimits, can_say, event_line, is_unsaid, script_of};

use crate::events_fault::EventsFault;
use crate::lines::push_event;
use ami_text::{Sink, write_all};
use sites_world::Event;
use std::alloc::Global;

// The room in bytes that a line has at first: most need no more.
const LINE_ROOM: usize = 128;

// Writes the line of an event. Returns whether it says the event. Errors, in order: `Memory`, and nothing was written; `Write`, after a
// prefix of the line.
fn write_event<W: Sink>(alloc: Global, writer: &mut W, event: &Event) -> Result<bool, EventsFault>
    requires writer { W.failed writer.old ≡ false }
    ensures said { IfOk result (λ said. said ≡ can_say event.now) }
    ensures limits { OnOk result (HasLimits event.now) }
    ensures written { OnOk result (Appends (W.taken writer.old) (W.taken writer.new)
        (event_line event.now ++ codes "\n")) }
    ensures works { OnOk result (W.failed writer.new ≡ false) }
    ensures begun { IsErrOf result EventsFault.Write
        → HasTaken (W.taken writer.old) (W.taken writer.new) (event_line event.now ++ codes "\n") }
    ensures memory { IsErrOf result EventsFault.Memory
        → W.taken writer.new ≡ W.taken writer.old }
    ensures write { IsErrOf result EventsFault.Write ↔ (W.failed writer.new ≡ true) }
{
    let mut line = Vec::with_capacity(alloc, LINE_ROOM)?;
    let said = push_event(&mut line, event)?;
    line.extend_from_slice(b"\n")?;
    write_all(writer, &line).map_err(|_| EventsFault::Write)?;
    Ok(said)
}

/// Writes the script of events: a line for each, in order. An event that no line can say, a command with a text that has a bar or a
/// space or tab at an end, a status, or a take of an entry with more than nine digits, is a comment. Returns how many are.
///
/// Errors, at the first event with one: `Memory`, before its line; `Write` if the writer fails or takes no bytes, and then a prefix
/// of the script was written.
#[tactic(auto, using(crate::proofs::Written::more_written, crate::proofs::Written::line_begun, crate::proofs::Written::lines_begun))]
pub fn write_events<W: Sink>(
    alloc: Global,
    writer: &mut W,
    events: &[Event],
) -> Result<u64, EventsFault>
    requires writer { W.failed writer.old ≡ false }
    ensures written { OnOk result (Appends (W.taken writer.old) (W.taken writer.new)
        (script_of events.now)) }
    ensures unsaid { IfOk result (λ unsaid. unsaid ≡ count_by is_unsaid events.now) }
    ensures limits { OnOk result (All HasLimits events.now) }
    ensures works { OnOk result (W.failed writer.new ≡ false) }
    // After a fault a prefix of the script was written.
    ensures begun { OnErr result
        (HasTaken (W.taken writer.old) (W.taken writer.new) (script_of events.now)) }
    ensures write { IsErrOf result EventsFault.Write ↔ (W.failed writer.new ≡ true) }
{
    let mut unsaid = 0u64;
    for event in events {
        if !write_event(alloc, writer, event)? {
            unsaid += 1;
        }
    }
    Ok(unsaid)
}
