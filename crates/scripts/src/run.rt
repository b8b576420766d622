//! Reads a whole script, and then runs it.
ghost use Rattle.std.specs.Prelude.{◌≡◌, ◌≤◌, ◌+◌, ◌⊎◌, ◌↔◌, true, false, IfOk, OnOk, IsErrOf};
ghost use Rattle.ami_text.specs.Devices.{HasEnded};
ghost use Rattle.scripts.specs.Script.{HasReadScript, IsRunInPart, IsRunInWholeLines, IsScriptRun};
ghost use Rattle.scripts.specs.LineSteps.{listed_place};

use crate::devices::read_script;
use crate::script::Script;
use crate::script_fault::ScriptFault;
use ami_text::{Sink, Source};
use replica::QueueList;
use script_lines::SiteCount;
use std::alloc::Global;

/// Runs a script over `sites` new sites, each with these queues. Reads the reader to its end in pieces of at most 1,024 bytes,
/// at most 1,000,000 times, runs the lines in order, and writes the output of each. Returns how many lines were not understood;
/// each of them gives `line N: not understood`, where N counts all lines from 1.
///
/// Errors, each as it occurs: `Read` if the reader fails or has no end within 1,000,000 reads, `TooLong` if the script has more than
/// 16,777,216 bytes, `Write` if the writer fails or takes no bytes, `Memory`. After the first two nothing was written, after `Write` a
/// prefix of the script's text, and after `Memory` nothing, or the whole output of its first lines.
pub fn run_script<S: Source, W: Sink>(
    alloc: Global,
    reader: &mut S,
    writer: &mut W,
    sites: SiteCount,
    list: &QueueList,
) -> Result<u64, ScriptFault>
    requires reader { S.failed reader.old ≡ false }
    requires writer { W.failed writer.old ≡ false }
    ensures ended { OnOk result (HasEnded (S.ended reader.new) (S.left reader.new)) }
    ensures works { OnOk result ((S.failed reader.new ≡ false) × (W.failed writer.new ≡ false)) }
    ensures whole { IsErrOf result ScriptFault.Write
        → HasEnded (S.ended reader.new) (S.left reader.new) }

    // The script is read at most 1,000,000 times.
    ensures reads { S.reads_left reader.old ≤ S.reads_left reader.new + 1000000 }

    // The script's text was written; `unknown` is the number of its lines that were not understood.
    ensures text { IfOk result (λ unknown. IsScriptRun (listed_place sites list.now)
        (S.left reader.old) (S.left reader.new)
        (W.taken writer.old) (W.taken writer.new) unknown) }

    // Each of these faults is returned only where its cause applies; if a device has failed, its fault is returned.
    ensures reader { HasReadScript (S.left reader.old) (S.left reader.new) (S.ended reader.new)
        (S.failed reader.new) result }
    ensures write { IsErrOf result ScriptFault.Write ↔ (W.failed writer.new ≡ true) }

    // After `Read` and `TooLong` nothing was written.
    ensures unread { IsErrOf result ScriptFault.Read → W.taken writer.new ≡ W.taken writer.old }
    ensures too_long { IsErrOf result ScriptFault.TooLong
        → W.taken writer.new ≡ W.taken writer.old }

    // After `Write` a prefix of the text was written.
    ensures unwritten { IsErrOf result ScriptFault.Write → IsRunInPart (listed_place sites list.now)
        (S.left reader.old) (S.left reader.new) (W.taken writer.old) (W.taken writer.new) }

    // After `Memory` nothing was written; or the reader has ended and the whole output of the first lines was written.
    ensures memory { IsErrOf result ScriptFault.Memory → (W.taken writer.new ≡ W.taken writer.old)
        ⊎ (HasEnded (S.ended reader.new) (S.left reader.new)
        × IsRunInWholeLines (listed_place sites list.now)
        (S.left reader.old) (S.left reader.new) (W.taken writer.old) (W.taken writer.new)) }
{
    let text = read_script(alloc, reader)?;
    let mut script = Script::new(alloc, sites, list)?;
    script.run_lines(writer, &text)
}
