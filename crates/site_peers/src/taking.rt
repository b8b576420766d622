//! The loop of a link that receives: the site takes each frame that comes.
ghost use Rattle.std.specs.Prelude.{◌≡◌, ◌⊎◌, ◌∷◌, ◌++◌, [], ⊤, ℕ, List, MatchOption, None, Option, Some};
ghost use Rattle.std.specs.Option.{option_map_or};
ghost use Rattle.link_stream.specs.Tagged.{TaggedState};
ghost use Rattle.site_journal.specs.Ports.{PortWork};
ghost use Rattle.site_pumps.specs.Deeds.{AreTakes};
ghost use Rattle.site_peers.specs.Links.{inlet_fault, inlet_source, inlet_stream};
ghost use Rattle.site_peers.specs.Received.{HasEndedAt, HasGivenFrames};

use crate::{Acknowledge, LinkInlet};
use ami_text::Source;
use site_journal::{DeskFault, Port, Receipt};
use site_pumps::{PumpedIn, ReceiptSink, pump_in};
use std::sync::Wait;

/// Lets the port take each frame that comes over a link, and hands the receipts to the sink, in order. Returns when the link ends or a
/// fault stops it: the port's own, or `Memory` where the sink has no room for a receipt. It waits where the link or the port does.
///
/// The frames that were taken, and then the one that was refused if one was, are in order the items that were received, without the beats:
/// the bytes that the inlet held and those that it read since are these items, each with the tag of its counter, and what it held after the
/// last of them. It returns without a fault only where the inlet gives nothing more, for the inlet's own fault.
pub fn take_frames<R: Wait, P: Port<R>, S: Source + Drop, A: Acknowledge<R> + Drop, K: ReceiptSink>(
    rt: &R,
    port: &mut P,
    inlet: &mut LinkInlet<S, A>,
    sink: &mut K,
) -> PumpedIn
    ensures taken { (frames : List (List ℕ)) × (receipts : List Receipt)
        × (left : Option (List ℕ)) × (stream : TaggedState)
        × AreTakes frames receipts
        × PortWork P.makes P.refuses port.old receipts result.fault port.new
        × HasGivenFrames (S.left (inlet_source inlet.old)) left (inlet_stream inlet.old)
        (frames ++ option_map_or (λ bytes. bytes ∷ []) result.refused []) stream
        × (inlet_fault inlet.old ≡ None → HasEndedAt result.fault
        left (S.left (inlet_source inlet.new)) stream (inlet_stream inlet.new)
        (inlet_fault inlet.new) (S.ended (inlet_source inlet.new))
        (S.failed (inlet_source inlet.new))) }
    // Bytes come back only of a take that the port has refused.
    ensures refused { MatchOption result.refused ⊤ (λ bytes. (cause : DeskFault)
        × (result.fault ≡ Some cause) × (P.fault port.new ≡ Some cause)) }
    ensures fault { MatchOption result.fault ⊤
        (λ cause. (P.fault port.new ≡ Some cause) ⊎ (cause ≡ DeskFault.Memory)) }
    ensures ordinal { P.ordinal port.new ≡ P.ordinal port.old }
{
    pump_in(rt, port, inlet, sink)
}
