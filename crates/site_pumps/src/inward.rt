ghost use Rattle.std.specs.Prelude.{◌≡◌, ◌⊎◌, ◌∷◌, [], ⊤, MatchOption, Some};
ghost use Rattle.std.specs.Option.{option_map_or};
ghost use Rattle.site_pumps.specs.Pumped.{HasPumpedIn};

use crate::{Inlet, ReceiptSink};
use dots::SharedBytes;
use site_journal::{DeskFault, Port};
use std::sync::Wait;

/// How a pump ended that receives (this project's own).
#[derive(Drop)]
pub struct PumpedIn {
    /// The fault that stopped it, if one did.
    pub fault: Option<DeskFault>,
    /// The bytes of the take that was refused, if one was.
    pub refused: Option<SharedBytes>,
}

/// Lets the port take each item that the inlet gives, and hands the receipts to the sink, in order. Returns when the inlet ends or a fault
/// stops it: `Memory` where the sink has no room for a receipt, before an item is received; or the port's own, with the bytes that it
/// refused. It waits where the inlet or the port does (this project's own).
pub fn pump_in<R: Wait, P: Port<R>, I: Inlet<R>, K: ReceiptSink>(
    rt: &R,
    port: &mut P,
    inlet: &mut I,
    sink: &mut K,
) -> PumpedIn
    // The inlet gave the items that were taken, each once and in order, and then the one that was refused. The port has made the steps of
    // the receipts, and no other; it may then have refused a call.
    ensures pumped { HasPumpedIn P.makes P.refuses P.share I.gives I.ends K.holds port.old
        port.new inlet.old inlet.new sink.old sink.new
        (option_map_or (λ bytes. bytes ∷ []) result.refused []) result.fault }
    // Bytes come back only of a take that the port has refused.
    ensures refused { MatchOption result.refused ⊤ (λ bytes. (cause : DeskFault)
        × (result.fault ≡ Some cause) × (P.fault port.new ≡ Some cause)) }
    ensures fault { MatchOption result.fault ⊤
        (λ cause. (P.fault port.new ≡ Some cause) ⊎ (cause ≡ DeskFault.Memory)) }
    ensures ordinal { P.ordinal port.new ≡ P.ordinal port.old }
{
    for _ in rt.forever() {
        if sink.prepare().is_err() {
            return PumpedIn {
                fault: Some(DeskFault::Memory),
                refused: None,
            };
        }
        let Some(bytes) = inlet.next(rt) else {
            return PumpedIn {
                fault: None,
                refused: None,
            };
        };
        match port.take(rt, bytes) {
            Ok(receipt) => sink.put(receipt),
            Err((fault, bytes)) => {
                return PumpedIn {
                    fault: Some(fault),
                    refused: Some(bytes),
                };
            }
        }
    }
    unreachable!()
}
