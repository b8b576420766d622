//! The loop of a link that receives: it passes over beats, and returns each frame.
ghost use Rattle.std.specs.Prelude.{◌≡◌, ◌∷◌, [], IfErr, IfOk, IfSome, None, Ok, OnErr, OnOk, false};
ghost use Rattle.link_stream.specs.Items.{IsFrame, IsItem, item_bytes};
ghost use Rattle.site_peers.specs.Received.{HasGivenFrame, HasReceived, HasStopped, IsInletCause};

use crate::{Acknowledge, InletFault};
use ami_text::Source;
use dots::SharedBytes;
use link_stream::{Item, ItemReceiver};
use std::sync::Wait;

// Takes an item that is held; else reads once, and has the read acknowledged. `None` after a read. Errors: `Receive`, the receiver's; after
// a read `Acknowledge`.
fn advance<R, S: Source, A: Acknowledge<R>>(
    rt: &R,
    receiver: &mut ItemReceiver,
    source: &mut S,
    acknowledger: &mut A,
) -> Result<Option<Item>, InletFault>
    requires source { S.failed source.old ≡ false }
    requires receiver { receiver.old.fault ≡ None }
    ensures item { IfOk result (λ next. IfSome next (λ item. IsItem item
        × HasReceived (S.left source.old) (S.left source.new) receiver.old.stream
        (item_bytes item ∷ []) receiver.new.stream)) }
    ensures none { (result ≡ Ok None) → HasReceived (S.left source.old) (S.left source.new)
        receiver.old.stream [] receiver.new.stream }
    ensures works { OnOk result ((S.failed source.new ≡ false) × (receiver.new.fault ≡ None)) }
    ensures cause { IfErr result (λ fault. IsInletCause fault receiver.old.stream
        (S.ended source.new) (S.failed source.new)) }
{
    let held = receiver.held();
    match receiver.recv(source) {
        Ok(Some(item)) => Ok(Some(item)),
        Ok(None) => {
            let count = receiver.held() - held;
            match acknowledger.after_read(rt, count) {
                Ok(()) => Ok(None),
                Err(fault) => Err(InletFault::Acknowledge(fault)),
            }
        }
        Err(fault) => Err(InletFault::Receive(fault)),
    }
}

// Receives until a frame has come, and returns it; beats are passed over. The acknowledger notes each read and each item. The first error
// of `advance` ends it.
pub(crate) fn next_frame<R: Wait, S: Source, A: Acknowledge<R>>(
    rt: &R,
    receiver: &mut ItemReceiver,
    source: &mut S,
    acknowledger: &mut A,
) -> Result<SharedBytes, InletFault>
    requires source { S.failed source.old ≡ false }
    requires receiver { receiver.old.fault ≡ None }
    ensures frame { IfOk result (λ frame. IsFrame frame) }
    ensures given { IfOk result (λ frame. HasGivenFrame (S.left source.old) (S.left source.new)
        receiver.old.stream frame receiver.new.stream) }
    ensures works { OnOk result ((S.failed source.new ≡ false) × (receiver.new.fault ≡ None)) }
    ensures stopped { IfErr result (λ fault. HasStopped (S.left source.old) receiver.old.stream
        fault (S.ended source.new) (S.failed source.new)) }
{
    for _ in rt.forever() {
        match advance(rt, receiver, source, acknowledger) {
            Ok(Some(Item::Frame(frame))) => {
                acknowledger.after_item(true, receiver.held());
                return Ok(frame);
            }
            Ok(Some(Item::Beat)) => acknowledger.after_item(false, receiver.held()),
            Ok(None) => {}
            Err(fault) => return Err(fault),
        }
    }
    unreachable!()
}
