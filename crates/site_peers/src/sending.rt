//! A link that sends: its hello, and then each item of its queue, in order.
ghost use Rattle.std.specs.Prelude.{◌≡◌, ◌++◌, ◌∷◌, [], ℕ, Err, IfErr, IfOk, List, OnErr, OnOk, false, true};
ghost use Rattle.link_stream.specs.Items.{item_bytes};
ghost use Rattle.link_stream.specs.Sending.{HasSent};
ghost use Rattle.ami_text.specs.Devices.{HasTaken};
ghost use Rattle.link_stream.specs.Tagged.{tagged};
ghost use Rattle.site_pumps.specs.Inlets.{InletRun};
ghost use Rattle.site_peers.specs.Sent.{HasBegunAll, HasBegunLink, HasSentAll, HasSentLink};

use crate::{ItemQueue, LinkSink, Meeting, SharedRoll, meet_acceptor};
use ami_text::{Sink, Source};
use link_hello::{Card, HelloFault, LinkKeys};
use link_keys::Key;
use link_stream::{Item, ItemSender, SendFault};
use std::sync::Wait;

// Sends an item and its tag. Errors are those of `ItemSender`; the sink has then taken a prefix of them, or nothing.
fn send_item<W: Sink>(sender: &mut ItemSender, sink: &mut W, item: &Item) -> Result<(), SendFault>
    requires { W.failed sink.old ≡ false }
    ensures sent { OnOk result (HasSent (W.taken sink.old) (W.taken sink.new) sender.old
        (item_bytes item.now) sender.new) }
    ensures works { OnOk result (W.failed sink.new ≡ false) }
    ensures begun { OnErr result (HasTaken (W.taken sink.old) (W.taken sink.new)
        (tagged sender.old.key sender.old.sent (item_bytes item.now))) }
    ensures fails { IfErr result (λ fault.
        fault ≡ SendFault.Failed → W.failed sink.new ≡ true) }
{
    match item {
        Item::Beat => sender.send_beat(sink),
        Item::Frame(frame) => sender.send_frame(sink, frame.as_slice()),
    }
}

/// Sends each item of a queue over a sink, in order, each with its tag, until the queue ends or a fault stops it. Where it returns `Ok`,
/// the sink has taken the items that the queue gave with their tags, one after another; else a prefix of them. It waits where the queue
/// does. Errors are those of `ItemSender`, for the last item that the queue gave.
pub fn send_items<R: Wait, Q: ItemQueue<R>, W: Sink>(
    rt: &R,
    queue: &mut Q,
    sender: &mut ItemSender,
    sink: &mut W,
) -> Result<(), SendFault>
    requires { W.failed sink.old ≡ false }
    ensures sent { OnOk result ((items : List (List ℕ)) × (last : _)
        × InletRun Q.gives queue.old items last × Q.ends last queue.new
        × HasSentAll (W.taken sink.old) (W.taken sink.new) sender.old items sender.new) }
    ensures begun { OnErr result ((items : List (List ℕ))
        × InletRun Q.gives queue.old items queue.new
        × HasBegunAll (W.taken sink.old) (W.taken sink.new) sender.old items) }
    ensures works { OnOk result (W.failed sink.new ≡ false) }
    ensures fails { IfErr result (λ fault.
        fault ≡ SendFault.Failed → W.failed sink.new ≡ true) }
{
    for _ in rt.forever() {
        let Some(item) = queue.next_item(rt) else {
            return Ok(());
        };
        if let Err(fault) = send_item(sender, sink, &item) {
            drop(item);
            return Err(fault);
        }
        drop(item);
    }
    unreachable!()
}

/// Runs a link of the site that dials: its hello, as `meet_acceptor` does, and then each item of the queue, as `send_items` does, under the
/// hello's key of items. After the hello queue and sink begin. At Ok there was a link, and the inner result says how sending has ended.
/// `nonce` is 32 random bytes that no other hello has.
///
/// Errors are those of `meet_acceptor`; the queue stays as it is then, and a card that the roll has admitted may stay on it. Inner errors
/// are those of `send_items`.
pub fn send_link<R: Wait, S: Source, W: LinkSink, Q: ItemQueue<R>>(
    rt: &R,
    source: &mut S,
    sink: &mut W,
    queue: &mut Q,
    roll: &SharedRoll,
    key: &Key,
    nonce: &[u8; 32],
    own: &Card,
) -> Result<Result<(), SendFault>, HelloFault>
    requires source { S.failed source.old ≡ false }
    requires sink { W.failed sink.old ≡ false }
    ensures sent { IfOk result (λ ended. OnOk ended ((items : List (List ℕ)) × (peer : ℕ)
        × (first last : _) × Q.begins queue.old peer first
        × InletRun Q.gives first items last × Q.ends last queue.new
        × HasSentLink (S.left source.old) (S.left source.new) (W.taken sink.old)
        (W.taken sink.new) key.now nonce.now own.now peer items)) }
    ensures begun { IfOk result (λ ended. OnErr ended ((items : List (List ℕ)) × (peer : ℕ)
        × (first : _) × Q.begins queue.old peer first × InletRun Q.gives first items queue.new
        × HasBegunLink (S.left source.old) (S.left source.new) (W.taken sink.old)
        (W.taken sink.new) key.now nonce.now own.now peer items)) }
    ensures source { OnOk result (S.failed source.new ≡ false) }
    ensures works { IfOk result (λ ended. OnOk ended (W.failed sink.new ≡ false)) }
    ensures fails { IfOk result (λ ended. IfErr ended (λ fault.
        fault ≡ SendFault.Failed → W.failed sink.new ≡ true)) }
    ensures same { OnErr result (queue.new ≡ queue.old) }
{
    let Meeting { site, keys } = meet_acceptor(rt, source, sink, roll, key, nonce, own)?;
    let LinkKeys {
        items,
        acknowledgements,
    } = keys;
    queue.begin(rt, site);
    sink.begin(acknowledgements);
    let mut sender = ItemSender::new(items);
    let ended = send_items(rt, queue, &mut sender, sink);
    drop(sender);
    Ok(ended)
}
