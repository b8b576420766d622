//! Items and acknowledgements, byte by byte. tools/site_link_tests.py shows which frames a site takes from a link.
ghost use Rattle.std.specs.Prelude.{◌≡◌, ◌<◌, false};

use crate::links::shared::{assert_bytes, joined, key};
use crate::shared::bytes;
use ami_text::{MemorySink, MemorySource};
use link_stream::{
    Acknowledgement, AcknowledgementReceiver, AcknowledgementSender, ItemReceiver, ItemSender,
    ReceiveFault, SendFault,
};
use std::alloc::Global;
use std::process::Abort;

const ITEM_KEY: &str = "c603c3f0b8a911099859ba6d58cbd0b1b57dd153c23073eda5ccb9e7adddcf43";

const ACKNOWLEDGEMENT_KEY: &str =
    "16af8bd2fa34fa94bacacb42ec220ea44abc55ce1d0bf942e77738fd76088b12";

// A frame of site 0 that says nothing.
const FRAME: &str = "00000018514402000000000000000001000000000000000000000000";

// A beat, that frame and a beat, each with its tag.
const FIRST: &str = "00000000b71c7c3c20501223c6b938ddcad1eaa4";

const SECOND: &str =
    "0000001851440200000000000000000100000000000000000000000015c69b14e2d429b121d2badeb7b964ca";

const THIRD: &str = "000000006758b399a076d963bcae7367c507267e";

// The frame under counter 0, a beat under counter 1.
const REUSED_COUNTER: &str =
    "000000185144020000000000000000010000000000000000000000001a0263ee2744a5a32e39bd70572ba219";

const NEXT_COUNTER: &str = "00000000d4adbb14aa816c8d866f449205946abb";

// Another maker in the frame, and the frame under the key of acknowledgements, both in the place of the second item.
const ALTERED: &str =
    "0000001851440201000000000000000100000000000000000000000015c69b14e2d429b121d2badeb7b964ca";

const OTHER_KEY: &str =
    "0000001851440200000000000000000100000000000000000000000011f335075bed9652448c2a7ac9f0ca86";

// Acknowledgements of 0 and 84 bytes, of a refused frame and of an acceptor that is behind, each with its tag but for the last byte, and
// one of 0 bytes under the key of items.
const ACKNOWLEDGED_NONE: &str = "0000000000000000c0a771de4bd67bb758578f938819ad";

const ACKNOWLEDGED_84: &str = "0000000000000054dbf670ac51baf75133df4b34adeb31";

const ACKNOWLEDGED_REFUSED: &str = "fffffffffffffffffd365dcab3f129044efa6ccc837715";

const ACKNOWLEDGED_BEHIND: &str = "fffffffffffffffef29aa883cbb2270d9da35cf099abab";

const UNDER_ITEM_KEY: &str = "0000000000000000e77b2f31e6c47bdfd62fcf4dc54aa2d5";

// How many items are received from bytes that come at most `most` at a time, up to the first fault, and that fault, which must come again.
fn received(rt: &impl Abort, alloc: Global, bytes: &[u8], most: usize) -> (usize, ReceiveFault)
    requires { 0 < most }
{
    let mut source = MemorySource::new(bytes, most);
    let mut receiver = ItemReceiver::new(alloc, key(rt, ITEM_KEY));
    let mut count = 0;
    'calls: for _ in 0..400usize {
        match receiver.recv(&mut source) {
            Ok(Some(item)) => {
                drop(item);
                count += 1;
            }
            Ok(None) => {}
            Err(fault) => {
                let again = receiver.recv(&mut source);
                assert!(*rt; again.err() == Some(fault));
                drop(receiver);
                drop(source);
                return (count, fault);
            }
        }
    }
    rt.panic("no fault")
}

// Asserts what is received of these parts, whatever the pieces are.
fn assert_received(
    rt: &impl Abort,
    alloc: Global,
    parts: &[&str],
    count: usize,
    fault: ReceiveFault,
) {
    let bytes = joined(rt, alloc, parts);
    assert!(*rt; received(rt, alloc, &bytes, 1) == (count, fault));
    assert!(*rt; received(rt, alloc, &bytes, 7) == (count, fault));
    assert!(*rt; received(rt, alloc, &bytes, 100) == (count, fault));
    drop(bytes);
}

#[test]
fn items_come_up_to_the_first_fault(rt: HostRuntime) {
    let alloc = rt.alloc();
    let ended = ReceiveFault::Ended;
    assert_received(&rt, alloc, &[], 0, ended);
    assert_received(&rt, alloc, &[FIRST, SECOND, THIRD], 3, ended);
    let cut_off = ReceiveFault::CutOff;
    assert_received(&rt, alloc, &[FIRST, SECOND, "00"], 2, cut_off);
    assert_received(&rt, alloc, &[FIRST, "00000018514402"], 1, cut_off);
    let wrong_tag = ReceiveFault::WrongTag;
    // A frame under the counter of the beat before it, a beat under the next counter, one that comes twice, one that is left out, two
    // in another order.
    assert_received(&rt, alloc, &[FIRST, REUSED_COUNTER], 1, wrong_tag);
    assert_received(&rt, alloc, &[NEXT_COUNTER], 0, wrong_tag);
    assert_received(&rt, alloc, &[FIRST, FIRST], 1, wrong_tag);
    assert_received(&rt, alloc, &[FIRST, THIRD], 1, wrong_tag);
    assert_received(&rt, alloc, &[SECOND, FIRST, THIRD], 0, wrong_tag);
    // A frame with another maker, a tag with another last byte, and a frame under the key of acknowledgements.
    assert_received(&rt, alloc, &[FIRST, ALTERED], 1, wrong_tag);
    assert_received(
        &rt,
        alloc,
        &["00000000b71c7c3c20501223c6b938ddcad1eaa5"],
        0,
        wrong_tag,
    );
    assert_received(&rt, alloc, &[FIRST, OTHER_KEY], 1, wrong_tag);
    let bad_length = ReceiveFault::BadLength;
    assert_received(&rt, alloc, &[FIRST, "00000017"], 1, bad_length);
    assert_received(&rt, alloc, &[FIRST, "00800001", SECOND], 1, bad_length);
}

#[test]
fn items_are_sent(rt: HostRuntime) {
    let alloc = rt.alloc();
    let mut sink = MemorySink::new(alloc, 5);
    let mut sender = ItemSender::new(key(&rt, ITEM_KEY));
    assert!(rt; sender.send_beat(&mut sink) == Ok(()));
    let frame = bytes(&rt, alloc, FRAME);
    assert!(rt; sender.send_frame(&mut sink, &frame) == Ok(()));
    drop(frame);
    assert!(rt; sender.send_frame(&mut sink, b"frame") == Err(SendFault::NotAFrame));
    drop(sender);
    assert_bytes(&rt, alloc, sink.as_slice(), &[FIRST, SECOND]);
    drop(sink);
}

// Sends an acknowledgement to a sink that works.
fn send(
    rt: &impl Abort,
    sender: &mut AcknowledgementSender,
    sink: &mut MemorySink,
    acknowledgement: Acknowledgement,
)
    requires { sink.old.failed ≡ false }
    ensures { sink.new.failed ≡ false }
{
    assert!(*rt; sender.send(sink, acknowledgement) == Ok(()));
}

// These acknowledgements, each with the last byte of its tag.
const ACKNOWLEDGED: &[&str] = &[
    ACKNOWLEDGED_NONE,
    "63",
    ACKNOWLEDGED_84,
    "9c",
    ACKNOWLEDGED_REFUSED,
    "78",
    ACKNOWLEDGED_BEHIND,
    "11",
];

#[test]
fn acknowledgements_are_sent(rt: HostRuntime) {
    let alloc = rt.alloc();
    let mut sink = MemorySink::new(alloc, 100);
    let mut sender = AcknowledgementSender::new(key(&rt, ACKNOWLEDGEMENT_KEY));
    send(&rt, &mut sender, &mut sink, Acknowledgement::Taken(0));
    send(&rt, &mut sender, &mut sink, Acknowledgement::Taken(84));
    send(&rt, &mut sender, &mut sink, Acknowledgement::Refused);
    send(&rt, &mut sender, &mut sink, Acknowledgement::Behind);
    drop(sender);
    assert_bytes(&rt, alloc, sink.as_slice(), ACKNOWLEDGED);
    drop(sink);
}

// Feeds bytes, written in hexadecimal. Asserts the next acknowledgement.
fn assert_fed(
    rt: &impl Abort,
    alloc: Global,
    receiver: &mut AcknowledgementReceiver,
    digits: &str,
    wanted: Result<Option<Acknowledgement>, ReceiveFault>,
) {
    let piece = bytes(rt, alloc, digits);
    receiver.feed(&piece).expect(rt, "memory");
    drop(piece);
    assert!(*rt; receiver.next_acknowledgement() == wanted);
}

#[test]
fn acknowledgements_come_back(rt: HostRuntime) {
    let alloc = rt.alloc();
    let mut receiver = AcknowledgementReceiver::new(alloc, key(&rt, ACKNOWLEDGEMENT_KEY));
    assert_fed(&rt, alloc, &mut receiver, ACKNOWLEDGED_NONE, Ok(None));
    let taken = Ok(Some(Acknowledgement::Taken(0)));
    assert_fed(&rt, alloc, &mut receiver, "63", taken);
    assert_fed(&rt, alloc, &mut receiver, ACKNOWLEDGED_84, Ok(None));
    let taken = Ok(Some(Acknowledgement::Taken(84)));
    assert_fed(&rt, alloc, &mut receiver, "9c", taken);
    assert_fed(&rt, alloc, &mut receiver, ACKNOWLEDGED_REFUSED, Ok(None));
    let refused = Ok(Some(Acknowledgement::Refused));
    assert_fed(&rt, alloc, &mut receiver, "78", refused);
    assert_fed(&rt, alloc, &mut receiver, ACKNOWLEDGED_BEHIND, Ok(None));
    let behind = Ok(Some(Acknowledgement::Behind));
    assert_fed(&rt, alloc, &mut receiver, "11", behind);

    // The first one again, after which it takes no bytes, and one under the key of items.
    assert_fed(&rt, alloc, &mut receiver, ACKNOWLEDGED_NONE, Ok(None));
    let wrong = Err(ReceiveFault::WrongTag);
    assert_fed(&rt, alloc, &mut receiver, "63", wrong);
    assert!(rt; receiver.feed(b"") == Err(ReceiveFault::WrongTag));
    drop(receiver);
    let mut other = AcknowledgementReceiver::new(alloc, key(&rt, ACKNOWLEDGEMENT_KEY));
    assert_fed(&rt, alloc, &mut other, UNDER_ITEM_KEY, wrong);
    drop(other);
}
